//! The line of each event of a listing.
#![tactic(auto, using(witx_ast::proofs::Trees::tree_rules))]

ghost use Rattle.std.specs.Prelude.{◌≡◌, ◌++◌, IfSome, map, codes, option_map};
ghost use Rattle.witx_ast.specs.Views.{tree_of, datatype_tree, named_tree};
ghost use Rattle.witx_instructions.specs.Views.{event_of, kept_step};
ghost use Rattle.witx_adapt.specs.Names.{PutsText};
ghost use Rattle.witx_adapt.specs.Lines.{event_line, event_lines, event_text, number_field, payload_field, step_fields, step_name, two_names, type_field, finish_text};

use crate::names::{put_quoted, put_signature};
use crate::numbers::put_decimal;
use std::alloc::{AllocError, Global};
use witx_abi::{Event, Step};
use witx_ast::{Datatype, NamedType, TypeRef};
use witx_base::OutOfMemory;

/// Appends a line for each event.
#[tactic(auto, using(crate::proofs::Appending::appending_rules))]
pub fn put_events(alloc: Global, text: &mut String, events: &[Event]) -> Result<(), OutOfMemory>
    ensures { PutsText result text.old text.new (event_lines (map event_of events.now)) }
{
    for event in events {
        put_event_line(alloc, text, event)?;
    }
    Ok(())
}

fn put_event_line(alloc: Global, text: &mut String, event: &Event) -> Result<(), OutOfMemory>
    ensures { PutsText result text.old text.new (event_line (event_of event.now)) }
{
    text.push_str("  ")?;
    put_event(alloc, text, event)?;
    text.push('\n')?;
    Ok(())
}

/// Appends an event as a listing has it: the name of its instruction and its fields, without the blanks before and the line
/// feed behind it.
pub fn put_event(alloc: Global, text: &mut String, event: &Event) -> Result<(), OutOfMemory>
    ensures { PutsText result text.old text.new (event_text (event_of event.now)) }
{
    match event {
        Event::Emit(step) => put_step(alloc, text, step),
        Event::Space { slot, ty } => put_space(text, *slot, ty),
        Event::Push => Ok(text.push_str("push_block")?),
        Event::Finish { value } => Ok(put_finish(text, *value)?),
    }
}

fn finish_text(value: bool) -> &'static str
    ensures { result.now ≡ finish_text value }
{
    if value {
        "finish_block value"
    } else {
        "finish_block none"
    }
}

fn put_finish(text: &mut String, value: bool) -> Result<(), AllocError>
    ensures { PutsText result text.old text.new (finish_text value) }
{
    text.push_str(finish_text(value))
}

fn put_space(text: &mut String, slot: usize, ty: &NamedType) -> Result<(), OutOfMemory>
    ensures { PutsText result text.old text.new (codes "space" ++ number_field slot ++ type_field (named_tree ty.now)) }
{
    text.push_str("space")?;
    put_number(text, slot)?;
    put_name(text, ty)
}

fn put_step(alloc: Global, text: &mut String, step: &Step) -> Result<(), OutOfMemory>
    ensures { PutsText result text.old text.new (step_name (kept_step step.now) ++ step_fields (kept_step step.now)) }
{
    text.push_str(step_name(step))?;
    put_fields(alloc, text, step)
}

fn put_fields(alloc: Global, text: &mut String, step: &Step) -> Result<(), OutOfMemory>
    ensures { PutsText result text.old text.new (step_fields (kept_step step.now)) }
{
    match step {
        Step::GetArg { nth: n }
        | Step::ReturnPointerGet { n }
        | Step::TupleLift { amt: n }
        | Step::TupleLower { amt: n }
        | Step::Return { amt: n } => put_number(text, *n),
        Step::I32FromHandle { ty }
        | Step::I32FromBitflags { ty }
        | Step::I64FromBitflags { ty }
        | Step::HandleFromI32 { ty }
        | Step::BitflagsFromI32 { ty }
        | Step::BitflagsFromI64 { ty }
        | Step::Load { ty }
        | Step::Store { ty }
        | Step::EnumLift { ty }
        | Step::EnumLower { ty } => put_name(text, ty),
        Step::ListFromPointerLength { ty }
        | Step::PointerFromI32 { ty }
        | Step::ConstPointerFromI32 { ty } => put_type(alloc, text, ty),
        Step::CallWasm(call) => {
            put_names(text, call.module.as_str(), call.name.as_str())?;
            text.push(' ')?;
            Ok(put_signature(text, call.params.as_slice(), call.results.as_slice())?)
        }
        Step::CallInterface(call) => put_names(text, call.module.as_str(), call.name.as_str()),
        Step::ResultLower(payloads) => {
            put_payload(alloc, text, "ok", &payloads.ok)?;
            put_payload(alloc, text, "err", &payloads.err)
        }
        _ => Ok(()),
    }
}

fn put_number(text: &mut String, n: usize) -> Result<(), OutOfMemory>
    ensures { PutsText result text.old text.new (number_field n) }
{
    match short_field(n) {
        Some(field) => Ok(text.push_str(field)?),
        None => {
            text.push(' ')?;
            Ok(put_decimal(text, n)?)
        }
    }
}

/// The field of a number of one digit, as most numbers are, in one piece.
#[tactic(auto, using(crate::proofs::Digits::digit_rules))]
fn short_field(n: usize) -> Option<&'static str>
    ensures { IfSome result (λ field. field.now ≡ number_field n) }
{
    match n {
        0 => Some(" 0"),
        1 => Some(" 1"),
        2 => Some(" 2"),
        3 => Some(" 3"),
        4 => Some(" 4"),
        5 => Some(" 5"),
        6 => Some(" 6"),
        7 => Some(" 7"),
        8 => Some(" 8"),
        9 => Some(" 9"),
        _ => None,
    }
}

/// A word behind a space.
fn put_word(text: &mut String, word: &str) -> Result<(), AllocError>
    ensures { PutsText result text.old text.new (codes " " ++ word.now) }
{
    text.push_str(" ")?;
    text.push_str(word)
}

fn put_name(text: &mut String, ty: &NamedType) -> Result<(), OutOfMemory>
    ensures { PutsText result text.old text.new (type_field (named_tree ty.now)) }
{
    Ok(put_word(text, ty.name.as_str())?)
}

fn put_type(alloc: Global, text: &mut String, ty: &TypeRef) -> Result<(), OutOfMemory>
    ensures { PutsText result text.old text.new (type_field (tree_of ty.now)) }
{
    match ty {
        TypeRef::Name(named) => put_name(text, named),
        TypeRef::Value(datatype) => put_unnamed(alloc, text, ty, datatype),
    }
}

/// A type without a name of its own: a builtin by its word.
fn put_unnamed(
    alloc: Global,
    text: &mut String,
    ty: &TypeRef,
    datatype: &Datatype,
) -> Result<(), OutOfMemory>
    requires { tree_of ty.now ≡ datatype_tree datatype.now }
    ensures { PutsText result text.old text.new (type_field (tree_of ty.now)) }
{
    match datatype {
        Datatype::Builtin(builtin) => Ok(put_word(text, builtin.type_name())?),
        _ => put_shown(alloc, text, ty),
    }
}

/// A type as it is shown, which takes memory for its text.
fn put_shown(alloc: Global, text: &mut String, ty: &TypeRef) -> Result<(), OutOfMemory>
    ensures { PutsText result text.old text.new (type_field (tree_of ty.now)) }
{
    let name = ty.type_name(alloc)?;
    Ok(put_word(text, name.as_str())?)
}

/// Two quoted names, each behind a space.
fn put_names(text: &mut String, module: &str, name: &str) -> Result<(), OutOfMemory>
    ensures { PutsText result text.old text.new (two_names «module».now name.now) }
{
    text.push_str(" ")?;
    put_quoted(text, module)?;
    text.push_str(" ")?;
    Ok(put_quoted(text, name)?)
}

fn put_payload(
    alloc: Global,
    text: &mut String,
    word: &str,
    ty: &Option<TypeRef>,
) -> Result<(), OutOfMemory>
    ensures { PutsText result text.old text.new (payload_field word.now (option_map tree_of ty.now)) }
{
    match ty {
        Some(ty) => {
            put_word(text, word)?;
            put_type(alloc, text, ty)
        }
        None => Ok(()),
    }
}

/// The name of the instruction in snake case.
pub fn step_name(step: &Step) -> &'static str
    ensures { result.now ≡ step_name (kept_step step.now) }
{
    match step {
        Step::GetArg { .. } => "get_arg",
        Step::AddrOf => "addr_of",
        Step::I32FromChar => "i32_from_char",
        Step::I64FromU64 => "i64_from_u64",
        Step::I64FromS64 => "i64_from_s64",
        Step::I32FromU32 => "i32_from_u32",
        Step::I32FromS32 => "i32_from_s32",
        Step::I32FromUsize => "i32_from_usize",
        Step::I32FromU16 => "i32_from_u16",
        Step::I32FromS16 => "i32_from_s16",
        Step::I32FromU8 => "i32_from_u8",
        Step::I32FromS8 => "i32_from_s8",
        Step::I32FromChar8 => "i32_from_char8",
        Step::I32FromPointer => "i32_from_pointer",
        Step::I32FromConstPointer => "i32_from_const_pointer",
        Step::I32FromHandle { .. } => "i32_from_handle",
        Step::I32FromBitflags { .. } => "i32_from_bitflags",
        Step::I64FromBitflags { .. } => "i64_from_bitflags",
        Step::F32FromIf32 => "f32_from_if32",
        Step::F64FromIf64 => "f64_from_if64",
        Step::ListPointerLength => "list_pointer_length",
        Step::ListFromPointerLength { .. } => "list_from_pointer_length",
        Step::CallWasm(_) => "call_wasm",
        Step::CallInterface(_) => "call_interface",
        Step::S8FromI32 => "s8_from_i32",
        Step::U8FromI32 => "u8_from_i32",
        Step::S16FromI32 => "s16_from_i32",
        Step::U16FromI32 => "u16_from_i32",
        Step::S32FromI32 => "s32_from_i32",
        Step::U32FromI32 => "u32_from_i32",
        Step::S64FromI64 => "s64_from_i64",
        Step::U64FromI64 => "u64_from_i64",
        Step::CharFromI32 => "char_from_i32",
        Step::Char8FromI32 => "char8_from_i32",
        Step::UsizeFromI32 => "usize_from_i32",
        Step::If32FromF32 => "if32_from_f32",
        Step::If64FromF64 => "if64_from_f64",
        Step::HandleFromI32 { .. } => "handle_from_i32",
        Step::PointerFromI32 { .. } => "pointer_from_i32",
        Step::ConstPointerFromI32 { .. } => "const_pointer_from_i32",
        Step::BitflagsFromI32 { .. } => "bitflags_from_i32",
        Step::BitflagsFromI64 { .. } => "bitflags_from_i64",
        Step::ReturnPointerGet { .. } => "return_pointer_get",
        Step::Load { .. } => "load",
        Step::Store { .. } => "store",
        Step::TupleLift { .. } => "tuple_lift",
        Step::TupleLower { .. } => "tuple_lower",
        Step::EnumLift { .. } => "enum_lift",
        Step::EnumLower { .. } => "enum_lower",
        Step::VariantPayload => "variant_payload",
        Step::ReuseReturn => "reuse_return",
        Step::ResultLower(_) => "result_lower",
        Step::ResultLift => "result_lift",
        Step::Return { .. } => "return",
    }
}
