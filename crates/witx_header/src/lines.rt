//! The line of C for each call of a body.

ghost use Rattle.std.specs.Prelude.{◌≡◌, ◌∷◌, ◌++◌, [], IfOk, OnOk, codes, option_map, slice_get, string_bytes};
ghost use Rattle.std.specs.{Fmt.{decimal}, List.{flat_map}};
ghost use Rattle.witx_ast.specs.Views.{named_tree, tree_of};
ghost use Rattle.witx_instructions.specs.Views.{event_of, kept_step};
ghost use Rattle.witx_header.specs.CTypes.{type_text};
ghost use Rattle.witx_header.specs.Bodies.{address_line, call_begin, call_end, call_line, c_call_text, cast_line, cast_word, declared, end_line, list_line, load_line, member, own_line, result_line, return_line, c_returned_line, room_line, step_line, tuple_line, variable_text, variables_text, wasm_line};
ghost use Rattle.witx_header.specs.Kept.{call_for, call_of};

use crate::handed::{Handed, Variable};
use crate::names::put_imported_name;
use crate::types::{put_type, put_typename, wasm_word};
use crate::variables::{put_members, put_variable, put_variables};
use std::alloc::{AllocError, Global};
use std::fmt::Write;
use witx_ast::{NamedType, TypeRef};
use witx_instructions::{Event, Step};
use witx_machine::WasmType;

/// Appends the line of a call. A call has one event.
pub fn put_line(text: &mut String, call: &Handed) -> Result<(), AllocError>
    ensures { OnOk result (string_bytes text.new ≡ string_bytes text.old ++ call_line (call_of call.now)) }
{
    let operands = call.operands.as_slice();
    match call.told.events().as_slice() {
        [] => text.push_str("    // block\n"),
        [event, ..] => put_event(text, event, operands, call.results.as_slice()),
    }
}

fn put_event(
    text: &mut String,
    event: &Event,
    operands: &[Variable],
    results: &[Variable],
) -> Result<(), AllocError>
    ensures { OnOk result (string_bytes text.new
        ≡ string_bytes text.old ++ call_line (call_for (event_of event.now ∷ []) operands.now results.now)) }
{
    match event {
        Event::Emit(step) => put_step(text, step, operands, results),
        Event::Space { slot, ty } => put_room(text, *slot, ty),
        Event::Push => text.push_str("    // block\n"),
        Event::Finish { .. } => put_end(text, operands),
    }
}

fn put_room(text: &mut String, slot: usize, ty: &NamedType) -> Result<(), AllocError>
    ensures { OnOk result (string_bytes text.new ≡ string_bytes text.old ++ room_line slot (named_tree ty.now)) }
{
    text.push_str("    ")?;
    put_typename(text, ty)?;
    put_slot(text, slot)?;
    Ok(())
}

fn put_slot(text: &mut String, slot: usize) -> Result<(), AllocError>
    ensures { OnOk result (string_bytes text.new
        ≡ string_bytes text.old ++ (codes " space" ++ decimal slot ++ codes ";\n")) }
{
    write!(text, " space{slot};\n")
}

fn put_end(text: &mut String, operands: &[Variable]) -> Result<(), AllocError>
    ensures { OnOk result (string_bytes text.new ≡ string_bytes text.old ++ end_line (slice_get operands.now 0)) }
{
    match operands {
        [] => text.push_str("    // end\n"),
        [variable, ..] => put_value_end(text, *variable),
    }
}

fn put_value_end(text: &mut String, variable: Variable) -> Result<(), AllocError>
    ensures { OnOk result (string_bytes text.new
        ≡ string_bytes text.old ++ (codes "    // end, gives " ++ variable_text variable ++ codes "\n")) }
{
    text.push_str("    // end, gives ")?;
    put_variable(text, variable)?;
    text.push_str("\n")?;
    Ok(())
}

fn put_step(
    text: &mut String,
    step: &Step,
    operands: &[Variable],
    results: &[Variable],
) -> Result<(), AllocError>
    ensures { OnOk result (string_bytes text.new
        ≡ string_bytes text.old ++ step_line (kept_step step.now) operands.now results.now) }
{
    match cast_word(step) {
        Some(word) => put_cast(text, word, operands, results),
        None => put_own(text, step, operands, results),
    }
}

/// The type of C to which an instruction casts its operand, where that needs no name of a typename.
fn cast_word(step: &Step) -> Option<&'static str>
    ensures { option_map (λ word. word.now) result ≡ cast_word (kept_step step.now) }
{
    match step {
        Step::I32FromChar
        | Step::I32FromU32
        | Step::I32FromS32
        | Step::I32FromUsize
        | Step::I32FromU16
        | Step::I32FromS16
        | Step::I32FromU8
        | Step::I32FromS8
        | Step::I32FromChar8
        | Step::I32FromPointer
        | Step::I32FromConstPointer
        | Step::I32FromHandle { .. }
        | Step::I32FromBitflags { .. }
        | Step::EnumLower { .. }
        | Step::S32FromI32 => Some("int32_t"),
        Step::I64FromU64 | Step::I64FromS64 | Step::I64FromBitflags { .. } | Step::S64FromI64 =>
            Some("int64_t"),
        Step::F32FromIf32 | Step::If32FromF32 => Some("float"),
        Step::F64FromIf64 | Step::If64FromF64 => Some("double"),
        Step::S8FromI32 => Some("int8_t"),
        Step::U8FromI32 => Some("uint8_t"),
        Step::S16FromI32 => Some("int16_t"),
        Step::U16FromI32 => Some("uint16_t"),
        Step::U32FromI32 | Step::CharFromI32 => Some("uint32_t"),
        Step::U64FromI64 => Some("uint64_t"),
        Step::Char8FromI32 => Some("char"),
        Step::UsizeFromI32 => Some("size_t"),
        _ => None,
    }
}

fn put_own(
    text: &mut String,
    step: &Step,
    operands: &[Variable],
    results: &[Variable],
) -> Result<(), AllocError>
    ensures { OnOk result (string_bytes text.new
        ≡ string_bytes text.old ++ own_line (kept_step step.now) operands.now results.now) }
{
    match step {
        Step::GetArg { nth } => put_numbered(text, "__auto_type", results, "value", *nth),
        Step::AddrOf => put_address(text, operands, results),
        Step::ListPointerLength => put_list(text, operands, results),
        Step::ReturnPointerGet { n } => put_numbered(
            text,
            "int32_t",
            results,
            "(int32_t)&space",
            *n,
        ),
        Step::CallWasm(call) => put_call(
            text,
            call.module.as_str(),
            call.name.as_str(),
            call.results.as_slice(),
            operands,
            results,
        ),
        Step::HandleFromI32 { ty }
        | Step::BitflagsFromI32 { ty }
        | Step::BitflagsFromI64 { ty }
        | Step::EnumLift { ty } => put_named_cast(text, ty, operands, results),
        Step::PointerFromI32 { ty } => put_pointer_cast(text, ty, " *", operands, results),
        Step::ConstPointerFromI32 { ty } => {
            put_pointer_cast(text, ty, " const *", operands, results)
        }
        Step::Load { ty } => put_load(text, ty, operands, results),
        Step::TupleLift { .. } => put_tuple(text, operands, results),
        Step::ReuseReturn => put_returned(text, results),
        Step::ResultLift => put_result(text, operands, results),
        Step::Return { .. } => put_return(text, operands),
        _ => Ok(()),
    }
}

/// Appends variables between two texts.
fn put_between(
    text: &mut String,
    before: &str,
    variables: &[Variable],
    after: &str,
) -> Result<(), AllocError>
    ensures { OnOk result (string_bytes text.new
        ≡ string_bytes text.old ++ (before.now ++ variables_text variables.now ++ after.now)) }
{
    text.push_str(before)?;
    put_variables(text, variables)?;
    text.push_str(after)?;
    Ok(())
}

/// Appends what declares an instruction's results, with their type.
fn put_declared(text: &mut String, word: &str, results: &[Variable]) -> Result<(), AllocError>
    ensures { OnOk result (string_bytes text.new ≡ string_bytes text.old ++ declared word.now results.now) }
{
    write!(text, "    {word} ")?;
    put_variables(text, results)?;
    text.push_str(" = ")
}

fn put_cast(
    text: &mut String,
    word: &str,
    operands: &[Variable],
    results: &[Variable],
) -> Result<(), AllocError>
    ensures { OnOk result (string_bytes text.new ≡ string_bytes text.old ++ cast_line word.now operands.now results.now) }
{
    put_declared(text, word, results)?;
    write!(text, "({word})")?;
    put_variables(text, operands)?;
    text.push_str(";\n")
}

fn put_named_cast(
    text: &mut String,
    ty: &NamedType,
    operands: &[Variable],
    results: &[Variable],
) -> Result<(), AllocError>
    ensures { OnOk result (string_bytes text.new
        ≡ string_bytes text.old ++ cast_line (type_text (named_tree ty.now)) operands.now results.now) }
{
    let alloc = *text.allocator();
    let word = named_word(alloc, ty)?;
    put_cast(text, word.as_str(), operands, results)
}

fn put_pointer_cast(
    text: &mut String,
    ty: &TypeRef,
    star: &str,
    operands: &[Variable],
    results: &[Variable],
) -> Result<(), AllocError>
    ensures { OnOk result (string_bytes text.new ≡ string_bytes text.old
        ++ cast_line (type_text (tree_of ty.now) ++ star.now) operands.now results.now) }
{
    let alloc = *text.allocator();
    let word = pointer_word(alloc, ty, star)?;
    put_cast(text, word.as_str(), operands, results)
}

fn put_load(
    text: &mut String,
    ty: &NamedType,
    operands: &[Variable],
    results: &[Variable],
) -> Result<(), AllocError>
    ensures { OnOk result (string_bytes text.new
        ≡ string_bytes text.old ++ load_line (type_text (named_tree ty.now)) operands.now results.now) }
{
    let alloc = *text.allocator();
    let word = named_word(alloc, ty)?;
    put_load_of(text, word.as_str(), operands, results)
}

fn put_load_of(
    text: &mut String,
    word: &str,
    operands: &[Variable],
    results: &[Variable],
) -> Result<(), AllocError>
    ensures { OnOk result (string_bytes text.new ≡ string_bytes text.old ++ load_line word.now operands.now results.now) }
{
    put_declared(text, word, results)?;
    write!(text, "*({word} const *)")?;
    put_variables(text, operands)?;
    text.push_str(";\n")
}

fn named_word(alloc: Global, ty: &NamedType) -> Result<String, AllocError>
    ensures { IfOk result (λ word. string_bytes word ≡ type_text (named_tree ty.now)) }
{
    let mut word = String::new(alloc);
    put_typename(&mut word, ty)?;
    Ok(word)
}

fn pointer_word(alloc: Global, ty: &TypeRef, star: &str) -> Result<String, AllocError>
    ensures { IfOk result (λ word. string_bytes word ≡ type_text (tree_of ty.now) ++ star.now) }
{
    let mut word = String::new(alloc);
    put_type(&mut word, ty)?;
    word.push_str(star)?;
    Ok(word)
}

/// Appends a line whose value ends with a number.
fn put_numbered(
    text: &mut String,
    word: &str,
    results: &[Variable],
    name: &str,
    number: usize,
) -> Result<(), AllocError>
    ensures { OnOk result (string_bytes text.new ≡ string_bytes text.old
        ++ (declared word.now results.now ++ (name.now ++ decimal number ++ codes ";\n"))) }
{
    put_declared(text, word, results)?;
    write!(text, "{name}{number};\n")
}

fn put_address(
    text: &mut String,
    operands: &[Variable],
    results: &[Variable],
) -> Result<(), AllocError>
    ensures { OnOk result (string_bytes text.new ≡ string_bytes text.old ++ address_line operands.now results.now) }
{
    put_declared(text, "int32_t", results)?;
    text.push_str("(int32_t)&")?;
    put_variables(text, operands)?;
    text.push_str(";\n")
}

fn put_returned(text: &mut String, results: &[Variable]) -> Result<(), AllocError>
    ensures { OnOk result (string_bytes text.new ≡ string_bytes text.old ++ c_returned_line results.now) }
{
    put_declared(text, "__auto_type", results)?;
    text.push_str("returned;\n")
}

fn put_result(
    text: &mut String,
    operands: &[Variable],
    results: &[Variable],
) -> Result<(), AllocError>
    ensures { OnOk result (string_bytes text.new ≡ string_bytes text.old ++ result_line operands.now results.now) }
{
    put_declared(text, "__auto_type", results)?;
    put_variables(text, operands)?;
    text.push_str("; // 0: what the first block gives, else the second\n")
}

fn put_list(
    text: &mut String,
    operands: &[Variable],
    results: &[Variable],
) -> Result<(), AllocError>
    ensures { OnOk result (string_bytes text.new ≡ string_bytes text.old ++ list_line operands.now results.now) }
{
    match results {
        [pointer, len] => put_pointer_length(text, operands, *pointer, *len),
        _ => Ok(()),
    }
}

fn put_pointer_length(
    text: &mut String,
    operands: &[Variable],
    pointer: Variable,
    len: Variable,
) -> Result<(), AllocError>
    ensures { OnOk result (string_bytes text.new ≡ string_bytes text.old ++ list_line operands.now (pointer ∷ len ∷ [])) }
{
    put_pointer(text, operands, pointer)?;
    put_length(text, operands, len)?;
    Ok(())
}

fn put_pointer(
    text: &mut String,
    operands: &[Variable],
    pointer: Variable,
) -> Result<(), AllocError>
    ensures { OnOk result (string_bytes text.new ≡ string_bytes text.old
        ++ (codes "    int32_t " ++ variable_text pointer ++ codes " = (int32_t)" ++ variables_text operands.now)) }
{
    text.push_str("    int32_t ")?;
    put_variable(text, pointer)?;
    text.push_str(" = (int32_t)")?;
    put_variables(text, operands)
}

fn put_length(text: &mut String, operands: &[Variable], len: Variable) -> Result<(), AllocError>
    ensures { OnOk result (string_bytes text.new ≡ string_bytes text.old
        ++ (codes ".ptr, " ++ variable_text len ++ codes " = (int32_t)" ++ variables_text operands.now ++ codes ".len;\n")) }
{
    text.push_str(".ptr, ")?;
    put_variable(text, len)?;
    text.push_str(" = (int32_t)")?;
    put_variables(text, operands)?;
    text.push_str(".len;\n")
}

fn put_tuple(
    text: &mut String,
    operands: &[Variable],
    results: &[Variable],
) -> Result<(), AllocError>
    ensures { OnOk result (string_bytes text.new ≡ string_bytes text.old ++ tuple_line operands.now results.now) }
{
    put_tuple_type(text, operands, results)?;
    text.push_str(" = { ")?;
    put_variables(text, operands)?;
    text.push_str(" };\n")
}

fn put_tuple_type(
    text: &mut String,
    operands: &[Variable],
    results: &[Variable],
) -> Result<(), AllocError>
    ensures { OnOk result (string_bytes text.new ≡ string_bytes text.old
        ++ (codes "    struct { " ++ flat_map member operands.now ++ codes "} " ++ variables_text results.now)) }
{
    text.push_str("    struct { ")?;
    put_members(text, operands)?;
    text.push_str("} ")?;
    put_variables(text, results)
}

/// Appends the line of the call; the word that comes back has a name of its own.
fn put_call(
    text: &mut String,
    owner: &str,
    name: &str,
    words: &[WasmType],
    operands: &[Variable],
    results: &[Variable],
) -> Result<(), AllocError>
    ensures { OnOk result (string_bytes text.new
        ≡ string_bytes text.old ++ wasm_line owner.now name.now words.now operands.now results.now) }
{
    put_call_begin(text, words)?;
    put_call_text(text, owner, name, operands)?;
    put_call_end(text, words, results)?;
    Ok(())
}

fn put_call_begin(text: &mut String, words: &[WasmType]) -> Result<(), AllocError>
    ensures { OnOk result (string_bytes text.new ≡ string_bytes text.old ++ call_begin words.now) }
{
    match words {
        [] => text.push_str("    "),
        [word, ..] => put_word_returned(text, wasm_word(*word)),
    }
}

fn put_word_returned(text: &mut String, word: &str) -> Result<(), AllocError>
    ensures { OnOk result (string_bytes text.new
        ≡ string_bytes text.old ++ (codes "    " ++ word.now ++ codes " returned = ")) }
{
    write!(text, "    {word} returned = ")
}

fn put_call_text(
    text: &mut String,
    owner: &str,
    name: &str,
    operands: &[Variable],
) -> Result<(), AllocError>
    ensures { OnOk result (string_bytes text.new ≡ string_bytes text.old ++ c_call_text owner.now name.now operands.now) }
{
    put_imported_name(text, owner, name)?;
    put_between(text, "(", operands, ")")
}

fn put_call_end(
    text: &mut String,
    words: &[WasmType],
    results: &[Variable],
) -> Result<(), AllocError>
    ensures { OnOk result (string_bytes text.new ≡ string_bytes text.old ++ call_end words.now results.now) }
{
    match words {
        [] => text.push_str(";\n"),
        [..] => put_between(text, ", ", results, " = returned;\n"),
    }
}

fn put_return(text: &mut String, operands: &[Variable]) -> Result<(), AllocError>
    ensures { OnOk result (string_bytes text.new ≡ string_bytes text.old ++ return_line operands.now) }
{
    if operands.is_empty() {
        return text.push_str("    return;\n");
    }
    put_between(text, "    return ", operands, ";\n")
}
