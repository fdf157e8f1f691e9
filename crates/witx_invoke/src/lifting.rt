//! The value whose word it is, by a conversion. A number of a case that is no number of the program's is
//! refused as want of memory.
#![tactic(auto, using(crate::proofs::ShapeLemmas::shape_rules))]

ghost use Rattle.std.specs.Prelude.{◌≡◌, IfOk, option_map};
ghost use Rattle.witx_ast.specs.{Plain.{plain}, Views.{tree_of, named_tree}};
ghost use Rattle.witx_machine.specs.Cells.{cells};
ghost use Rattle.witx_machine.specs.Words.{checked_value, const_pointer, enum_of, flags_in, flags_of as flags_by, handle_of, number_of as number_by, pointer};
ghost use Rattle.witx_bytes.specs.Seen.{seen};
ghost use Rattle.witx_call.specs.WordViews.{word_view};

use crate::kinds::{cut_to, flags_repr, repr_word_type, tag_repr};
use crate::word_parts::i32_number;
use std::alloc::Global;
use witx_ast::{BuiltinType, NamedType, TypeRef};
use witx_base::OutOfMemory;
use witx_bytes::{ReadError, Value, flags_of, in_range, is_value, number_of};
use witx_call::Word;
use witx_machine::WasmType;
use witx_run::{builtin_word_type, same_type};

/// The number of a builtin whose word it is, cut to the builtin's width.
#[tactic(auto, using(crate::proofs::LiftLemmas::lift_rules))]
pub(crate) fn lift_number(builtin: BuiltinType, word: Word) -> Option<Value>
    ensures { option_map seen result ≡ cells.lift (number_by builtin) (word_view word) }
{
    if !same_type(word.ty, builtin_word_type(builtin)) {
        return None;
    }
    let number = number_of(builtin, word.bits);
    if in_range(builtin, number) {
        Some(Value::Num(builtin, number))
    } else {
        None
    }
}

/// The pointer whose word it is.
pub(crate) fn lift_pointer(word: Word) -> Option<Value>
    ensures { option_map seen result ≡ cells.lift pointer (word_view word) }
{
    match i32_number(word) {
        Some(address) => Some(Value::Pointer(address)),
        None => None,
    }
}

/// The const pointer whose word it is.
pub(crate) fn lift_const_pointer(word: Word) -> Option<Value>
    ensures { option_map seen result ≡ cells.lift const_pointer (word_view word) }
{
    match i32_number(word) {
        Some(address) => Some(Value::ConstPointer(address)),
        None => None,
    }
}

/// The handle whose word it is, under its named type.
#[tactic(auto, using(crate::proofs::LiftLemmas::handle_rules))]
pub(crate) fn lift_handle(named: &NamedType, word: Word) -> Option<Value>
    ensures { option_map seen result ≡ cells.lift (handle_of (named_tree named.now)) (word_view word) }
{
    match i32_number(word) {
        Some(number) => value_if(&named.tref, Value::Handle(number)),
        None => None,
    }
}

/// The value, if it is one of the type.
#[tactic(auto, using(crate::proofs::LiftLemmas::handle_rules))]
fn value_if(ty: &TypeRef, value: Value) -> Option<Value>
    ensures { option_map seen result ≡ checked_value (plain (tree_of ty.now)) (seen value) }
{
    if is_value(ty, &value) {
        Some(value)
    } else {
        drop(value);
        None
    }
}

/// The flags whose word it is, under their named type.
#[tactic(auto, using(crate::proofs::FlagLemmas::flag_rules))]
pub(crate) fn lift_flags(
    alloc: Global,
    ty: WasmType,
    named: &NamedType,
    word: Word,
) -> Result<Option<Value>, OutOfMemory>
    ensures { IfOk result (λ value. option_map seen value
        ≡ cells.lift (flags_by ty (named_tree named.now)) (word_view word)) }
{
    let Some((repr, count)) = flags_repr(&named.tref) else {
        return Ok(None);
    };
    if !same_type(ty, repr_word_type(repr)) {
        return Ok(None);
    }
    if !same_type(word.ty, ty) {
        return Ok(None);
    }
    flags_value(alloc, cut_to(repr, word.bits), count)
}

/// So many flags, where no further bit is set.
fn flags_value(alloc: Global, bits: u64, count: usize) -> Result<Option<Value>, OutOfMemory>
    ensures { IfOk result (λ value. option_map seen value ≡ flags_in count bits) }
{
    match flags_of(alloc, bits, count) {
        Ok(value) => Ok(Some(value)),
        Err(ReadError::NoValue) => Ok(None),
        Err(ReadError::OutOfMemory) => Err(OutOfMemory),
    }
}

/// The case whose word it is, of a variant without payloads under its named type.
#[tactic(auto, using(crate::proofs::FlagLemmas::flag_rules))]
pub(crate) fn lift_enum(named: &NamedType, word: Word) -> Result<Option<Value>, OutOfMemory>
    ensures { IfOk result (λ value. option_map seen value ≡ cells.lift (enum_of (named_tree named.now)) (word_view word)) }
{
    if !same_type(word.ty, WasmType::I32) {
        return Ok(None);
    }
    let Some(repr) = tag_repr(&named.tref) else {
        return Ok(None);
    };
    let case = cut_to(repr, word.bits);
    if case >= 1 << 32 {
        return Err(OutOfMemory);
    }
    Ok(value_if(&named.tref, Value::Enum(case as u32)))
}
