//! The one word of a value, by a conversion. Where that word is no number of the program's, as that of flags
//! of which one from 64 on is set, it is refused as want of memory.
#![tactic(auto, using(crate::proofs::ShapeLemmas::shape_rules))]

ghost use Rattle.std.specs.Prelude.{◌≡◌, ◌≤◌, ◌^◌, IfOk, MatchOption, Some, option_map};
ghost use Rattle.witx_ast.specs.{ValueTests.{in_range as is_in_range}, Views.{named_tree}};
ghost use Rattle.witx_machine.specs.Cells.{cells};
ghost use Rattle.witx_machine.specs.Words.{bits_of_flags, const_pointer, enum_of, flags_of, handle_of, i32 as word_i32, number_of, number_word, pointer, repr_word_type as type_of_word, when};
ghost use Rattle.witx_bytes.specs.Seen.{seen};
ghost use Rattle.witx_invoke.specs.Representing.{flags_in_word};
ghost use Rattle.witx_call.specs.WordViews.{word_view};

use crate::builtins::word_bits;
use crate::excepting::is_none_set;
use crate::kinds::{flags_repr, repr_word_type};
use crate::word_parts::i32_word;
use witx_ast::{BuiltinType, IntRepr, NamedType};
use witx_base::OutOfMemory;
use witx_bytes::{Value, flag_bits, in_range, is_value};
use witx_call::Word;
use witx_machine::WasmType;
use witx_run::{builtin_word_type, same_type};

/// The word of a number of a builtin.
pub(crate) fn lower_number(builtin: BuiltinType, value: &Value) -> Option<Word>
    ensures { option_map word_view result ≡ cells.lower (number_of builtin) (seen value.now) }
{
    match value {
        Value::Num(kind, number) => {
            if *kind == builtin {
                lower_builtin(builtin, *number)
            } else {
                None
            }
        }
        _ => None,
    }
}

fn lower_builtin(builtin: BuiltinType, number: i128) -> Option<Word>
    ensures { option_map word_view result ≡ when (is_in_range builtin number) (Some (number_word builtin number)) }
{
    if in_range(builtin, number) {
        Some(Word {
            ty: builtin_word_type(builtin),
            bits: word_bits(builtin, number),
        })
    } else {
        None
    }
}

/// The word of a pointer.
pub(crate) fn lower_pointer(value: &Value) -> Option<Word>
    ensures { option_map word_view result ≡ cells.lower pointer (seen value.now) }
{
    match value {
        Value::Pointer(address) => Some(i32_word(*address)),
        _ => None,
    }
}

/// The word of a const pointer.
pub(crate) fn lower_const_pointer(value: &Value) -> Option<Word>
    ensures { option_map word_view result ≡ cells.lower const_pointer (seen value.now) }
{
    match value {
        Value::ConstPointer(address) => Some(i32_word(*address)),
        _ => None,
    }
}

/// The word of a handle, under its named type.
#[tactic(auto, using(crate::proofs::LowerLemmas::kind_rules))]
pub(crate) fn lower_handle(named: &NamedType, value: &Value) -> Option<Word>
    ensures { option_map word_view result ≡ cells.lower (handle_of (named_tree named.now)) (seen value.now) }
{
    match value {
        Value::Handle(number) => word_if(is_value(&named.tref, value), *number),
        _ => None,
    }
}

/// The word of a case of a variant without payloads, under its named type.
#[tactic(auto, using(crate::proofs::LowerLemmas::kind_rules))]
pub(crate) fn lower_enum(named: &NamedType, value: &Value) -> Option<Word>
    ensures { option_map word_view result ≡ cells.lower (enum_of (named_tree named.now)) (seen value.now) }
{
    match value {
        Value::Enum(case) => word_if(is_value(&named.tref, value), *case),
        Value::Num(_, _)
        | Value::Handle(_)
        | Value::Pointer(_)
        | Value::ConstPointer(_)
        | Value::List { .. }
        | Value::Flags(_)
        | Value::Tuple(_)
        | Value::Rec(_)
        | Value::Case(_, None)
        | Value::Case(_, Some(_)) => None,
    }
}

/// The word of a number of 32 bits, if it has one.
fn word_if(has_one: bool, number: u32) -> Option<Word>
    ensures { option_map word_view result ≡ when has_one (Some (word_i32 number)) }
{
    if has_one {
        Some(i32_word(number))
    } else {
        None
    }
}

/// The word of flags, under their named type.
#[tactic(auto, using(crate::proofs::FlagLemmas::flag_rules))]
pub(crate) fn lower_flags(
    ty: WasmType,
    named: &NamedType,
    value: &Value,
) -> Result<Option<Word>, OutOfMemory>
    ensures { IfOk result (λ word. option_map word_view word
        ≡ cells.lower (flags_of ty (named_tree named.now)) (seen value.now)) }
{
    let Some((repr, _count)) = flags_repr(&named.tref) else {
        return Ok(None);
    };
    if !same_type(ty, repr_word_type(repr)) {
        return Ok(None);
    }
    if !is_value(&named.tref, value) {
        return Ok(None);
    }
    flags_word(repr, value)
}

/// The word that keeps flags.
fn flags_word(repr: IntRepr, value: &Value) -> Result<Option<Word>, OutOfMemory>
    ensures { IfOk result (λ word. option_map word_view word ≡ flags_in_word repr (seen value.now)) }
{
    match value {
        Value::Flags(flags) => flags_number(repr, flags.as_slice()),
        Value::Num(_, _)
        | Value::Handle(_)
        | Value::Pointer(_)
        | Value::ConstPointer(_)
        | Value::List { .. }
        | Value::Tuple(_)
        | Value::Rec(_)
        | Value::Enum(_)
        | Value::Case(_, _) => Ok(None),
    }
}

fn flags_number(repr: IntRepr, flags: &[bool]) -> Result<Option<Word>, OutOfMemory>
    ensures { IfOk result (λ word. option_map word_view word
        ≡ Some (record { type = type_of_word repr; bits = bits_of_flags flags.now })) }
{
    match bits_of(flags) {
        Some(bits) => Ok(Some(Word {
            ty: repr_word_type(repr),
            bits,
        })),
        None => Err(OutOfMemory),
    }
}

/// The number of any flags; none exactly where one from 64 on is set.
#[tactic(auto, using(crate::proofs::FlagNumbers::number_rules))]
fn bits_of(flags: &[bool]) -> Option<u64>
    ensures { MatchOption result (2 ^ 64 ≤ bits_of_flags flags.now) (λ bits. bits ≡ bits_of_flags flags.now) }
{
    if flags.len() <= 64 {
        return Some(flag_bits(flags));
    }
    let (low, high) = flags.split_at(64);
    if is_none_set(high) {
        Some(flag_bits(low))
    } else {
        None
    }
}
