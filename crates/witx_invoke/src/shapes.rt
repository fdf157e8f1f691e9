//! What values are made of: the words of a list, the members of a tuple, the case of a result.
#![tactic(auto, using(crate::proofs::ShapeLemmas::shape_rules))]

ghost use Rattle.std.specs.Prelude.{◌≡◌, IfOk, Some, cond, length, map, nat_eq, option_map};
ghost use Rattle.witx_machine.specs.{Cells.{cells}, Words.{when}};
ghost use Rattle.witx_bytes.specs.Seen.{seen};
ghost use Rattle.witx_call.specs.WordViews.{word_view};

use crate::word_parts::{i32_number, i32_word};
use std::alloc::Global;
use std::boxed::Box;
use witx_base::{Items, OutOfMemory};
use witx_bytes::Value;
use witx_call::Word;

/// The address and the length of a list.
pub(crate) fn list_words(value: &Value) -> Option<(Word, Word)>
    ensures { option_map (λ p. (word_view p.0, word_view p.1)) result ≡ cells.list_words (seen value.now) }
{
    match value {
        Value::List { address, length } => Some((i32_word(*address), i32_word(*length))),
        Value::Num(_, _) => None,
        Value::Handle(_) => None,
        Value::Pointer(_) => None,
        Value::ConstPointer(_) => None,
        Value::Flags(_) => None,
        Value::Tuple(_) => None,
        Value::Rec(_) => None,
        Value::Enum(_) => None,
        Value::Case(_, None) => None,
        Value::Case(_, Some(_)) => None,
    }
}

/// The list of this address and this length.
pub(crate) fn list_value(address: Word, length: Word) -> Option<Value>
    ensures { option_map seen result ≡ cells.list_value (word_view address) (word_view length) }
{
    match (i32_number(address), i32_number(length)) {
        (Some(address), Some(length)) => Some(Value::List { address, length }),
        _ => None,
    }
}

/// The tuple of these.
pub(crate) fn tuple(values: Vec<Value>) -> Value
    ensures { seen result ≡ cells.tuple (map seen values.items) }
{
    Value::Tuple(Items::from_vec(values))
}

/// The members of a tuple of so many.
pub(crate) fn parts(count: usize, value: Value) -> Option<Vec<Value>>
    ensures { option_map (λ vs. map seen vs.items) result ≡ cells.parts count (seen value) }
{
    match value {
        Value::Tuple(members) => members_of(count, members),
        Value::Num(_, _) => None,
        Value::Handle(_) => None,
        Value::Pointer(_) => None,
        Value::ConstPointer(_) => None,
        Value::List { .. } => None,
        Value::Flags(_) => None,
        Value::Rec(_) => None,
        Value::Enum(_) => None,
        Value::Case(_, None) => None,
        Value::Case(_, Some(_)) => None,
    }
}

fn members_of(count: usize, members: Items<Value>) -> Option<Vec<Value>>
    ensures { option_map (λ vs. map seen vs.items) result ≡ when (nat_eq count (length members)) (Some (map seen members)) }
{
    if members.len() == count {
        Some(members.into_vec())
    } else {
        drop(members);
        None
    }
}

/// The result with this case and payload.
pub(crate) fn result(
    alloc: Global,
    error: bool,
    payload: Option<Value>,
) -> Result<Value, OutOfMemory>
    ensures { IfOk result (λ made. seen made ≡ cells.result error (option_map seen payload)) }
{
    match payload {
        Some(value) => Ok(Value::Case(case_number(error), Some(Box::new(alloc, value)?))),
        None => Ok(Value::Case(case_number(error), None)),
    }
}

fn case_number(error: bool) -> u32
    ensures { result ≡ cond error 1 0 }
{
    if error { 1 } else { 0 }
}
