//! Which reply is excepted, told by the reply alone.
#![tactic(auto, using(crate::proofs::ExceptLemmas::excepting_rules))]

ghost use Rattle.std.specs.Prelude.{◌≡◌, Some, nat_eq, option_map};
ghost use Rattle.witx_machine.specs.Words.{bits_of_flags};
ghost use Rattle.witx_bytes.specs.Seen.{seen, seen_in};
ghost use Rattle.witx_run.specs.Views.{reply_of};
ghost use Rattle.witx_invoke.specs.Excepting.{has_zero_word as is_word_zero, is_excepted as excepted, is_zero_case as zero_case, is_zero_error as zero_error};

use std::boxed::Box;
use witx_ast::Abi;
use witx_bytes::Value;

/// Whether the reply is an error that is passed as the word 0, which under `Preview1` can't be told from ok.
pub(crate) fn is_excepted(abi: Abi, reply: Option<&Value>) -> bool
    ensures { result ≡ excepted abi (reply_of seen reply.entry) }
{
    match (abi, reply) {
        (Abi::Preview1, Some(value)) => is_zero_error(value),
        (Abi::Preview1, None) => false,
        (Abi::Stored, _) => false,
    }
}

/// Whether it is the second case, with a payload whose word is 0.
fn is_zero_error(value: &Value) -> bool
    ensures { result ≡ zero_error (seen value.now) }
{
    match value {
        Value::Case(case, payload) => is_zero_case(*case, payload),
        Value::Num(_, _) => false,
        Value::Handle(_) => false,
        Value::Pointer(_) => false,
        Value::ConstPointer(_) => false,
        Value::List { .. } => false,
        Value::Flags(_) => false,
        Value::Tuple(_) => false,
        Value::Rec(_) => false,
        Value::Enum(_) => false,
    }
}

fn is_zero_case(case: u32, payload: &Option<Box<Value>>) -> bool
    ensures { result ≡ zero_case (option_map seen_in payload.now) case }
{
    match payload {
        Some(value) => is_zero_payload(case, value),
        None => false,
    }
}

fn is_zero_payload(case: u32, payload: &Value) -> bool
    ensures { result ≡ zero_case (Some (seen payload.now)) case }
{
    match case {
        1 => has_zero_word(payload),
        _ => false,
    }
}

/// Whether it has one word, which is 0.
fn has_zero_word(value: &Value) -> bool
    ensures { result ≡ is_word_zero (seen value.now) }
{
    match value {
        Value::Num(_, number) => *number == 0,
        Value::Handle(number) => *number == 0,
        Value::Pointer(address) => *address == 0,
        Value::ConstPointer(address) => *address == 0,
        Value::Flags(flags) => is_none_set(flags.as_slice()),
        Value::Enum(case) => *case == 0,
        Value::List { .. } => false,
        Value::Tuple(_) => false,
        Value::Rec(_) => false,
        Value::Case(_, None) => false,
        Value::Case(_, Some(_)) => false,
    }
}

/// Whether no flag is set.
#[tactic(auto, using(crate::proofs::ExceptLemmas::flag_rules))]
pub(crate) fn is_none_set(flags: &[bool]) -> bool
    ensures { result ≡ nat_eq (bits_of_flags flags.now) 0 }
{
    for flag in flags {
        if *flag {
            return false;
        }
    }
    true
}
