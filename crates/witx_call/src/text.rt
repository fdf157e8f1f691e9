//! The text of a value.
#![tactic(auto, using(crate::proofs::Texts::text_rules))]

ghost use Rattle.std.specs.Prelude.{◌≡◌, ◌++◌, IfOk, OnOk, string_bytes, codes, option_map};
ghost use Rattle.std.specs.Fmt.{decimal, signed_decimal};
ghost use Rattle.witx_bytes.specs.Seen.{seen, seen_in, values_seen};
ghost use Rattle.witx_call.specs.ValueTexts.{value_text as text_of, values_text, flags_text, flag_text, space_before};
ghost use Rattle.witx_call.specs.Cases.{case_text};

use std::alloc::Global;
use std::boxed::Box;
use witx_base::{OutOfMemory, Text};
use witx_bytes::Value;

/// The text of a value, whatever value it is.
pub fn value_text(alloc: Global, value: &Value) -> Result<Text, OutOfMemory>
    ensures { IfOk result (λ text. text ≡ text_of (seen value.now)) }
{
    let mut text = String::new(alloc);
    put_value(&mut text, value)?;
    Ok(Text::from_string(text))
}

/// Appends the text of a value.
#[cycle(texts)]
pub(crate) fn put_value(text: &mut String, value: &Value) -> Result<(), OutOfMemory>
    ensures { OnOk result (string_bytes text.new ≡ string_bytes text.old ++ text_of (seen value.now)) }
{
    match value {
        Value::Num(_, number) => put_signed(text, *number),
        Value::Handle(number) => put_number(text, *number),
        Value::Pointer(address) => put_number(text, *address),
        Value::ConstPointer(address) => put_number(text, *address),
        Value::List { address, length } => put_list(text, *address, *length),
        Value::Flags(flags) => put_flags(text, flags.as_slice()),
        Value::Tuple(values) => put_members(text, values.as_slice()),
        Value::Rec(values) => put_members(text, values.as_slice()),
        Value::Enum(case) => put_index(text, *case),
        Value::Case(case, payload) => put_case(text, *case, payload),
    }
}

/// Appends values in parentheses.
#[cycle(texts)]
fn put_members(text: &mut String, values: &[Value]) -> Result<(), OutOfMemory>
    ensures { OnOk result (string_bytes text.new
        ≡ string_bytes text.old ++ (codes "(" ++ values_text 0 (values_seen values.now) ++ codes ")")) }
{
    text.push_str("(")?;
    put_values(text, values)?;
    text.push_str(")")?;
    Ok(())
}

/// Appends values, one space between.
#[cycle(texts)]
#[tactic(auto, using(crate::proofs::Texts::loop_rules))]
fn put_values(text: &mut String, values: &[Value]) -> Result<(), OutOfMemory>
    ensures { OnOk result (string_bytes text.new ≡ string_bytes text.old ++ values_text 0 (values_seen values.now)) }
{
    for i in 0..values.len() {
        put_space_before(text, i)?;
        put_value(text, &values[i])?;
    }
    Ok(())
}

/// Appends a case of a variant that has payloads.
#[cycle(texts)]
fn put_case(text: &mut String, case: u32, payload: &Option<Box<Value>>) -> Result<(), OutOfMemory>
    ensures { OnOk result (string_bytes text.new
        ≡ string_bytes text.old ++ case_text case (option_map seen_in payload.now)) }
{
    match payload {
        Some(value) => put_case_with(text, case, value),
        None => put_index(text, case),
    }
}

// Apart, as what has no parts is below: so what recurses through records takes little of the stack.
/// Appends a case and its payload.
#[inline(never)]
#[cycle(texts)]
fn put_case_with(text: &mut String, case: u32, value: &Value) -> Result<(), OutOfMemory>
    ensures { OnOk result (string_bytes text.new ≡ string_bytes text.old
        ++ (codes "(#" ++ decimal case ++ codes " " ++ text_of (seen value.now) ++ codes ")")) }
{
    write!(text, "(#{case} ")?;
    put_value(text, value)?;
    text.push_str(")")?;
    Ok(())
}

#[inline(never)]
fn put_signed(text: &mut String, number: i128) -> Result<(), OutOfMemory>
    ensures { OnOk result (string_bytes text.new ≡ string_bytes text.old ++ signed_decimal number) }
{
    write!(text, "{number}")?;
    Ok(())
}

#[inline(never)]
fn put_number(text: &mut String, number: u32) -> Result<(), OutOfMemory>
    ensures { OnOk result (string_bytes text.new ≡ string_bytes text.old ++ decimal number) }
{
    write!(text, "{number}")?;
    Ok(())
}

#[inline(never)]
fn put_list(text: &mut String, address: u32, length: u32) -> Result<(), OutOfMemory>
    ensures { OnOk result (string_bytes text.new
        ≡ string_bytes text.old ++ (codes "@" ++ decimal address ++ codes "+" ++ decimal length)) }
{
    write!(text, "@{address}+{length}")?;
    Ok(())
}

#[inline(never)]
fn put_index(text: &mut String, case: u32) -> Result<(), OutOfMemory>
    ensures { OnOk result (string_bytes text.new ≡ string_bytes text.old ++ (codes "#" ++ decimal case)) }
{
    write!(text, "#{case}")?;
    Ok(())
}

/// Appends flags in brackets.
#[inline(never)]
fn put_flags(text: &mut String, flags: &[bool]) -> Result<(), OutOfMemory>
    ensures { OnOk result (string_bytes text.new
        ≡ string_bytes text.old ++ (codes "[" ++ flags_text 0 flags.now ++ codes "]")) }
{
    text.push_str("[")?;
    put_each_flag(text, flags)?;
    text.push_str("]")?;
    Ok(())
}

/// Appends flags, one space between.
#[tactic(auto, using(crate::proofs::Texts::loop_rules))]
fn put_each_flag(text: &mut String, flags: &[bool]) -> Result<(), OutOfMemory>
    ensures { OnOk result (string_bytes text.new ≡ string_bytes text.old ++ flags_text 0 flags.now) }
{
    for i in 0..flags.len() {
        put_space_before(text, i)?;
        text.push_str(flag_text(flags[i]))?;
    }
    Ok(())
}

fn flag_text(flag: bool) -> &'static str
    ensures { result.now ≡ flag_text flag }
{
    if flag { "1" } else { "0" }
}

/// Appends a space, but before the first item nothing.
#[tactic(auto, using(crate::proofs::Texts::loop_rules))]
fn put_space_before(text: &mut String, item: usize) -> Result<(), OutOfMemory>
    ensures { OnOk result (string_bytes text.new ≡ string_bytes text.old ++ space_before item) }
{
    if item == 0 {
        return Ok(());
    }
    text.push_str(" ")?;
    Ok(())
}
