//! Values once more.
#![tactic(auto, using(witx_call::proofs::CopyLemmas::copy_rules))]

ghost use Rattle.std.specs.Prelude.{◌≡◌, IfOk, map, option_map};
ghost use Rattle.witx_bytes.specs.Seen.{seen, seen_in};

use std::alloc::Global;
use std::boxed::Box;
use witx_base::OutOfMemory;
use witx_bytes::{Bools, Value, Values};

/// The value once more.
#[cycle(copies)]
pub(crate) fn copy_value(alloc: Global, value: &Value) -> Result<Value, OutOfMemory>
    ensures { IfOk result (λ made. seen made ≡ seen value.now) }
{
    match value {
        Value::Num(kind, number) => Ok(Value::Num(*kind, *number)),
        Value::Handle(number) => Ok(Value::Handle(*number)),
        Value::Pointer(address) => Ok(Value::Pointer(*address)),
        Value::ConstPointer(address) => Ok(Value::ConstPointer(*address)),
        Value::List { address, length } => Ok(Value::List {
            address: *address,
            length: *length,
        }),
        Value::Flags(flags) => Ok(Value::Flags(copy_flags(alloc, flags.as_slice())?)),
        Value::Tuple(values) => Ok(Value::Tuple(copy_values(alloc, values.as_slice())?)),
        Value::Rec(values) => Ok(Value::Rec(copy_values(alloc, values.as_slice())?)),
        Value::Enum(case) => Ok(Value::Enum(*case)),
        Value::Case(case, payload) => Ok(Value::Case(*case, copy_payload(alloc, payload)?)),
    }
}

fn copy_flags(alloc: Global, flags: &[bool]) -> Result<Bools, OutOfMemory>
    ensures { IfOk result (λ made. made ≡ flags.now) }
{
    let mut made = Bools::new(alloc);
    for flag in flags {
        made.push(*flag)?;
    }
    Ok(made)
}

#[cycle(copies)]
fn copy_values(alloc: Global, values: &[Value]) -> Result<Values, OutOfMemory>
    ensures { IfOk result (λ made. map seen made ≡ map seen values.now) }
{
    let mut made = Values::new(alloc);
    for value in values {
        made.push(copy_value(alloc, value)?)?;
    }
    Ok(made)
}

#[cycle(copies)]
fn copy_payload(
    alloc: Global,
    payload: &Option<Box<Value>>,
) -> Result<Option<Box<Value>>, OutOfMemory>
    ensures { IfOk result (λ made. option_map seen_in made ≡ option_map seen_in payload.now) }
{
    match payload {
        Some(value) => Ok(Some(Box::new(alloc, copy_value(alloc, value)?)?)),
        None => Ok(None),
    }
}
