//! The value that the bytes of a scalar spell.
#![tactic(auto, using(crate::proofs::ReadNumbers::scalar_rules))]

ghost use Rattle.std.specs.Prelude.{◌≡◌, ◌+◌, ◌^◌, ◌<◌, ◌≤◌, None, IfSome, length};
ghost use Rattle.witx_ast.specs.Plain.{builtin, handle, pointer_to, const_pointer_to, list_of, plain};
ghost use Rattle.witx_ast.specs.Views.{tree_of};
ghost use Rattle.witx_bytes.specs.{Bytes.{held, HoldsAt}, Reading.{number_at}, Readings.{ReadAs, ReadsValue}};

use crate::memory::ByteMemory;
use crate::numbers::{in_range, number_of};
use crate::read_error::ReadError;
use crate::value::Value;
use witx_ast::{BuiltinType, TypeRef};
use witx_layout::Layout;

/// The number in so many bytes, the lowest first.
pub(crate) fn read_number(memory: &ByteMemory, at: u128, width: u64) -> Option<u64>
    requires few { width ≤ 8 }
    requires low { at + width < 2 ^ 67 }
    ensures number { result ≡ number_at width (held memory.now) at }
    ensures bound { IfSome result (λ n. n < 256 ^ width) }
{
    number_from(memory, at, width, &[])
}

/// The same, where this is left of a block from the address on.
#[tactic(auto, using(crate::proofs::ReadNumbers::number_rules))]
fn number_from(memory: &ByteMemory, at: u128, width: u64, left: &[Option<u8>]) -> Option<u64>
    requires few { width ≤ 8 }
    requires low { at + width < 2 ^ 67 }
    requires left { HoldsAt left.now at (held memory.now) }
    ensures number { result ≡ number_at width (held memory.now) at }
    ensures bound { IfSome result (λ n. n < 256 ^ width) }
{
    if width == 0 {
        return Some(0);
    }
    let [byte, rest @ ..] = run_from(memory, at, left) else {
        return None;
    };
    let low = (*byte)?;
    let high = number_from(memory, at + 1, width - 1, rest)?;
    Some(low as u64 + 256 * high)
}

/// What is left of a block from an address on; where nothing is left, what the address's own block has.
#[tactic(auto, using(crate::proofs::ReadNumbers::byte_rules))]
fn run_from<'a>(memory: &'a ByteMemory, at: u128, left: &'a [Option<u8>]) -> &'a [Option<u8>]
    requires { HoldsAt left.now at (held memory.now) }
    ensures stands { HoldsAt result.now at (held memory.now) }
    ensures none { length result.now ≡ 0 → held memory.now at ≡ None }
{
    if !left.is_empty() {
        return left;
    }
    memory.bounds();
    if at < 1 << 32 {
        memory.run(at as u32)
    } else {
        &[]
    }
}

/// The word in four bytes.
fn read_word(memory: &ByteMemory, at: u128) -> Result<u32, ReadError>
    requires { at + 4 < 2 ^ 67 }
    ensures { ReadAs (λ word. word) (number_at 4 (held memory.now) at) result }
{
    match read_number(memory, at, 4) {
        Some(number) => Ok(number as u32),
        None => Err(ReadError::NoValue),
    }
}

pub(crate) fn read_handle(memory: &ByteMemory, at: u128) -> Result<Value, ReadError>
    requires { at < 2 ^ 66 }
    ensures { ReadsValue handle memory.now at result }
{
    let number = read_word(memory, at)?;
    Ok(Value::Handle(number))
}

/// A builtin's number, in its range.
pub(crate) fn read_builtin(
    memory: &ByteMemory,
    at: u128,
    ty: BuiltinType,
) -> Result<Value, ReadError>
    requires { at < 2 ^ 66 }
    ensures { ReadsValue (builtin ty) memory.now at result }
{
    let Some(bits) = read_number(memory, at, ty.mem_align() as u64) else {
        return Err(ReadError::NoValue);
    };
    let number = number_of(ty, bits);
    if in_range(ty, number) {
        Ok(Value::Num(ty, number))
    } else {
        Err(ReadError::NoValue)
    }
}

pub(crate) fn read_pointer(
    memory: &ByteMemory,
    at: u128,
    target: &TypeRef,
) -> Result<Value, ReadError>
    requires { at < 2 ^ 66 }
    ensures { ReadsValue (pointer_to (plain (tree_of target.now))) memory.now at result }
{
    let address = read_word(memory, at)?;
    Ok(Value::Pointer(address))
}

pub(crate) fn read_const_pointer(
    memory: &ByteMemory,
    at: u128,
    target: &TypeRef,
) -> Result<Value, ReadError>
    requires { at < 2 ^ 66 }
    ensures { ReadsValue (const_pointer_to (plain (tree_of target.now))) memory.now at result }
{
    let address = read_word(memory, at)?;
    Ok(Value::ConstPointer(address))
}

/// A list's address, and its length behind it.
pub(crate) fn read_list(memory: &ByteMemory, at: u128, target: &TypeRef) -> Result<Value, ReadError>
    requires { at < 2 ^ 66 }
    ensures { ReadsValue (list_of (plain (tree_of target.now))) memory.now at result }
{
    let address = read_word(memory, at)?;
    let length = read_word(memory, at + 4)?;
    Ok(Value::List { address, length })
}
