//! Bytes, numbers and names at the front of some bytes.

ghost use Rattle.std.specs.Prelude.{◌≡◌, ◌<◌, ◌≤◌, ◌^◌, ◌-◌, IfOk};
ghost use Rattle.witx_wasm.specs.declared.fault.ReadError.TheVariants as errors;
ghost use Rattle.witx_wasm.specs.Readers.{ReadsBytes, byte_at, expected_at, unsigned_at, u32_at, sized_at, name_at, stop};

use crate::fault::{FaultKind, ReadError, Stop};
use std::alloc::Global;
use std::str;
use witx_base::Id;

/// Reading stops in front of these bytes.
pub fn stopped(kind: FaultKind, bytes: &[u8]) -> ReadError
    ensures { result ≡ errors.Stop (stop kind bytes.now) }
{
    ReadError::Stop(Stop {
        kind,
        left: bytes.len(),
    })
}

/// A byte.
#[tactic(auto, unfolding(crate::specs::Readers::byte_at))]
pub fn byte(bytes: &[u8]) -> Result<(u8, &[u8]), ReadError>
    ensures { ReadsBytes (λ x. (x.0, x.1.now)) result (byte_at bytes.now) }
{
    match bytes {
        [] => Err(stopped(FaultKind::End, bytes)),
        [first, rest @ ..] => Ok((*first, rest)),
    }
}

/// What stands behind a wanted byte.
#[tactic(auto, unfolding(crate::specs::Readers::expected_at))]
pub fn expected(kind: FaultKind, wanted: u8, bytes: &[u8]) -> Result<&[u8], ReadError>
    ensures { ReadsBytes (λ x. x.now) result (expected_at kind wanted bytes.now) }
{
    match bytes {
        [] => Err(stopped(FaultKind::End, bytes)),
        [byte, rest @ ..] if *byte == wanted => Ok(rest),
        [_, ..] => Err(stopped(kind, bytes)),
    }
}

/// The bits that a byte has for a number, where others follow it.
fn group_of(byte: u8) -> u32
    requires { 128 ≤ byte }
    ensures value { result ≡ byte - 128 }
    ensures small { result < 128 }
{
    u32::from(byte) - 128
}

/// A number of at most so many bits.
#[tactic(auto, unfolding(crate::specs::Readers::unsigned_at))]
fn unsigned(bits: u32, bytes: &[u8]) -> Result<(u32, &[u8]), ReadError>
    requires { bits ≤ 32 }
    ensures number { ReadsBytes (λ x. (x.0, x.1.now)) result (unsigned_at bits bytes.now) }
    ensures small { IfOk result (λ x. x.0 < 2 ^ bits) }
{
    match bytes {
        [] => Err(stopped(FaultKind::End, bytes)),
        [last, rest @ ..] if *last < 128 => {
            if u64::from(*last) < 1u64 << bits {
                Ok((u32::from(*last), rest))
            } else {
                Err(stopped(FaultKind::Number, bytes))
            }
        }
        [group, more @ ..] => {
            if bits <= 7 {
                return Err(stopped(FaultKind::Number, bytes));
            }
            let (high, rest) = unsigned(bits - 7, more)?;
            Ok((128 * high + group_of(*group), rest))
        }
    }
}

/// A number below 2^32.
pub fn number(bytes: &[u8]) -> Result<(u32, &[u8]), ReadError>
    ensures { ReadsBytes (λ x. (x.0, x.1.now)) result (u32_at bytes.now) }
{
    unsigned(32, bytes)
}

/// As many bytes as the number in front of them says.
#[tactic(auto, unfolding(crate::specs::Readers::sized_at))]
pub fn sized(bytes: &[u8]) -> Result<(&[u8], &[u8]), ReadError>
    ensures { ReadsBytes (λ x. (x.0.now, x.1.now)) result (sized_at bytes.now) }
{
    let (size, rest) = number(bytes)?;
    let size = size as usize;
    if rest.len() < size {
        return Err(stopped(FaultKind::End, &[]));
    }
    let (text, behind) = rest.split_at(size);
    Ok((text, behind))
}

/// The text of a name.
#[tactic(auto, unfolding(crate::specs::Readers::name_at))]
pub fn text(bytes: &[u8]) -> Result<(&str, &[u8]), ReadError>
    ensures { ReadsBytes (λ x. (x.0.now, x.1.now)) result (name_at bytes.now) }
{
    let (text, rest) = sized(bytes)?;
    match str::from_utf8(text) {
        Ok(text) => Ok((text, rest)),
        Err(error) => Err(ReadError::Stop(Stop {
            kind: FaultKind::NotUtf8,
            left: text.len() - error.valid_up_to() + rest.len(),
        })),
    }
}

/// A name.
pub fn name(alloc: Global, bytes: &[u8]) -> Result<(Id, &[u8]), ReadError>
    ensures { ReadsBytes (λ x. (x.0, x.1.now)) result (name_at bytes.now) }
{
    let (text, rest) = text(bytes)?;
    Ok((Id::new(alloc, text)?, rest))
}
