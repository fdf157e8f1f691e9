//! Flags at the head of a text.
#![tactic(auto, using(crate::proofs::HeadLaws::head_rules))]

ghost use Rattle.std.specs.Prelude.{◌≡◌, option_map, option_and_then};
ghost use Rattle.witx_bytes.specs.Readings.{ReadAs};
ghost use Rattle.witx_invoke.specs.Reading.{past, closed, flag_at, flags_read, item_past, taken};

use crate::heads::{after, item_start};
use std::alloc::Global;
use witx_bytes::{Bools, ReadError};

/// The flag at the head.
fn read_flag(text: &[u8]) -> Option<(bool, &[u8])>
    ensures { option_map (taken (λ b. b)) result ≡ flag_at text.now }
{
    match text {
        [b'0', rest @ ..] => Some((false, rest)),
        [b'1', rest @ ..] => Some((true, rest)),
        _ => None,
    }
}

/// The flag of an item, behind the space before it.
fn read_item(item: usize, text: &[u8]) -> Option<(bool, &[u8])>
    ensures { option_map (taken (λ b. b)) result ≡ option_and_then flag_at (item_past item text.now) }
{
    read_flag(item_start(item, text)?)
}

/// So many flags, one space between.
#[tactic(auto, using(crate::proofs::ReadFlags::flag_rules))]
fn read_each<'a>(
    alloc: Global,
    count: usize,
    text: &'a [u8],
) -> Result<(Bools, &'a [u8]), ReadError>
    ensures { ReadAs (taken (λ bs. bs)) (flags_read 0 count text.now) result }
{
    let mut flags = Bools::new(alloc);
    let mut rest = text;
    for i in 0..count {
        let Some((flag, more)) = read_item(i, rest) else {
            return Err(ReadError::NoValue);
        };
        flags.push(flag)?;
        rest = more;
    }
    Ok((flags, rest))
}

/// So many flags in brackets.
#[tactic(auto, using(crate::proofs::ReadFlags::flag_rules))]
pub(crate) fn read_flags<'a>(
    alloc: Global,
    count: usize,
    text: &'a [u8],
) -> Result<(Bools, &'a [u8]), ReadError>
    ensures { ReadAs (taken (λ bs. bs))
        (option_and_then (closed 93) (option_and_then (flags_read 0 count) (past 91 text.now))) result }
{
    let Some(inside) = after(b'[', text) else {
        return Err(ReadError::NoValue);
    };
    let (flags, rest) = read_each(alloc, count, inside)?;
    let Some(rest) = after(b']', rest) else {
        return Err(ReadError::NoValue);
    };
    Ok((flags, rest))
}
