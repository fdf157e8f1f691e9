//! A quoted name at the head of a text.
//!
//! It is read loosely, and then its own text is compared with what stands there.
#![tactic(auto, using(crate::proofs::Spelling::byte_rules))]

ghost use Rattle.std.specs.Prelude.{◌≡◌, IfOk, option_map};
ghost use Rattle.witx_traces.specs.LineReading.{QuotedAt, FrontOf, LeavesLess, SpellsQuoted, escaped_byte, hex_byte, hex_value, is_mark, name_behind, spelled_byte, taken_line};

use crate::heads::behind;
use std::alloc::Global;
use std::str;
use witx_adapt::put_quoted;
use witx_base::{Id, OutOfMemory};

/// The number of a hexadecimal digit in lower case.
fn hex_value(digit: u8) -> u8
    ensures { result ≡ hex_value digit }
{
    if digit < b':' {
        return digit.saturating_sub(b'0');
    }
    digit.saturating_sub(b'W')
}

/// The byte of two digits.
fn hex_byte(high: u8, low: u8) -> u8
    ensures { result ≡ hex_byte high low }
{
    hex_value(high)
        .saturating_mul(16)
        .saturating_add(hex_value(low))
}

/// Whether a backslash stands before the byte alone.
fn is_mark(byte: u8) -> bool
    ensures { result ≡ is_mark byte }
{
    byte == b'"' || byte == b'\\'
}

/// The byte that is spelled behind a backslash, and what follows.
fn escaped_byte(text: &[u8]) -> Option<(u8, &[u8])>
    ensures byte { option_map taken_line result ≡ escaped_byte text.now }
    ensures shorter { LeavesLess text.now result }
{
    let [mark, rest @ ..] = text else {
        return None;
    };
    if is_mark(*mark) {
        return Some((*mark, rest));
    }
    let [low, more @ ..] = rest else {
        return None;
    };
    Some((hex_byte(*mark, *low), more))
}

/// The byte that is spelled at the head, and what follows; none at a quote and at the end.
fn spelled_byte(text: &[u8]) -> Option<(u8, &[u8])>
    ensures byte { option_map taken_line result ≡ spelled_byte text.now }
    ensures shorter { LeavesLess text.now result }
{
    let [byte, rest @ ..] = text else {
        return None;
    };
    if *byte == b'"' {
        return None;
    }
    if *byte == b'\\' {
        return escaped_byte(rest);
    }
    Some((*byte, rest))
}

/// The bytes that are spelled up to a quote or the end.
#[tactic(auto, using(crate::proofs::Spelling::loop_rules))]
fn spelled_bytes(alloc: Global, text: &[u8]) -> Result<Vec<u8>, OutOfMemory>
    ensures { IfOk result (λ bytes. SpellsQuoted text.now bytes.items) }
{
    let mut bytes = Vec::new(alloc);
    let mut rest = text;
    while let Some((byte, more)) = spelled_byte(rest) {
        bytes.push(byte)?;
        rest = more;
    }
    Ok(bytes)
}

/// The quoted name at the head, and what follows it.
#[tactic(auto, using(crate::proofs::Spelling::quoted_rules))]
pub(crate) fn read_quoted<'a>(
    alloc: Global,
    text: &'a str,
) -> Result<Option<(Id, &'a str)>, OutOfMemory>
    ensures { IfOk result (λ o. QuotedAt text.now (option_map name_behind o)) }
{
    let Some(inside) = behind(text, "\"") else {
        return Ok(None);
    };
    let bytes = spelled_bytes(alloc, inside.as_bytes())?;
    match str::from_utf8(bytes.as_slice()) {
        Ok(name) => Ok(quoted_front(alloc, name, text)?),
        Err(_) => Ok(None),
    }
}

/// The name, and what follows it, if the text begins with it in quotes.
#[tactic(auto, using(crate::proofs::Spelling::front_rules))]
fn quoted_front<'a>(
    alloc: Global,
    name: &str,
    text: &'a str,
) -> Result<Option<(Id, &'a str)>, OutOfMemory>
    ensures { IfOk result (λ o. FrontOf name.now text.now (option_map name_behind o)) }
{
    let mut quoted = String::new(alloc);
    put_quoted(&mut quoted, name)?;
    match behind(text, quoted.as_str()) {
        Some(rest) => Ok(Some((Id::new(alloc, name)?, rest))),
        None => Ok(None),
    }
}
