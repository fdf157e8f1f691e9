//! Escapes in strings.

ghost use Rattle.std.specs.Prelude.{◌≡◌, ◌≤◌, ◌<◌, ◌++◌, ◌∷◌, [], ◌&&◌, IsTrue, MatchOption, OnOk, Some, None, if◌then◌else◌, length, slice_index};
ghost use Rattle.std.specs.{List.{prefix_len}, Option.{SomeIff}, Char.{is_digit}, Str.Parse.{digits_value}};
ghost use Rattle.witx_lex.specs.Characters as spec;
ghost use Rattle.witx_lex.specs.{Faults.{NoPart}, Escapes.{IsEscape, escaped_bytes}};

use crate::characters::{are_digits, byte_of, is_digit};
use std::alloc::AllocError;

/// What an escape stands for.
#[derive(Clone, Copy)]
pub enum Escaped {
    Byte(u8),
    Scalar(char),
}

/// An escape, and how many bytes it takes behind the backslash.
#[derive(Clone, Copy)]
pub struct Escape {
    pub value: Escaped,
    pub len: usize,
}

/// The escape that goes on so behind its backslash, if one does.
pub fn read_escape(bytes: &[u8]) -> Option<Escape>
    ensures { MatchOption result (NoPart (92 ∷ bytes.now)) (IsEscape bytes.now) }
{
    let first = byte_of(bytes, 0);
    let second = byte_of(bytes, 1);
    if let Some(byte) = letter_value(first) {
        Some(Escape {
            value: Escaped::Byte(byte),
            len: 1,
        })
    } else if first == b'u' && second == b'{' {
        read_scalar(bytes)
    } else if let Some(byte) = two_digits(first, second) {
        Some(Escape {
            value: Escaped::Byte(byte),
            len: 2,
        })
    } else {
        None
    }
}

fn letter_value(letter: u8) -> Option<u8>
    ensures { result ≡ spec.letter_value letter }
{
    match letter {
        b't' => Some(b'\t'),
        b'n' => Some(b'\n'),
        b'r' => Some(b'\r'),
        b'"' | b'\'' | b'\\' => Some(letter),
        _ => None,
    }
}

/// The byte that two hexadecimal digits write.
fn two_digits(high: u8, low: u8) -> Option<u8>
    ensures { result ≡ (if is_digit high 16 && is_digit low 16
        then Some (digits_value 16 (high ∷ low ∷ [])) else None) }
{
    let high = char::from(high).to_digit(16)?;
    let low = char::from(low).to_digit(16)?;
    Some((high * 16 + low) as u8)
}

/// The escape of a character by its code, which begins with `u{`.
fn read_scalar(bytes: &[u8]) -> Option<Escape>
    requires u { slice_index bytes.now 0 ≡ 117 }
    requires brace { slice_index bytes.now 1 ≡ 123 }
    ensures { MatchOption result (NoPart (92 ∷ bytes.now)) (IsEscape bytes.now) }
{
    let inside = &bytes[2..];
    let len = digits_len(inside);
    let digits = &inside[..len];
    if byte_of(inside, len) != b'}' || !are_digits(digits, 16) {
        return None;
    }
    match scalar(digits) {
        Some(c) => Some(Escape {
            value: Escaped::Scalar(c),
            len: len + 3,
        }),
        None => None,
    }
}

/// How many digits and underscores stand at the front.
fn digits_len(bytes: &[u8]) -> usize
    ensures len { result ≡ prefix_len spec.is_digit_or_underscore bytes.now }
    ensures within { result ≤ length bytes.now }
{
    bytes
        .iter()
        .take_while(|b| is_digit(**b, 16) || **b == b'_')
        .count()
}

/// The character whose code the hexadecimal digits among the bytes write, if it is one.
fn scalar(digits: &[u8]) -> Option<char>
    ensures { SomeIff result (IsTrue (spec.is_unicode_scalar (spec.scalar_value digits.now)))
        (spec.scalar_value digits.now) }
{
    let mut code = 0u32;
    'digits: for byte in digits {
        if let Some(digit) = char::from(*byte).to_digit(16) {
            code = code * 16 + digit;
            if code > 0x10_FFFF {
                return None;
            }
        }
    }
    char::from_u32(code)
}

/// Appends the bytes that an escape stands for.
pub fn push_escaped(out: &mut Vec<u8>, value: Escaped) -> Result<(), AllocError>
    ensures { OnOk result (out.new.items ≡ out.old.items ++ escaped_bytes value) }
{
    match value {
        Escaped::Byte(byte) => match out.push(byte) {
            Ok(()) => Ok(()),
            Err(_) => Err(AllocError),
        },
        Escaped::Scalar(c) => {
            let mut buffer = [0; 4];
            out.extend_from_slice(c.encode_utf8(&mut buffer).as_bytes())
        }
    }
}
