//! The number that an integer token writes.

ghost use Rattle.std.specs.Prelude.{◌≡◌, ◌+◌, ◌*◌, ◌≤◌, if◌then◌else◌, Some, None, drop};
ghost use Rattle.witx_lex.specs.Meaning.{unsigned as unsigned_of};
ghost use Rattle.witx_language.specs.Integers.{int_value, is_hexadecimal, is_small, small, number as number_of};

/// The number behind one more digit, if it is below 2^64.
fn behind(value: u64, base: u32, digit: u32) -> Option<u64>
    ensures { result ≡ small (value * base + digit) }
{
    value
        .checked_mul(u64::from(base))?
        .checked_add(u64::from(digit))
}

/// The number that the digits of the base among the bytes write, if it is below 2^64.
fn number(bytes: &[u8], base: u32) -> Option<u64>
    requires low { 2 ≤ base }
    requires high { base ≤ 36 }
    ensures { result ≡ small (number_of base bytes.now) }
{
    let mut value = 0;
    'digits: for byte in bytes {
        if let Some(digit) = char::from(*byte).to_digit(base) {
            match behind(value, base, digit) {
                Some(more) => value = more,
                None => return None,
            }
        }
    }
    Some(value)
}

/// The bytes without a `+` in front.
fn unsigned(bytes: &[u8]) -> &[u8]
    ensures { result.now ≡ unsigned_of bytes.now }
{
    match bytes {
        [b'+', rest @ ..] => rest,
        _ => bytes,
    }
}

/// The number that decimal digits, or `0x` and hexadecimal digits, write, if it is below 2^64.
fn unsigned_value(bytes: &[u8]) -> Option<u64>
    ensures { result ≡ (if is_hexadecimal bytes.now
        then small (number_of 16 (drop 2 bytes.now)) else small (number_of 10 bytes.now)) }
{
    match bytes {
        [b'0', b'x', digits @ ..] => number(digits, 16),
        digits => number(digits, 10),
    }
}

/// The number that an integer token writes, if it is below 2^64.
pub fn integer(text: &str) -> Option<u64>
    ensures { result ≡ (if is_small text.now then Some (int_value text.now) else None) }
{
    unsigned_value(unsigned(text.as_bytes()))
}
