//! The classes of characters, as tests of bytes.

ghost use Rattle.std.specs.{Prelude.{◌≡◌, ◌≤◌, slice_index}, Char.{is_digit}};
ghost use Rattle.witx_lex.specs.Characters as spec;

/// The byte at the index, or 0 past the end.
pub fn byte_of(bytes: &[u8], index: usize) -> u8
    ensures { result ≡ slice_index bytes.now index }
{
    if index < bytes.len() { bytes[index] } else { 0 }
}

/// The byte of a text at the index, or 0 past the end.
pub fn byte_at(text: &str, index: usize) -> u8
    ensures { result ≡ slice_index text.now index }
{
    byte_of(text.as_bytes(), index)
}

/// Whether the byte is a blank: a space, a tab, a line feed or a carriage return.
pub fn is_blank(byte: u8) -> bool
    ensures { result ≡ spec.is_blank byte }
{
    byte == b' ' || byte == b'\t' || byte == b'\n' || byte == b'\r'
}

/// The name characters, each at its own place; a comma stands at every other place.
static NAME_CHARACTERS: [u8; 256] = *b"\
    ,,,,,,,,,,,,,,,,,,,,,,,,,,,,,,,,\
    ,!,#$%&',,*+,-./0123456789:,<=>?\
    @ABCDEFGHIJKLMNOPQRSTUVWXYZ,\\,^_\
    `abcdefghijklmnopqrstuvwxyz,|,~,\
    ,,,,,,,,,,,,,,,,,,,,,,,,,,,,,,,,\
    ,,,,,,,,,,,,,,,,,,,,,,,,,,,,,,,,\
    ,,,,,,,,,,,,,,,,,,,,,,,,,,,,,,,,\
    ,,,,,,,,,,,,,,,,,,,,,,,,,,,,,,,,";

/// Whether the byte is a letter, a digit or one of the signs that names may hold.
#[inline]
pub fn is_name(byte: u8) -> bool
    ensures { result ≡ spec.is_name_character byte }
{
    NAME_CHARACTERS[byte as usize] != b','
}

/// Whether the byte may stand in a line comment: it is no line feed.
pub fn is_line_byte(byte: u8) -> bool
    ensures { result ≡ spec.is_line_byte byte }
{
    byte != b'\n'
}

/// Whether the byte stands for itself in a string.
pub fn is_raw(byte: u8) -> bool
    ensures { result ≡ spec.is_raw byte }
{
    !(byte < 32 || byte == 127) && !(byte == b'"' || byte == b'\\')
}

/// Whether the byte is a digit of the base, which is 2 to 36; letters are digits in both cases.
pub fn is_digit(byte: u8, base: u32) -> bool
    requires low { 2 ≤ base }
    requires high { base ≤ 36 }
    ensures { result ≡ is_digit byte base }
{
    char::from(byte).is_digit(base)
}

/// Whether these are digits of the base, at least one, with single `_` between them.
pub fn are_digits(digits: &[u8], base: u32) -> bool
    requires low { 2 ≤ base }
    requires high { base ≤ 36 }
    ensures { result ≡ spec.are_digits base digits.now }
{
    let mut behind_digit = false;
    'digits: for byte in digits {
        if is_digit(*byte, base) {
            behind_digit = true;
        } else if *byte == b'_' && behind_digit {
            behind_digit = false;
        } else {
            return false;
        }
    }
    behind_digit
}
