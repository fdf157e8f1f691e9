//! Names and texts as C has them.
#![tactic(auto, using(crate::proofs::Appending::appending_rules))]

ghost use Rattle.std.specs.{Prelude.{◌≡◌, ◌+◌, ◌++◌, ◌<◌, OnOk, string_bytes}, List.{flat_map}};
ghost use Rattle.witx_header.specs.CNames.{begins_with_digit, c_name, c_upper, imported_name, literal, literal_byte, member_name, octal, stands_alone, word_byte};
ghost use Rattle.witx_header.specs.CTypes.{typedef_name};

use std::alloc::AllocError;

/// Appends a name as C has it: each byte that is no letter, digit or underscore is an underscore.
pub fn put_name(text: &mut String, name: &str) -> Result<(), AllocError>
    ensures { OnOk result (string_bytes text.new ≡ string_bytes text.old ++ c_name name.now) }
{
    let bytes = name.as_bytes();
    for byte in bytes {
        text.push(word_character(*byte))?;
    }
    Ok(())
}

fn word_character(byte: u8) -> char
    ensures value { result ≡ word_byte byte }
    ensures ascii { result < 128 }
{
    if byte.is_ascii_alphanumeric() || byte == b'_' {
        byte as char
    } else {
        '_'
    }
}

/// Appends a name as C has it, in upper case.
pub fn put_upper(text: &mut String, name: &str) -> Result<(), AllocError>
    ensures { OnOk result (string_bytes text.new ≡ string_bytes text.old ++ c_upper name.now) }
{
    let bytes = name.as_bytes();
    for byte in bytes {
        text.push(word_character(*byte).to_ascii_uppercase())?;
    }
    Ok(())
}

/// Appends the name of a member, which doesn't begin with a digit.
pub fn put_member_name(text: &mut String, name: &str) -> Result<(), AllocError>
    ensures { OnOk result (string_bytes text.new ≡ string_bytes text.old ++ member_name name.now) }
{
    text.push_str(if begins_with_digit(name) { "_" } else { "" })?;
    put_name(text, name)
}

fn begins_with_digit(name: &str) -> bool
    ensures { result ≡ begins_with_digit name.now }
{
    match name.as_bytes().first() {
        Some(byte) => byte.is_ascii_digit(),
        None => false,
    }
}

/// Appends the name of a typename's typedef.
pub fn put_typedef_name(text: &mut String, name: &str) -> Result<(), AllocError>
    ensures { OnOk result (string_bytes text.new ≡ string_bytes text.old ++ typedef_name name.now) }
{
    text.push_str("__wasi_")?;
    put_name(text, name)?;
    text.push_str("_t")
}

/// Appends the name of a function of a module, as it is imported.
pub fn put_imported_name(text: &mut String, owner: &str, name: &str) -> Result<(), AllocError>
    ensures { OnOk result (string_bytes text.new ≡ string_bytes text.old ++ imported_name owner.now name.now) }
{
    text.push_str("__imported_")?;
    put_name(text, owner)?;
    text.push_str("_")?;
    put_name(text, name)
}

/// Appends a text as a literal of C.
pub fn put_literal(text: &mut String, content: &str) -> Result<(), AllocError>
    ensures { OnOk result (string_bytes text.new ≡ string_bytes text.old ++ literal content.now) }
{
    text.push('"')?;
    put_literal_bytes(text, content.as_bytes())?;
    text.push('"')
}

fn put_literal_bytes(text: &mut String, bytes: &[u8]) -> Result<(), AllocError>
    ensures { OnOk result (string_bytes text.new ≡ string_bytes text.old ++ flat_map literal_byte bytes.now) }
{
    for byte in bytes {
        put_literal_byte(text, *byte)?;
    }
    Ok(())
}

fn put_literal_byte(text: &mut String, byte: u8) -> Result<(), AllocError>
    ensures { OnOk result (string_bytes text.new ≡ string_bytes text.old ++ literal_byte byte) }
{
    if stands_alone(byte) {
        return text.push(byte as char);
    }
    put_octal(text, byte)
}

fn stands_alone(byte: u8) -> bool
    ensures { result ≡ stands_alone byte }
{
    (b' ' <= byte && byte <= b'~') && !(byte == b'"' || byte == b'\\' || byte == b'?')
}

fn put_octal(text: &mut String, byte: u8) -> Result<(), AllocError>
    ensures { OnOk result (string_bytes text.new ≡ string_bytes text.old ++ octal byte) }
{
    text.push('\\')?;
    text.push(octal_digit(byte / 64))?;
    text.push(octal_digit(byte / 8 % 8))?;
    text.push(octal_digit(byte % 8))
}

fn octal_digit(n: u8) -> char
    requires { n < 8 }
    ensures value { result ≡ 48 + n }
    ensures ascii { result < 128 }
{
    (b'0' + n) as char
}
