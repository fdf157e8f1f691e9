//! Names in quotes, and signatures, as a listing has them.

ghost use Rattle.std.specs.{Prelude.{◌≡◌, ◌++◌, ◌<◌, ◌/◌, ◌%◌, ◌∷◌, [], codes}, Bool.{OnTrue}};
ghost use Rattle.std.specs.{List.{flat_map}, Str.{chars}};
ghost use Rattle.witx_adapt.specs.Names.{PutsText, digit, escaped, in_quotes, signature, spaced, wasm_word, wasm_words};

use std::alloc::AllocError;
use witx_abi::WasmType;

/// Appends a name in double quotes: its own quotes and backslashes behind a backslash, its control
/// characters as a backslash and two hexadecimal digits.
pub fn put_quoted(text: &mut String, name: &str) -> Result<(), AllocError>
    ensures { PutsText result text.old text.new (in_quotes name.now) }
{
    text.push_str("\"")?;
    put_escaped(text, name)?;
    text.push_str("\"")
}

fn put_escaped(text: &mut String, name: &str) -> Result<(), AllocError>
    ensures { PutsText result text.old text.new (flat_map escaped (chars name.now)) }
{
    if is_plain(name) {
        return text.push_str(name);
    }
    for c in name.chars() {
        put_character(text, c)?;
    }
    Ok(())
}

/// Whether a name is known to stand in quotes as it is, as almost every name does.
fn is_plain(name: &str) -> bool
    ensures { OnTrue result (flat_map escaped (chars name.now) ≡ name.now) }
{
    name.as_bytes().iter().all(|byte| is_plain_byte(*byte))
}

/// Whether a byte is one of the characters that names are made of, which stand in quotes as themselves. The blank and `!`,
/// rare in a name, are left out, so that one range takes the quote away too.
fn is_plain_byte(byte: u8) -> bool
    ensures ascii { OnTrue result (byte < 128) }
    ensures unescaped { OnTrue result (escaped byte ≡ byte ∷ []) }
{
    b'#' <= byte && byte <= b'~' && byte != b'\\'
}

fn put_character(text: &mut String, c: char) -> Result<(), AllocError>
    ensures { PutsText result text.old text.new (escaped c) }
{
    if c == '"' || c == '\\' {
        text.push('\\')?;
        return text.push(c);
    }
    if c < ' ' || c == '\u{7f}' {
        return put_control(text, c as u8);
    }
    text.push(c)
}

fn put_control(text: &mut String, byte: u8) -> Result<(), AllocError>
    ensures { PutsText result text.old text.new (92 ∷ digit (byte / 16) ∷ digit (byte % 16) ∷ []) }
{
    text.push('\\')?;
    text.push(hex_digit(byte / 16))?;
    text.push(hex_digit(byte % 16))
}

fn hex_digit(n: u8) -> char
    requires { n < 16 }
    ensures value { result ≡ digit n }
    ensures ascii { result < 128 }
{
    if n < 10 {
        (b'0' + n) as char
    } else {
        (b'a' + (n - 10)) as char
    }
}

/// Appends a signature: the types of its words in parentheses.
pub fn put_signature(
    text: &mut String,
    params: &[WasmType],
    results: &[WasmType],
) -> Result<(), AllocError>
    ensures { PutsText result text.old text.new (signature params.now results.now) }
{
    put_group(text, params)?;
    text.push_str(" -> ")?;
    put_group(text, results)
}

fn put_group(text: &mut String, types: &[WasmType]) -> Result<(), AllocError>
    ensures { PutsText result text.old text.new (codes "(" ++ wasm_words types.now ++ codes ")") }
{
    text.push_str("(")?;
    put_words(text, types)?;
    text.push_str(")")
}

fn put_words(text: &mut String, types: &[WasmType]) -> Result<(), AllocError>
    ensures { PutsText result text.old text.new (wasm_words types.now) }
{
    if types.is_empty() {
        return Ok(());
    }
    text.push_str(wasm_word(types[0]))?;
    put_more_words(text, &types[1..])
}

/// Appends the types of words, each behind a blank.
#[tactic(auto, using(crate::proofs::Appending::appending_rules))]
pub fn put_more_words(text: &mut String, types: &[WasmType]) -> Result<(), AllocError>
    ensures { PutsText result text.old text.new (flat_map spaced types.now) }
{
    for ty in types {
        put_spaced(text, *ty)?;
    }
    Ok(())
}

/// Appends the word of a type of WebAssembly behind a blank.
fn put_spaced(text: &mut String, ty: WasmType) -> Result<(), AllocError>
    ensures { PutsText result text.old text.new (spaced ty) }
{
    match ty {
        WasmType::I32 => text.push_str(" i32"),
        WasmType::I64 => text.push_str(" i64"),
        WasmType::F32 => text.push_str(" f32"),
        WasmType::F64 => text.push_str(" f64"),
    }
}

/// The word of a type of WebAssembly.
pub fn wasm_word(ty: WasmType) -> &'static str
    ensures { result.now ≡ wasm_word ty }
{
    match ty {
        WasmType::I32 => "i32",
        WasmType::I64 => "i64",
        WasmType::F32 => "f32",
        WasmType::F64 => "f64",
    }
}
