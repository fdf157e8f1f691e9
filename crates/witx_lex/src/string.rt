//! Strings.

ghost use Rattle.std.specs.Prelude.{◌≡◌, ℕ, ◌≤◌, List, IfOk, slice_index};
ghost use Rattle.witx_lex.specs.{Pieces.{most_open}, Meaning.{token}, Reads.{ReadsPiece, seen_view}};
ghost use Rattle.witx_lex.specs.{Slices.{SpellsToken}, Tokens.{quoted}};

use crate::characters::is_raw;
use crate::error::{LexError, LexKind};
use crate::escape::{push_escaped, read_escape};
use crate::piece::{Read, Seen, fault};
use std::alloc::Global;
use witx_base::{OutOfMemory, Text};

/// The string that begins the text, decoded.
pub fn read_string<'a>(alloc: Global, text: &'a str) -> Result<Read<'a>, LexError>
    requires { slice_index text.now 0 ≡ 34 }
    ensures { (n : ℕ) → n ≤ most_open → ReadsPiece n text.now result }
{
    let bytes = text.as_bytes();
    let mut out: Vec<u8> = Vec::new(alloc);
    let mut at: usize = 1;
    while at < bytes.len() {
        let byte = bytes[at];
        if byte == b'"' {
            match String::from_utf8(out) {
                Ok(value) => {
                    return Ok(Read {
                        seen: Seen::Quoted(Text::from_string(value)),
                        len: at + 1,
                    });
                }
                Err(_) => return fault(LexKind::NotUtf8, 0),
            }
        } else if is_raw(byte) {
            out.push(byte)?;
            at += 1;
        } else if byte == b'\\' {
            match read_escape(&bytes[at + 1..]) {
                Some(escape) => {
                    push_escaped(&mut out, escape.value)?;
                    at += escape.len + 1;
                }
                None => return fault(LexKind::BadEscape, at),
            }
        } else {
            return fault(LexKind::BadCharacter, at);
        }
    }
    fault(LexKind::UnterminatedString, 0)
}

/// The text that a string's spelling stands for.
pub fn string_spelled(alloc: Global, spelling: &str) -> Result<Text, OutOfMemory>
    requires { (t : List ℕ) × SpellsToken spelling.now (quoted t) }
    ensures { IfOk result (λ made. (t : List ℕ) → SpellsToken spelling.now (quoted t) → made ≡ t) }
{
    match read_string(alloc, spelling) {
        Ok(read) => Ok(string_seen(read.seen)),
        Err(LexError::OutOfMemory) => Err(OutOfMemory),
        Err(LexError::Bad(_)) => unreachable!(),
    }
}

/// The text of a string that was seen.
fn string_seen(seen: Seen) -> Text
    requires { (t : List ℕ) × (seen_view seen ≡ token (quoted t)) }
    ensures { seen_view seen.entry ≡ token (quoted result) }
{
    let Seen::Quoted(text) = seen else {
        unreachable!();
    };
    text
}
