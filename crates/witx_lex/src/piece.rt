//! The pieces of a text that are read byte by byte: comments and strings.

ghost use Rattle.std.specs.Prelude.{◌<◌, ◌≡◌, ◌≢◌, ◌≤◌, ℕ, false, length, slice_index};
ghost use Rattle.witx_lex.specs.{Characters.{is_blank, is_name_character}, Pieces.{most_open}};
ghost use Rattle.witx_lex.specs.Reads.{ReadsPiece, IsBad};

use crate::characters::byte_at;
use crate::comment::{read_block, read_line};
use crate::error::{LexError, LexFault, LexKind};
use crate::string::read_string;
use std::alloc::Global;
use witx_base::Text;

/// What such a piece is to a reader of tokens: a comment, or a string, decoded.
#[derive(Drop)]
pub enum Seen<'a> {
    Comment(&'a str),
    Quoted(Text),
}

/// A piece, and how many bytes it takes.
#[derive(Drop)]
pub struct Read<'a> {
    pub seen: Seen<'a>,
    pub len: usize,
}

/// A fault so many bytes behind the front of the text.
pub fn fault<'a>(kind: LexKind, at: usize) -> Result<Read<'a>, LexError>
    ensures { IsBad result kind at }
{
    Err(LexError::Bad(LexFault { kind, at }))
}

/// The comment or the string at the front of a text that begins with no blank, no name character and
/// no parenthesis but that of a comment.
pub fn read_piece<'a>(alloc: Global, text: &'a str) -> Result<Read<'a>, LexError>
    requires some { 0 < length text.now }
    requires solid { is_blank (slice_index text.now 0) ≡ false }
    requires unnamed { is_name_character (slice_index text.now 0) ≡ false }
    requires no_opening { slice_index text.now 0 ≡ 40 → slice_index text.now 1 ≡ 59 }
    requires no_closing { slice_index text.now 0 ≢ 41 }
    ensures { (n : ℕ) → n ≤ most_open → ReadsPiece n text.now result }
{
    let first = byte_at(text, 0);
    if first == b'(' {
        read_block(text)
    } else if first == b'"' {
        read_string(alloc, text)
    } else if first == b';' {
        if byte_at(text, 1) == b';' {
            Ok(read_line(text))
        } else {
            fault(LexKind::UnexpectedCharacter, 0)
        }
    } else {
        fault(LexKind::UnexpectedCharacter, 0)
    }
}
