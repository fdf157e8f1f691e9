//! Comments.

ghost use Rattle.std.specs.Prelude.{◌≡◌, ◌≤◌, ◌+◌, ◌∷◌, ◌++◌, ℕ, List, Some, drop, length, slice_index, take};
ghost use Rattle.std.specs.List.{prefix_len};
ghost use Rattle.witx_lex.specs.Characters as spec;
ghost use Rattle.witx_lex.specs.{BlockScan.{block_len}, Blocks.{IsBlockText}, Pieces.{most_open}};
ghost use Rattle.witx_lex.specs.Reads.{FoundPiece, ReadsPiece};

use crate::characters::is_line_byte;
use crate::error::{LexError, LexKind};
use crate::piece::{Read, Seen, fault};

/// The comment up to the end of its line that begins the text.
pub fn read_line<'a>(text: &'a str) -> Read<'a>
    requires first { slice_index text.now 0 ≡ 59 }
    requires second { slice_index text.now 1 ≡ 59 }
    ensures { (n : ℕ) → n ≤ most_open → FoundPiece n text.now result }
{
    let inside = &text[2..];
    let len = line_len(inside.as_bytes());
    Read {
        seen: Seen::Comment(&inside[..len]),
        len: len + 2,
    }
}

fn line_len(bytes: &[u8]) -> usize
    ensures len { result ≡ prefix_len spec.is_line_byte bytes.now }
    ensures within { result ≤ length bytes.now }
{
    bytes.iter().take_while(|b| is_line_byte(**b)).count()
}

/// The comment between `(;` and `;)` that begins the text.
pub fn read_block<'a>(text: &'a str) -> Result<Read<'a>, LexError>
    requires first { slice_index text.now 0 ≡ 40 }
    requires second { slice_index text.now 1 ≡ 59 }
    ensures { (n : ℕ) → n ≤ most_open → ReadsPiece n text.now result }
{
    let inside = &text[2..];
    match block_len(inside.as_bytes()) {
        None => fault(LexKind::UnterminatedComment, 0),
        Some(len) => Ok(Read {
            seen: Seen::Comment(&inside[..len]),
            len: len + 4,
        }),
    }
}

/// How many bytes stand before the `;)` that ends a comment, if it ends.
fn block_len(bytes: &[u8]) -> Option<usize>
    ensures { result ≡ block_len 0 bytes.now }
{
    let mut depth: usize = 0;
    let mut at: usize = 0;
    while at + 1 < bytes.len() {
        if bytes[at] == b'(' && bytes[at + 1] == b';' {
            depth += 1;
            at += 2;
        } else if bytes[at] == b';' && bytes[at + 1] == b')' {
            if depth == 0 {
                return Some(at);
            }
            depth -= 1;
            at += 2;
        } else {
            at += 1;
        }
    }
    None
}

/// The scan that counts open comments finds the end of a block comment exactly where one is: what it
/// passes is the inside of a comment with its `;)` behind, and each such inside it passes.
pub fn block_scan_is_exact()
    ensures found { (text : List ℕ) (k : ℕ) → block_len 0 text ≡ Some k
        → IsBlockText (take k text) × (text ≡ take k text ++ spec.semicolon ∷ spec.right_paren ∷ drop (k + 2) text) }
    ensures complete { (inside rest : List ℕ) → IsBlockText inside
        → block_len 0 (inside ++ spec.semicolon ∷ spec.right_paren ∷ rest) ≡ Some (length inside) }
{}
