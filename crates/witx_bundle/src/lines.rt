//! The lines of a bundle: headers, and the text before the next one.
#![tactic(auto, using(crate::proofs::Headers::header_rules))]

ghost use Rattle.std.specs.Prelude.{◌≡◌, ◌≤◌, [], ◌∷◌, ◌++◌, IfOk, IfSome, MatchOption, option_copied, Some, None, if◌then◌else◌, length, drop, position, take, false, ◌==◌};
ghost use Rattle.std.specs.List.{list_any};
ghost use Rattle.witx_bundle.specs.Bundles.{given, is_header, lines_of, path_after, text_before, without_return};
ghost use Rattle.witx_bundle.specs.Fronts.{EndsFront};

use std::alloc::Global;
use witx_base::{OutOfMemory, WitxPath};

/// The first line of a text and what stands behind its line feed; nothing where the text is one line.
pub fn cut_line(text: &str) -> Option<(&str, &str)>
    ensures lines { MatchOption result (lines_of text.now ≡ text.now ∷ []) (λ x. lines_of text.now
        ≡ x.0.now ∷ lines_of x.1.now) }
    ensures spelled { IfSome result (λ x. text.now ≡ x.0.now ++ 10 ∷ x.1.now) }
{
    let at = line_feed(text)?;
    Some((&text[..at], &text[at + 1..]))
}

/// How many bytes are looked at together.
const BLOCK: usize = 16;

/// The place of the first line feed. Blocks without one are passed whole, their bytes compared side by side where the compiler does so.
fn line_feed(text: &str) -> Option<usize>
    ensures { result ≡ position (λ byte. byte == 10) text.now }
{
    let bytes = text.as_bytes();
    let start = feedless(bytes);
    let at = first_feed(&bytes[start..])?;
    Some(start + at)
}

/// The place of the first line feed, byte by byte.
fn first_feed(bytes: &[u8]) -> Option<usize>
    ensures { result ≡ position (λ byte. byte == 10) bytes.now }
{
    bytes.iter().position(|byte| *byte == b'\n')
}

/// How many bytes in front, in whole blocks, have no line feed among them.
fn feedless(bytes: &[u8]) -> usize
    ensures inside { result ≤ length bytes.now }
    ensures none { list_any (λ byte. byte == 10) (take result bytes.now) ≡ false }
{
    let mut start = 0;
    while bytes.len() - start >= BLOCK && !has_feed(&bytes[start..start + BLOCK]) {
        start += BLOCK;
    }
    start
}

/// Whether a line feed is among the bytes. All are looked at, without a branch, so that they are compared side by side.
fn has_feed(bytes: &[u8]) -> bool
    ensures { result ≡ list_any (λ byte. byte == 10) bytes.now }
{
    let mut found = false;
    for byte in bytes {
        found |= *byte == b'\n';
    }
    found
}

/// Whether a file begins with the line.
pub fn is_header(line: &str) -> bool
    ensures { result ≡ is_header line.now }
{
    line.starts_with(";;;; file ")
}

/// What a header says behind `;;;; file `.
pub fn header_rest(line: &str) -> Option<&str>
    ensures { option_copied result ≡ (if is_header line.now then Some (drop 10 line.now) else None) }
{
    line.strip_prefix(";;;; file ")
}

/// The path of a header that a line feed ends, from what it says; `more` stands behind the line feed.
/// A carriage return before the line feed belongs to the line's end.
#[tactic(auto, using(crate::proofs::LineSteps::path_rules))]
pub fn path_before(alloc: Global, rest: &str, more: &str) -> Result<WitxPath, OutOfMemory>
    ensures { IfOk result (λ p. p ≡ path_after rest.now (lines_of more.now)) }
{
    WitxPath::new(alloc, without_return(rest))
}

fn without_return(line: &str) -> &str
    ensures { result.now ≡ without_return line.now }
{
    match line.strip_suffix('\r') {
        Some(front) => front,
        None => line,
    }
}

/// How many bytes stand before the first header.
#[tactic(auto, using(crate::proofs::Fronts::front_rules))]
fn front_len(text: &str) -> usize
    ensures { EndsFront text.now result }
{
    let mut rest = text;
    while let Some((line, more)) = cut_line(rest) {
        if is_header(line) {
            return text.len() - rest.len();
        }
        rest = more;
    }
    if is_header(rest) {
        text.len() - rest.len()
    } else {
        text.len()
    }
}

/// The text before the first header, and what stands from there on.
pub fn split_front(text: &str) -> (&str, &str)
    ensures front { result.0.now ≡ text_before (lines_of text.now) }
    ensures behind { given (lines_of result.1.now) ≡ given (lines_of text.now) }
    ensures within { length result.1.now ≤ length text.now }
{
    text.split_at(front_len(text))
}
