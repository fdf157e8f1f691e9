//! Runs of name characters: identifiers, annotations, integers and words.

ghost use Rattle.std.specs.Prelude.{◌≡◌, ◌≢◌, ◌+◌, ◌≤◌, ◌<◌, ◌∷◌, [], MatchOption, length, drop};
ghost use Rattle.std.specs.List.{prefix_len};
ghost use Rattle.witx_lex.specs.Characters as spec;
ghost use Rattle.witx_lex.specs.Meaning as meaning;
ghost use Rattle.witx_lex.specs.Views.{token_view};

use crate::characters::{are_digits, byte_at, byte_of, is_name};
use crate::token::Token;

/// Where the run of name characters ends that goes on at the offset.
#[inline]
pub fn name_end(bytes: &[u8], at: usize) -> usize
    requires { at ≤ length bytes.now }
    ensures end { result ≡ at + prefix_len spec.is_name_character (drop at bytes.now) }
    ensures within { result ≤ length bytes.now }
{
    let mut end = at;
    'names: while end < bytes.len() {
        if !is_name(bytes[end]) {
            break;
        }
        end += 1;
    }
    end
}

/// The token that a run of name characters is; none for a lone `$`.
#[inline(always)]
pub fn run_token<'a>(run: &'a str) -> Option<Token<'a>>
    requires { 0 < length run.now }
    ensures { MatchOption result (run.now ≡ spec.dollar ∷ [])
        (λ t. (run.now ≢ spec.dollar ∷ []) × (token_view t ≡ meaning.run_token run.now)) }
{
    let first = byte_at(run, 0);
    if first == b'$' {
        if run.len() == 1 {
            None
        } else {
            Some(Token::Id(&run[1..]))
        }
    } else if first == b'@' && 1 < run.len() {
        Some(Token::Annot(&run[1..]))
    } else if is_int(run.as_bytes()) {
        Some(Token::Int(run))
    } else {
        Some(Token::Word(run))
    }
}

/// Whether the run is an optional `+` and a number.
#[tactic(auto, using(crate::proofs::Digits::not_int))]
#[inline]
fn is_int(run: &[u8]) -> bool
    ensures { result ≡ meaning.is_int run.now }
{
    if b'9' < byte_of(run, 0) {
        return false;
    }
    match run {
        [b'+', number @ ..] => is_number(number),
        number => is_number(number),
    }
}

/// Whether these are decimal digits, or `0x` and hexadecimal digits.
fn is_number(run: &[u8]) -> bool
    ensures { result ≡ meaning.is_number run.now }
{
    match run {
        [b'0', b'x', digits @ ..] => are_digits(digits, 16),
        digits => are_digits(digits, 10),
    }
}
