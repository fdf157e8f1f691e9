//! Messages of faults.

ghost use Rattle.std.specs.{Prelude.{◌≡◌, ◌||◌, ◌&&◌}, List.{list_all, list_any}};
ghost use Rattle.witx_language.specs.declared.token_kind.TokenKind.TheVariants.{End, Integer, BigInteger};
ghost use Rattle.witx_language.specs.Messages.{first_kind as first_kind_of, only_kind as only_kind_of, message_of as message_of_kinds, message_of_only, lexical_message as message_of_kind};
ghost use Rattle.witx_language.specs.TokenKinds.{is_kind};

use crate::token_kind::TokenKind;
use crate::words::expected as expected_message;
use witx_lex::LexKind;

/// The first kind that isn't that of the end.
fn first_kind(kinds: &[TokenKind]) -> Option<TokenKind>
    ensures { result ≡ first_kind_of kinds.now }
{
    for kind in kinds {
        if *kind != TokenKind::End {
            return Some(*kind);
        }
    }
    None
}

/// Whether tokens of the kind alone can stand. The end of the text is no token.
fn is_alone(kinds: &[TokenKind], only: TokenKind) -> bool
    ensures { result ≡ list_all (λ u. is_kind u only || is_kind u End) kinds.now }
{
    kinds
        .iter()
        .all(|kind| *kind == only || *kind == TokenKind::End)
}

/// The kind of tokens that can stand, if it is one alone.
fn only_kind(kinds: &[TokenKind]) -> Option<TokenKind>
    ensures { result ≡ only_kind_of kinds.now }
{
    let first = first_kind(kinds)?;
    if is_alone(kinds, first) {
        Some(first)
    } else {
        None
    }
}

/// Whether an integer can stand.
fn is_integer_expected(expected: &[TokenKind]) -> bool
    ensures { result ≡ list_any (λ u. is_kind u Integer) expected.now }
{
    expected.iter().any(|kind| *kind == TokenKind::Integer)
}

/// Whether an integer that is too large stands where one can stand.
fn is_out_of_range(expected: &[TokenKind], here: TokenKind) -> bool
    ensures { result ≡ (is_kind here BigInteger && list_any (λ u. is_kind u Integer) expected.now) }
{
    here == TokenKind::BigInteger && is_integer_expected(expected)
}

/// The message where tokens of these kinds can stand.
fn message_of_expected(expected: &[TokenKind]) -> &'static str
    ensures { result.now ≡ message_of_only (only_kind_of expected.now) }
{
    match only_kind(expected) {
        Some(kind) => expected_message(kind),
        None => "unexpected token",
    }
}

/// The message where tokens of these kinds can stand and one of the kind `here` stands.
pub fn message_of(expected: &[TokenKind], here: TokenKind) -> &'static str
    ensures { result.now ≡ message_of_kinds expected.now here }
{
    if is_out_of_range(expected, here) {
        "integer out of range"
    } else {
        message_of_expected(expected)
    }
}

/// The message of a lexical fault.
pub fn lexical_message(kind: LexKind) -> &'static str
    ensures { result.now ≡ message_of_kind kind }
{
    match kind {
        LexKind::UnexpectedCharacter => "unexpected character",
        LexKind::UnterminatedComment => "unterminated block comment",
        LexKind::UnterminatedString => "unterminated string",
        LexKind::BadEscape => "invalid escape",
        LexKind::BadCharacter => "invalid character in string",
        LexKind::NotUtf8 => "string is not UTF-8",
        LexKind::EmptyId => "empty identifier",
        LexKind::TooDeep => "too many open parentheses",
    }
}
