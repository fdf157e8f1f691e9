//! The message and the place of a fault.

ghost use Rattle.std.specs.Prelude.{◌≡◌, List, slice_index_or};
ghost use Rattle.witx_language.specs.Actions.{the_language};
ghost use Rattle.witx_language.specs.declared.token_kind.TokenKind.TheVariants.{End};
ghost use Rattle.witx_language.specs.FaultPlaces.{fault_view, fault_told_at};
ghost use Rattle.witx_language.specs.Messages.{message_of as message_of_kinds};
ghost use Rattle.witx_lex.specs.Tokens.{Lexed};
ghost use Rattle.witx_values.specs.{Language.{kinds_of}, TextTokens.{AreHeld}, Texts.{start_of}};

use crate::error::ParseFault;
use crate::messages::message_of;
use crate::token_kind::TokenKind;
use witx_lex::line_column;
use witx_values::TextTokens;

/// The fault with a message at an offset.
pub fn fault_at(text: &str, message: &'static str, offset: usize) -> ParseFault
    ensures { fault_view result ≡ fault_told_at text.now message.now offset }
{
    let (line, column) = line_column(text, offset);
    ParseFault {
        message,
        line,
        column,
    }
}

/// The kind with the number; behind them all it is that of the end.
fn kind_or_end(kinds: &[TokenKind], at: usize) -> TokenKind
    ensures { result ≡ slice_index_or kinds.now at End }
{
    match kinds.get(at) {
        Some(kind) => *kind,
        None => TokenKind::End,
    }
}

/// The fault of tokens that are no document.
pub fn token_fault(tokens: &TextTokens<TokenKind>, at: usize, expected: &[TokenKind]) -> ParseFault
    ensures { (ls : List Lexed) → AreHeld the_language tokens.now ls → fault_view result
        ≡ fault_told_at tokens.now.text.now
        (message_of_kinds expected.now (slice_index_or (kinds_of the_language ls) at End))
        (start_of tokens.now.text.now ls at) }
{
    let here = kind_or_end(tokens.kinds(), at);
    fault_at(tokens.text, message_of(expected, here), tokens.start(at))
}
