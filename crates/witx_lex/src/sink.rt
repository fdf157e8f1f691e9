//! What takes the tokens of a text, so that each reader keeps of a token only what it needs.

ghost use Rattle.std.specs.Prelude.{◌++◌, ◌∷◌, [], ℕ, List, OnOk};
ghost use Rattle.witx_lex.specs.{Sinks.{lexed_token}, Tokens.{Lexed}, Views.{token_view}};

use crate::token::{Span, Token};
use witx_base::OutOfMemory;

/// What takes the tokens of a text, one after the other.
pub trait TokenSink<'a> {
    // These tokens were taken, and behind them these comments.
    ghost Took: { Self → List Lexed → List (List ℕ) → Type 0 };

    /// Takes a comment, which stands before the next token.
    fn take_comment(&mut self, comment: &'a str) -> Result<(), OutOfMemory>
        ensures { (ts : List Lexed) (cs : List (List ℕ)) → Took self.old ts cs
            → OnOk result (Took self.new ts (cs ++ comment.now ∷ [])) };

    /// Takes a token and the comments before it.
    fn take_token(&mut self, token: Token<'a>, span: Span) -> Result<(), OutOfMemory>
        ensures { (ts : List Lexed) (cs : List (List ℕ)) → Took self.old ts cs
            → OnOk result (Took self.new (ts ++ lexed_token (token_view token.entry) span cs ∷ []) []) };
}
