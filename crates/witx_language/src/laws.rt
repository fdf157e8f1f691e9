//! What holds of the language, as functions that do nothing: each contract is a theorem.

ghost use Rattle.std.specs.{Prelude.{◌≡◌, ◌≢◌, ℕ, List}, List.{AllPairs}};
ghost use Rattle.witx_lex.specs.Tokens.{Lexed};
ghost use Rattle.witx_values.specs.{declared.marks.TextTokens.{TextTokens}, TextTokens.{AreMarked}};
ghost use Rattle.witx_values.specs.Texts.{token_at};
ghost use Rattle.witx_language.specs.{CommentsHeld.{comments_held}, TokenKinds.{all_kinds}};

use witx_grammar::Kind;

/// No two kinds of tokens are one: each word and each annotation of the grammar is told from each
/// other, and from all other tokens.
pub fn token_kinds_are_distinct()
    ensures { AllPairs (λ kind other. kind ≢ other) all_kinds }
{}

/// The comments that are read off the marks of a text's tokens are those of the token with the
/// number, as the definition of the text's tokens has them.
pub fn held_comments_are_those_of_tokens<K: Kind>()
    ensures { (held : TextTokens K) (ls : List Lexed) (at : ℕ) → AreMarked held ls
        → comments_held held at ≡ (token_at ls at).comments }
{}
