//! What the tokens and the productions of a grammar stand for.

ghost use Rattle.std.specs.Prelude.{◌≡◌, ◌<◌, ◌++◌, List, drop, length, IfOk};
ghost use Rattle.witx_lex.specs.{Tokens.{Lexed}, Views.{token_view}};
ghost use Rattle.witx_values.specs.Language.{Language, IsLawful, Holds, parts_of, stack_of};
ghost use Rattle.witx_values.specs.{TextTokens.{AreHeld, HoldsText}, Texts.{token_at}};

use crate::marks::TextTokens;
use witx_base::OutOfMemory;
use witx_grammar::Kind;
use witx_lex::Token;

/// The actions of a grammar: what a token of a text stands for, and what a production makes of its parts.
///
/// Values lie on a stack, of which the last is the top. A token puts what it stands for on it, and a
/// production puts one value in place of its parts, of which the first is the top.
pub trait Actions<'a> {
    /// What the grammar sees of a token.
    type Kind: Kind;
    /// A nonterminal.
    type Nonterminal: Kind;
    /// The name of a production.
    type Production: Kind;
    /// What a token or a nonterminal stands for.
    type Value: Drop;

    // The sorts of values and the values as plain data.
    ghost S: { Type 0 };

    ghost V: { Type 0 };

    // What a value of the code is, as such.
    ghost value_of: { Self.Value → V };

    // The language that the actions are of.
    ghost language: { Language Self.Kind Self.Nonterminal Self.Production Lexed S V };

    /// The kind of a token.
    fn kind(&self, token: &Token<'a>) -> Self::Kind
        ensures { (l : Lexed) → l.token ≡ token_view token.now → result ≡ language.kind l };

    /// The kind of the end, which stands once, behind the last token.
    fn end(&self) -> Self::Kind
        ensures { result ≡ language.end };

    /// Puts what the token with the number stands for on the stack.
    fn leaf(
        &self,
        tokens: &TextTokens<'a, Self::Kind>,
        at: usize,
        stack: &mut Vec<Self::Value>,
    ) -> Result<(), OutOfMemory>
        requires inside { at < length tokens.now.marks.items }
        requires tokens { HoldsText language tokens.now }
        ensures { (ls : List Lexed) → AreHeld language tokens.now ls
            → IfOk result (λ _. stack_of value_of stack.new.items
            ≡ language.leaf (token_at ls at) ++ stack_of value_of stack.old.items) };

    /// Puts the value of a production, whose first token has the number `at`, in place of its parts.
    fn perform(
        &self,
        production: Self::Production,
        tokens: &TextTokens<'a, Self::Kind>,
        at: usize,
        stack: &mut Vec<Self::Value>,
    ) -> Result<(), OutOfMemory>
        requires parts { Holds language (parts_of language production) (stack_of value_of stack.old.items) }
        requires tokens { HoldsText language tokens.now }
        ensures { (ls : List Lexed) → AreHeld language tokens.now ls
            → IfOk result (λ _. stack_of value_of stack.new.items
            ≡ language.act production (drop at ls) (stack_of value_of stack.old.items)) };

    // Tokens and productions make values of the sorts that the grammar says.
    ghost lawful: { IsLawful language };
}
