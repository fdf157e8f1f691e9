//! What tokens stand for: it is read off their spelling.

ghost use Rattle.std.specs.Prelude.{◌≡◌, ℕ, ◌<◌, ◌∷◌, List, length, IfOk};
ghost use Rattle.witx_lex.specs.Characters.{dollar};
ghost use Rattle.witx_values.specs.{Language.{IsOnTop}, TextTokens.{HoldsText}};
ghost use Rattle.witx_language.specs.declared.token_kind.TokenKind.TheVariants as kinds;
ghost use Rattle.witx_language.specs.{Actions.{the_language}, Values.{a_name, a_text, an_integer}};
ghost use Rattle.witx_syntax.specs.Stack.{IsOfKind, Laid, quoted_view, value_view};
ghost use Rattle.witx_syntax_tree.specs.Views.{name_view};

use crate::stack::push;
use crate::value::{Done, Named, Number, Quoted, Stack, Tokens, Value};
use std::alloc::Global;
use witx_language::TokenKind;
use witx_language::constructors::identifier;
use witx_language::integer::integer;
use witx_lex::string_spelled;

/// Puts an identifier on the stack.
fn push_name<'a>(name: Named<'a>, stack: &mut Stack<'a>) -> Done
    ensures { IfOk result (λ _. IsOnTop value_view (a_name (name_view name.entry.id)) stack.old.items stack.new.items) }
{
    push(stack, Value::Name(name))
}

/// Puts a quoted text on the stack.
fn push_quoted<'a>(quoted: Quoted, stack: &mut Stack<'a>) -> Done
    ensures { IfOk result (λ _. IsOnTop value_view (a_text (quoted_view quoted)) stack.old.items stack.new.items) }
{
    push(stack, Value::Quoted(quoted))
}

/// Puts an integer on the stack.
fn push_integer<'a>(number: Number, stack: &mut Stack<'a>) -> Done
    ensures { IfOk result (λ _. IsOnTop value_view (an_integer number.value) stack.old.items stack.new.items) }
{
    push(stack, Value::Integer(number))
}

/// The name that is spelled behind a `$`.
fn name_behind<'a>(spelling: &'a str) -> &'a str
    requires { (name : List ℕ) × (spelling.now ≡ dollar ∷ name) }
    ensures { spelling.now ≡ dollar ∷ result.now }
{
    &spelling[1..]
}

/// Puts an identifier that stands in the text on the stack, with its place.
fn name_leaf<'a>(tokens: &Tokens<'a>, at: usize, stack: &mut Stack<'a>) -> Done
    requires inside { at < length tokens.now.marks.items }
    requires tokens { HoldsText the_language tokens.now }
    requires kind { IsOfKind kinds.Id tokens.now at }
    ensures { Laid result tokens.now at stack.old.items stack.new.items }
{
    let name = name_behind(tokens.spelling(at));
    let id = identifier(name, tokens.span(at));
    push_name(Named { id }, stack)
}

/// Puts the text of a string on the stack, with its place.
fn text_leaf<'a>(alloc: Global, tokens: &Tokens<'a>, at: usize, stack: &mut Stack<'a>) -> Done
    requires inside { at < length tokens.now.marks.items }
    requires tokens { HoldsText the_language tokens.now }
    requires kind { IsOfKind kinds.Quoted tokens.now at }
    ensures { Laid result tokens.now at stack.old.items stack.new.items }
{
    let text = string_spelled(alloc, tokens.spelling(at))?;
    let span = tokens.span(at);
    push_quoted(Quoted { text, span }, stack)
}

/// Puts the number of an integer on the stack.
fn integer_leaf<'a>(tokens: &Tokens<'a>, at: usize, stack: &mut Stack<'a>) -> Done
    requires inside { at < length tokens.now.marks.items }
    requires tokens { HoldsText the_language tokens.now }
    requires kind { IsOfKind kinds.Integer tokens.now at }
    ensures { Laid result tokens.now at stack.old.items stack.new.items }
{
    match integer(tokens.spelling(at)) {
        Some(value) => push_integer(Number { value }, stack),
        None => Ok(()),
    }
}

/// Puts what the token with the number stands for on the stack: an identifier for itself, a string
/// for its text, each with its place, an integer for its number, other tokens for nothing.
pub fn leaf<'a>(alloc: Global, tokens: &Tokens<'a>, at: usize, stack: &mut Stack<'a>) -> Done
    requires inside { at < length tokens.now.marks.items }
    requires tokens { HoldsText the_language tokens.now }
    ensures { Laid result tokens.now at stack.old.items stack.new.items }
{
    match tokens.kind(at) {
        TokenKind::Id => name_leaf(tokens, at, stack),
        TokenKind::Quoted => text_leaf(alloc, tokens, at, stack),
        TokenKind::Integer => integer_leaf(tokens, at, stack),
        _ => Ok(()),
    }
}
