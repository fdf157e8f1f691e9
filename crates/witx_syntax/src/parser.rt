//! From a text to its document.

ghost use Rattle.std.specs.Prelude.{◌≡◌, IfOk, IfErr};
ghost use Rattle.witx_language.specs.Actions.{the_language};
ghost use Rattle.witx_values.specs.TextTokens.{HoldsText};
ghost use Rattle.witx_syntax.specs.Reads.{IfParse, IsParseFault, Reads};
ghost use Rattle.witx_syntax_tree.specs.Views.{document_view};

use crate::builder::{Building, items_in};
use crate::value::Tokens;
use std::alloc::Global;
use std::marker::PhantomData;
use witx_language::{Nonterminal, SyntaxError, fault_at, lexical_message, the_table, token_fault};
use witx_lex::LexError;
use witx_syntax_tree::TopLevelDocument;
use witx_values::{Reading, read, text_tokens};

/// The document of the tokens of a text, or their fault.
fn parse_tokens<'a>(
    alloc: Global,
    actions: &Building<'a>,
    tokens: &Tokens<'a>,
) -> Result<TopLevelDocument<'a>, SyntaxError>
    requires { HoldsText the_language tokens.now }
    ensures document { IfOk result (λ d. Reads tokens.now.text.now (document_view d)) }
    ensures fault { IfErr result (λ e. IfParse e (λ f. IsParseFault tokens.now.text.now f)) }
{
    let table = the_table();
    match read(alloc, actions, &table, Nonterminal::Text, tokens)? {
        Reading::Value(value) => Ok(TopLevelDocument {
            items: items_in(value),
        }),
        Reading::Fault(fault) => {
            let fault = token_fault(tokens, fault.at, fault.expected.as_slice());
            Err(SyntaxError::Parse(fault))
        }
    }
}

/// The document of a text, or the place at which it has none and why.
///
/// A text that has no tokens has its lexical fault. Else the place is that of the first token that
/// cannot stand behind those before it, or the end of the text where a form is still open, and the
/// message says what could stand there. Each identifier is a slice of the text. Time is linear in
/// the text, and neither nesting nor length costs the program's stack.
pub fn parse_document<'a>(alloc: Global, text: &'a str) -> Result<TopLevelDocument<'a>, SyntaxError>
    ensures document { IfOk result (λ d. Reads text.now (document_view d)) }
    ensures fault { IfErr result (λ e. IfParse e (λ f. IsParseFault text.now f)) }
{
    let actions = Building {
        alloc,
        texts: PhantomData,
    };
    match text_tokens(alloc, &actions, text) {
        Ok(tokens) => parse_tokens(alloc, &actions, &tokens),
        Err(LexError::Bad(fault)) => Err(SyntaxError::Parse(fault_at(
            text,
            lexical_message(fault.kind),
            fault.at,
        ))),
        Err(LexError::OutOfMemory) => Err(SyntaxError::OutOfMemory),
    }
}
