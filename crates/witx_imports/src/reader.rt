//! From a text to its imports.

ghost use Rattle.std.specs.Prelude.{◌≡◌, IfOk, IfErr};
ghost use Rattle.witx_values.specs.TextTokens.{HoldsText};
ghost use Rattle.witx_imports.specs.Actions.{import_language};
ghost use Rattle.witx_imports.specs.Reads.{BadPlace, Lists, TellsBadPlace, line_column_at};

use crate::builder::Building;
use crate::error::ImportsError;
use crate::grammar::the_table;
use crate::import::WasmImports;
use crate::stack::imports_in;
use crate::symbols::{Nonterminal, TokenKind};
use std::alloc::Global;
use std::marker::PhantomData;
use witx_lex::{LexError, line_column};
use witx_values::{Reading, TextTokens, read, text_tokens};

/// The fault at an offset.
fn fault_at(text: &str, offset: usize) -> ImportsError
    ensures { BadPlace result (λ place. place ≡ line_column_at text.now offset) }
{
    let (line, column) = line_column(text, offset);
    ImportsError::Bad { line, column }
}

/// The imports that the tokens of a text spell, or their fault.
fn read_tokens<'a>(
    alloc: Global,
    actions: &Building<'a>,
    text: &'a str,
    tokens: &TextTokens<'a, TokenKind>,
) -> Result<WasmImports, ImportsError>
    requires tokens { HoldsText import_language tokens.now }
    requires text { tokens.now.text.now ≡ text.now }
    ensures imports { IfOk result (λ imports. Lists text.now imports) }
    ensures fault { IfErr result (λ e. TellsBadPlace e text.now) }
{
    let table = the_table();
    match read(alloc, actions, &table, Nonterminal::Text, tokens)? {
        Reading::Value(value) => Ok(imports_in(value)),
        Reading::Fault(fault) => Err(fault_at(text, tokens.start(fault.at))),
    }
}

/// The imports that a list spells, or the place at which the text is no such list.
///
/// The list is any number of `(import "m" "f" (func ..))`. Behind `func` stand an identifier or none,
/// groups of parameters, `(param W..)` or `(param $n W)`, and groups of results, `(result W..)`; W is
/// `i32`, `i64`, `f32` or `f64`, and groups are joined in order. Other forms, among them type uses
/// `(type ..)` and imports of memories, tables and globals, are refused.
///
/// `Bad` is the place of the text's lexical fault, else of the first token that cannot stand behind
/// those before it, or the end of the text where a form is still open.
pub fn read_imports(alloc: Global, text: &str) -> Result<WasmImports, ImportsError>
    ensures imports { IfOk result (λ imports. Lists text.now imports) }
    ensures fault { IfErr result (λ e. TellsBadPlace e text.now) }
{
    let actions = Building {
        alloc,
        texts: PhantomData,
    };
    match text_tokens(alloc, &actions, text) {
        Ok(tokens) => read_tokens(alloc, &actions, text, &tokens),
        Err(LexError::Bad(fault)) => Err(fault_at(text, fault.at)),
        Err(LexError::OutOfMemory) => Err(ImportsError::OutOfMemory),
    }
}
