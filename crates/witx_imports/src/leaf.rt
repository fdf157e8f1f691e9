//! What tokens stand for: it is read off their spelling.

ghost use Rattle.std.specs.Prelude.{◌<◌, length, IfOk};
ghost use Rattle.witx_values.specs.{Language.{IsOnTop}, TextTokens.{HoldsText}};
ghost use Rattle.witx_imports.specs.{Actions.{import_language}, Stack.{ImportLaid, import_value_view}};
ghost use Rattle.witx_imports.specs.Values.{a_name};

use crate::stack::push;
use crate::symbols::TokenKind;
use crate::value::Value;
use std::alloc::Global;
use witx_base::{Id, OutOfMemory, Text};
use witx_lex::string_spelled;
use witx_values::TextTokens;

/// Puts a name on the stack.
fn push_name(alloc: Global, name: &Text, stack: &mut Vec<Value>) -> Result<(), OutOfMemory>
    ensures { IfOk result (λ _. IsOnTop import_value_view (a_name name.now) stack.old.items stack.new.items) }
{
    let name = Id::new(alloc, name.as_str())?;
    push(stack, Value::Name(name))
}

/// Puts what the token with the number stands for on the stack: a string for its text, other tokens
/// for nothing.
pub fn leaf<'a>(
    alloc: Global,
    tokens: &TextTokens<'a, TokenKind>,
    at: usize,
    stack: &mut Vec<Value>,
) -> Result<(), OutOfMemory>
    requires inside { at < length tokens.now.marks.items }
    requires tokens { HoldsText import_language tokens.now }
    ensures { ImportLaid result tokens.now at stack.old.items stack.new.items }
{
    match tokens.kind(at) {
        TokenKind::Quoted => {
            let name = string_spelled(alloc, tokens.spelling(at))?;
            push_name(alloc, &name, stack)
        }
        _ => Ok(()),
    }
}
