//! The actions of the grammar.

ghost use Rattle.std.specs.Prelude.{IfOk};
ghost use Rattle.witx_values.specs.Language.{Ready};
ghost use Rattle.witx_imports.specs.{declared.value.Sort.{Sort}, Actions.{import_language}, Lawful.{lawful}};
ghost use Rattle.witx_imports.specs.{Stack.{ImportMade, import_value_view}, Values.{ImportVal}};

use crate::actions;
use crate::leaf::leaf;
use crate::stack::push;
use crate::symbols::{Nonterminal, ProductionName as P, TokenKind};
use crate::value::Value;
use crate::words::kind_of;
use std::alloc::Global;
use std::marker::PhantomData;
use witx_base::OutOfMemory;
use witx_lex::Token;
use witx_machine::WasmType;
use witx_values::{Actions, TextTokens};

/// The actions of the grammar.
#[derive(Clone, Copy)]
pub struct Building<'a> {
    pub alloc: Global,
    pub texts: PhantomData<&'a str>,
}

impl<'a> Actions<'a> for Building<'a> {
    type Kind = TokenKind;

    type Nonterminal = Nonterminal;

    type Production = P;

    type Value = Value;

    ghost S = { Sort };

    ghost V = { ImportVal };

    ghost value_of = { import_value_view };

    ghost language = { import_language };

    fn kind(&self, token: &Token<'a>) -> TokenKind {
        kind_of(token)
    }

    fn end(&self) -> TokenKind {
        TokenKind::End
    }

    fn leaf(
        &self,
        tokens: &TextTokens<'a, TokenKind>,
        at: usize,
        stack: &mut Vec<Value>,
    ) -> Result<(), OutOfMemory> {
        leaf(self.alloc, tokens, at, stack)
    }

    fn perform(
        &self,
        production: P,
        _tokens: &TextTokens<'a, TokenKind>,
        _at: usize,
        stack: &mut Vec<Value>,
    ) -> Result<(), OutOfMemory> {
        perform(self.alloc, production, stack)
    }

    ghost lawful = { lawful };
}

/// Puts the value of a production in place of its parts.
fn perform(alloc: Global, production: P, stack: &mut Vec<Value>) -> Result<(), OutOfMemory>
    requires { Ready import_language import_value_view production stack.old.items }
    ensures { IfOk result (λ _. ImportMade production stack.old.items stack.new.items) }
{
    match production {
        P::NoImports => push(stack, Value::Imports(Vec::new(alloc))),
        P::MoreImports => actions::more_imports(stack),
        P::Import => actions::import(stack),
        P::NamedFunc => Ok(()),
        P::BareFunc => Ok(()),
        P::NoParams => actions::no_words(alloc, stack),
        P::MoreParams => actions::more_params(stack),
        P::FirstResults => actions::more_results(stack),
        P::NamedParam => actions::named_param(alloc, stack),
        P::BareParams => Ok(()),
        P::NoResults => actions::no_words(alloc, stack),
        P::MoreResults => actions::more_results(stack),
        P::NoTypes => push(stack, Value::Types(Vec::new(alloc))),
        P::MoreTypes => actions::more_types(stack),
        P::I32 => push(stack, Value::Type(WasmType::I32)),
        P::I64 => push(stack, Value::Type(WasmType::I64)),
        P::F32 => push(stack, Value::Type(WasmType::F32)),
        P::F64 => push(stack, Value::Type(WasmType::F64)),
    }
}
