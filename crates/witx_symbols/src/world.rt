//! A world: what is known of the reply.
#![tactic(auto, using(crate::proofs::WordLemmas::word_rules))]

ghost use Rattle.std.specs.Prelude.{◌≡◌, Some, true, cond, IfOk, option_map};
ghost use Rattle.witx_machine.specs.Words.{when};
ghost use Rattle.witx_symbols.specs.Symbols.{same_option};
ghost use Rattle.witx_symbols.specs.Symbolic.{payload_is, picks_in, chooses_in, made_of, result_in};
ghost use Rattle.witx_symbols.specs.SymbolViews.{symbol_of};
ghost use Rattle.witx_symbols.specs.WordViews.{word_seen, shared_of, option_of, world_of, picked_of, payload_pair, is_case_of};
ghost use Rattle.witx_run.specs.Views.{type_tree};

use crate::symbol::{Symbol, same};
use crate::typing::is_of;
use crate::words::Word;
use std::alloc::Global;
use std::rc::Rc;
use witx_ast::{Abi, NamedType, TypeRef};
use witx_base::OutOfMemory;
use witx_machine::WasmType;
use witx_run::{name_of, same_type};

/// What is known of the reply.
#[derive(Drop)]
pub struct World {
    /// The ABI of the function.
    pub abi: Abi,
    /// The reply, where the function has a result.
    pub whole: Option<Rc<Symbol>>,
    /// Whether it is the second case, where it is known to be one of the first two of a result with a
    /// payload.
    pub error: Option<bool>,
    /// What that case carries.
    pub load: Option<Rc<Symbol>>,
}

/// The case of a reply, and what it carries, with the name of its type if that is a name.
pub type Picked = witx_run::Picked<Rc<Symbol>>;

impl World {
    /// Which case a symbol has, for cases that carry these types: only the reply has one, and only where
    /// it is known.
    pub fn picks(
        &self,
        ok: Option<&TypeRef>,
        err: Option<&TypeRef>,
        symbol: &Symbol,
    ) -> Result<Option<Picked>, OutOfMemory>
        ensures { IfOk result (λ picked. option_map picked_of picked ≡
            picks_in self.now.error (world_of self.now) (type_tree ok.entry) (type_tree err.entry) (symbol_of symbol.now)) }
    {
        let Some(error) = self.error else {
            return Ok(None);
        };
        if !is_symbol(&self.whole, symbol) {
            return Ok(None);
        }
        match payload_of(if error { err } else { ok }, &self.load)? {
            Some(payload) => Ok(Some(Picked { error, payload })),
            None => Ok(None),
        }
    }

    /// Whether a word stands for the second case, or for the first; neither where it tells nothing.
    pub fn chooses(&self, word: &Word) -> Option<bool>
        ensures { result ≡ chooses_in self.now.error (world_of self.now) (word_seen word.now) }
    {
        match self.error {
            Some(true) => {
                if self.tells_error(word) {
                    Some(true)
                } else {
                    None
                }
            }
            Some(false) => match word {
                Word::Zero => Some(false),
                _ => None,
            },
            None => None,
        }
    }

    fn tells_error(&self, word: &Word) -> bool
        ensures { when result (Some true) ≡ chooses_in (Some true) (world_of self.now) (word_seen word.now) }
    {
        match word {
            Word::One | Word::Given(_) => true,
            Word::Of { symbol, ty } => match self.abi {
                Abi::Preview1 => same_type(*ty, WasmType::I32) && is_symbol(&self.load, symbol),
                Abi::Stored => false,
            },
            Word::Address(_) | Word::Length(_) | Word::Zero => false,
        }
    }

    /// The result of a case with a payload or none: the reply, where they are the reply's.
    pub fn result(
        &self,
        alloc: Global,
        error: bool,
        payload: Option<Rc<Symbol>>,
    ) -> Result<Rc<Symbol>, OutOfMemory>
        ensures { IfOk result (λ made. shared_of made ≡
            result_in (world_of self.now) error (option_of payload) (option_of self.now.whole) self.now.error) }
    {
        match &self.whole {
            Some(whole) => {
                if self.is_case(error) && same_payload(&self.load, &payload) {
                    Ok(Rc::clone(whole)?)
                } else {
                    made(alloc, error, payload)
                }
            }
            None => made(alloc, error, payload),
        }
    }

    fn is_case(&self, error: bool) -> bool
        ensures { result ≡ is_case_of error self.now.error }
    {
        match self.error {
            Some(known) => error == known,
            None => false,
        }
    }
}

/// Whether it is this symbol.
pub(crate) fn is_symbol(option: &Option<Rc<Symbol>>, symbol: &Symbol) -> bool
    ensures { result ≡ same_option (option_of option.now) (Some (symbol_of symbol.now)) }
{
    match option {
        Some(own) => same(own, symbol),
        None => false,
    }
}

fn same_payload(a: &Option<Rc<Symbol>>, b: &Option<Rc<Symbol>>) -> bool
    ensures { result ≡ same_option (option_of a.now) (option_of b.now) }
{
    match (a, b) {
        (None, None) => true,
        (Some(v), Some(u)) => same(v, u),
        _ => false,
    }
}

fn made(alloc: Global, error: bool, payload: Option<Rc<Symbol>>) -> Result<Rc<Symbol>, OutOfMemory>
    ensures { IfOk result (λ made. shared_of made ≡ made_of (cond error 1 0) (option_of payload)) }
{
    let case = usize::from(error);
    match payload {
        Some(payload) => Ok(Rc::new(alloc, Symbol::Made { case, payload })?),
        None => Ok(Rc::new(alloc, Symbol::BareMade { case })?),
    }
}

// The payload, as the type of its case has it: absent where that case has no type.
fn payload_of(
    ty: Option<&TypeRef>,
    load: &Option<Rc<Symbol>>,
) -> Result<Option<Option<(Rc<Symbol>, Option<Rc<NamedType>>)>>, OutOfMemory>
    ensures { IfOk result (λ payload. option_map payload_pair payload
        ≡ payload_is (type_tree ty.entry) (option_of load.now)) }
{
    match (ty, load) {
        (None, None) => Ok(Some(None)),
        (Some(ty), Some(load)) => {
            if is_of(load, ty) {
                let named = name_of(ty)?;
                Ok(Some(Some((Rc::clone(load)?, named))))
            } else {
                Ok(None)
            }
        }
        _ => Ok(None),
    }
}
