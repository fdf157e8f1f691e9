//! Symbols: where they come from, when two are the same, and how a deep one is let go.
#![tactic(auto, using(crate::proofs::SymbolReads::symbol_rules))]

ghost use Rattle.std.specs.Prelude.{◌≡◌, ℕ, IfErr, IfOk, IfSome};
ghost use Rattle.witx_symbols.specs.declared.symbol.Symbol.TheVariants as declared;
ghost use Rattle.witx_symbols.specs.SymbolViews.{source_of, symbol_of, symbols_read};
ghost use Rattle.witx_symbols.specs.Symbols.{same_source, same_symbol, same_members};

use crate::lists::{joined, with_last, without_last};
use crate::wholes::origin_of;
use std::rc::Rc;
use witx_ast::TypeRef;
use witx_base::Items;

/// Where a symbol comes from.
#[cycle(source)]
#[derive(Drop)]
pub enum Source {
    /// An argument, numbered from 0.
    Argument(usize),
    /// What the reply's case carries.
    Payload,
    Reply,
    /// A member of a tuple that comes from there, numbered from 0.
    Part { whole: Rc<Source>, place: usize },
}

/// What stands for a value of which only its type and where it comes from are known.
///
/// However deep it is, it is dropped without recursion; where memory is refused meanwhile, parts are let go one in
/// the other.
#[cycle(symbol)]
pub enum Symbol {
    /// A value of a type; of a tuple type it stands for all its parts.
    Atom { source: Rc<Source>, ty: TypeRef },
    /// A tuple of these; that of all parts of a value of a tuple type is the same as that value.
    Tuple(Symbols),
    /// What a result was lifted to, where that isn't the reply: a case with what it carries.
    Made { case: usize, payload: Rc<Symbol> },
    /// The same, of a case that carries nothing.
    BareMade { case: usize },
}

/// Symbols, in order.
pub type Symbols = Items<Rc<Symbol>>;

// What the last part of a tuple is made of takes its place, so that all parts come to stand in one list; where memory
// is refused they are let go one in the other.
impl Drop for Symbol {
    #[tactic(auto, using(crate::proofs::LettingGo::drop_rules))]
    fn drop(mut self) {
        loop {
            match self {
                Symbol::Atom { source, ty } => {
                    drop(source);
                    drop(ty);
                    return;
                }
                Symbol::BareMade { case: _ } => return,
                Symbol::Made { case: _, payload } => match Rc::into_inner(payload) {
                    Some(inner) => self = inner,
                    None => return,
                },
                Symbol::Tuple(parts) => {
                    let (rest, last) = without_last(parts);
                    match last {
                        None => {
                            drop(rest);
                            return;
                        }
                        Some(last) => match Rc::into_inner(last) {
                            None => self = Symbol::Tuple(rest),
                            Some(inner) => match inner.into_parts() {
                                Ok(more) => {
                                    let (all, left) = joined(rest, more);
                                    drop(left);
                                    self = Symbol::Tuple(all);
                                }
                                Err(None) => self = Symbol::Tuple(rest),
                                Err(Some(payload)) => {
                                    let (all, left) = with_last(rest, payload);
                                    if let Some(payload) = left {
                                        drop(payload);
                                    }
                                    self = Symbol::Tuple(all);
                                }
                            },
                        },
                    }
                }
            }
        }
    }
}

impl Symbol {
    // The parts of a tuple; else what a case carries, where it carries something.
    fn into_parts(self) -> Result<Symbols, Option<Rc<Symbol>>>
        ensures parts { IfOk result (λ parts. self ≡ declared.Tuple parts) }
        ensures payload { IfErr result (λ left. IfSome left (λ payload. (case : ℕ) × (self ≡ declared.Made case payload))) }
    {
        match self {
            Symbol::Tuple(parts) => Ok(parts),
            Symbol::Atom { source, ty } => {
                drop(source);
                drop(ty);
                Err(None)
            }
            Symbol::Made { case: _, payload } => Err(Some(payload)),
            Symbol::BareMade { case: _ } => Err(None),
        }
    }
}

#[cycle(source)]
pub(crate) fn same_source(a: &Source, b: &Source) -> bool
    ensures { result ≡ same_source (source_of a.now) (source_of b.now) }
{
    match a {
        Source::Argument(i) => match b {
            Source::Argument(j) => *i == *j,
            Source::Payload | Source::Reply | Source::Part { whole: _, place: _ } => false,
        },
        Source::Payload => match b {
            Source::Payload => true,
            Source::Argument(_) | Source::Reply | Source::Part { whole: _, place: _ } => false,
        },
        Source::Reply => match b {
            Source::Reply => true,
            Source::Argument(_) | Source::Payload | Source::Part { whole: _, place: _ } => false,
        },
        Source::Part { whole: s, place: i } => match b {
            Source::Part { whole: t, place: j } => same_source(s, t) && *i == *j,
            Source::Argument(_) | Source::Payload | Source::Reply => false,
        },
    }
}

/// Whether two symbols are the same.
#[cycle(symbol)]
#[tactic(auto, using(crate::proofs::SameLemmas::same_rules))]
pub fn same(a: &Symbol, b: &Symbol) -> bool
    ensures { result ≡ same_symbol (symbol_of a.now) (symbol_of b.now) }
{
    match b {
        Symbol::Atom { source, ty } => origin_of(a, ty).is(source),
        Symbol::Tuple(us) => match a {
            Symbol::Atom { source, ty } => origin_of(b, ty).is(source),
            Symbol::Tuple(vs) => all_same(vs.as_slice(), us.as_slice()),
            Symbol::Made {
                case: _,
                payload: _,
            }
            | Symbol::BareMade { case: _ } => false,
        },
        Symbol::Made {
            case: j,
            payload: u,
        } => match a {
            Symbol::Made {
                case: i,
                payload: v,
            } => *i == *j && same(v, u),
            Symbol::Atom { source: _, ty: _ } | Symbol::Tuple(_) | Symbol::BareMade { case: _ } => {
                false
            }
        },
        Symbol::BareMade { case: j } => match a {
            Symbol::BareMade { case: i } => *i == *j,
            Symbol::Atom { source: _, ty: _ }
            | Symbol::Tuple(_)
            | Symbol::Made {
                case: _,
                payload: _,
            } => { false }
        },
    }
}

/// Whether these are the same symbols, one by one.
#[cycle(symbol)]
pub fn all_same(a: &[Rc<Symbol>], b: &[Rc<Symbol>]) -> bool
    ensures { result ≡ same_members (symbols_read a.now) (symbols_read b.now) }
{
    if a.len() != b.len() {
        return false;
    }
    for i in 0..a.len() {
        if !same(&a[i], &b[i]) {
            return false;
        }
    }
    true
}
