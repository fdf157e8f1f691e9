//! The derivation of a list of tokens, or its fault.

ghost use Rattle.std.specs.Prelude.{IfOk};
ghost use Rattle.witx_grammar.specs.{Grammar.{grammar}, Prediction.{IsPredictive}, Faults.{IsParsed}};

use crate::engine::derive;
use crate::fault::{Fault, find_fault};
use crate::kind::Kind;
use crate::table::{Step, Table};
use std::alloc::{AllocError, Global};

/// What a list of tokens reads as.
#[derive(Drop)]
pub enum Parsed<T, P> {
    /// The steps of its derivation, each production before what it is written by.
    Derivation(Vec<Step<P>>),
    /// There is none, and this is why.
    Fault(Fault<T>),
}

/// The derivation of the tokens from the nonterminal, or the fault exactly where there is none.
///
/// A derivation takes time linear in its length: one `Step` a token and one a nonterminal. From which
/// production on one is looked for is kept for each nonterminal and the next two kinds, as far as there
/// is room; where nothing is kept, the heads of the rules are looked at, and then the productions of one.
/// A fault takes, at each token before it, time in the number of productions and in the length of what is
/// still wanted, which can grow with nesting; mostly one list of it is copied a token.
pub fn parse<T: Kind, N: Kind, P: Kind>(
    alloc: Global,
    table: &Table<T, N, P>,
    start: N,
    tokens: &[T],
) -> Result<Parsed<T, P>, AllocError>
    requires { IsPredictive T.eq N.eq P.eq table.now }
    ensures { IfOk result (λ p. IsParsed (grammar table.now) start tokens.now p) }
{
    match derive(alloc, table, start, tokens)? {
        Some(steps) => Ok(Parsed::Derivation(steps)),
        None => match find_fault(alloc, table, start, tokens)? {
            Some(fault) => Ok(Parsed::Fault(fault)),
            None => unreachable!(),
        },
    }
}
