//! Which part of a function doesn't fit its tags.

ghost use Rattle.std.specs.Prelude.{◌≡◌, not, position};
ghost use Rattle.witx_ast.specs.{Plain.{plain}, Tags.{fits}, Views.{tree_of}};
ghost use Rattle.witx_instructions.specs.Views.{called};
ghost use Rattle.witx_symbols.specs.Verdicts.{misfit};

use witx_abi::Place;
use witx_ast::{InterfaceFunc, Params};
use witx_bytes::writable;

/// The first parameter, else the first result, from which a type is reached that doesn't fit its tag.
#[tactic(auto, using(crate::proofs::MisfitLemmas::misfit_rules))]
pub fn misfit(func: &InterfaceFunc) -> Option<Place>
    ensures { result ≡ misfit (called func.now) }
{
    if let Some(i) = first_misfit(&func.params) {
        return Some(Place::Param(i));
    }
    match first_misfit(&func.results) {
        Some(i) => Some(Place::Result(i)),
        None => None,
    }
}

fn first_misfit(types: &Params) -> Option<usize>
    ensures { result ≡ position (λ p. not (fits (plain (tree_of p.tref)))) types.now }
{
    types
        .as_slice()
        .iter()
        .position(|each| !writable(&each.tref))
}
