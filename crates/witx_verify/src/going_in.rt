//! Whether the words of a call pass the arguments.
#![tactic(auto, using(witx_symbols::proofs::PassLemmas::pass_rules))]

ghost use Rattle.std.specs.Prelude.{◌≡◌};
ghost use Rattle.witx_instructions.specs.Views.{param_types, pointer_types};
ghost use Rattle.witx_symbols.specs.{Verdicts.{passes, pointers_are}, OutcomeViews.{words_of}};
ghost use Rattle.witx_symbols.specs.WordViews.{memory_of, shared_symbols};

use crate::spaces::is_made_for;
use std::rc::Rc;
use witx_ast::{InterfaceFuncParam, NamedType};
use witx_symbols::{Cells, Symbol, Word, words_behind};

/// Whether the words of a call are those of the arguments, one after the other, and then an address made
/// for each return pointer.
pub(crate) fn passes(
    cells: &Cells,
    pointers: &[&Rc<NamedType>],
    params: &[InterfaceFuncParam],
    arguments: &[Rc<Symbol>],
    words: &[Word],
) -> bool
    ensures { result ≡ passes (memory_of cells.now) (pointer_types pointers.now) (param_types params.now)
        (shared_symbols arguments.now) (words_of words.now) }
{
    if params.len() != arguments.len() {
        return false;
    }
    let mut rest = words;
    for i in 0..params.len() {
        match words_behind(cells, &params[i].tref, &arguments[i], rest) {
            Some(more) => rest = more,
            None => return false,
        }
    }
    pointers_are(cells, pointers, rest)
}

// Whether they are addresses made for these types, one for each.
fn pointers_are(cells: &Cells, pointers: &[&Rc<NamedType>], words: &[Word]) -> bool
    ensures { result ≡ pointers_are (memory_of cells.now) (pointer_types pointers.now) (words_of words.now) }
{
    if pointers.len() != words.len() {
        return false;
    }
    for i in 0..pointers.len() {
        if !is_made_for(cells, &words[i], pointers[i]) {
            return false;
        }
    }
    true
}
