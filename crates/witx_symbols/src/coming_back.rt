//! Whether what comes back is what the interface says.
#![tactic(auto, using(crate::proofs::ReturnLemmas::return_rules))]

ghost use Rattle.std.specs.Prelude.{◌≡◌, ◌∷◌, [], length, IfOk, Some};
ghost use Rattle.witx_ast.specs.Views.{tree_of};
ghost use Rattle.witx_machine.specs.{Functions.{is_tuple, result_cases}, Passage.{last_words}};
ghost use Rattle.witx_machine.specs.Signature.{ok_pointers};
ghost use Rattle.witx_instructions.specs.Views.{param_types, payload_tree, variant_arms};
ghost use Rattle.witx_symbols.specs.Verdicts.{gives_back, returns_under, returns_by, returns_whole, returns_case, hold_all, hold_parts, ok_parts, is_case_word};
ghost use Rattle.witx_symbols.specs.Symbolic.{symbol_parts};
ghost use Rattle.witx_symbols.specs.PassageParts.{nothing_returns, cases_return, ok_returns, err_returns};
ghost use Rattle.witx_symbols.specs.{OutcomeViews.{outcome_of, words_of}, SymbolViews.{symbol_of}};
ghost use Rattle.witx_symbols.specs.WordViews.{memory_of, option_of, payload_pair, shared_symbols, word_seen, world_of};

use crate::cells::Cells;
use crate::going_in::{direct_are, holds_one, param_are};
use crate::outcome::Outcome;
use crate::symbol::Symbol;
use crate::words::{Word, parts_of};
use crate::world::{Picked, World};
use std::alloc::Global;
use std::rc::Rc;
use witx_abi::{err_type, is_tuple, ok_type, result_cases, tuple_members};
use witx_ast::{Abi, InterfaceFunc, InterfaceFuncParam, TypeRef, Variant};
use witx_base::OutOfMemory;

/// Whether the callee's words, and what stands at its return at the addresses that it was passed, are the
/// reply; without a result there is no word.
pub fn gives_back(
    alloc: Global,
    world: &World,
    func: &InterfaceFunc,
    outcome: &Outcome,
) -> Result<bool, OutOfMemory>
    ensures { IfOk result (λ fine. fine ≡
        gives_back func.now.abi (world_of world.now) (param_types func.now.results) (option_of world.now.whole) (outcome_of outcome.now)) }
{
    match &world.whole {
        Some(reply) => match func.results.as_slice() {
            [only] => result_returns(alloc, world, func.abi, &only.tref, reply, outcome),
            _ => Ok(false),
        },
        None => Ok(nothing_returns(func.results.as_slice(), outcome)),
    }
}

fn nothing_returns(results: &[InterfaceFuncParam], outcome: &Outcome) -> bool
    ensures { result ≡ nothing_returns (param_types results.now) (outcome_of outcome.now) }
{
    results.is_empty() && outcome.call.callee_words.is_empty()
}

fn result_returns(
    alloc: Global,
    world: &World,
    abi: Abi,
    ty: &TypeRef,
    reply: &Symbol,
    outcome: &Outcome,
) -> Result<bool, OutOfMemory>
    ensures { IfOk result (λ fine. fine ≡
        returns_under abi (world_of world.now) (tree_of ty.now) (symbol_of reply.now) (outcome_of outcome.now)) }
{
    match abi {
        Abi::Preview1 => word_returns(alloc, world, ty, reply, outcome),
        Abi::Stored => Ok(whole_returns(reply, outcome)),
    }
}

// Stored whole, at the last address.
fn whole_returns(reply: &Symbol, outcome: &Outcome) -> bool
    ensures { result ≡ returns_whole (symbol_of reply.now) (outcome_of outcome.now) }
{
    outcome.call.callee_words.is_empty()
        && holds_one(
            &outcome.call.at_return,
            reply,
            last_words(outcome.call.words.as_slice(), 1),
        )
}

/// The last words of so many.
fn last_words(words: &[Word], count: usize) -> &[Word]
    ensures { words_of result.now ≡ last_words count (words_of words.now) }
{
    &words[words.len().saturating_sub(count)..]
}

fn word_returns(
    alloc: Global,
    world: &World,
    ty: &TypeRef,
    reply: &Symbol,
    outcome: &Outcome,
) -> Result<bool, OutOfMemory>
    ensures { IfOk result (λ fine. fine ≡
        returns_by (world_of world.now) (result_cases (tree_of ty.now)) (tree_of ty.now) (symbol_of reply.now) (outcome_of outcome.now)) }
{
    match result_cases(ty) {
        Some(variant) => {
            let ok = ok_type(variant);
            let err = err_type(variant);
            match world.picks(ok, err, reply)? {
                Some(picked) => picked_returns(alloc, ok, err, &picked, outcome),
                None => Ok(false),
            }
        }
        None => Ok(direct_are(ty, reply, outcome.call.callee_words.as_slice())),
    }
}

fn picked_returns(
    alloc: Global,
    ok: Option<&TypeRef>,
    err: Option<&TypeRef>,
    picked: &Picked,
    outcome: &Outcome,
) -> Result<bool, OutOfMemory>
    ensures { IfOk result (λ fine. fine ≡
        returns_case (payload_tree ok.entry) (payload_tree err.entry)
        (last_words (length (ok_pointers (payload_tree ok.entry))) (words_of outcome.now.call.words.items))
        picked.now.error (payload_pair picked.now.payload) (memory_of outcome.now.call.at_return) (words_of outcome.now.call.callee_words.items)) }
{
    let words = outcome.call.callee_words.as_slice();
    match &picked.payload {
        None => Ok(is_case_word(picked.error, words)),
        Some((payload, _)) => {
            if picked.error {
                Ok(err_returns(err, payload, &outcome.call.at_return, words))
            } else {
                let pointers = last_words(outcome.call.words.as_slice(), pointer_count(ok));
                ok_returns(alloc, ok, pointers, payload, &outcome.call.at_return, words)
            }
        }
    }
}

// Whether they are the one word of a case.
fn is_case_word(error: bool, words: &[Word]) -> bool
    ensures { result ≡ is_case_word error (words_of words.now) }
{
    match words {
        [word] => stands_for(error, word),
        _ => false,
    }
}

fn stands_for(error: bool, word: &Word) -> bool
    ensures { result ≡ is_case_word error (word_seen word.now ∷ []) }
{
    match word {
        Word::Zero => !error,
        Word::One => error,
        Word::Of { symbol: _, ty: _ } | Word::Address(_) | Word::Length(_) | Word::Given(_) => {
            false
        }
    }
}

/// How many return pointers what an `ok` carries has: one for each member of a tuple, else one.
fn pointer_count(ok: Option<&TypeRef>) -> usize
    ensures { result ≡ length (ok_pointers (payload_tree ok.entry)) }
{
    match ok {
        Some(ty) => member_count(ty),
        None => 0,
    }
}

fn member_count(ty: &TypeRef) -> usize
    ensures { result ≡ length (ok_pointers (Some (tree_of ty.now))) }
{
    match tuple_members(ty) {
        Some(members) => members.len(),
        None => 1,
    }
}

fn err_returns(err: Option<&TypeRef>, payload: &Symbol, cells: &Cells, words: &[Word]) -> bool
    ensures { result ≡ err_returns (payload_tree err.entry) (symbol_of payload.now) (memory_of cells.now)
        (words_of words.now) }
{
    match err {
        Some(ty) => param_are(cells, ty, payload, words),
        None => false,
    }
}

fn ok_returns(
    alloc: Global,
    ok: Option<&TypeRef>,
    pointers: &[Word],
    payload: &Symbol,
    cells: &Cells,
    words: &[Word],
) -> Result<bool, OutOfMemory>
    ensures { IfOk result (λ fine. fine ≡
        ok_returns (payload_tree ok.entry) (words_of pointers.now) (symbol_of payload.now) (memory_of cells.now) (words_of words.now)) }
{
    match ok {
        Some(ty) => {
            if is_case_word(false, words) {
                parts_stand(alloc, cells, pointers, ty, payload)
            } else {
                Ok(false)
            }
        }
        None => Ok(false),
    }
}

// Whether a payload stands at these addresses: a tuple's members, each at its own, or the payload at the one.
fn parts_stand(
    alloc: Global,
    cells: &Cells,
    pointers: &[Word],
    ty: &TypeRef,
    payload: &Symbol,
) -> Result<bool, OutOfMemory>
    ensures { IfOk result (λ fine. fine ≡ hold_parts (memory_of cells.now) (words_of pointers.now)
        (ok_parts (is_tuple (tree_of ty.now)) (length (words_of pointers.now)) (symbol_of payload.now))) }
{
    if is_tuple(ty) {
        members_stand(alloc, cells, pointers, payload)
    } else {
        Ok(holds_one(cells, payload, pointers))
    }
}

fn members_stand(
    alloc: Global,
    cells: &Cells,
    pointers: &[Word],
    tuple: &Symbol,
) -> Result<bool, OutOfMemory>
    ensures { IfOk result (λ fine. fine ≡
        hold_parts (memory_of cells.now) (words_of pointers.now) (symbol_parts (length (words_of pointers.now)) (symbol_of tuple.now))) }
{
    match parts_of(alloc, pointers.len(), tuple)? {
        Some(parts) => Ok(hold_all(cells, pointers, parts.as_slice())),
        None => Ok(false),
    }
}

fn hold_all(cells: &Cells, words: &[Word], symbols: &[Rc<Symbol>]) -> bool
    ensures { result ≡ hold_all (memory_of cells.now) (words_of words.now) (shared_symbols symbols.now) }
{
    if words.len() != symbols.len() {
        return false;
    }
    for i in 0..words.len() {
        if !cells.holds(&words[i], &symbols[i]) {
            return false;
        }
    }
    true
}
