//! The signature of a function, or its first result that has no word.
#![tactic(auto, using(witx_instructions::proofs::Signatures::signature_rules))]

ghost use Rattle.std.specs.Prelude.{◌≡◌, IfOk, is_none, position};
ghost use Rattle.witx_ast.specs.{Plain.{plain}, Views.{tree_of}};
ghost use Rattle.witx_machine.specs.Signature.{first_wordless, result_word, signature_params, signature_results, without_signature};
ghost use Rattle.witx_instructions.specs.{Views.{called, param_types}, Told.{signature_place}};

use std::alloc::Global;
use witx_ast::{Abi, InterfaceFunc, Params};
use witx_instructions::{SignatureError, WasmTypes, result_word, words_back};
use witx_lowering::words_in;
use witx_machine::Place;

/// The words that go in and those that come back.
pub fn signature(
    alloc: Global,
    func: &InterfaceFunc,
) -> Result<(WasmTypes, WasmTypes), SignatureError>
    ensures params { IfOk result (λ words. words.0 ≡ signature_params (called func.now)) }
    ensures results { IfOk result (λ words. words.1 ≡ signature_results (called func.now)) }
    ensures unlowerable { signature_place result ≡ without_signature (called func.now) }
{
    if let Some(i) = first_wordless(func.abi, &func.results) {
        return Err(SignatureError::Unlowerable(Place::Result(i)));
    }
    Ok((words_in(alloc, func)?, words_back(alloc, func)?))
}

// The first result that would have to come back as a word, and has none.
fn first_wordless(abi: Abi, results: &Params) -> Option<usize>
    ensures { result ≡ first_wordless abi (param_types results.now) }
{
    match abi {
        Abi::Preview1 => first_without_word(results),
        Abi::Stored => None,
    }
}

// The first result that has no word.
fn first_without_word(results: &Params) -> Option<usize>
    ensures { result ≡ position (λ r. is_none (result_word (plain (tree_of r.tref)))) results.now }
{
    results
        .as_slice()
        .iter()
        .position(|each| result_word(&each.tref).is_none())
}
