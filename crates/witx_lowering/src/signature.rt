//! The words that go in.
#![tactic(auto, using(witx_instructions::proofs::Signatures::signature_rules))]

ghost use Rattle.std.specs.Prelude.{◌≡◌, ◌++◌, IfOk, map, take};
ghost use Rattle.witx_machine.specs.Signature.{pointers_under, signature_params};
ghost use Rattle.witx_instructions.specs.Views.{called, param_types};

use std::alloc::Global;
use witx_ast::{Abi, InterfaceFunc, Params};
use witx_base::{Items, OutOfMemory};
use witx_instructions::{WasmTypes, push_ok_pointers, push_params};
use witx_machine::WasmType;

/// The types of the words that go in.
pub fn words_in(alloc: Global, func: &InterfaceFunc) -> Result<WasmTypes, OutOfMemory>
    ensures { IfOk result (λ words. words ≡ signature_params (called func.now)) }
{
    let mut words = Items::new(alloc);
    push_params(&mut words, &func.params)?;
    push_pointers(&mut words, func.abi, &func.results)?;
    Ok(words)
}

// A word for each return pointer.
fn push_pointers(words: &mut WasmTypes, abi: Abi, results: &Params) -> Result<(), OutOfMemory>
    ensures { IfOk result (λ _. words.new
        ≡ words.old ++ map (λ t. WasmType.I32) (pointers_under abi (param_types results.now))) }
{
    match abi {
        Abi::Preview1 => push_ok_pointers(words, results),
        Abi::Stored => push_one_pointer(words, results),
    }
}

// The pointer to the whole result, if there is one.
fn push_one_pointer(words: &mut WasmTypes, results: &Params) -> Result<(), OutOfMemory>
    ensures { IfOk result (λ _. words.new ≡ words.old ++ map (λ t. WasmType.I32) (take 1 (param_types results.now))) }
{
    match results.get(0) {
        Some(_) => words.push(WasmType::I32),
        None => Ok(()),
    }
}
