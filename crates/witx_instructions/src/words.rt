//! The words of parameters, of results and of return pointers.
#![tactic(auto, using(crate::proofs::Signatures::signature_rules))]

ghost use Rattle.std.specs.Prelude.{◌≡◌, ◌++◌, IfOk, length, map, replicate};
ghost use Rattle.witx_ast.specs.Views.{tree_of, datatype_tree, record_tree};
ghost use Rattle.witx_machine.specs.Functions.{result_cases};
ghost use Rattle.witx_machine.specs.Signature.{words_of_results, pointers_by, ok_pointers, pointers_of, signature_results, words_of_params};
ghost use Rattle.witx_instructions.specs.Views.{called, param_types, pointer_number, payload_tree};

use crate::instruction::WasmTypes;
use crate::reading::{ok_type, push_param_words, result_cases, result_word};
use std::alloc::Global;
use witx_ast::{Abi, Datatype, InterfaceFunc, Params, RecordDatatype, RecordKind, TypeRef};
use witx_base::{Items, OutOfMemory};
use witx_machine::WasmType;

/// The types of the words that come back.
pub fn words_back(alloc: Global, func: &InterfaceFunc) -> Result<WasmTypes, OutOfMemory>
    ensures { IfOk result (λ words. words ≡ signature_results (called func.now)) }
{
    match func.abi {
        Abi::Preview1 => result_words(alloc, &func.results),
        Abi::Stored => Ok(Items::new(alloc)),
    }
}

fn result_words(alloc: Global, results: &Params) -> Result<WasmTypes, OutOfMemory>
    ensures { IfOk result (λ words. words ≡ words_of_results (param_types results.now)) }
{
    let mut words = Items::new(alloc);
    for each in results.as_slice() {
        if let Some(word) = result_word(&each.tref) {
            words.push(word)?;
        }
    }
    Ok(words)
}

/// Appends the words of parameters.
pub fn push_params(words: &mut WasmTypes, params: &Params) -> Result<(), OutOfMemory>
    ensures { IfOk result (λ _. words.new ≡ words.old ++ words_of_params (param_types params.now)) }
{
    for param in params.as_slice() {
        push_param_words(words, &param.tref)?;
    }
    Ok(())
}

/// A pointer for each part of what an `ok` carries.
pub fn push_ok_pointers(words: &mut WasmTypes, results: &Params) -> Result<(), OutOfMemory>
    ensures { IfOk result (λ _. words.new ≡ words.old ++ map (λ t. WasmType.I32) (pointers_of (param_types results.now))) }
{
    for each in results.as_slice() {
        push_i32s(words, pointer_count(&each.tref))?;
    }
    Ok(())
}

fn push_i32s(words: &mut WasmTypes, count: usize) -> Result<(), OutOfMemory>
    ensures { IfOk result (λ _. words.new ≡ words.old ++ replicate count WasmType.I32) }
{
    for _made in 0..count {
        words.push(WasmType::I32)?;
    }
    Ok(())
}

// How many return pointers a result has.
fn pointer_count(tref: &TypeRef) -> usize
    ensures { result ≡ length (pointers_by (result_cases (tree_of tref.now))) }
{
    match result_cases(tref) {
        Some(variant) => ok_count(ok_type(variant)),
        None => 0,
    }
}

fn ok_count(ok: Option<&TypeRef>) -> usize
    ensures { result ≡ length (ok_pointers (payload_tree ok.entry)) }
{
    match ok {
        Some(tref) => member_count(tref.type_()),
        None => 0,
    }
}

// The members of a tuple; 1 for another type.
#[tactic(auto, using(witx_ast::proofs::TreeKinds::kind_rules, crate::proofs::Signatures::signature_rules))]
fn member_count(datatype: &Datatype) -> usize
    ensures { result ≡ pointer_number (datatype_tree datatype.now) }
{
    match datatype {
        Datatype::Record(record) => record_count(record),
        _ => 1,
    }
}

#[tactic(auto, using(witx_ast::proofs::TreeKinds::kind_rules, crate::proofs::Signatures::signature_rules))]
fn record_count(record: &RecordDatatype) -> usize
    ensures { result ≡ pointer_number (record_tree «record».now) }
{
    match record.kind {
        RecordKind::Tuple => record.members.len(),
        RecordKind::Bitflags(_) | RecordKind::Other => 1,
    }
}
