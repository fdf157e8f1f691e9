//! Whether a call is of the function, by its names and types.
#![tactic(auto, using(crate::proofs::NameLemmas::name_rules))]

ghost use Rattle.std.specs.Prelude.{◌≡◌, ◌&&◌, IfOk, map};
ghost use Rattle.witx_base.specs.SameBytes.{same_bytes};
ghost use Rattle.witx_ast.specs.{Same.{same_tree}, Views.{tree_of}};
ghost use Rattle.witx_machine.specs.{Run.{same_trees}, Signature.{signature_params, signature_results}};
ghost use Rattle.witx_machine.specs.Words.{same_types};
ghost use Rattle.witx_instructions.specs.Views.{called, param_types};
ghost use Rattle.witx_run.specs.{CallViews.{names_function, names_words}, Stops.{interface_at, wasm_at}};

use crate::progress::Stop;
use std::alloc::Global;
use witx_ast::{InterfaceFunc, InterfaceFuncParam, TypeRef};
use witx_base::{Id, Items, OutOfMemory};
use witx_instructions::{WasmTypes, words_back};
use witx_lowering::words_in;
use witx_machine::WasmType;

/// A call as a trace has it: of which function, with which types of values or words.
#[derive(Drop)]
pub(crate) struct CallRow<'a, T> {
    pub(crate) owner: &'a Id,
    pub(crate) name: &'a Id,
    pub(crate) params: &'a Items<T>,
    pub(crate) results: &'a Items<T>,
}

impl<'a> CallRow<'a, TypeRef> {
    /// The call of the interface in front of which a run has halted.
    pub(crate) fn of_interface(stop: Stop<'a>) -> Option<CallRow<'a, TypeRef>>
        ensures { result ≡ interface_at stop.entry }
    {
        match stop {
            Stop::Interface {
                module,
                name,
                params,
                results,
            } => Some(CallRow {
                owner: module,
                name,
                params,
                results,
            }),
            _ => None,
        }
    }
}

impl<'a> CallRow<'a, WasmType> {
    /// The call of WebAssembly in front of which a run has halted.
    pub(crate) fn of_wasm(stop: Stop<'a>) -> Option<CallRow<'a, WasmType>>
        ensures { result ≡ wasm_at stop.entry }
    {
        match stop {
            Stop::Wasm {
                module,
                name,
                params,
                results,
            } => Some(CallRow {
                owner: module,
                name,
                params,
                results,
            }),
            _ => None,
        }
    }
}

/// Whether the call is of the function of this module, by its names and with its types.
pub(crate) fn names_function(module: &Id, func: &InterfaceFunc, call: &CallRow<'_, TypeRef>) -> bool
    ensures { result ≡ names_function «module».now (called func.now)
        call.now.owner.now call.now.name.now (map tree_of call.now.params.now) (map tree_of call.now.results.now) }
{
    is_name(call.owner, module) && has_signature(func, call)
}

fn is_name(a: &Id, b: &Id) -> bool
    ensures { result ≡ same_bytes a.now b.now }
{
    *a == *b
}

fn has_signature(func: &InterfaceFunc, call: &CallRow<'_, TypeRef>) -> bool
    ensures { result ≡ same_bytes call.now.name.now (called func.now).name
        && (same_trees (map tree_of call.now.params.now) (called func.now).params
        && same_trees (map tree_of call.now.results.now) (called func.now).results) }
{
    is_name(call.name, &func.name) && has_types(func, call)
}

fn has_types(func: &InterfaceFunc, call: &CallRow<'_, TypeRef>) -> bool
    ensures { result ≡ same_trees (map tree_of call.now.params.now) (called func.now).params
        && same_trees (map tree_of call.now.results.now) (called func.now).results }
{
    same_trees(call.params.as_slice(), func.params.as_slice())
        && same_trees(call.results.as_slice(), func.results.as_slice())
}

/// Whether these are the types of the parameters, or of the results, documentation included.
fn same_trees(types: &[TypeRef], params: &[InterfaceFuncParam]) -> bool
    ensures { result ≡ same_trees (map tree_of types.now) (param_types params.now) }
{
    if types.len() != params.len() {
        return false;
    }
    for i in 0..types.len() {
        if !is_type(&types[i], &params[i]) {
            return false;
        }
    }
    true
}

fn is_type(ty: &TypeRef, param: &InterfaceFuncParam) -> bool
    ensures { result ≡ same_tree (tree_of ty.now) (tree_of param.now.tref) }
{
    *ty == param.tref
}

/// Whether the call is of the function of this module, by its names and with the types of its words.
pub(crate) fn names_words(
    alloc: Global,
    module: &Id,
    func: &InterfaceFunc,
    call: &CallRow<'_, WasmType>,
) -> Result<bool, OutOfMemory>
    ensures { IfOk result (λ names. names ≡ names_words «module».now (called func.now)
        call.now.owner.now call.now.name.now call.now.params.now call.now.results.now) }
{
    if is_name(call.owner, module) && is_name(call.name, &func.name) {
        has_word_types(alloc, func, call)
    } else {
        Ok(false)
    }
}

fn has_word_types(
    alloc: Global,
    func: &InterfaceFunc,
    call: &CallRow<'_, WasmType>,
) -> Result<bool, OutOfMemory>
    ensures { IfOk result (λ same. same ≡ same_types call.now.params.now (signature_params (called func.now))
        && same_types call.now.results.now (signature_results (called func.now))) }
{
    let params = words_in(alloc, func)?;
    let results = words_back(alloc, func)?;
    Ok(same_types(call.params, &params) && same_types(call.results, &results))
}

fn same_types(a: &WasmTypes, b: &WasmTypes) -> bool
    ensures { result ≡ same_types a.now b.now }
{
    *a == *b
}
