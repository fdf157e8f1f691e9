//! The traces of both sides of a call.
#![tactic(auto, using(witx_instructions::proofs::Plans::play_rules))]

ghost use Rattle.std.specs.Prelude.{◌≡◌, IfOk, None, map};
ghost use Rattle.witx_machine.specs.Lowerable.{unlowerable};
ghost use Rattle.witx_machine.specs.Signature.{signature_params, signature_results};
ghost use Rattle.witx_machine.specs.Traces.{caller_events, callee_events};
ghost use Rattle.witx_instructions.specs.Views.{called, event_of};

use crate::plans::{callee_plan, caller_plan};
use std::alloc::Global;
use witx_ast::InterfaceFunc;
use witx_base::{Id, OutOfMemory};
use witx_instructions::{Trace, WasmTypes};

/// The trace of the side that calls a function that can be lowered, with the words of its signature.
///
/// The events are those that [`call_wasm`](crate::AbiFunc::call_wasm) hands a generator.
pub fn caller_trace<'a>(
    alloc: Global,
    owner: &'a Id,
    func: &'a InterfaceFunc,
    params: &'a WasmTypes,
    results: &'a WasmTypes,
) -> Result<Trace, OutOfMemory>
    requires lowerable { unlowerable (called func.now) ≡ None }
    requires params { params.now ≡ signature_params (called func.now) }
    requires results { results.now ≡ signature_results (called func.now) }
    ensures { IfOk result (λ trace. map event_of trace.events ≡ caller_events owner.now (called func.now)) }
{
    let plan = caller_plan(alloc, owner, func, params, results)?;
    Trace::of(alloc, &plan)
}

/// The trace of the side that is called, of a function that can be lowered.
///
/// The events are those that [`call_interface`](crate::AbiFunc::call_interface) hands a generator.
pub fn callee_trace<'a>(
    alloc: Global,
    owner: &'a Id,
    func: &'a InterfaceFunc,
) -> Result<Trace, OutOfMemory>
    requires { unlowerable (called func.now) ≡ None }
    ensures { IfOk result (λ trace. map event_of trace.events ≡ callee_events owner.now (called func.now)) }
{
    let plan = callee_plan(alloc, owner, func)?;
    Trace::of(alloc, &plan)
}
