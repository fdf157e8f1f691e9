//! The plans of both sides of a call, with the return pointers of its function.
#![tactic(auto, using(witx_instructions::proofs::Plans::play_rules))]

ghost use Rattle.std.specs.Prelude.{◌≡◌, IfOk, None};
ghost use Rattle.witx_machine.specs.Lowerable.{unlowerable};
ghost use Rattle.witx_machine.specs.Signature.{signature_params, signature_results};
ghost use Rattle.witx_machine.specs.Traces.{caller_events, callee_events};
ghost use Rattle.witx_instructions.specs.Views.{called, planned_events};

use std::alloc::Global;
use witx_ast::InterfaceFunc;
use witx_base::{Id, OutOfMemory};
use witx_instructions::{Plan, WasmTypes, new_plan, return_pointers};
use witx_lowering::{plan_callee, plan_caller};

/// The plan of the side that calls a function that can be lowered, with the words of its signature.
pub fn caller_plan<'a>(
    alloc: Global,
    module_name: &'a Id,
    func: &'a InterfaceFunc,
    params: &'a WasmTypes,
    results: &'a WasmTypes,
) -> Result<Plan<'a>, OutOfMemory>
    requires lowerable { unlowerable (called func.now) ≡ None }
    requires params { params.now ≡ signature_params (called func.now) }
    requires results { results.now ≡ signature_results (called func.now) }
    ensures { IfOk result (λ plan. planned_events plan ≡ caller_events module_name.now (called func.now)) }
{
    let pointers = return_pointers(alloc, func.abi, &func.results)?;
    let mut plan = new_plan(alloc)?;
    plan_caller(&mut plan, module_name, func, &pointers, params, results)?;
    Ok(plan)
}

/// The plan of the side that is called, of a function that can be lowered.
pub fn callee_plan<'a>(
    alloc: Global,
    module_name: &'a Id,
    func: &'a InterfaceFunc,
) -> Result<Plan<'a>, OutOfMemory>
    requires { unlowerable (called func.now) ≡ None }
    ensures { IfOk result (λ plan. planned_events plan ≡ callee_events module_name.now (called func.now)) }
{
    let pointers = return_pointers(alloc, func.abi, &func.results)?;
    let mut plan = new_plan(alloc)?;
    plan_callee(&mut plan, module_name, func, &pointers)?;
    Ok(plan)
}
