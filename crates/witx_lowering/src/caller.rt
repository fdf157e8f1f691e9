//! The plan of the side that calls.
#![tactic(auto, using(witx_instructions::proofs::Sides::side_rules))]

ghost use Rattle.std.specs.Prelude.{◌≡◌, ◌++◌, IfOk, None, is_some, true};
ghost use Rattle.witx_ast.specs.{declared.function.Abi.TheVariants.{Preview1}, Views.{tree_of}};
ghost use Rattle.witx_machine.specs.Functions.{result_cases};
ghost use Rattle.witx_machine.specs.Lowerable.{can_be_err, can_be_result, unlowerable};
ghost use Rattle.witx_machine.specs.Signature.{signature_params, signature_results, ok_pointers};
ghost use Rattle.witx_machine.specs.Traces as traces;
ghost use Rattle.witx_instructions.specs.Views.{called, param_types, planned_events, pointer_types, payload_tree};
ghost use Rattle.witx_lowering.specs.Asked.{CanBeParams, CanBeResults, PointersOfFunction, PointersOfResult, PointersOfResults};

use crate::lowering::{lift, lower};
use witx_ast::{Abi, InterfaceFunc, Params, TypeRef};
use witx_base::{Id, OutOfMemory};
use witx_instructions::{
    Instruction, Plan, Planned, Pointers, WasmTypes, add, err_type, lift_ok_block, load_all,
    make_spaces, ok_type, put, result_cases,
};

/// Plans the events of the side that calls.
pub fn plan_caller<'a>(
    plan: &mut Plan<'a>,
    module_name: &'a Id,
    func: &'a InterfaceFunc,
    pointers: &Pointers<'a>,
    params: &'a WasmTypes,
    results: &'a WasmTypes,
) -> Result<(), OutOfMemory>
    requires lowerable { unlowerable (called func.now) ≡ None }
    requires pointers { PointersOfFunction func.now pointers.now }
    requires params { params.now ≡ signature_params (called func.now) }
    requires results { results.now ≡ signature_results (called func.now) }
    ensures { IfOk result (λ _. planned_events plan.new
        ≡ planned_events plan.old ++ traces.caller_events module_name.now (called func.now)) }
{
    lower_params(plan, &func.params)?;
    make_spaces(plan, pointers)?;
    add(
        plan,
        Planned::CallWasm {
            module: module_name,
            name: &func.name,
            params,
            results,
        },
    )?;
    lift_results(plan, func.abi, &func.results, pointers)?;
    let amt = func.results.len();
    put(plan, Instruction::Return { amt })
}

fn lower_params<'a>(plan: &mut Plan<'a>, params: &'a Params) -> Result<(), OutOfMemory>
    requires { CanBeParams params.now }
    ensures { IfOk result (λ _. planned_events plan.new
        ≡ planned_events plan.old ++ traces.lower_params 0 (param_types params.now)) }
{
    for (nth, param) in params.as_slice().iter().enumerate() {
        put(plan, Instruction::GetArg { nth })?;
        put(plan, lower(&param.tref))?;
    }
    Ok(())
}

fn lift_results<'a>(
    plan: &mut Plan<'a>,
    abi: Abi,
    results: &'a Params,
    pointers: &Pointers<'a>,
) -> Result<(), OutOfMemory>
    requires lowerable { CanBeResults abi results.now }
    requires pointers { PointersOfResults abi results.now pointers.now }
    ensures { IfOk result (λ _. planned_events plan.new
        ≡ planned_events plan.old ++ traces.lift_under abi (param_types results.now)) }
{
    match abi {
        Abi::Preview1 => lift_first(plan, results, pointers),
        Abi::Stored => load_all(plan, pointers),
    }
}

fn lift_first<'a>(
    plan: &mut Plan<'a>,
    results: &'a Params,
    pointers: &Pointers<'a>,
) -> Result<(), OutOfMemory>
    requires lowerable { CanBeResults Preview1 results.now }
    requires pointers { PointersOfResults Preview1 results.now pointers.now }
    ensures { IfOk result (λ _. planned_events plan.new
        ≡ planned_events plan.old ++ traces.lift_of (param_types results.now)) }
{
    match results.get(0) {
        Some(only) => lift_result(plan, &only.tref, pointers),
        None => Ok(()),
    }
}

fn lift_result<'a>(
    plan: &mut Plan<'a>,
    tref: &'a TypeRef,
    pointers: &Pointers<'a>,
) -> Result<(), OutOfMemory>
    requires lowerable { can_be_result Preview1 (tree_of tref.now) ≡ true }
    requires pointers { PointersOfResult tref.now pointers.now }
    ensures { IfOk result (λ _. planned_events plan.new
        ≡ planned_events plan.old ++ traces.lift_by (result_cases (tree_of tref.now)) (tree_of tref.now)) }
{
    match result_cases(tref) {
        Some(variant) => lift_cases(plan, ok_type(variant), err_type(variant), pointers),
        None => put(plan, lift(tref)),
    }
}

fn lift_cases<'a>(
    plan: &mut Plan<'a>,
    ok: Option<&'a TypeRef>,
    err: Option<&'a TypeRef>,
    pointers: &Pointers<'a>,
) -> Result<(), OutOfMemory>
    requires err { can_be_err (payload_tree err) ≡ true }
    requires pointers { pointer_types pointers.now ≡ ok_pointers (payload_tree ok) }
    ensures { IfOk result (λ _. planned_events plan.new
        ≡ planned_events plan.old ++ traces.lift_cases (payload_tree ok.entry) (payload_tree err.entry)) }
{
    lift_ok_block(plan, ok, pointers)?;
    lift_err_block(plan, err)?;
    put(plan, Instruction::ResultLift)
}

fn lift_err_block<'a>(plan: &mut Plan<'a>, err: Option<&'a TypeRef>) -> Result<(), OutOfMemory>
    requires { can_be_err (payload_tree err) ≡ true }
    ensures { IfOk result (λ _. planned_events plan.new ≡ planned_events plan.old
        ++ traces.block_events (traces.err_lifted (payload_tree err.entry)) (is_some (payload_tree err.entry))) }
{
    add(plan, Planned::Push)?;
    lift_err(plan, err)?;
    add(
        plan,
        Planned::Finish {
            value: err.is_some(),
        },
    )
}

fn lift_err<'a>(plan: &mut Plan<'a>, err: Option<&'a TypeRef>) -> Result<(), OutOfMemory>
    requires { can_be_err (payload_tree err) ≡ true }
    ensures { IfOk result (λ _. planned_events plan.new
        ≡ planned_events plan.old ++ traces.err_lifted (payload_tree err.entry)) }
{
    match err {
        Some(tref) => {
            put(plan, Instruction::ReuseReturn)?;
            put(plan, lift(tref))
        }
        None => Ok(()),
    }
}
