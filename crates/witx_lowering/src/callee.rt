//! The plan of the side that is called.
#![tactic(auto, using(witx_instructions::proofs::Sides::side_rules))]

ghost use Rattle.std.specs.Prelude.{◌≡◌, ◌+◌, ◌++◌, ◌∷◌, [], cond, IfOk, None, Some, is_some, length, true, false};
ghost use Rattle.witx_ast.specs.{Plain.{plain}, declared.function.Abi.TheVariants.{Preview1}};
ghost use Rattle.witx_ast.specs.Views.{tree_of};
ghost use Rattle.witx_machine.specs.Events as machine;
ghost use Rattle.witx_machine.specs.Functions.{is_tuple, result_cases};
ghost use Rattle.witx_machine.specs.Lowerable.{can_be_err, can_be_result, unlowerable};
ghost use Rattle.witx_machine.specs.Signature.{param_words, words_of_params, ok_pointers, signature_results};
ghost use Rattle.witx_machine.specs.Traces as traces;
ghost use Rattle.witx_instructions.specs.Views.{called, param_types, planned_events, pointer_types, payload_tree};
ghost use Rattle.witx_lowering.specs.Asked.{CanBeParams, CanBeResults, PointersOfFunction, PointersOfResult, PointersOfResults};

use crate::lowering::{lift, lower};
use witx_ast::{Abi, InterfaceFunc, Params, TypeRef};
use witx_base::{Id, OutOfMemory};
use witx_instructions::{
    Instruction, Plan, Planned, Pointers, add, err_type, is_list, is_tuple, ok_type, put,
    result_cases,
};

/// Plans the events of the side that is called.
pub fn plan_callee<'a>(
    plan: &mut Plan<'a>,
    module_name: &'a Id,
    func: &'a InterfaceFunc,
    pointers: &Pointers<'a>,
) -> Result<(), OutOfMemory>
    requires lowerable { unlowerable (called func.now) ≡ None }
    requires pointers { PointersOfFunction func.now pointers.now }
    ensures { IfOk result (λ _. planned_events plan.new
        ≡ planned_events plan.old ++ traces.callee_events module_name.now (called func.now)) }
{
    let first = lift_params(plan, &func.params)?;
    add(
        plan,
        Planned::CallInterface {
            module: module_name,
            func,
        },
    )?;
    lower_results(plan, func.abi, &func.results, first, pointers)?;
    let amt = word_count(func);
    put(plan, Instruction::Return { amt })
}

// How many words come back.
fn word_count(func: &InterfaceFunc) -> usize
    requires { unlowerable (called func.now) ≡ None }
    ensures { result ≡ length (signature_results (called func.now)) }
{
    match func.abi {
        Abi::Preview1 => func.results.len(),
        Abi::Stored => 0,
    }
}

// Answers the number of words: that of the first return pointer.
fn lift_params<'a>(plan: &mut Plan<'a>, params: &'a Params) -> Result<usize, OutOfMemory>
    requires { CanBeParams params.now }
    ensures events { IfOk result (λ _. planned_events plan.new
        ≡ planned_events plan.old ++ traces.lift_params 0 (param_types params.now)) }
    ensures words { IfOk result (λ words. words ≡ length (words_of_params (param_types params.now))) }
{
    let mut word = 0;
    for param in params.as_slice() {
        word = get_words(plan, word, &param.tref)?;
        put(plan, lift(&param.tref))?;
    }
    Ok(word)
}

// Gets the words of a parameter, and answers the number of the next word. So many words that they
// can't be numbered have no place in memory either.
fn get_words<'a>(plan: &mut Plan<'a>, word: usize, tref: &TypeRef) -> Result<usize, OutOfMemory>
    ensures events { IfOk result (λ _. planned_events plan.new
        ≡ planned_events plan.old ++ traces.get_args word (param_words (plain (tree_of tref.now)))) }
    ensures next { IfOk result (λ next. next ≡ word + length (param_words (plain (tree_of tref.now)))) }
{
    put(plan, Instruction::GetArg { nth: word })?;
    let next = word.checked_add(1).ok_or(OutOfMemory)?;
    if !is_list(tref) {
        return Ok(next);
    }
    put(plan, Instruction::GetArg { nth: next })?;
    next.checked_add(1).ok_or(OutOfMemory)
}

fn lower_results<'a>(
    plan: &mut Plan<'a>,
    abi: Abi,
    results: &'a Params,
    first: usize,
    pointers: &Pointers<'a>,
) -> Result<(), OutOfMemory>
    requires lowerable { CanBeResults abi results.now }
    requires pointers { PointersOfResults abi results.now pointers.now }
    ensures { IfOk result (λ _. planned_events plan.new
        ≡ planned_events plan.old ++ traces.lower_under abi first (param_types results.now)) }
{
    match abi {
        Abi::Preview1 => lower_first(plan, results, first, pointers),
        Abi::Stored => store_all(plan, first, pointers),
    }
}

fn lower_first<'a>(
    plan: &mut Plan<'a>,
    results: &'a Params,
    first: usize,
    pointers: &Pointers<'a>,
) -> Result<(), OutOfMemory>
    requires lowerable { CanBeResults Preview1 results.now }
    requires pointers { PointersOfResults Preview1 results.now pointers.now }
    ensures { IfOk result (λ _. planned_events plan.new
        ≡ planned_events plan.old ++ traces.lower_of first (param_types results.now)) }
{
    match results.get(0) {
        Some(only) => lower_result(plan, &only.tref, first, pointers),
        None => Ok(()),
    }
}

fn lower_result<'a>(
    plan: &mut Plan<'a>,
    tref: &'a TypeRef,
    first: usize,
    pointers: &Pointers<'a>,
) -> Result<(), OutOfMemory>
    requires lowerable { can_be_result Preview1 (tree_of tref.now) ≡ true }
    requires pointers { PointersOfResult tref.now pointers.now }
    ensures { IfOk result (λ _. planned_events plan.new ≡ planned_events plan.old
        ++ traces.lower_by (result_cases (tree_of tref.now)) first (tree_of tref.now)) }
{
    match result_cases(tref) {
        Some(variant) => lower_cases(plan, ok_type(variant), err_type(variant), first, pointers),
        None => put(plan, lower(tref)),
    }
}

fn lower_cases<'a>(
    plan: &mut Plan<'a>,
    ok: Option<&'a TypeRef>,
    err: Option<&'a TypeRef>,
    first: usize,
    pointers: &Pointers<'a>,
) -> Result<(), OutOfMemory>
    requires err { can_be_err (payload_tree err) ≡ true }
    requires pointers { pointer_types pointers.now ≡ ok_pointers (payload_tree ok) }
    ensures { IfOk result (λ _. planned_events plan.new ≡ planned_events plan.old
        ++ traces.lower_cases (payload_tree ok.entry) (payload_tree err.entry) first) }
{
    lower_ok_block(plan, ok, first, pointers)?;
    lower_err_block(plan, err)?;
    put(plan, Instruction::ResultLower { ok, err })
}

fn lower_ok_block<'a>(
    plan: &mut Plan<'a>,
    ok: Option<&'a TypeRef>,
    first: usize,
    pointers: &Pointers<'a>,
) -> Result<(), OutOfMemory>
    requires { pointer_types pointers.now ≡ ok_pointers (payload_tree ok) }
    ensures { IfOk result (λ _. planned_events plan.new ≡ planned_events plan.old
        ++ traces.block_events (traces.ok_lowered first (payload_tree ok.entry)) false) }
{
    add(plan, Planned::Push)?;
    lower_ok(plan, ok, first, pointers)?;
    add(plan, Planned::Finish { value: false })
}

fn lower_ok<'a>(
    plan: &mut Plan<'a>,
    ok: Option<&'a TypeRef>,
    first: usize,
    pointers: &Pointers<'a>,
) -> Result<(), OutOfMemory>
    requires { pointer_types pointers.now ≡ ok_pointers (payload_tree ok) }
    ensures { IfOk result (λ _. planned_events plan.new
        ≡ planned_events plan.old ++ traces.ok_lowered first (payload_tree ok.entry)) }
{
    match ok {
        Some(tref) => {
            put(plan, Instruction::VariantPayload)?;
            unpack(plan, tref, pointers.len())?;
            store_all(plan, first, pointers)
        }
        None => Ok(()),
    }
}

fn unpack<'a>(plan: &mut Plan<'a>, tref: &TypeRef, amt: usize) -> Result<(), OutOfMemory>
    ensures { IfOk result (λ _. planned_events plan.new ≡ planned_events plan.old
        ++ cond (is_tuple (tree_of tref.now)) (machine.emit (machine.Step.TupleLower amt) ∷ []) []) }
{
    if is_tuple(tref) {
        put(plan, Instruction::TupleLower { amt })
    } else {
        Ok(())
    }
}

// Stores through the pointers whose words begin at the first, from the last pointer to the first.
fn store_all<'a>(
    plan: &mut Plan<'a>,
    first: usize,
    pointers: &Pointers<'a>,
) -> Result<(), OutOfMemory>
    ensures { IfOk result (λ _. planned_events plan.new
        ≡ planned_events plan.old ++ traces.store_all first (pointer_types pointers.now)) }
{
    let types = pointers.as_slice();
    let mut left = types.len();
    while left > 0 {
        left -= 1;
        let nth = first.checked_add(left).ok_or(OutOfMemory)?;
        put(plan, Instruction::GetArg { nth })?;
        let ty = types[left];
        put(plan, Instruction::Store { ty })?;
    }
    Ok(())
}

fn lower_err_block<'a>(plan: &mut Plan<'a>, err: Option<&'a TypeRef>) -> Result<(), OutOfMemory>
    requires { can_be_err (payload_tree err) ≡ true }
    ensures { IfOk result (λ _. planned_events plan.new ≡ planned_events plan.old
        ++ traces.block_events (traces.err_lowered (payload_tree err.entry)) (is_some (payload_tree err.entry))) }
{
    add(plan, Planned::Push)?;
    lower_err(plan, err)?;
    add(
        plan,
        Planned::Finish {
            value: err.is_some(),
        },
    )
}

fn lower_err<'a>(plan: &mut Plan<'a>, err: Option<&'a TypeRef>) -> Result<(), OutOfMemory>
    requires { can_be_err (payload_tree err) ≡ true }
    ensures { IfOk result (λ _. planned_events plan.new
        ≡ planned_events plan.old ++ traces.err_lowered (payload_tree err.entry)) }
{
    match err {
        Some(tref) => {
            put(plan, Instruction::VariantPayload)?;
            put(plan, lower(tref))
        }
        None => Ok(()),
    }
}
