//! The doubt that a run leaves.
#![tactic(auto, using(witx_symbols::proofs::JudgeLemmas::judge_rules))]

ghost use Rattle.std.specs.Prelude.{◌≡◌, IfOk};
ghost use Rattle.witx_machine.specs.{Machine.{went}, Signature.{return_pointers}};
ghost use Rattle.witx_instructions.specs.Views.{called, pointer_types};
ghost use Rattle.witx_symbols.specs.{Verdicts.{judged}, OutcomeViews.{outcome_of, run_of}};
ghost use Rattle.witx_symbols.specs.WordViews.{option_of, shared_symbols, world_of};

use crate::going_in::passes;
use std::alloc::Global;
use std::rc::Rc;
use witx_ast::{InterfaceFunc, NamedType};
use witx_base::OutOfMemory;
use witx_symbols::{Doubt, Run, Symbol, World, all_same, gives_back, is_reply};

/// The doubt that a run in a world leaves; none where it ended as it should.
pub(crate) fn judged(
    alloc: Global,
    world: &World,
    func: &InterfaceFunc,
    pointers: &[&Rc<NamedType>],
    arguments: &[Rc<Symbol>],
    run: &Run,
) -> Result<Option<Doubt>, OutOfMemory>
    requires { pointer_types pointers.now ≡ return_pointers (called func.now) }
    ensures { IfOk result (λ doubt. doubt ≡
        judged (world_of world.now) (called func.now) (shared_symbols arguments.now) (option_of world.now.whole) (run_of run.now)) }
{
    let outcome = match run {
        Run::StuckInCaller(i) => return Ok(Some(Doubt::Caller(*i))),
        Run::StuckInCallee(i) => return Ok(Some(Doubt::Callee(*i))),
        Run::Ended(outcome) => outcome,
    };
    let params = func.params.as_slice();
    let words = outcome.call.words.as_slice();
    if !passes(&outcome.call.at_call, pointers, params, arguments, words) {
        return Ok(Some(Doubt::Passes));
    }
    if !gives_back(alloc, world, func, outcome)? {
        return Ok(Some(Doubt::Returns));
    }
    if !all_same(outcome.call.noted.as_slice(), arguments) {
        return Ok(Some(Doubt::Notes));
    }
    if !is_reply(outcome.back.as_slice(), &world.whole) {
        return Ok(Some(Doubt::Reply));
    }
    Ok(None)
}
