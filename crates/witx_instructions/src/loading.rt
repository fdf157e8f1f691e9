//! The events that make room for results, and that load through return pointers.
#![tactic(auto, using(crate::proofs::Sides::side_rules))]

ghost use Rattle.std.specs.Prelude.{◌≡◌, ◌++◌, ◌∷◌, [], IfOk, cond, is_some};
ghost use Rattle.witx_ast.specs.Views.{tree_of};
ghost use Rattle.witx_machine.specs.Events as machine;
ghost use Rattle.witx_machine.specs.{Functions.{is_tuple}, Signature.{ok_pointers}};
ghost use Rattle.witx_machine.specs.Traces as traces;
ghost use Rattle.witx_instructions.specs.Views.{planned_events, pointer_types, payload_tree};

use crate::instruction::Instruction;
use crate::plan::{Plan, Planned, add, put};
use crate::pointers::Pointers;
use crate::reading::is_tuple;
use witx_ast::TypeRef;
use witx_base::OutOfMemory;

/// Makes room for what the return pointers point to, and pushes their addresses.
pub fn make_spaces<'a>(plan: &mut Plan<'a>, pointers: &Pointers<'a>) -> Result<(), OutOfMemory>
    ensures { IfOk result (λ _. planned_events plan.new
        ≡ planned_events plan.old ++ traces.make_spaces 0 (pointer_types pointers.now)) }
{
    for (slot, pointer) in pointers.as_slice().iter().enumerate() {
        let ty = *pointer;
        add(plan, Planned::Space { slot, ty })?;
        put(plan, Instruction::ReturnPointerGet { n: slot })?;
    }
    Ok(())
}

/// The block for ok of the side that calls.
pub fn lift_ok_block<'a>(
    plan: &mut Plan<'a>,
    ok: Option<&'a TypeRef>,
    pointers: &Pointers<'a>,
) -> Result<(), OutOfMemory>
    requires { pointer_types pointers.now ≡ ok_pointers (payload_tree ok) }
    ensures { IfOk result (λ _. planned_events plan.new ≡ planned_events plan.old
        ++ traces.block_events (traces.ok_lifted (payload_tree ok.entry)) (is_some (payload_tree ok.entry))) }
{
    add(plan, Planned::Push)?;
    lift_ok(plan, ok, pointers)?;
    add(
        plan,
        Planned::Finish {
            value: ok.is_some(),
        },
    )
}

fn lift_ok<'a>(
    plan: &mut Plan<'a>,
    ok: Option<&'a TypeRef>,
    pointers: &Pointers<'a>,
) -> Result<(), OutOfMemory>
    requires { pointer_types pointers.now ≡ ok_pointers (payload_tree ok) }
    ensures { IfOk result (λ _. planned_events plan.new
        ≡ planned_events plan.old ++ traces.ok_lifted (payload_tree ok.entry)) }
{
    match ok {
        Some(tref) => {
            load_all(plan, pointers)?;
            pack(plan, tref, pointers.len())
        }
        None => Ok(()),
    }
}

fn pack<'a>(plan: &mut Plan<'a>, tref: &TypeRef, amt: usize) -> Result<(), OutOfMemory>
    ensures { IfOk result (λ _. planned_events plan.new ≡ planned_events plan.old
        ++ cond (is_tuple (tree_of tref.now)) (machine.emit (machine.Step.TupleLift amt) ∷ []) []) }
{
    if is_tuple(tref) {
        put(plan, Instruction::TupleLift { amt })
    } else {
        Ok(())
    }
}

/// Loads through all return pointers, in order.
pub fn load_all<'a>(plan: &mut Plan<'a>, pointers: &Pointers<'a>) -> Result<(), OutOfMemory>
    ensures { IfOk result (λ _. planned_events plan.new
        ≡ planned_events plan.old ++ traces.load_all 0 (pointer_types pointers.now)) }
{
    for (n, pointer) in pointers.as_slice().iter().enumerate() {
        let ty = *pointer;
        put(plan, Instruction::ReturnPointerGet { n })?;
        put(plan, Instruction::Load { ty })?;
    }
    Ok(())
}
