//! Plans of events, and how they are handed to a generator.
#![tactic(auto, using(crate::proofs::Plans::plan_rules))]

ghost use Rattle.std.specs.Prelude.{◌≡◌, ◌<◌, ◌≤◌, ◌∷◌, ◌++◌, [], None, Some, true, IfOk, OnOk, OnErr, IsSome, vec_len};
ghost use Rattle.witx_machine.specs.Events as machine;
ghost use Rattle.witx_machine.specs.{Rows.{operands_count}, Heights.{height_after, heights}};
ghost use Rattle.witx_instructions.specs.Views.{planned_event, planned_events, step_of};
ghost use Rattle.witx_instructions.specs.Calling.{call_of_interface};
ghost use Rattle.witx_instructions.specs.Told.{told_further, TellsFront, CountsFault, CountsPlanFault, unlowerable_place};
ghost use Rattle.witx_instructions.specs.Handed.{InOrder, OperandsInOrder, FrontInOrder};

use crate::bindgen::{Bindgen, BindgenError};
use crate::error::AbiError;
use crate::instruction::{Instruction, WasmTypes};
use std::alloc::Global;
use std::rc::Rc;
use witx_ast::{InterfaceFunc, NamedType};
use witx_base::{Id, Items, OutOfMemory};

/// One event to come, with what it speaks of borrowed.
#[derive(Drop)]
pub enum Planned<'a> {
    Emit(Instruction<'a>),
    /// The call of the function as WebAssembly has it. Its names are no texts, so that a trace shares them.
    CallWasm {
        module: &'a Id,
        name: &'a Id,
        params: &'a WasmTypes,
        results: &'a WasmTypes,
    },
    /// The call of the function as the interface has it.
    CallInterface {
        module: &'a Id,
        func: &'a InterfaceFunc,
    },
    Space {
        slot: usize,
        ty: &'a Rc<NamedType>,
    },
    Push,
    Finish {
        value: bool,
    },
}

/// The events to come, in order.
pub type Plan<'a> = Items<Planned<'a>>;

/// How many events a plan takes memory for at once; few functions have more on one side.
const ROOM: usize = 32;

/// A plan without events.
pub fn new_plan<'a>(alloc: Global) -> Result<Plan<'a>, OutOfMemory>
    ensures { IfOk result (λ plan. plan ≡ []) }
{
    let mut plan: Plan<'a> = Items::new(alloc);
    plan.reserve(ROOM)?;
    Ok(plan)
}

/// Appends an event to the plan.
pub fn add<'a>(plan: &mut Plan<'a>, event: Planned<'a>) -> Result<(), OutOfMemory>
    ensures { IfOk result (λ _. planned_events plan.new ≡ planned_events plan.old ++ planned_event event.entry ∷ []) }
{
    plan.push(event)
}

/// Appends an instruction to the plan.
pub fn put<'a>(plan: &mut Plan<'a>, instruction: Instruction<'a>) -> Result<(), OutOfMemory>
    ensures { IfOk result (λ _. planned_events plan.new
        ≡ planned_events plan.old ++ machine.emit (step_of instruction.entry) ∷ []) }
{
    add(plan, Planned::Emit(instruction))
}

/// Hands the events of a plan to a generator; each instruction gets the operands that earlier ones left, in order.
pub fn play<B: Bindgen>(alloc: Global, plan: &Plan<'_>, bindgen: &mut B) -> Result<(), AbiError>
    requires { IsSome (heights (planned_events plan.now) 0) }
    ensures events { OnOk result (B.told bindgen.new ≡ told_further (B.told bindgen.old) (planned_events plan.now)) }
    ensures front { OnErr result (TellsFront (planned_events plan.now) (B.told bindgen.old) (B.told bindgen.new)) }
    ensures operands { OnOk result (OperandsInOrder (planned_events plan.now) (B.calls bindgen.old) (B.calls bindgen.new)) }
    ensures front_operands { OnErr result
        (FrontInOrder (planned_events plan.now) (B.calls bindgen.old) (B.calls bindgen.new) []) }
    ensures place { unlowerable_place result ≡ None }
    ensures cause { CountsPlanFault B.faults result bindgen.old bindgen.new }
{
    let mut stack = Vec::new(alloc);
    for planned in plan.as_slice() {
        play_one(alloc, planned, &mut stack, bindgen)?;
    }
    Ok(())
}

// One event. After a refusal it may have been told.
fn play_one<B: Bindgen>(
    alloc: Global,
    planned: &Planned<'_>,
    stack: &mut Vec<B::Operand>,
    bindgen: &mut B,
) -> Result<(), BindgenError>
    requires { IsSome (height_after (planned_event planned.now) (vec_len stack.old)) }
    ensures height { OnOk result (height_after (planned_event planned.now) (vec_len stack.old) ≡ Some (vec_len stack.new)) }
    ensures event { OnOk result (B.told bindgen.new ≡ told_further (B.told bindgen.old) (planned_event planned.now ∷ [])) }
    ensures front { OnErr result (TellsFront (planned_event planned.now ∷ []) (B.told bindgen.old) (B.told bindgen.new)) }
    ensures operands { OnOk result (InOrder (planned_event planned.now
        ∷ []) (B.calls bindgen.old) (B.calls bindgen.new) stack.old.items stack.new.items) }
    ensures front_operands { OnErr result (FrontInOrder (planned_event planned.now
        ∷ []) (B.calls bindgen.old) (B.calls bindgen.new) stack.old.items) }
    ensures cause { CountsFault B.faults result bindgen.old bindgen.new }
{
    match planned {
        Planned::Emit(instruction) => emit(alloc, instruction, stack, bindgen),
        Planned::CallWasm {
            module,
            name,
            params,
            results,
        } => {
            let call = wasm_call(module, name, params, results);
            emit(alloc, &call, stack, bindgen)
        }
        Planned::CallInterface { module, func } => {
            let call = interface_call(module, func);
            emit(alloc, &call, stack, bindgen)
        }
        Planned::Space { slot, ty } => bindgen.allocate_space(*slot, ty),
        Planned::Push => bindgen.push_block(),
        Planned::Finish { value: true } => finish(stack, bindgen),
        Planned::Finish { value: false } => bindgen.finish_block(None),
    }
}

fn wasm_call<'a>(
    module: &'a Id,
    name: &'a Id,
    params: &'a WasmTypes,
    results: &'a WasmTypes,
) -> Instruction<'a>
    ensures { step_of result ≡ machine.Step.CallWasm «module».now name.now params.now results.now }
{
    Instruction::CallWasm {
        module: module.as_str(),
        name: name.as_str(),
        params,
        results,
    }
}

fn interface_call<'a>(module: &'a Id, func: &'a InterfaceFunc) -> Instruction<'a>
    ensures { step_of result ≡ call_of_interface «module».now func.now }
{
    Instruction::CallInterface {
        module: module.as_str(),
        func,
    }
}

// The end of a block, with the operand on top of the stack.
fn finish<B: Bindgen>(stack: &mut Vec<B::Operand>, bindgen: &mut B) -> Result<(), BindgenError>
    requires { 0 < vec_len stack.old }
    ensures height { OnOk result (height_after (machine.finish true) (vec_len stack.old) ≡ Some (vec_len stack.new)) }
    ensures event { OnOk result (B.told bindgen.new ≡ told_further (B.told bindgen.old) (machine.finish true ∷ [])) }
    ensures front { OnErr result (TellsFront (machine.finish true ∷ []) (B.told bindgen.old) (B.told bindgen.new)) }
    ensures operands { OnOk result (InOrder (machine.finish true
        ∷ []) (B.calls bindgen.old) (B.calls bindgen.new) stack.old.items stack.new.items) }
    ensures front_operands { OnErr result (FrontInOrder (machine.finish true
        ∷ []) (B.calls bindgen.old) (B.calls bindgen.new) stack.old.items) }
    ensures cause { CountsFault B.faults result bindgen.old bindgen.new }
{
    let operand = stack.pop();
    bindgen.finish_block(operand)
}

// One instruction, with its operands off the stack; its results go onto the stack.
fn emit<B: Bindgen>(
    alloc: Global,
    instruction: &Instruction<'_>,
    stack: &mut Vec<B::Operand>,
    bindgen: &mut B,
) -> Result<(), BindgenError>
    requires { operands_count (step_of instruction.now) ≤ vec_len stack.old }
    ensures height { OnOk result (height_after (machine.emit (step_of instruction.now)) (vec_len stack.old)
        ≡ Some (vec_len stack.new)) }
    ensures event { OnOk result (B.told bindgen.new
        ≡ told_further (B.told bindgen.old) (machine.emit (step_of instruction.now) ∷ [])) }
    ensures front { OnErr result (TellsFront (machine.emit (step_of instruction.now)
        ∷ []) (B.told bindgen.old) (B.told bindgen.new)) }
    ensures operands { OnOk result
        (InOrder (machine.emit (step_of instruction.now) ∷ []) (B.calls bindgen.old) (B.calls bindgen.new) stack.old.items stack.new.items) }
    ensures front_operands { OnErr result (FrontInOrder (machine.emit (step_of instruction.now)
        ∷ []) (B.calls bindgen.old) (B.calls bindgen.new) stack.old.items) }
    ensures cause { CountsFault B.faults result bindgen.old bindgen.new }
{
    let rest = stack.len() - instruction.operands_len();
    let mut operands = stack.split_off(rest)?;
    let mut results = Vec::new(alloc);
    bindgen.emit(instruction, &mut operands, &mut results)?;
    stack.append(&mut results)?;
    Ok(())
}
