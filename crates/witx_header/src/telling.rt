//! One event, kept as a trace of its own. A trace never fails, so where it refuses, it is memory that was wanting.

ghost use Rattle.std.specs.Prelude.{◌≡◌, ◌∷◌, [], IfOk, map};
ghost use Rattle.witx_ast.specs.Views.{named_tree};
ghost use Rattle.witx_machine.specs.Events.{emit, finish, push, space};
ghost use Rattle.witx_instructions.specs.Views.{event_of, step_of};

use std::alloc::Global;
use std::rc::Rc;
use witx_ast::NamedType;
use witx_base::OutOfMemory;
use witx_instructions::{Bindgen, Instruction, Trace};

/// A trace that tells this instruction and nothing else.
pub fn told_instruction(alloc: Global, inst: &Instruction<'_>) -> Result<Trace, OutOfMemory>
    ensures { IfOk result (λ told. map event_of told.events ≡ emit (step_of inst.now) ∷ []) }
{
    let mut told = Trace::new(alloc);
    let mut operands = vec![in alloc; 0; inst.operands_len()]?;
    let mut results = Vec::new(alloc);
    let Ok(()) = told.emit(inst, &mut operands, &mut results) else {
        return Err(OutOfMemory);
    };
    Ok(told)
}

/// A trace that tells that space for a value of this named type is taken, at this place among the spaces.
pub fn told_space(alloc: Global, slot: usize, ty: &Rc<NamedType>) -> Result<Trace, OutOfMemory>
    ensures { IfOk result (λ told. map event_of told.events ≡ space slot (named_tree ty.now.value) ∷ []) }
{
    let mut told = Trace::new(alloc);
    let Ok(()) = told.allocate_space(slot, ty) else {
        return Err(OutOfMemory);
    };
    Ok(told)
}

/// A trace that tells that a block begins.
pub fn told_block(alloc: Global) -> Result<Trace, OutOfMemory>
    ensures { IfOk result (λ told. map event_of told.events ≡ push ∷ []) }
{
    let mut told = Trace::new(alloc);
    let Ok(()) = told.push_block() else {
        return Err(OutOfMemory);
    };
    Ok(told)
}

/// A trace that tells that a block ends, with a value or without one.
pub fn told_end(alloc: Global, value: bool) -> Result<Trace, OutOfMemory>
    ensures { IfOk result (λ told. map event_of told.events ≡ finish value ∷ []) }
{
    let mut told = Trace::new(alloc);
    let operand = if value { Some(0) } else { None };
    let Ok(()) = told.finish_block(operand) else {
        return Err(OutOfMemory);
    };
    Ok(told)
}
