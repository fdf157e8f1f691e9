//! What a generator of code is: a trait with four calls, one for each kind of event.

ghost use Rattle.std.specs.Prelude.{◌≡◌, ℕ, List, Option, [], is_some, vec_len};
ghost use Rattle.witx_machine.specs.{Rows.{operands_count}, Events.{Event, emit, space, push, finish}};
ghost use Rattle.witx_ast.specs.Views.{named_tree};
ghost use Rattle.witx_instructions.specs.{Views.{step_of}, Told.{CountsFault, told_after}};
ghost use Rattle.witx_instructions.specs.Handed.{GeneratorCall, LeavesResults, emitted, made_room, began, ended};

use crate::instruction::Instruction;
use std::alloc::{AllocError, AllocFailed};
use std::rc::Rc;
use witx_ast::NamedType;
use witx_base::{Failed, OutOfMemory};

/// Why a generator refused an event.
#[derive(Clone, Copy, PartialEq, Eq)]
pub enum BindgenError {
    /// It counted a fault.
    Failed,
    OutOfMemory,
}

impl From<OutOfMemory> for BindgenError {
    ghost use Rattle.witx_instructions.specs.declared.bindgen.BindgenError.{BindgenError};

    ghost from_gives = { λ refused error. error ≡ BindgenError.OutOfMemory };

    fn from(_refused: OutOfMemory) -> BindgenError {
        BindgenError::OutOfMemory
    }
}

impl From<AllocError> for BindgenError {
    ghost use Rattle.witx_instructions.specs.declared.bindgen.BindgenError.{BindgenError};

    ghost from_gives = { λ refused error. error ≡ BindgenError.OutOfMemory };

    fn from(_refused: AllocError) -> BindgenError {
        BindgenError::OutOfMemory
    }
}

// For `push(operand)?` of a generator.
impl<T: Drop> From<AllocFailed<T>> for BindgenError {
    ghost use Rattle.witx_instructions.specs.declared.bindgen.BindgenError.{BindgenError};

    ghost from_gives = { λ refused error. error ≡ BindgenError.OutOfMemory };

    fn from(_refused: AllocFailed<T>) -> BindgenError {
        BindgenError::OutOfMemory
    }
}

impl From<Failed> for BindgenError {
    ghost use Rattle.witx_instructions.specs.declared.bindgen.BindgenError.{BindgenError};

    ghost from_gives = { λ fault error. error ≡ BindgenError.Failed };

    fn from(_fault: Failed) -> BindgenError {
        BindgenError::Failed
    }
}

/// A generator of code for one side of a call: it is handed the side's events in order.
///
/// What it makes of operands is its own affair; an instruction takes as many as
/// [`Instruction::operands_len`] says, and leaves [`Instruction::results_len`] results.
pub trait Bindgen {
    /// What stands for a value or a word in the code that is generated.
    type Operand: Drop;

    /// The events so far, where the generator tells them.
    ghost told: { Self → Option (List Event) };

    /// The calls so far, with the operands that passed, where the generator tells them.
    ghost calls: { Self → Option (List (GeneratorCall Self.Operand)) };

    /// How often it has failed.
    ghost faults: { Self → ℕ };

    /// Takes an instruction with its operands, and pushes its results.
    fn emit(
        &mut self,
        inst: &Instruction<'_>,
        operands: &mut Vec<Self::Operand>,
        results: &mut Vec<Self::Operand>,
    ) -> Result<(), BindgenError>
        requires operands { vec_len operands.old ≡ operands_count (step_of inst.now) }
        requires results { results.old.items ≡ [] }
        ensures filled { LeavesResults result inst.now results.new }
        ensures event { told self.new ≡ told_after result (emit (step_of inst.now)) (told self.old) }
        ensures call { calls self.new ≡ told_after result
            (emitted (step_of inst.now) operands.old.items results.new.items) (calls self.old) }
        ensures cause { CountsFault faults result self.old self.new };

    /// Makes room for a result of this type, under the number of a slot.
    fn allocate_space(&mut self, slot: usize, ty: &Rc<NamedType>) -> Result<(), BindgenError>
        ensures event { told self.new ≡ told_after result (space slot (named_tree ty.now.value)) (told self.old) }
        ensures call { calls self.new ≡ told_after result (made_room slot (named_tree ty.now.value)) (calls self.old) }
        ensures cause { CountsFault faults result self.old self.new };

    /// Begins a block.
    fn push_block(&mut self) -> Result<(), BindgenError>
        ensures event { told self.new ≡ told_after result push (told self.old) }
        ensures call { calls self.new ≡ told_after result began (calls self.old) }
        ensures cause { CountsFault faults result self.old self.new };

    /// Ends the innermost block, with the operand that it leaves, if it leaves one.
    fn finish_block(&mut self, operand: Option<Self::Operand>) -> Result<(), BindgenError>
        ensures event { told self.new ≡ told_after result (finish (is_some operand)) (told self.old) }
        ensures call { calls self.new ≡ told_after result (ended operand) (calls self.old) }
        ensures cause { CountsFault faults result self.old self.new };
}
