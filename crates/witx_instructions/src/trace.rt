//! A generator that records its events.

ghost use Rattle.std.specs.Prelude.{◌≡◌, [], map, All, IfOk, None, OnOk, Some, is_some, vec_len};
ghost use Rattle.witx_machine.specs.{Events.{emit, finish}, Rows.{operands_count}};
ghost use Rattle.witx_instructions.specs.Views.{event_of, planned_events, step_of};
ghost use Rattle.witx_instructions.specs.Told.{told_after, is_fault, Counts};
ghost use Rattle.witx_instructions.specs.Handed.{LeavesResults, emitted, ended};

use crate::bindgen::{Bindgen, BindgenError};
use crate::event::{Event, Events, Step};
use crate::instruction::Instruction;
use crate::kept::kept_event;
use crate::plan::Plan;
use std::alloc::Global;
use std::rc::Rc;
use witx_ast::NamedType;
use witx_base::{Items, OutOfMemory};

/// A generator that records the events of a trace, and never fails. Its operands are all 0.
#[derive(Drop)]
pub struct Trace {
    events: Events,
}

impl Trace {
    /// A trace without events; takes no memory.
    pub fn new(alloc: Global) -> Trace
        ensures { result.events ≡ [] }
    {
        Trace {
            events: Items::new(alloc),
        }
    }

    /// The trace of a plan.
    pub fn of(alloc: Global, plan: &Plan<'_>) -> Result<Trace, OutOfMemory>
        ensures { IfOk result (λ trace. map event_of trace.events ≡ planned_events plan.now) }
    {
        let mut events = Items::new(alloc);
        events.reserve(plan.len())?;
        for planned in plan.as_slice() {
            events.push(kept_event(alloc, planned)?)?;
        }
        Ok(Trace { events })
    }

    /// The events so far.
    pub fn events(&self) -> &Events
        ensures { result.now ≡ self.now.events }
    {
        &self.events
    }
}

impl Bindgen for Trace {
    type Operand = u8;

    ghost told = { λ trace. Some (map event_of trace.events) };

    ghost calls = { λ _. None };

    ghost faults = { λ trace. 0 };

    fn emit(
        &mut self,
        inst: &Instruction<'_>,
        _operands: &mut Vec<u8>,
        results: &mut Vec<u8>,
    ) -> Result<(), BindgenError>
        requires operands { vec_len _operands.old ≡ operands_count (step_of inst.now) }
        requires results { results.old.items ≡ [] }
        ensures filled { LeavesResults result inst.now results.new }
        ensures zeros { OnOk result (All (λ operand. operand ≡ 0) results.new.items) }
        ensures event { Some (map event_of self.new.events)
            ≡ told_after result (emit (step_of inst.now)) (Some (map event_of self.old.events)) }
        ensures call { None ≡ told_after result (emitted (step_of inst.now) _operands.old.items results.new.items) None }
        ensures cause { Counts (is_fault result) 0 0 }
    {
        results.resize(inst.results_len(), 0)?;
        let step = Step::of(self.events.allocator(), inst)?;
        self.events.push(Event::Emit(step))?;
        Ok(())
    }

    fn allocate_space(&mut self, slot: usize, ty: &Rc<NamedType>) -> Result<(), BindgenError> {
        let ty = ty.clone()?;
        self.events.push(Event::Space { slot, ty })?;
        Ok(())
    }

    fn push_block(&mut self) -> Result<(), BindgenError> {
        self.events.push(Event::Push)?;
        Ok(())
    }

    fn finish_block(&mut self, operand: Option<u8>) -> Result<(), BindgenError>
        ensures event { Some (map event_of self.new.events)
            ≡ told_after result (finish (is_some operand)) (Some (map event_of self.old.events)) }
        ensures call { None ≡ told_after result (ended operand) None }
        ensures cause { Counts (is_fault result) 0 0 }
    {
        self.events.push(Event::Finish {
            value: operand.is_some(),
        })?;
        Ok(())
    }
}
