//! A generator that fails at listed calls.

ghost use Rattle.std.specs.Prelude.{◌≡◌, ℕ, [], map, All, None, Some, is_some, vec_len, OnOk};
ghost use Rattle.witx_base.specs.Calls.{counted, fails_next, no_calls};
ghost use Rattle.witx_ast.specs.Views.{named_tree};
ghost use Rattle.witx_machine.specs.{Events.{emit, space, push, finish}, Rows.{operands_count}};
ghost use Rattle.witx_instructions.specs.Views.{event_of, step_of};
ghost use Rattle.witx_instructions.specs.{Told.{CountsFault, told_after, is_fault}, Failing.{failed_count}};
ghost use Rattle.witx_instructions.specs.Handed.{GeneratorCall, LeavesResults, emitted, made_room, began, ended};

use crate::bindgen::{Bindgen, BindgenError};
use crate::event::Events;
use crate::instruction::Instruction;
use crate::trace::Trace;
use std::rc::Rc;
use witx_ast::NamedType;
use witx_base::{CallCounter, Calls};

/// A trace some of whose calls fail: exactly those with the listed numbers, counted from 0 over all
/// four kinds of call. A call that fails records no event.
#[derive(Drop)]
pub struct FailingBindgen {
    trace: Trace,
    calls: CallCounter,
}

impl FailingBindgen {
    /// The trace, of whose calls from now on those in `fails` fail.
    pub fn new(trace: Trace, fails: Calls) -> FailingBindgen
        ensures trace { result.trace ≡ trace }
        ensures calls { result.calls ≡ no_calls fails }
    {
        FailingBindgen {
            trace,
            calls: CallCounter::new(fails),
        }
    }

    /// The events so far.
    pub fn events(&self) -> &Events
        ensures { result.now ≡ self.now.trace.events }
    {
        self.trace.events()
    }

    /// How many calls have failed.
    pub fn faults(&self) -> u64
        ensures { result ≡ failed_count self.now }
    {
        self.calls.faults()
    }
}

impl Bindgen for FailingBindgen {
    type Operand = u8;

    ghost told = { λ bindgen. Some (map event_of bindgen.trace.events) };

    ghost calls = { λ _. None };

    ghost faults = { failed_count };

    fn emit(
        &mut self,
        inst: &Instruction<'_>,
        operands: &mut Vec<u8>,
        results: &mut Vec<u8>,
    ) -> Result<(), BindgenError>
        requires operands { vec_len operands.old ≡ operands_count (step_of inst.now) }
        requires results { results.old.items ≡ [] }
        ensures filled { LeavesResults result inst.now results.new }
        ensures zeros { OnOk result (All (λ operand. operand ≡ 0) results.new.items) }
        ensures event { Some (map event_of self.new.trace.events)
            ≡ told_after result (emit (step_of inst.now)) (Some (map event_of self.old.trace.events)) }
        ensures call { None ≡ told_after result (emitted (step_of inst.now) operands.old.items results.new.items) None }
        ensures cause { CountsFault failed_count result self.old self.new }
        ensures fails { is_fault result ≡ fails_next self.old.calls }
        ensures counted { self.new.calls ≡ counted (is_fault result) self.old.calls }
    {
        self.calls.count()?;
        self.trace.emit(inst, operands, results)
    }

    fn allocate_space(&mut self, slot: usize, ty: &Rc<NamedType>) -> Result<(), BindgenError>
        ensures event { Some (map event_of self.new.trace.events)
            ≡ told_after result (space slot (named_tree ty.now.value)) (Some (map event_of self.old.trace.events)) }
        ensures call { None ≡ told_after {A = GeneratorCall ℕ} result (made_room slot (named_tree ty.now.value)) None }
        ensures cause { CountsFault failed_count result self.old self.new }
        ensures fails { is_fault result ≡ fails_next self.old.calls }
        ensures counted { self.new.calls ≡ counted (is_fault result) self.old.calls }
    {
        self.calls.count()?;
        self.trace.allocate_space(slot, ty)
    }

    fn push_block(&mut self) -> Result<(), BindgenError>
        ensures event { Some (map event_of self.new.trace.events)
            ≡ told_after result push (Some (map event_of self.old.trace.events)) }
        ensures call { None ≡ told_after {A = GeneratorCall ℕ} result began None }
        ensures cause { CountsFault failed_count result self.old self.new }
        ensures fails { is_fault result ≡ fails_next self.old.calls }
        ensures counted { self.new.calls ≡ counted (is_fault result) self.old.calls }
    {
        self.calls.count()?;
        self.trace.push_block()
    }

    fn finish_block(&mut self, operand: Option<u8>) -> Result<(), BindgenError>
        ensures event { Some (map event_of self.new.trace.events)
            ≡ told_after result (finish (is_some operand)) (Some (map event_of self.old.trace.events)) }
        ensures call { None ≡ told_after result (ended operand) None }
        ensures cause { CountsFault failed_count result self.old self.new }
        ensures fails { is_fault result ≡ fails_next self.old.calls }
        ensures counted { self.new.calls ≡ counted (is_fault result) self.old.calls }
    {
        self.calls.count()?;
        self.trace.finish_block(operand)
    }
}
