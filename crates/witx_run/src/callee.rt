//! The callee's side of a call: its trace, which calls the interface.

ghost use Rattle.std.specs.Prelude.{◌<◌, None, Some, IfOk, map};
ghost use Rattle.witx_instructions.specs.Views.{called, event_of};
ghost use Rattle.witx_run.specs.RunEnds.{IsEndWith};
ghost use Rattle.witx_run.specs.SideEnds.{EndsAsCallee, HostRuns, ahead, at_row, behind_event, halted};
ghost use Rattle.witx_run.specs.{Stops.{interface_row}, Turns.{FramesFit, IsHere}};

use crate::domain::Domain;
use crate::item::Item;
use crate::naming::CallRow;
use crate::progress::{Stop, run, start};
use crate::script::Script;
use crate::side::{End, EndOf, Host, Side};
use crate::sides::word_items;
use witx_ast::{InterfaceFunc, TypeRef};
use witx_base::OutOfMemory;
use witx_instructions::Event;

/// How the callee's trace ends.
#[derive(Drop)]
pub(crate) enum CalleeEnd<V, W, M> {
    /// The event of this number, from 0, has no rule; one past the last where the trace doesn't return.
    Stuck(usize),
    /// It has returned.
    Returned(Returned<V, W, M>),
}

/// What comes of a callee's trace that has returned.
#[derive(Drop)]
pub(crate) struct Returned<V, W, M> {
    /// The values with which it called the interface.
    pub(crate) noted: Vec<V>,
    /// What it gave back.
    pub(crate) back: Vec<Item<V, W>>,
    /// What stood at the addresses.
    pub(crate) memory: M,
}

/// How the callee's trace ends, over a domain.
pub(crate) type CalleeEndOf<D> = CalleeEnd<
    <D as Domain>::Value,
    <D as Domain>::Word,
    <D as Domain>::Memory,
>;

/// What comes of it, over a domain.
pub(crate) type ReturnedOf<D> = Returned<
    <D as Domain>::Value,
    <D as Domain>::Word,
    <D as Domain>::Memory,
>;

impl<'a, D: Domain> Host<'a, D> {
    /// Runs the callee's trace on these words, on a copy of what stands at the addresses.
    pub(crate) fn run_callee(
        &self,
        func: &InterfaceFunc,
        events: &[Event],
        words: &[D::Word],
        memory: &D::Memory,
    ) -> Result<CalleeEndOf<D>, OutOfMemory>
        ensures { IfOk result (λ end. HostRuns D.Domain self.now (called func.now) (map event_of events.now)
            (map D.word_of words.now) (D.memory_of memory.now) end) }
    {
        let arguments = word_items(self.alloc, self.domain, words)?;
        let script = Script::new(self.alloc, events, func, arguments)?;
        let copy = self.domain.copy_memory(memory)?;
        let side = Side {
            host: self,
            script: &script,
            progress: start::<D>(self.alloc, &script, copy),
        };
        side.run_as_callee()
    }
}

impl<'a, D: Domain> Side<'a, D> {
    /// Runs the callee's trace to its end.
    fn run_as_callee(mut self) -> Result<CalleeEndOf<D>, OutOfMemory>
        requires { FramesFit self.script.now self.progress }
        ensures { IfOk result (λ end. EndsAsCallee D.Domain self.entry None (ahead D.Domain self.entry) end) }
    {
        let host = self.host;
        let script = self.script;
        let Ok(stop) = run(host.alloc, host.domain, &mut self.progress, script, false) else {
            drop(self);
            return Err(OutOfMemory);
        };
        self.callee_halted(stop)
    }

    /// The callee's trace has halted before its call.
    fn callee_halted(self, stop: Stop<'_>) -> Result<CalleeEndOf<D>, OutOfMemory>
        requires deep { FramesFit self.script.now self.progress }
        requires here { IsHere self.progress stop }
        ensures { IfOk result (λ end. EndsAsCallee D.Domain self.entry None
            (halted D.Domain self.entry stop.entry) end) }
    {
        match CallRow::of_interface(stop) {
            Some(call) => self.call_interface(call),
            None => Ok(CalleeEnd::Stuck(self.stuck(stop))),
        }
    }

    /// Calls the interface, and goes on to the trace's end.
    fn call_interface(mut self, call: CallRow<'_, TypeRef>) -> Result<CalleeEndOf<D>, OutOfMemory>
        requires deep { FramesFit self.script.now self.progress }
        requires here { self.progress.at < self.progress.end }
        ensures { IfOk result (λ end. EndsAsCallee D.Domain self.entry None
            (at_row D.Domain self.entry (interface_row call.entry)) end) }
    {
        let host = self.host;
        let func = self.script.func;
        let Ok(answer) = host.reply_to(&mut self.progress.machine, func, call) else {
            drop(self);
            return Err(OutOfMemory);
        };
        match answer {
            Some(noted) => self.finish_callee(noted),
            None => {
                let here = Stop::Stuck(self.progress.at);
                Ok(CalleeEnd::Stuck(self.stuck(here)))
            }
        }
    }

    /// Goes on behind the call, at which these values were noted.
    fn finish_callee(self, noted: Vec<D::Value>) -> Result<CalleeEndOf<D>, OutOfMemory>
        requires deep { FramesFit self.script.now self.progress }
        requires here { self.progress.at < self.progress.end }
        ensures { IfOk result (λ end. EndsAsCallee D.Domain self.entry (Some (map D.value_of noted.items))
            (behind_event D.Domain self.entry) end) }
    {
        let end = self.finish()?;
        Ok(end_with_notes::<D>(noted, end))
    }
}

fn end_with_notes<D: Domain>(noted: Vec<D::Value>, end: EndOf<D>) -> CalleeEndOf<D>
    ensures { IsEndWith D.value_of D.word_of D.memory_of (map D.value_of noted.items) end result }
{
    match end {
        End::Stuck(i) => CalleeEnd::Stuck(i),
        End::Returned { back, memory } => CalleeEnd::Returned(Returned {
            noted,
            back,
            memory,
        }),
    }
}
