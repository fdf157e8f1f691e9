//! One side of a call: a trace, how far it was run, and how it ends.

ghost use Rattle.std.specs.Prelude.{◌≡◌, ◌<◌, List, Some, IfOk, length};
ghost use Rattle.witx_machine.specs.Events as machine_events;
ghost use Rattle.witx_machine.specs.Machine.{ended};
ghost use Rattle.witx_run.specs.{MachineViews.{Noted, Setting, spot_in, state_in}, RunEnds.{EndsAs}};
ghost use Rattle.witx_run.specs.{SideEnds.{EndsSo, behind_event, halted}, Stops.{stuck_event}};
ghost use Rattle.witx_run.specs.Turns.{FramesFit};
ghost use Rattle.witx_run.specs.declared.progress.Stop.TheVariants as stop_specs;

use crate::domain::Domain;
use crate::item::Item;
use crate::machine::{Machine, MachineOf};
use crate::progress::{Progress, ProgressOf, Stop, run_on};
use crate::script::ScriptOf;
use std::alloc::Global;
use witx_base::{Id, OutOfMemory};

/// What a run of two traces is given, whichever of the two is run.
#[derive(Drop)]
pub(crate) struct Host<'a, D: Domain> {
    /// Where memory is taken.
    pub(crate) alloc: Global,
    /// What values, words and memories are.
    pub(crate) domain: &'a D,
    /// The module of the function.
    pub(crate) owner: &'a Id,
    /// What the interface replies with.
    pub(crate) reply: Option<&'a D::Value>,
}

/// A trace, and how far it was run. What runs it on takes it, and so does what gives it up.
#[derive(Drop)]
pub(crate) struct Side<'a, D: Domain> {
    /// What the run is given.
    pub(crate) host: &'a Host<'a, D>,
    /// The trace.
    pub(crate) script: &'a ScriptOf<'a, D>,
    /// How far it was run.
    pub(crate) progress: ProgressOf<D>,
}

/// How a trace ends that has made its call.
#[derive(Drop)]
pub(crate) enum End<V, W, M> {
    /// The event of this number, from 0, has no rule; one past the last where the trace doesn't return.
    Stuck(usize),
    /// It gave these items back, and this stood at the addresses.
    Returned { back: Vec<Item<V, W>>, memory: M },
}

/// How a trace ends that has made its call, over a domain.
pub(crate) type EndOf<D> = End<<D as Domain>::Value, <D as Domain>::Word, <D as Domain>::Memory>;

impl<'a, D: Domain> Side<'a, D> {
    /// The trace goes no further where it has halted: answers the event that has no rule.
    pub(crate) fn stuck(self, stop: Stop<'_>) -> usize
        ensures { result ≡ stuck_event (length self.entry.script.now.events.now) self.entry.progress.at stop.entry }
    {
        let event = self.stuck_event(stop);
        drop(self);
        event
    }

    fn stuck_event(&self, stop: Stop<'_>) -> usize
        ensures { result ≡ stuck_event (length self.now.script.now.events.now) self.now.progress.at stop.entry }
    {
        match stop {
            Stop::Stuck(event) => event,
            Stop::Over => self.script.events.len(),
            Stop::Wasm {
                module: _,
                name: _,
                params: _,
                results: _,
            } => self.progress.at,
            Stop::Interface {
                module: _,
                name: _,
                params: _,
                results: _,
            } => self.progress.at,
        }
    }

    /// Goes on behind the call to the trace's end.
    pub(crate) fn finish(mut self) -> Result<EndOf<D>, OutOfMemory>
        requires deep { FramesFit self.script.now self.progress }
        requires here { self.progress.at < self.progress.end }
        ensures { IfOk result (λ end. EndsSo D.Domain self.entry (behind_event D.Domain self.entry) end) }
    {
        let host = self.host;
        let script = self.script;
        let Ok(stop) = run_on(host.alloc, host.domain, &mut self.progress, script) else {
            drop(self);
            return Err(OutOfMemory);
        };
        Ok(self.end(stop))
    }

    /// How a trace ends that has halted here after its call: it makes no second one.
    fn end(self, stop: Stop<'_>) -> EndOf<D>
        ensures { EndsSo D.Domain self.entry (halted D.Domain self.entry stop.entry) result }
    {
        match stop {
            Stop::Over => self.over(),
            _ => End::Stuck(self.stuck(stop)),
        }
    }

    /// The trace is over: it has returned, or is stuck behind its last event.
    fn over(self) -> EndOf<D>
        ensures { EndsSo D.Domain self.entry (halted D.Domain self.entry stop_specs.Over) result }
    {
        let events = self.script.events.len();
        let Side {
            host: _,
            script: _,
            progress,
        } = self;
        let Progress {
            machine,
            frames,
            inside,
            at: _,
            end: _,
        } = progress;
        drop(frames);
        drop(inside);
        end_of_machine::<D>(machine, events)
    }
}

/// How a trace of so many events ends that is over.
fn end_of_machine<D: Domain>(machine: MachineOf<D>, events: usize) -> EndOf<D>
    ensures { (x : Setting D.V D.W D.M) (es : List machine_events.Event) (c : Noted D.V D.W D.M x.trace) →
        let now = state_in D.value_of D.word_of D.memory_of x es machine in
        EndsAs D.value_of D.word_of D.memory_of x c result (ended (spot_in x.trace events) (Some c) now.answer now) }
{
    let Machine {
        stack: _,
        slots: _,
        memory,
        blocks: _,
        returned: _,
        answer,
    } = machine;
    match answer {
        Some(back) => End::Returned { back, memory },
        None => End::Stuck(events),
    }
}
