//! The run of a caller's trace against a callee's, and the caller's side of it.

ghost use Rattle.std.specs.Prelude.{◌≡◌, ◌<◌, List, Some, IfOk, map};
ghost use Rattle.witx_machine.specs.Events as machine_events;
ghost use Rattle.witx_machine.specs.Positions.{spotted_run};
ghost use Rattle.witx_instructions.specs.Views.{called, event_of};
ghost use Rattle.witx_run.specs.{OutcomeViews.{call_of, run_of}, RunEnds.{IsRunWith}};
ghost use Rattle.witx_run.specs.SideEnds.{CallerEnds, EndsAsCaller, EndsHanding, EndsTaking, ahead, at_row, behind_event, halted};
ghost use Rattle.witx_run.specs.{Stops.{wasm_row}, Views.{reply_of}, Turns.{FramesFit, IsHere}};

use crate::callee::{CalleeEnd, ReturnedOf};
use crate::calls::CallMadeOf;
use crate::domain::Domain;
use crate::naming::CallRow;
use crate::outcome::{Outcome, Run};
use crate::progress::{Stop, run, start};
use crate::script::Script;
use crate::side::{End, EndOf, Host, Side};
use crate::sides::argument_items;
use std::alloc::Global;
use witx_ast::InterfaceFunc;
use witx_base::{Id, OutOfMemory};
use witx_instructions::{Event, Events};
use witx_machine::WasmType;

/// What comes of a run of two traces, over a domain.
pub type RunOf<D> = Run<<D as Domain>::Value, <D as Domain>::Word, <D as Domain>::Memory>;

/// Runs a caller's trace of a function against a callee's, on these arguments: at the caller's call the callee's
/// runs on the words, at the callee's call the interface replies with this. Where an event has no rule, says which.
pub fn run_traces<D: Domain>(
    alloc: Global,
    domain: &D,
    module: &Id,
    func: &InterfaceFunc,
    caller: &Events,
    callee: &Events,
    arguments: &[D::Value],
    reply: Option<&D::Value>,
    memory: D::Memory,
) -> Result<RunOf<D>, OutOfMemory>
    ensures { IfOk result (λ run. run_of D.value_of D.word_of D.memory_of run ≡
        spotted_run (D.domain domain.now) «module».now (called func.now) (map event_of caller.now) (map event_of callee.now)
        (map D.value_of arguments.now) (reply_of D.value_of reply.entry) (D.memory_of memory)) }
{
    let items = argument_items(alloc, domain, func, arguments)?;
    let script = Script::new(alloc, caller.as_slice(), func, items)?;
    let host = Host {
        alloc,
        domain,
        owner: module,
        reply,
    };
    let side = Side {
        host: &host,
        script: &script,
        progress: start::<D>(alloc, &script, memory),
    };
    side.run_as_caller(callee.as_slice())
}

impl<'a, D: Domain> Side<'a, D> {
    /// Runs the caller's trace to its end.
    fn run_as_caller(mut self, callee: &[Event]) -> Result<RunOf<D>, OutOfMemory>
        requires { FramesFit self.script.now self.progress }
        ensures { IfOk result (CallerEnds D.Domain self.entry callee.now (ahead D.Domain self.entry)) }
    {
        let host = self.host;
        let script = self.script;
        let Ok(stop) = run(host.alloc, host.domain, &mut self.progress, script, false) else {
            drop(self);
            return Err(OutOfMemory);
        };
        self.caller_halted(stop, callee)
    }

    /// The caller's trace has halted before its call.
    fn caller_halted(self, stop: Stop<'_>, callee: &[Event]) -> Result<RunOf<D>, OutOfMemory>
        requires deep { FramesFit self.script.now self.progress }
        requires here { IsHere self.progress stop }
        ensures { IfOk result (CallerEnds D.Domain self.entry callee.now (halted D.Domain self.entry stop.entry)) }
    {
        match CallRow::of_wasm(stop) {
            Some(call) => self.call_wasm(call, callee),
            None => Ok(Run::StuckInCaller(self.stuck(stop))),
        }
    }

    /// Calls the function as WebAssembly has it, and goes on to the trace's end.
    fn call_wasm(
        mut self,
        call: CallRow<'_, WasmType>,
        callee: &[Event],
    ) -> Result<RunOf<D>, OutOfMemory>
        requires deep { FramesFit self.script.now self.progress }
        requires here { self.progress.at < self.progress.end }
        ensures { IfOk result (CallerEnds D.Domain self.entry callee.now
            (at_row D.Domain self.entry (wasm_row call.entry))) }
    {
        let host = self.host;
        let func = self.script.func;
        let Ok(taken) = host.take_words(&mut self.progress.machine, func, call) else {
            drop(self);
            return Err(OutOfMemory);
        };
        match taken {
            Some(words) => self.hand_on(words, callee),
            None => {
                let here = Stop::Stuck(self.progress.at);
                Ok(Run::StuckInCaller(self.stuck(here)))
            }
        }
    }

    /// Runs the callee on the words, and takes back what comes of it.
    fn hand_on(self, words: Vec<D::Word>, callee: &[Event]) -> Result<RunOf<D>, OutOfMemory>
        requires deep { FramesFit self.script.now self.progress }
        requires here { self.progress.at < self.progress.end }
        ensures { IfOk result (λ run. EndsHanding D.Domain self.entry (map event_of callee.now)
            (map D.word_of words.items) run) }
    {
        let host = self.host;
        let func = self.script.func;
        let slice = words.as_slice();
        let memory = &self.progress.machine.memory;
        let Ok(end) = host.run_callee(func, callee, slice, memory) else {
            drop(words);
            drop(self);
            return Err(OutOfMemory);
        };
        match end {
            CalleeEnd::Stuck(i) => {
                drop(words);
                drop(self);
                Ok(Run::StuckInCallee(i))
            }
            CalleeEnd::Returned(returned) => self.take_up(words, returned),
        }
    }

    /// Takes back what comes of the callee's run, and goes on to the trace's end.
    fn take_up(
        mut self,
        words: Vec<D::Word>,
        returned: ReturnedOf<D>,
    ) -> Result<RunOf<D>, OutOfMemory>
        requires deep { FramesFit self.script.now self.progress }
        requires here { self.progress.at < self.progress.end }
        ensures { IfOk result (λ run. (callee : List machine_events.Event) →
            EndsTaking D.Domain self.entry callee (map D.word_of words.items) returned run) }
    {
        let host = self.host;
        let func = self.script.func;
        let Ok(made) = host.take_back(&mut self.progress.machine, func, words, returned) else {
            drop(self);
            return Err(OutOfMemory);
        };
        match made {
            Some(call) => self.finish_caller(call),
            None => {
                let here = Stop::Stuck(self.progress.at);
                Ok(Run::StuckInCaller(self.stuck(here)))
            }
        }
    }

    /// Goes on behind the call, of which this is known.
    fn finish_caller(self, call: CallMadeOf<D>) -> Result<RunOf<D>, OutOfMemory>
        requires deep { FramesFit self.script.now self.progress }
        requires here { self.progress.at < self.progress.end }
        ensures { IfOk result (λ run. (callee : List machine_events.Event) → EndsAsCaller D.Domain self.entry callee
            (Some (call_of D.value_of D.word_of D.memory_of call)) (behind_event D.Domain self.entry) run) }
    {
        let end = self.finish()?;
        Ok(run_with_call::<D>(call, end))
    }
}

fn run_with_call<D: Domain>(call: CallMadeOf<D>, end: EndOf<D>) -> RunOf<D>
    ensures { IsRunWith D.value_of D.word_of D.memory_of (call_of D.value_of D.word_of D.memory_of call) end result }
{
    match end {
        End::Stuck(i) => Run::StuckInCaller(i),
        End::Returned { back, memory } => Run::Ended(Outcome { call, back, memory }),
    }
}
