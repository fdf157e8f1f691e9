//! How far a trace was run, and the turns that take it on, event by event. Blocks within blocks stand on a list
//! of frames, so a run takes no more of the program's own stack, however deep they are nested.

ghost use Rattle.std.specs.Prelude.{◌≡◌, ◌<◌, ◌≤◌, ◌||◌, [], length, true, None, is_none, IfOk};
ghost use Rattle.witx_ast.specs.Views.{named_tree};
ghost use Rattle.witx_machine.specs.Machine as machine_specs;
ghost use Rattle.witx_machine.specs.Machine.{went};
ghost use Rattle.witx_run.specs.{MachineViews.{Setting, state_in}, Nearing.{Falls}};
ghost use Rattle.witx_run.specs.{RowViews.{row_view, runs_nothing}, ScriptParts.{event_below}};
ghost use Rattle.witx_run.specs.StackRows.{tried_if};
ghost use Rattle.witx_run.specs.Turns.{ComesTo, FramesFit, HaltsAt, IsHere, TurnsHere, script_events, run_start, whole, whole_behind, whole_at, space_at, turned};

use crate::blocks::{Cases, leave, lift_result, lower_result, set_aside};
use crate::domain::Domain;
use crate::frame::Frame;
use crate::machine::{Inside, Machine, give_slot as machine_give, perform as machine_perform};
use crate::row::{Row, row_of};
use crate::script::ScriptOf;
use std::alloc::Global;
use std::rc::Rc;
use witx_ast::{NamedType, TypeRefs};
use witx_base::{Id, OutOfMemory};
use witx_instructions::{Event, WasmTypes};

/// Where a run of a trace has come: the machine, the blocks that are being run, the innermost last, and the
/// events that are left of the innermost, or of the trace.
#[derive(Drop)]
pub struct Progress<V, W, M> {
    /// The state.
    pub machine: Machine<V, W, M>,
    /// The blocks that are being run.
    pub frames: Vec<Frame<V, W>>,
    /// Where the next event stands.
    pub inside: Inside<V, W>,
    /// The next event.
    pub at: usize,
    /// The end of the events that are left.
    pub end: usize,
}

/// Where a run halts.
#[derive(Clone, Copy, PartialEq, Eq)]
pub enum Stop<'a> {
    /// At the event of this number, which has no rule.
    Stuck(usize),
    /// Behind the last event.
    Over,
    /// In front of a call of the function as WebAssembly has it.
    Wasm {
        /// Its module.
        module: &'a Id,
        /// Its name.
        name: &'a Id,
        /// The types of its parameters.
        params: &'a WasmTypes,
        /// The types of its results.
        results: &'a WasmTypes,
    },
    /// In front of a call of the function as the interface has it.
    Interface {
        /// Its module.
        module: &'a Id,
        /// Its name.
        name: &'a Id,
        /// The types of its parameters.
        params: &'a TypeRefs,
        /// The types of its results.
        results: &'a TypeRefs,
    },
}

/// What one turn makes of a run.
#[derive(Clone, Copy, PartialEq, Eq)]
pub enum Turn<'a> {
    /// It goes on.
    Advances,
    /// It halts.
    Stops(Stop<'a>),
}

/// How far a trace was run, over a domain.
pub(crate) type ProgressOf<D> = Progress<
    <D as Domain>::Value,
    <D as Domain>::Word,
    <D as Domain>::Memory,
>;

/// Nothing was run yet.
pub fn start<D: Domain>(alloc: Global, script: &ScriptOf<'_, D>, memory: D::Memory) -> ProgressOf<D>
    ensures comes { (d : machine_specs.Domain D.V D.W D.M) (x : Setting D.V D.W D.M) → x.called ≡ None →
        whole d D.value_of D.word_of D.memory_of x (script_events script.now) result
        ≡ run_start d D.value_of D.word_of D.memory_of x (script_events script.now) (D.memory_of memory) }
    ensures frames { result.frames.items ≡ [] }
{
    Progress {
        machine: Machine::new(alloc, memory),
        frames: Vec::new(alloc),
        inside: Inside::Outside,
        at: 0,
        end: script.events.len(),
    }
}

/// Runs until the trace's end, a call, or an event without a rule.
pub fn run<'a, D: Domain>(
    alloc: Global,
    domain: &D,
    progress: &mut ProgressOf<D>,
    script: &ScriptOf<'a, D>,
    has_called: bool,
) -> Result<Stop<'a>, OutOfMemory>
    requires { length progress.old.frames.items ≤ length script.now.events.now }
    ensures halts { IfOk result (λ stop.
        HaltsAt (D.domain domain.now) D.value_of D.word_of D.memory_of script.now has_called
        (λ x es. whole (D.domain domain.now) D.value_of D.word_of D.memory_of x es progress.old) progress.new stop) }
    ensures deep { IfOk result (λ _. length progress.new.frames.items ≤ length script.now.events.now) }
    ensures here { IfOk result (λ stop. IsHere progress.new stop) }
{
    'turns: loop {
        match take_turn(alloc, domain, progress, script, has_called)? {
            Turn::Advances => {}
            Turn::Stops(stop) => return Ok(stop),
        }
    }
}

/// Goes on behind a call that was made.
pub fn run_on<'a, D: Domain>(
    alloc: Global,
    domain: &D,
    progress: &mut ProgressOf<D>,
    script: &ScriptOf<'a, D>,
) -> Result<Stop<'a>, OutOfMemory>
    requires deep { length progress.old.frames.items ≤ length script.now.events.now }
    requires here { progress.old.at < progress.old.end }
    ensures { IfOk result (λ stop. HaltsAt (D.domain domain.now) D.value_of D.word_of D.memory_of script.now true
        (λ x es. whole_behind (D.domain domain.now) D.value_of D.word_of D.memory_of x es progress.old
        (went (state_in D.value_of D.word_of D.memory_of x es progress.old.machine))) progress.new stop) }
{
    match settle::<D>(progress, script, true) {
        Turn::Advances => run(alloc, domain, progress, script, true),
        Turn::Stops(stop) => Ok(stop),
    }
}

fn take_turn<'a, D: Domain>(
    alloc: Global,
    domain: &D,
    progress: &mut ProgressOf<D>,
    script: &ScriptOf<'a, D>,
    has_called: bool,
) -> Result<Turn<'a>, OutOfMemory>
    requires { FramesFit script.now progress.old }
    ensures comes { IfOk result (λ turn.
        ComesTo (D.domain domain.now) D.value_of D.word_of D.memory_of script.now has_called
        (λ x es. whole (D.domain domain.now) D.value_of D.word_of D.memory_of x es progress.old) progress.new turn) }
    ensures falls { IfOk result (λ turn. Falls 0 progress.old progress.new turn) }
    ensures deep { IfOk result (λ _. FramesFit script.now progress.new) }
    ensures here { IfOk result (λ turn. TurnsHere progress.new turn) }
{
    match script.event_at(progress.at, progress.end) {
        None => leave(alloc, domain, progress, script),
        Some(Event::Emit(step)) => run_step(
            alloc,
            domain,
            progress,
            script,
            has_called,
            row_of(step),
        ),
        Some(Event::Space { slot, ty }) => give_space(domain, progress, script, *slot, ty),
        Some(Event::Push) => set_aside::<D>(progress, script),
        Some(Event::Finish { value: _ }) => Ok(Turn::Stops(Stop::Stuck(progress.at))),
    }
}

fn run_step<'a, D: Domain>(
    alloc: Global,
    domain: &D,
    progress: &mut ProgressOf<D>,
    script: &ScriptOf<'a, D>,
    has_called: bool,
    row: Row<'a>,
) -> Result<Turn<'a>, OutOfMemory>
    requires here { progress.old.at < progress.old.end }
    requires deep { FramesFit script.now progress.old }
    ensures comes { IfOk result (λ turn.
        ComesTo (D.domain domain.now) D.value_of D.word_of D.memory_of script.now has_called
        (λ x es. whole_at (D.domain domain.now) D.value_of D.word_of D.memory_of x es progress.old
        (row_view row.entry)) progress.new turn) }
    ensures falls { IfOk result (λ turn. Falls 0 progress.old progress.new turn) }
    ensures deep { IfOk result (λ _. FramesFit script.now progress.new) }
    ensures here { IfOk result (λ turn. TurnsHere progress.new turn) }
{
    match row {
        Row::ResultLower { ok, err } => {
            lower_result(alloc, domain, progress, script, Cases { ok, err })
        }
        Row::ResultLift => lift_result(alloc, domain, progress, script),
        Row::CallWasm {
            module,
            name,
            params,
            results,
        } => Ok(Turn::Stops(Stop::Wasm {
            module,
            name,
            params,
            results,
        })),
        Row::CallInterface {
            module,
            name,
            params,
            results,
        } => Ok(Turn::Stops(Stop::Interface {
            module,
            name,
            params,
            results,
        })),
        _ => perform_plain(alloc, domain, progress, script, has_called, row),
    }
}

/// A step that runs no block and makes no call.
fn perform_plain<'a, D: Domain>(
    alloc: Global,
    domain: &D,
    progress: &mut ProgressOf<D>,
    script: &ScriptOf<'a, D>,
    has_called: bool,
    row: Row<'a>,
) -> Result<Turn<'a>, OutOfMemory>
    requires here { progress.old.at < progress.old.end }
    requires plain { runs_nothing (row_view row) ≡ true }
    ensures comes { IfOk result (λ turn.
        ComesTo (D.domain domain.now) D.value_of D.word_of D.memory_of script.now has_called
        (λ x es. whole_at (D.domain domain.now) D.value_of D.word_of D.memory_of x es progress.old
        (row_view row.entry)) progress.new turn) }
    ensures falls { IfOk result (λ turn. Falls 0 progress.old progress.new turn) }
    ensures frames { IfOk result (λ _. progress.new.frames ≡ progress.old.frames) }
    ensures here { IfOk result (λ turn. TurnsHere progress.new turn) }
{
    let went = machine_perform(
        alloc,
        domain,
        &mut progress.machine,
        row,
        script.arguments.as_slice(),
        has_called,
        &progress.inside,
    )?;
    Ok(settle::<D>(progress, script, went))
}

fn give_space<'a, D: Domain>(
    domain: &D,
    progress: &mut ProgressOf<D>,
    script: &ScriptOf<'a, D>,
    slot: usize,
    ty: &Rc<NamedType>,
) -> Result<Turn<'a>, OutOfMemory>
    requires { progress.old.at < progress.old.end }
    ensures comes { IfOk result (λ turn. (x : Setting D.V D.W D.M) →
        space_at (D.domain domain.now) D.value_of D.word_of D.memory_of x (script_events script.now) progress.old
        slot (named_tree ty.now.value)
        ≡ turned (D.domain domain.now) D.value_of D.word_of D.memory_of x (script_events script.now) progress.new turn) }
    ensures falls { IfOk result (λ turn. Falls 0 progress.old progress.new turn) }
    ensures frames { IfOk result (λ _. progress.new.frames ≡ progress.old.frames) }
    ensures here { IfOk result (λ turn. TurnsHere progress.new turn) }
{
    let went = machine_give(domain, &mut progress.machine, slot, ty)?;
    Ok(settle::<D>(progress, script, went))
}

/// The event at hand went, or has no rule. Goes on behind it; but a return has a rule only as the last event.
pub(crate) fn settle<'a, D: Domain>(
    progress: &mut ProgressOf<D>,
    script: &ScriptOf<'a, D>,
    went: bool,
) -> Turn<'a>
    requires { progress.old.at < progress.old.end }
    ensures comes { (d : machine_specs.Domain D.V D.W D.M) (x : Setting D.V D.W D.M) →
        whole_behind d D.value_of D.word_of D.memory_of x (script_events script.now) progress.old
        (tried_if went (state_in D.value_of D.word_of D.memory_of x (script_events script.now) progress.old.machine))
        ≡ turned d D.value_of D.word_of D.memory_of x (script_events script.now) progress.new result }
    ensures falls { Falls 0 progress.old progress.new result }
    ensures frames { progress.new.frames ≡ progress.old.frames }
    ensures here { TurnsHere progress.new result }
{
    if !went {
        return Turn::Stops(Stop::Stuck(progress.at));
    }
    let next = progress.at + 1;
    if !goes_to::<D>(progress, script, next) {
        return Turn::Stops(Stop::Stuck(progress.at));
    }
    progress.at = next;
    Turn::Advances
}

/// Whether the trace hasn't returned yet, or has no event of this number.
fn goes_to<D: Domain>(progress: &ProgressOf<D>, script: &ScriptOf<'_, D>, next: usize) -> bool
    ensures { result ≡ (is_none progress.now.machine.answer
        || is_none (event_below (script_events script.now) next progress.now.end)) }
{
    progress.machine.answer.is_none() || script.event_at(next, progress.end).is_none()
}
