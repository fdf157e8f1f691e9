//! A trace as it is run.

ghost use Rattle.std.specs.Prelude.{◌≡◌, ◌<◌, suc, map, drop, Some, slice_get, option_map, IfOk};
ghost use Rattle.witx_instructions.specs.Views.{event_of};
ghost use Rattle.witx_machine.specs.Events.{push};
ghost use Rattle.witx_run.specs.BlockEnds.{block_ends, ends_from, first};
ghost use Rattle.witx_run.specs.ScriptParts.{event_below, finish_value, BlockFound};

use crate::domain::Domain;
use crate::item::Item;
use crate::machine::Block;
use crate::matching::ends_of_blocks;
use std::alloc::Global;
use witx_ast::InterfaceFunc;
use witx_base::OutOfMemory;
use witx_instructions::Event;

/// The events of a trace with what its steps look at and a run doesn't change.
#[derive(Drop)]
pub struct Script<'a, V, W> {
    /// The events.
    pub events: &'a [Event],
    /// For each event, the end of a block that would begin there.
    pub(crate) ends: Vec<Option<usize>>,
    /// The function.
    pub func: &'a InterfaceFunc,
    /// What the trace is given: the caller's values, or the callee's words.
    pub arguments: Vec<Item<V, W>>,
    ghost table: { ends.items ≡ block_ends 0 (map event_of events.now) },
}

impl<'a, V: Drop, W: Drop> Script<'a, V, W> {
    /// A trace of a function, which is given these arguments.
    pub fn new(
        alloc: Global,
        events: &'a [Event],
        func: &'a InterfaceFunc,
        arguments: Vec<Item<V, W>>,
    ) -> Result<Script<'a, V, W>, OutOfMemory>
        ensures events { IfOk result (λ script. script.events ≡ events.entry) }
        ensures func { IfOk result (λ script. script.func ≡ func.entry) }
        ensures arguments { IfOk result (λ script. script.arguments ≡ arguments) }
    {
        let ends = ends_of_blocks(alloc, events)?;
        Ok(Script {
            events,
            ends,
            func,
            arguments,
        })
    }

    /// The event of this number, where that is below the end.
    pub(crate) fn event_at(&self, at: usize, end: usize) -> Option<&'a Event>
        ensures { option_map (λ e. event_of e.now) result ≡ event_below (map event_of self.now.events.now) at end }
    {
        if at < end { self.events.get(at) } else { None }
    }

    /// The block that begins at a push, where it ends below this end.
    pub(crate) fn block_at(&self, at: usize, end: usize) -> Option<Block>
        requires below { at < end }
        requires push { slice_get (map event_of self.now.events.now) at ≡ Some push }
        ensures { BlockFound (map event_of self.now.events.now) at end result }
    {
        let Some(finish) = self.end_at(at) else {
            return None;
        };
        if finish >= end {
            return None;
        }
        match self.value_at(finish) {
            Some(has_value) => Some(Block {
                first: at + 1,
                end: finish,
                has_value,
            }),
            None => None,
        }
    }

    /// The finish of a block that begins behind this event.
    fn end_at(&self, at: usize) -> Option<usize>
        requires { slice_get (map event_of self.now.events.now) at ≡ Some push }
        ensures { result ≡ first (ends_from (suc at) (drop (suc at) (map event_of self.now.events.now))) }
    {
        match self.ends.get(at) {
            Some(end) => *end,
            None => None,
        }
    }

    /// Whether a finish has a value; none where the event isn't a finish.
    fn value_at(&self, at: usize) -> Option<bool>
        ensures { result ≡ finish_value (slice_get (map event_of self.now.events.now) at) }
    {
        match self.events.get(at) {
            Some(Event::Finish { value }) => Some(*value),
            _ => None,
        }
    }
}

/// A trace over a domain.
pub(crate) type ScriptOf<'a, D> = Script<'a, <D as Domain>::Value, <D as Domain>::Word>;
