//! Where the blocks of a trace end.
#![tactic(auto, using(crate::proofs::EndLemmas::end_rules))]

ghost use Rattle.std.specs.Prelude.{◌≡◌, IfOk, map, reverse};
ghost use Rattle.witx_instructions.specs.Views.{event_of};
ghost use Rattle.witx_run.specs.BlockEnds.{unmatched, block_ends};

use std::alloc::Global;
use witx_base::OutOfMemory;
use witx_instructions::Event;

/// For each event, the number of the event that ends a block which would begin there; none where
/// nothing does. One pass, from the last event to the first.
pub(crate) fn ends_of_blocks(
    alloc: Global,
    events: &[Event],
) -> Result<Vec<Option<usize>>, OutOfMemory>
    ensures { IfOk result (λ ends. ends.items ≡ block_ends 0 (map event_of events.now)) }
{
    let mut ends = Vec::new(alloc);
    for _made in 0..events.len() {
        ends.push(None)?;
    }
    let mut left = Vec::new(alloc);
    for i in (0..events.len()).rev() {
        ends[i] = left.last().copied();
        match_end(&events[i], i, &mut left)?;
    }
    Ok(ends)
}

// What an event makes of the ends that are still to be matched, the nearest last.
fn match_end(event: &Event, i: usize, left: &mut Vec<usize>) -> Result<(), OutOfMemory>
    ensures { IfOk result (λ _. reverse left.new.items ≡ unmatched (event_of event.now) i (reverse left.old.items)) }
{
    match event {
        Event::Finish { value: _ } => left.push(i)?,
        Event::Push => {
            left.pop();
        }
        Event::Emit(_) | Event::Space { slot: _, ty: _ } => {}
    }
    Ok(())
}
