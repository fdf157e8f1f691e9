//! What is answered of a run that has ended: the parts of its outcome.
#![tactic(auto, using(crate::proofs::AnswerLemmas::answer_rules))]

ghost use Rattle.std.specs.Prelude.{◌≡◌, IfOk, Option, Some, map, option_map, option_to_list};
ghost use Rattle.witx_ast.specs.Values as plain_values;
ghost use Rattle.witx_machine.specs.Run.{values_in};
ghost use Rattle.witx_bytes.specs.Seen.{seen};
ghost use Rattle.witx_run.specs.{Views.{items_of}, OutcomeViews.{outcome_of}};
ghost use Rattle.witx_call.specs.{CallSeen.{IsSeen, placed_of, seen_of}, PlacementViews.{room_of}};
ghost use Rattle.witx_call.specs.{RangeViews.{taken_of}, Ranges.{ranges as ranges_alone}};
ghost use Rattle.witx_call.specs.WordViews.{word_view};

use crate::call_seen::{Invoked, Placed, PlacedRanges};
use crate::placement::Placement;
use crate::range::Range;
use crate::word::Word;
use std::alloc::Global;
use witx_base::{Items, OutOfMemory};
use witx_bytes::Value;
use witx_run::{Item, Outcome};

/// The parts of an outcome.
pub fn outcome_seen(
    alloc: Global,
    outcome: Outcome<Value, Word, Placement>,
) -> Result<Invoked, OutOfMemory>
    ensures { IfOk result (λ i. IsSeen (outcome_of seen word_view room_of outcome) (seen_of i)) }
{
    let taken = placed_ranges(alloc, outcome.memory.taken.as_slice())?;
    let Outcome { call, back, memory } = outcome;
    Ok(Invoked {
        pass: Items::from_vec(call.words),
        notes: Items::from_vec(call.noted),
        back: Items::from_vec(call.callee_words),
        returned: returned(back),
        taken,
        memory: memory.bytes,
    })
}

/// The value that the caller gave back, if it is one value alone.
fn returned(back: Vec<Item<Value, Word>>) -> Option<Value>
    ensures { (reply : Option plain_values.Value) →
        values_in (items_of seen word_view back.items) ≡ Some (option_to_list reply) → option_map seen result ≡ reply }
{
    let mut back = back;
    match back.pop() {
        Some(Item::Value { value, name: _ }) => Some(value),
        Some(Item::Word(_)) => None,
        None => None,
    }
}

/// The ranges alone, each by its address and its length.
#[tactic(auto, using(crate::proofs::AnswerLemmas::range_rules))]
fn placed_ranges(alloc: Global, ranges: &[Range]) -> Result<PlacedRanges, OutOfMemory>
    ensures { IfOk result (λ made. map placed_of made ≡ ranges_alone (taken_of ranges.now)) }
{
    let mut made = PlacedRanges::new(alloc);
    for range in ranges {
        made.push(Placed {
            at: range.at,
            len: range.len,
        })?;
    }
    Ok(made)
}
