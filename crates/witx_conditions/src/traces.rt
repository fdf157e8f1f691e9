//! Whether traces made by hand allocate only what can be written.
#![tactic(auto, using(witx_ast::proofs::Trees::tree_rules))]

ghost use Rattle.std.specs.Prelude.{◌≡◌, map, true};
ghost use Rattle.witx_instructions.specs.Views.{called, event_of, kept_step};
ghost use Rattle.witx_machine.specs.Rows.{row};
ghost use Rattle.witx_run.specs.{RowViews.{row_view}, Views.{type_tree}};
ghost use Rattle.witx_conditions.specs.FittingEvents.{TakeWritable, event_fits, events_fit, payload_tree_fits, row_fits};

use crate::values::fits;
use witx_ast::{InterfaceFunc, TypeRef};
use witx_bytes::writable;
use witx_instructions::{Event, Events, Step};
use witx_run::{Row, row_of};

/// Whether two traces of a function, whoever made them, allocate only what fits its tags, as `invoke` asks for: each type
/// of the function does, and each that an event makes room for, loads, or lowers a result by.
#[tactic(auto, using(crate::proofs::Allocating::allocating_rules))]
pub fn allocate_writable(func: &InterfaceFunc, caller: &Events, callee: &Events) -> bool
    ensures { result ≡ true → TakeWritable (called func.now) (map event_of caller.now) (map event_of callee.now) }
{
    fits(func) && events_fit(caller.as_slice()) && events_fit(callee.as_slice())
}

#[tactic(auto, using(crate::proofs::Allocating::event_rules))]
fn events_fit(events: &[Event]) -> bool
    ensures { result ≡ events_fit (map event_of events.now) }
{
    for event in events {
        if !event_fits(event) {
            return false;
        }
    }
    true
}

fn event_fits(event: &Event) -> bool
    ensures { result ≡ event_fits (event_of event.now) }
{
    match event {
        Event::Emit(step) => step_fits(step),
        Event::Space { slot: _, ty } => writable(&ty.tref),
        Event::Push => true,
        Event::Finish { value: _ } => true,
    }
}

fn step_fits(step: &Step) -> bool
    ensures { result ≡ row_fits (row (kept_step step.now)) }
{
    row_fits(row_of(step))
}

fn row_fits(row: Row<'_>) -> bool
    ensures { result ≡ row_fits (row_view row.entry) }
{
    match row {
        Row::Load(ty) => writable(&ty.tref),
        Row::ResultLower { ok, err } => payload_fits(ok) && payload_fits(err),
        Row::GetArg(_)
        | Row::AddrOf
        | Row::Lowering(_)
        | Row::Lifting(_)
        | Row::ListPointerLength
        | Row::ListFromPointerLength
        | Row::ReturnPointerGet(_)
        | Row::Store(_)
        | Row::TupleLift(_)
        | Row::TupleLower(_)
        | Row::VariantPayload
        | Row::ReuseReturn
        | Row::ResultLift
        | Row::CallWasm { .. }
        | Row::CallInterface { .. }
        | Row::Return(_) => true,
    }
}

fn payload_fits(payload: Option<&TypeRef>) -> bool
    ensures { result ≡ payload_tree_fits (type_tree payload.entry) }
{
    match payload {
        Some(ty) => writable(ty),
        None => true,
    }
}
