//! How much there may be to the types that a verdict goes through.

use std::alloc::Global;
use witx_abi::{Event, Events, Step};
use witx_ast::{InterfaceFunc, InterfaceFuncParam, TypeRef};
use witx_base::OutOfMemory;
use witx_extent::Allowance;

/// How many names may stand one for the other, and how many types lie one in the other: what goes through types recurses
/// once for each type. `==` needs at most 112 bytes of the stack for it as LLVM builds it (in a program that only
/// compares), 256 as Rattle's own compiler does, and none for names.
const DEEPEST: usize = 30_100;

/// What there may be to the types of a function, which are gone through some ten times in each of three worlds; also to
/// those of all functions together that share an allotment.
const MOST_OF_FUNCTION: usize = 1 << 22;

/// What there may be to the types that its events go through, each event anew; also to those of all functions together
/// that share an allotment.
const MOST_OF_EVENTS: usize = 1 << 25;

/// How much of types verdicts may still go through: those on all functions of a document share one, so that a type that
/// many functions have takes no longer than one that is as large as all.
#[derive(Debug, Drop)]
pub struct Allotment {
    of_functions: usize,
    of_events: usize,
}

impl Allotment {
    /// As much as one function's verdict may go through.
    pub fn new() -> Allotment {
        Allotment {
            of_functions: MOST_OF_FUNCTION,
            of_events: MOST_OF_EVENTS,
        }
    }

    /// Takes the types of a function, and those that the events of its traces go through. Want of memory where there is
    /// more to them than is left, or where they are deeper.
    pub(crate) fn take(
        &mut self,
        alloc: Global,
        func: &InterfaceFunc,
        caller: &Events,
        callee: &Events,
    ) -> Result<(), OutOfMemory> {
        let mut function = Allowance::new(self.of_functions, DEEPEST);
        let params = take_params(&mut function, alloc, func.params.as_slice())?;
        let results = take_params(&mut function, alloc, func.results.as_slice())?;
        let widest = if params > results { params } else { results };
        let mut events = Allowance::new(self.of_events, DEEPEST);
        take_events(&mut events, alloc, widest, caller.as_slice())?;
        take_events(&mut events, alloc, widest, callee.as_slice())?;
        self.of_functions = function.left();
        self.of_events = events.left();
        Ok(())
    }
}

// What there is to the widest type of some parameters or results.
fn take_params(
    allowance: &mut Allowance,
    alloc: Global,
    params: &[InterfaceFuncParam],
) -> Result<usize, OutOfMemory> {
    let mut widest = 0;
    for param in params {
        let before = allowance.left();
        allowance.take(alloc, &param.tref)?;
        let extent = before.saturating_sub(allowance.left());
        widest = if extent > widest { extent } else { widest };
    }
    Ok(widest)
}

fn take_events(
    allowance: &mut Allowance,
    alloc: Global,
    widest: usize,
    events: &[Event],
) -> Result<(), OutOfMemory> {
    let whole = allowance.left();
    for event in events {
        // No more lies on the stack than there are events and items that were taken out.
        let held = events
            .len()
            .saturating_add(whole.saturating_sub(allowance.left()));
        match event {
            Event::Emit(step) => take_step(allowance, alloc, widest, held, step)?,
            Event::Space { slot: _, ty } => allowance.take(alloc, &ty.tref)?,
            Event::Push | Event::Finish { value: _ } => {}
        }
    }
    Ok(())
}

// What goes through a value takes that of the widest type; a tuple as many items besides, but none where it asks for more than
// the stack may hold, since it then goes no further.
fn take_step(
    allowance: &mut Allowance,
    alloc: Global,
    widest: usize,
    held: usize,
    step: &Step,
) -> Result<(), OutOfMemory> {
    match step {
        Step::I32FromHandle { ty }
        | Step::I32FromBitflags { ty }
        | Step::I64FromBitflags { ty }
        | Step::HandleFromI32 { ty }
        | Step::BitflagsFromI32 { ty }
        | Step::BitflagsFromI64 { ty }
        | Step::Load { ty }
        | Step::Store { ty }
        | Step::EnumLift { ty }
        | Step::EnumLower { ty } => allowance.take(alloc, &ty.tref),
        Step::CallInterface(call) => {
            take_types(allowance, alloc, call.params.as_slice())?;
            take_types(allowance, alloc, call.results.as_slice())
        }
        Step::ResultLower(payloads) => {
            take_payload(allowance, alloc, &payloads.ok)?;
            take_payload(allowance, alloc, &payloads.err)?;
            allowance.take_number(widest)
        }
        Step::TupleLift { amt } | Step::TupleLower { amt } => {
            let items = if *amt <= held { *amt } else { 0 };
            allowance.take_number(widest.saturating_add(items))
        }
        Step::ListFromPointerLength { .. } | Step::ResultLift => allowance.take_number(widest),
        _ => Ok(()),
    }
}

fn take_types(
    allowance: &mut Allowance,
    alloc: Global,
    types: &[TypeRef],
) -> Result<(), OutOfMemory> {
    for ty in types {
        allowance.take(alloc, ty)?;
    }
    Ok(())
}

fn take_payload(
    allowance: &mut Allowance,
    alloc: Global,
    payload: &Option<TypeRef>,
) -> Result<(), OutOfMemory> {
    match payload {
        Some(ty) => allowance.take(alloc, ty),
        None => Ok(()),
    }
}
