//! A listing, read back and checked.

ghost use Rattle.std.specs.Prelude.{◌≡◌, IfOk, IfSome, None, map, true};
ghost use Rattle.witx_tools.specs.{EventViews.{called, event_of}, Faithful.{Faithful}};
ghost use Rattle.witx_tools.specs.{ListedTraces.{GivesTraces, HasEachEntry, listed}, Passages.{sides_of}};
ghost use Rattle.witx_client_example.specs.Whole.{IsWhole};

use crate::error::{ClientError, refused};
use std::alloc::Global;
use witx_tools::{
    Adapted, AdaptedFunc, OutOfMemory, TracePair, TracePairs, Verdict, adapted_meets_conditions,
    has_each_entry, listing, read_traces, verify,
};

/// Whether the traces that the document's own listing shows hold, function by function.
pub fn own_traces_hold(alloc: Global, adapted: &Adapted) -> Result<bool, ClientError>
    requires { IsWhole adapted.now }
{
    let text = listing(alloc, adapted)?;
    adapted_meets_conditions(adapted);
    match read_traces(alloc, adapted, text.as_str()) {
        Ok(pairs) => Ok(all_hold(alloc, adapted.functions.as_slice(), pairs.as_slice())?),
        Err(error) => Err(refused(alloc, &error)),
    }
}

/// The traces that a text gives for a document that anyone adapted; none where it hasn't an entry for each function.
pub fn given_traces(
    alloc: Global,
    adapted: &Adapted,
    text: &str,
) -> Result<Option<TracePairs>, ClientError>
    ensures given { IfOk result (λ o. IfSome o (λ pairs.
        GivesTraces (listed adapted.now) text.now (map sides_of pairs))) }
    ensures each { IfOk result (λ o. IfSome o (λ _. HasEachEntry (listed adapted.now))) }
    ensures lacks { IfOk result (λ o. o ≡ None → HasEachEntry (listed adapted.now) → ⊥) }
{
    if !has_each_entry(adapted) {
        return Ok(None);
    }
    match read_traces(alloc, adapted, text) {
        Ok(pairs) => Ok(Some(pairs)),
        Err(error) => Err(refused(alloc, &error)),
    }
}

fn all_hold(
    alloc: Global,
    functions: &[AdaptedFunc],
    pairs: &[TracePair],
) -> Result<bool, OutOfMemory> {
    for (entry, pair) in functions.iter().zip(pairs) {
        if !holds(alloc, entry, pair)? {
            return Ok(false);
        }
    }
    Ok(true)
}

/// Whether a pair of traces gets a yes, which says that it is faithful to the function.
pub fn holds(alloc: Global, entry: &AdaptedFunc, pair: &TracePair) -> Result<bool, OutOfMemory>
    ensures { IfOk result (λ yes. yes ≡ true → Faithful entry.now.module.value.name (called entry.now.func.value)
        (map event_of pair.now.caller) (map event_of pair.now.callee)) }
{
    let TracePair { caller, callee } = pair;
    let found = verify(alloc, &entry.module.name, &entry.func, caller, callee)?;
    match found {
        Verdict::Yes => Ok(true),
        Verdict::No(_) => Ok(false),
    }
}
