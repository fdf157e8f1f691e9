//! The verdict on two traces.
#![tactic(auto, using(crate::proofs::VerifyLemmas::verify_rules))]

ghost use Rattle.std.specs.Prelude.{◌≡◌, IfOk, None, map};
ghost use Rattle.witx_machine.specs.{Faithful.{Faithful}, Lowerable.{unlowerable}};
ghost use Rattle.witx_instructions.specs.Views.{called, event_of, param_types};
ghost use Rattle.witx_symbols.specs.{declared.surface.Verdict.TheVariants.{Yes}, Adapted.{AdaptedGetsYes}};
ghost use Rattle.witx_symbols.specs.{Symbolic.{reply_from}, Verdicts.{doubt, doubt_in, first_doubt, verdict}};
ghost use Rattle.witx_symbols.specs.{WordViews.{option_of, world_of}, WorldViews.{AreOf, worlds_read}};

use crate::extents::Allotment;
use crate::judging::judged;
use crate::worlds::worlds;
use std::alloc::Global;
use witx_abi::{Events, lowerable, return_pointers};
use witx_ast::InterfaceFunc;
use witx_base::{Id, OutOfMemory};
use witx_symbols::{Doubt, Verdict, World, arguments_from, misfit, run_in};

/// Whether a caller's and a callee's trace, whoever made them, are faithful to a function of a module.
///
/// The answer is no with the first of these: the function can't be lowered; a parameter's or a result's
/// type doesn't fit its tag; and then, in each world of the reply, an event that has no rule, the words at
/// the call, what comes back, the notes, or the reply that isn't as it should be. It is yes where there is
/// none. A yes says that the traces are faithful; not every faithful pair gets one. Parameters, results and
/// events are numbered from 0. `OutOfMemory` is the only error; it comes also where types are too deep, or where
/// there is too much to them as they are gone through at each of their mentions.
pub fn verify(
    alloc: Global,
    module_name: &Id,
    func: &InterfaceFunc,
    caller: &Events,
    callee: &Events,
) -> Result<Verdict, OutOfMemory>
    ensures verdict { IfOk result (λ found. found ≡
        verdict module_name.now (called func.now) (map event_of caller.now) (map event_of callee.now)) }
    ensures faithful { IfOk result (λ found. found ≡ Yes →
        Faithful module_name.now (called func.now) (map event_of caller.now) (map event_of callee.now)) }
    ensures adapted { IfOk result (λ found.
        AdaptedGetsYes found module_name.now (called func.now) (map event_of caller.now) (map event_of callee.now)) }
{
    let mut allotment = Allotment::new();
    verify_within(&mut allotment, alloc, module_name, func, caller, callee)
}

/// The same verdict, where those on all functions of a document share what they may go through. `OutOfMemory` comes also
/// where too much of it was taken by earlier ones.
pub fn verify_within(
    allotment: &mut Allotment,
    alloc: Global,
    module_name: &Id,
    func: &InterfaceFunc,
    caller: &Events,
    callee: &Events,
) -> Result<Verdict, OutOfMemory>
    ensures verdict { IfOk result (λ found. found ≡
        verdict module_name.now (called func.now) (map event_of caller.now) (map event_of callee.now)) }
    ensures faithful { IfOk result (λ found. found ≡ Yes →
        Faithful module_name.now (called func.now) (map event_of caller.now) (map event_of callee.now)) }
    ensures adapted { IfOk result (λ found.
        AdaptedGetsYes found module_name.now (called func.now) (map event_of caller.now) (map event_of callee.now)) }
{
    allotment.take(alloc, func, caller, callee)?;
    match doubt(alloc, module_name, func, caller, callee)? {
        Some(doubt) => Ok(Verdict::No(doubt)),
        None => Ok(Verdict::Yes),
    }
}

// The first doubt, none where the answer is yes.
fn doubt(
    alloc: Global,
    module_name: &Id,
    func: &InterfaceFunc,
    caller: &Events,
    callee: &Events,
) -> Result<Option<Doubt>, OutOfMemory>
    ensures { IfOk result (λ found. found ≡
        doubt module_name.now (called func.now) (map event_of caller.now) (map event_of callee.now)) }
{
    if let Err(place) = lowerable(func) {
        return Ok(Some(Doubt::Function(place)));
    }
    if let Some(place) = misfit(func) {
        return Ok(Some(Doubt::Function(place)));
    }
    let worlds = worlds(alloc, func)?;
    first_doubt(alloc, worlds.as_slice(), module_name, func, caller, callee)
}

// The first doubt in one of these worlds of the function's reply.
fn first_doubt(
    alloc: Global,
    worlds: &[World],
    module_name: &Id,
    func: &InterfaceFunc,
    caller: &Events,
    callee: &Events,
) -> Result<Option<Doubt>, OutOfMemory>
    requires lowerable { unlowerable (called func.now) ≡ None }
    requires reply { AreOf (reply_from (param_types func.now.results)) (worlds_read worlds.now) }
    ensures { IfOk result (λ found. found ≡
        first_doubt (worlds_read worlds.now) module_name.now (called func.now) (map event_of caller.now) (map event_of callee.now)) }
{
    for world in worlds {
        if let Some(doubt) = doubt_in(alloc, world, module_name, func, caller, callee)? {
            return Ok(Some(doubt));
        }
    }
    Ok(None)
}

// The doubt in one world.
fn doubt_in(
    alloc: Global,
    world: &World,
    module_name: &Id,
    func: &InterfaceFunc,
    caller: &Events,
    callee: &Events,
) -> Result<Option<Doubt>, OutOfMemory>
    requires lowerable { unlowerable (called func.now) ≡ None }
    requires reply { option_of world.now.whole ≡ reply_from (param_types func.now.results) }
    ensures { IfOk result (λ found. found ≡
        doubt_in (world_of world.now) module_name.now (called func.now) (map event_of caller.now) (map event_of callee.now)) }
{
    let symbols = arguments_from(alloc, func.params.as_slice())?;
    let arguments = symbols.as_slice();
    let pointers = return_pointers(alloc, func.abi, &func.results)?;
    let run = run_in(alloc, world, module_name, func, caller, callee, arguments)?;
    let doubt = judged(alloc, world, func, pointers.as_slice(), arguments, &run);
    drop(run);
    doubt
}
