//! The run of one call over a memory of bytes.

ghost use Rattle.std.specs.Prelude.{◌≡◌, ◌+◌, ◌^◌, IfErr, IfOk, map, nat_lt};
ghost use Rattle.witx_instructions.specs.Views.{called, event_of};
ghost use Rattle.witx_bytes.specs.Seen.{seen};
ghost use Rattle.witx_invoke.specs.{Answering.{stated_run}, Invoking.{CanRun, IsAnswer, Refuses}};
ghost use Rattle.witx_run.specs.{OutcomeViews.{run_of}, Views.{reply_of}};
ghost use Rattle.witx_call.specs.{PlacementViews.{room_of}, WordViews.{word_view}};

use crate::answering::answer;
use crate::byte_domain::ByteDomain;
use crate::error::InvokeError;
use crate::excepting::is_excepted;
use crate::extents::check_types;
use std::alloc::Global;
use witx_abi::Events;
use witx_adapt::AdaptedFunc;
use witx_ast::InterfaceFunc;
use witx_base::Id;
use witx_bytes::{Value, Values};
use witx_call::{Invoked, Placement};
use witx_run::run_traces;

/// How many events are run at most.
const MOST_EVENTS: u128 = 1 << 30;

/// Runs the two traces of a function over a memory of bytes that is empty at first, with these arguments
/// and this reply. The first range begins at address 16, each other at the end of the one before, rounded
/// up to a multiple of 8.
///
/// Asked of faithful traces whose allocated types fit their tags, with values of the function's types, and
/// a reply exactly where there is a result.
///
/// Refused as `ZeroError` where the reply is an error that is passed as the word 0, which the function's ABI
/// can't tell from ok; else as `NoRoom` where the traces together have more than 2^30 events, or where no
/// run at these addresses keeps all its ranges within the first 2^20 bytes. Want of memory also where there is too much
/// to the function's types, or where they are too deep.
pub fn invoke(
    alloc: Global,
    entry: &AdaptedFunc,
    args: &Values,
    reply: Option<&Value>,
) -> Result<Invoked, InvokeError>
    requires { CanRun entry.now.module.value.name (called entry.now.func.value)
        (map event_of entry.now.caller.events) (map event_of entry.now.callee.events)
        (map seen args.now) (reply_of seen reply) }
    ensures answer { IfOk result (IsAnswer entry.now.module.value.name (called entry.now.func.value)
        (map event_of entry.now.caller.events) (map event_of entry.now.callee.events) (map seen args.now) (reply_of seen reply.entry)) }
    ensures refused { IfErr result (Refuses entry.now.module.value.name (called entry.now.func.value)
        (map event_of entry.now.caller.events) (map event_of entry.now.callee.events) (map seen args.now) (reply_of seen reply.entry)) }
{
    invoke_traces(
        alloc,
        &entry.module.name,
        &entry.func,
        entry.caller.events(),
        entry.callee.events(),
        args.as_slice(),
        reply,
    )
}

/// The same of two traces of a function of a module, from a memory that is empty.
fn invoke_traces(
    alloc: Global,
    owner: &Id,
    func: &InterfaceFunc,
    caller: &Events,
    callee: &Events,
    args: &[Value],
    reply: Option<&Value>,
) -> Result<Invoked, InvokeError>
    requires { CanRun owner.now (called func.now) (map event_of caller.now) (map event_of callee.now)
        (map seen args.now) (reply_of seen reply) }
    ensures answer { IfOk result
        (IsAnswer owner.now (called func.now) (map event_of caller.now) (map event_of callee.now) (map seen args.now) (reply_of seen reply.entry)) }
    ensures refused { IfErr result
        (Refuses owner.now (called func.now) (map event_of caller.now) (map event_of callee.now) (map seen args.now) (reply_of seen reply.entry)) }
{
    check_types(alloc, func)?;
    if is_excepted(func.abi, reply) {
        return Err(InvokeError::ZeroError);
    }
    if are_too_many(caller.len(), callee.len()) {
        return Err(InvokeError::NoRoom);
    }
    let domain = ByteDomain { alloc };
    let memory = Placement::new(alloc);
    let run = run_traces(
        alloc, &domain, owner, func, caller, callee, args, reply, memory,
    )?;
    answer(alloc, run)
}

/// Whether there are more events than are run.
fn are_too_many(caller: usize, callee: usize) -> bool
    ensures { result ≡ nat_lt (2 ^ 30) (caller + callee) }
{
    caller as u128 + callee as u128 > MOST_EVENTS
}
