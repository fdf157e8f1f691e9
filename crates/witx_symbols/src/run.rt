//! The run of a caller's trace against a callee's, in one world.

ghost use Rattle.std.specs.Prelude.{◌≡◌, ◌+◌, [], length, map, IfOk, IfSome};
ghost use Rattle.witx_machine.specs.Positions.{spotted_run};
ghost use Rattle.witx_instructions.specs.Views.{called, event_of};
ghost use Rattle.witx_run.specs.Views.{reply_of};
ghost use Rattle.witx_symbols.specs.{OutcomeViews.{run_of}, Symbolic.{symbols}};
ghost use Rattle.witx_symbols.specs.WordViews.{option_of, shared_of, shared_symbols, world_of};

use crate::cells::Cells;
use crate::domain::Symbolic;
use crate::outcome::Run;
use crate::symbol::Symbol;
use crate::world::World;
use std::alloc::Global;
use std::rc::Rc;
use witx_abi::Events;
use witx_ast::InterfaceFunc;
use witx_base::{Id, OutOfMemory};
use witx_run::run_traces;

/// Runs a caller's trace of a function against a callee's in a world, over symbols. As many addresses can be
/// given as the two traces have events.
pub fn run_in(
    alloc: Global,
    world: &World,
    module_name: &Id,
    func: &InterfaceFunc,
    caller: &Events,
    callee: &Events,
    arguments: &[Rc<Symbol>],
) -> Result<Run, OutOfMemory>
    ensures { IfOk result (λ run. run_of run ≡
        spotted_run (symbols (world_of world.now)) module_name.now (called func.now) (map event_of caller.now) (map event_of callee.now)
        (shared_symbols arguments.now) (option_of world.now.whole) (record { made = []; left = length caller.now + length callee.now })) }
{
    let Some(left) = event_count(caller, callee) else {
        return Err(OutOfMemory);
    };
    let domain = Symbolic { alloc, world };
    let cells = Cells::new(alloc, left);
    let reply = reply_in(world);
    run_traces(
        alloc,
        &domain,
        module_name,
        func,
        caller,
        callee,
        arguments,
        reply,
        cells,
    )
}

// How many events both traces have; none where that is no `usize`, which two lists in memory at once don't reach.
fn event_count(caller: &Events, callee: &Events) -> Option<usize>
    ensures { IfSome result (λ count. count ≡ length caller.now + length callee.now) }
{
    caller.len().checked_add(callee.len())
}

// The reply, where the function has a result.
fn reply_in(world: &World) -> Option<&Rc<Symbol>>
    ensures { reply_of shared_of result ≡ option_of world.now.whole }
{
    match &world.whole {
        Some(reply) => Some(reply),
        None => None,
    }
}
