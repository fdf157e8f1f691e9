//! What the words and the bytes of a bundle decide, as functions that do nothing: each contract is a
//! theorem.

ghost use Rattle.witx_tools.specs.ToolLaws.{AllKnowCommands, OthersAreTools, RunsAlike, ShimsTellTwoRefusals, ValidIsNotRefusedByTools};

use witx_commands::valid_is_not_refused;
use witx_imports::no_fault_where_imports_are_read;
use witx_invoke::lines_tell_values;
use witx_traces::traces_leave_no_line_unfit;
use witx_walk::one_reading;

/// Words that have a form of `run` ask the same of `run_all`, and a run of that is one of this; any others of which
/// it knows the form are a tool's.
pub fn commands_of_both()
    ensures known { AllKnowCommands }
    ensures tools { OthersAreTools }
    ensures alike { RunsAlike }
{}

/// A bundle that is valid for a tool isn't refused by it.
pub fn valid_is_not_refused_by_tools()
    ensures { ValidIsNotRefusedByTools }
{
    valid_is_not_refused();
    no_fault_where_imports_are_read();
    traces_leave_no_line_unfit();
    one_reading();
    lines_tell_values();
}

/// Of two documents that files mean and that can be adapted, `shim` tells each function's words, or that it isn't
/// compatible, or that its ABI is another: no other refusal of a shim comes there.
pub fn shims_tell_two_refusals()
    ensures { ShimsTellTwoRefusals }
{
    one_reading();
}
