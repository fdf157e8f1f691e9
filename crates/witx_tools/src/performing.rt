//! What each command tells.

ghost use Rattle.std.specs.Prelude.{IfErr, IfOk};
ghost use Rattle.witx_commands.specs.{Stops.{StopsWith}, Words.{asked_by}};
ghost use Rattle.witx_tools.specs.ToolRuns.{AnyRefuses, AnyTells};

use crate::import_texts::faults_of_files;
use crate::invoke_texts::call_of_files;
use crate::shim_texts::shims_of_files;
use crate::verdict_texts::verdicts_of_files;
use std::alloc::Global;
use witx::commands::perform;
use witx_commands::{Command, Output, Stop};
use witx_files::MockFs;

/// The output of a command over the files of a bundle: a row for each tool, and for those of `run` its own.
pub fn perform_any(alloc: Global, command: &Command<'_>, files: &mut MockFs) -> Result<Output, Stop>
    ensures output { IfOk result (λ o. AnyTells (asked_by command.now) files.old o.text o.notes o.adapted) }
    ensures stopped { IfErr result (StopsWith (AnyRefuses (asked_by command.now) files.old)) }
{
    match command {
        Command::Shim(two) => shims_of_files(alloc, two, files),
        Command::Verify(listing) => verdicts_of_files(alloc, listing, files),
        Command::Invoke {
            module,
            function,
            values,
        } => call_of_files(alloc, module, function, values, files),
        Command::Imports(list) => faults_of_files(alloc, list, files),
        Command::Adapt { .. }
        | Command::Print { .. }
        | Command::Layouts { .. }
        | Command::Docs { .. }
        | Command::Polyfill(_)
        | Command::Sample { .. } => perform(alloc, command, files),
    }
}
