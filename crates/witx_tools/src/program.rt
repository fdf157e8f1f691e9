//! The program's top call, over all commands.

ghost use Rattle.std.specs.Prelude.{◌≡◌};
ghost use Rattle.witx_commands.specs.Runs.{IsPrepared, IsRun, run_input, sink_seen};
ghost use Rattle.witx_commands.specs.Words.{IsBounded, asked_by};
ghost use Rattle.witx_tools.specs.ToolRuns.{any_task, task_of_all};

use crate::laws::valid_is_not_refused_by_tools;
use crate::performing::perform_any;
use std::alloc::Global;
use witx::Ran;
use witx::program::{files_for, finish};
use witx_base::{Sink, Source, Text};
use witx_commands::{
    Command, Forms, Output, Refusal, Stop, command_of, output_or_refusal, stop_of,
    valid_is_not_refused,
};

/// The program: reads the words, then the source where what they ask for works on it, and writes what that
/// tells on `out` or what is refused on `err`. Words that have a form of [`run`](witx::run) end as there; for
/// those of a tool its text is written; for any others the usage text is written on `err`.
///
/// With `adapt` it ends with status 0 only having written the listing of the document that the texts
/// mean and each function's caller and callee traces. On the machine, given as many distinct unused
/// addresses from 1 to 2^32 - 1 as both traces have events, caller against callee passes the ABI's words,
/// hands over any arguments of the declared types and brings back any result, under `Preview1` any whose
/// error word isn't 0, leaving an empty stack and memory in use unchanged.
pub fn run_all<S: Source, O: Sink, E: Sink>(
    alloc: Global,
    words: &[Text],
    source: &mut S,
    out: &mut O,
    err: &mut E,
) -> Ran
    ensures { IsRun (run_input (task_of_all words.now) S.left S.faults S.reads source.old source.new)
        result.status result.adapted
        (sink_seen O.taken O.faults out.old out.new) (sink_seen E.taken E.faults err.old err.new)
        (source.new ≡ source.old) (out.new ≡ out.old) (err.new ≡ err.old) }
{
    output_or_refusal();
    valid_is_not_refused();
    valid_is_not_refused_by_tools();
    finish(alloc, prepare(alloc, words, source), out, err)
}

/// What a run is to write, by its words and its source.
#[tactic(auto, using(crate::proofs::Runs::form_rules))]
fn prepare<S: Source>(alloc: Global, words: &[Text], source: &mut S) -> Result<Output, Stop>
    ensures { IsPrepared (run_input (task_of_all words.now) S.left S.faults S.reads source.old source.new) result
        (source.new ≡ source.old) }
{
    match command_of(Forms::All, words) {
        Some(command) => prepare_command(alloc, &command, source),
        None => Err(Stop::Refused(Refusal::Usage(Forms::All))),
    }
}

/// What a command is to write, by its source: its output, its refusal of the files, or why there are none.
fn prepare_command<S: Source>(
    alloc: Global,
    command: &Command<'_>,
    source: &mut S,
) -> Result<Output, Stop>
    requires { IsBounded (asked_by command.now) }
    ensures { IsPrepared (run_input (any_task (asked_by command.now)) S.left S.faults S.reads source.old source.new)
        result
        (source.new ≡ source.old) }
{
    match files_for(alloc, command, source) {
        Ok(mut files) => perform_any(alloc, command, &mut files),
        Err(error) => Err(stop_of(error)),
    }
}
