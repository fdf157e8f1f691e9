//! `run`: the commands over a source and two sinks. Its clauses are the headline.

ghost use Rattle.std.specs.Prelude.{◌≡◌, ◌<◌, ◌≤◌, ◌+◌, ◌⊎◌, [], None, Some, Ok, IfErr, IfOk, OnOk, true, false, ◌==◌, if◌then◌else◌};
ghost use Rattle.std.specs.Io.KnownBytes.{Appends};
ghost use Rattle.witx_base.specs.Causes.{Rose};
ghost use Rattle.witx_commands.specs.Causes.{FilesCause, IsBundle};
ghost use Rattle.witx_commands.specs.Runs.{IsPrepared, IsRun, IsWritten, command_task, run_input, sink_seen, task_of};
ghost use Rattle.witx_commands.specs.Streams.{Finished, TakesInput, TookPrefix, source_seen};
ghost use Rattle.witx_commands.specs.Words.{IsBounded, asked_by, bundle_bytes, is_of_run, reads_source};

use crate::commands::perform;
use crate::output::put_both;
use crate::refused::put_refusal;
use std::alloc::Global;
use witx_adapt::Adapted;
use witx_base::{Sink, Source, Text};
use witx_commands::{
    Command, Forms, InputError, NO_MEMORY, Output, Refusal, Stop, command_of, kept,
    output_or_refusal, read_bundle, stop_of, valid_is_not_refused,
};
use witx_files::MockFs;
use witx_sample::sample_files;

/// How a run ended.
#[derive(Drop)]
pub struct Ran {
    /// 0 done, 1 refused, 2 no form, 3 the source failed, 4 a sink failed, 5 no memory, 6 no bundle.
    pub status: u8,
    /// The value whose listing or summary was written; there exactly where the status is 0 and the
    /// command is `adapt` or `sample`.
    pub adapted: Option<Adapted>,
}

/// The program: reads the words, then the source where the command works on it, and writes what the
/// command asks for on `out` or what is refused on `err`; `docs` then notes on `err` which links of the
/// page lead nowhere.
///
/// With `adapt` it ends with status 0 only having written the listing of the document that the texts
/// mean and each function's caller and callee traces. On the machine, given as many distinct unused
/// addresses from 1 to 2^32 - 1 as both traces have events, caller against callee passes the ABI's words,
/// hands over any arguments of the declared types and brings back any result, under `Preview1` any whose
/// error word isn't 0, leaving an empty stack and memory in use unchanged.
pub fn run<S: Source, O: Sink, E: Sink>(
    alloc: Global,
    words: &[Text],
    source: &mut S,
    out: &mut O,
    err: &mut E,
) -> Ran
    ensures { IsRun (run_input (task_of words.now) S.left S.faults S.reads source.old source.new)
        result.status result.adapted
        (sink_seen O.taken O.faults out.old out.new) (sink_seen E.taken E.faults err.old err.new)
        (source.new ≡ source.old) (out.new ≡ out.old) (err.new ≡ err.old) }
{
    output_or_refusal();
    valid_is_not_refused();
    finish(alloc, prepare(alloc, words, source), out, err)
}

/// What a run is to write, by its words and its source.
#[tactic(auto, using(witx_commands::proofs::Preparing::form_rules))]
fn prepare<S: Source>(alloc: Global, words: &[Text], source: &mut S) -> Result<Output, Stop>
    ensures { IsPrepared (run_input (task_of words.now) S.left S.faults S.reads source.old source.new) result
        (source.new ≡ source.old) }
{
    match command_of(Forms::Commands, words) {
        Some(command) => prepare_command(alloc, &command, source),
        None => Err(Stop::Refused(Refusal::Usage(Forms::Commands))),
    }
}

/// What a command is to write, by its source: its output, its refusal of the files, or why there are none.
fn prepare_command<S: Source>(
    alloc: Global,
    command: &Command<'_>,
    source: &mut S,
) -> Result<Output, Stop>
    requires of_run { is_of_run (asked_by command.now) ≡ true }
    requires bounded { IsBounded (asked_by command.now) }
    ensures { IsPrepared (run_input (command_task (asked_by command.now))
        S.left S.faults S.reads source.old source.new) result
        (source.new ≡ source.old) }
{
    match files_for(alloc, command, source) {
        Ok(mut files) => perform(alloc, command, &mut files),
        Err(error) => Err(stop_of(error)),
    }
}

/// The files that a command works on: those of its source's bundle, or those of the sample's, for which
/// the source isn't read. Refused with what the source or its bytes cause, and for want of memory.
#[tactic(auto, using(witx_commands::proofs::Preparing::file_rules))]
pub fn files_for<S: Source>(
    alloc: Global,
    command: &Command<'_>,
    source: &mut S,
) -> Result<MockFs, InputError>
    requires { IsBounded (asked_by command.now) }
    ensures files { IfOk result (λ files. IsBundle (bundle_bytes (asked_by command.now) (S.left source.old)) (Ok files)) }
    ensures finished { OnOk result (reads_source (asked_by command.now) ≡ true
        → Finished (S.left source.old) (S.left source.new)) }
    ensures nothing_read { reads_source (asked_by command.now) ≡ false → source.new ≡ source.old }
    ensures no_fault { OnOk result (S.faults source.new ≡ S.faults source.old) }
    ensures refused { IfErr result
        (FilesCause (asked_by command.now) (source_seen S.left S.faults S.reads source.old source.new)) }
    ensures later { S.faults source.old ≤ S.faults source.new }
    ensures reads { S.reads source.new ≤ S.reads source.old + 4194305 }
    ensures taken { TakesInput S.left S.faults S.reads source.old source.new }
{
    match command {
        Command::Sample { functions } => match sample_files(alloc, *functions) {
            Ok(files) => Ok(files),
            Err(_) => Err(InputError::OutOfMemory),
        },
        Command::Adapt { .. } => read_bundle(alloc, source),
        Command::Print { .. } => read_bundle(alloc, source),
        Command::Layouts { .. } => read_bundle(alloc, source),
        Command::Docs { .. } => read_bundle(alloc, source),
        Command::Polyfill(_) => read_bundle(alloc, source),
        Command::Shim(_) => read_bundle(alloc, source),
        Command::Verify(_) => read_bundle(alloc, source),
        Command::Invoke { .. } => read_bundle(alloc, source),
        Command::Imports(_) => read_bundle(alloc, source),
    }
}

/// Writes an answer: the output, or what is told of a refusal; of want of memory nothing.
pub fn finish<O: Sink, E: Sink>(
    alloc: Global,
    answer: Result<Output, Stop>,
    out: &mut O,
    err: &mut E,
) -> Ran
    ensures { IsWritten answer result.status result.adapted
        (sink_seen O.taken O.faults out.old out.new) (sink_seen E.taken E.faults err.old err.new)
        (out.new ≡ out.old) (err.new ≡ err.old) }
{
    match answer {
        Ok(output) => put_output(output, out, err),
        Err(Stop::Refused(refusal)) => Ran {
            status: put_refusal(alloc, &refusal, err),
            adapted: None,
        },
        Err(Stop::OutOfMemory) => Ran {
            status: NO_MEMORY,
            adapted: None,
        },
    }
}

/// Writes an output, and keeps its value where it was written whole.
fn put_output<O: Sink, E: Sink>(output: Output, out: &mut O, err: &mut E) -> Ran
    ensures status { (result.status ≡ 0) ⊎ (result.status ≡ 4) }
    ensures done { result.status ≡ 0
        → Appends (O.taken out.old) (O.taken out.new) output.text
        × Appends (E.taken err.old) (E.taken err.new) output.notes }
    ensures adapted { result.adapted ≡ (if result.status == 0 then output.adapted else None) }
    ensures unwritten { result.status ≡ 4 →
        (Rose (O.faults out.old) (O.faults out.new)
        × (TookPrefix (O.taken out.old) (O.taken out.new) output.text × (output.text ≡ [] → ⊥))
        × (err.new ≡ err.old))
        ⊎ (Rose (E.faults err.old) (E.faults err.new) × TookPrefix (E.taken err.old) (E.taken err.new) output.notes
        × (output.notes ≡ [] → ⊥)
        × Appends (O.taken out.old) (O.taken out.new) output.text) }
    ensures untouched { output.notes ≡ [] → err.new ≡ err.old }
    ensures out_failed { O.faults out.old < O.faults out.new → result.status ≡ 4 }
    ensures err_failed { E.faults err.old < E.faults err.new → result.status ≡ 4 }
    ensures out_later { O.faults out.old ≤ O.faults out.new }
    ensures err_later { E.faults err.old ≤ E.faults err.new }
{
    let status = put_both(out, err, output.text.as_str(), output.notes.as_str());
    Ran {
        status,
        adapted: kept(status, output.adapted),
    }
}
