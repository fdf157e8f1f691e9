//! A run of the program over a source and two sinks.

ghost use Rattle.std.specs.Prelude.{◌≡◌, [], IfOk, None};
ghost use Rattle.witx_commands.specs.{Runs.{IsPrepared, run_input, sink_seen}, Words.{paths_of}};
ghost use Rattle.witx_header_of.specs.HeaderRuns.{IsHeader, IsHeaderRun, StopsAtHeader, header_task};

use std::alloc::Global;
use witx::program::finish;
use witx::{MockFs, Ran, Sink, Source, Text, read_bundle};
use witx_commands::{Output, Stop, adapted_or_stop, paths_of, stop_of, text_alone, too_large};
use witx_header::header_text;
use witx_layout::LayoutError;

/// Reads the source's bundle, and writes the header of the document that its files mean under the paths that the words
/// spell on `out`, or what is refused on `err`. It ends with 0 done, 1 refused, 3 the source failed, 4 a sink failed, 5
/// no memory, 6 no bundle.
pub fn run<S: Source, O: Sink, E: Sink>(
    alloc: Global,
    words: &[Text],
    source: &mut S,
    out: &mut O,
    err: &mut E,
) -> Ran
    ensures { IsHeaderRun (run_input (header_task words.now) S.left S.faults S.reads source.old source.new) result.status
        (sink_seen O.taken O.faults out.old out.new) (sink_seen E.taken E.faults err.old err.new)
        (source.new ≡ source.old) (out.new ≡ out.old) (err.new ≡ err.old) }
{
    finish(alloc, prepare(alloc, words, source), out, err)
}

/// What a run is to write, by its words and its source.
fn prepare<S: Source>(alloc: Global, words: &[Text], source: &mut S) -> Result<Output, Stop>
    ensures { IsPrepared (run_input (header_task words.now) S.left S.faults S.reads source.old source.new) result
        (source.new ≡ source.old) }
{
    match read_bundle(alloc, source) {
        Ok(mut files) => output_of(alloc, words, &mut files),
        Err(error) => Err(stop_of(error)),
    }
}

/// The output of a run over files: the header alone.
fn output_of(alloc: Global, words: &[Text], files: &mut MockFs) -> Result<Output, Stop>
    ensures output { IfOk result (λ o. (o.notes ≡ []) × (o.adapted ≡ None)
        × IsHeader files.old (paths_of words.now) o.text) }
    ensures stopped { StopsAtHeader result files.old words.now }
{
    match header_of_files(alloc, words, files) {
        Ok(text) => Ok(text_alone(alloc, text)),
        Err(stop) => Err(stop),
    }
}

/// The header of the document that files mean, or the end of a run over files that are refused.
#[tactic(auto, using(crate::proofs::Failing::failing_rules))]
fn header_of_files(alloc: Global, words: &[Text], files: &mut MockFs) -> Result<Text, Stop>
    ensures text { IfOk result (λ text. IsHeader files.old (paths_of words.now) text) }
    ensures stopped { StopsAtHeader result files.old words.now }
{
    let paths = paths_of(alloc, words)?;
    let adapted = adapted_or_stop(alloc, paths.as_slice(), files)?;
    match header_text(alloc, &adapted.document) {
        Ok(text) => Ok(text),
        Err(LayoutError::TooLarge) => Err(too_large(alloc)),
        Err(LayoutError::OutOfMemory) => Err(Stop::OutOfMemory),
    }
}
