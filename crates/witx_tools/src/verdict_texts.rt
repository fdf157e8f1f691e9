//! The verdicts on the traces that a listing shows.

ghost use Rattle.std.specs.{Prelude.{◌≡◌, ◌++◌, IfErr, IfOk, OnOk, codes, map, string_bytes}, Fmt.{decimal}};
ghost use Rattle.std.specs.List.{flat_map, zip};
ghost use Rattle.witx_traces.specs.{Passages.{sides_of}, Traces.{GivesTraces, listed}};
ghost use Rattle.witx_commands.specs.{Adapting.{IsAdapted}, Stops.{StopsWith}, Words.{own_file}};
ghost use Rattle.witx_commands.specs.Words as asked;
ghost use Rattle.witx_tools.specs.{ToolCauses.{ToolRefuses}, ToolRuns.{ToolTells}};
ghost use Rattle.witx_tools.specs.VerdictTexts.{IsUnfitListing, doubt_text, found_text, judged_line, owned_of, unfit_report, verdict_line, verdicts_text};

use crate::own::opened_file;
use std::alloc::{AllocError, Global};
use std::fmt::Write;
use witx_abi::functions_are_read_as_their_trees;
use witx_adapt::{Adapted, AdaptedFunc, put_quoted};
use witx_base::{OutOfMemory, Text};
use witx_commands::{Output, OwnFile, Refusal, Stop, text_alone};
use witx_files::MockFs;
use witx_traces::{TracePair, TracePairs, TracesError, read_traces};
use witx_verify::{Allotment, Doubt, Verdict, verify_within};

/// How much reading a listing may go through: each line, times the types of the function that has most.
const MOST: usize = 1 << 25;

/// A line for each function of the document of the files behind the listing: the verdict on the traces
/// that the listing gives it.
#[tactic(auto, using(crate::proofs::Telling::verdict_rules))]
pub fn verdicts_of_files(
    alloc: Global,
    own: &OwnFile<'_>,
    files: &mut MockFs,
) -> Result<Output, Stop>
    ensures output { IfOk result (λ o. ToolTells (asked.verify (own_file own.now)) files.old o.text o.notes o.adapted) }
    ensures stopped { IfErr result (StopsWith (ToolRefuses (asked.verify (own_file own.now)) files.old)) }
{
    functions_are_read_as_their_trees();
    let opened = opened_file(alloc, own, files)?;
    let pairs = listed_traces(alloc, &opened.adapted, opened.text.as_str())?;
    let text = verdicts_text(alloc, &opened.adapted, pairs.as_slice())?;
    Ok(text_alone(alloc, text))
}

/// The traces that a listing gives an adapted document, or the end of a run with the first line that
/// can't stand there. Want of memory also where there are too many lines for the types of a function.
#[tactic(auto, using(crate::proofs::Telling::listing_rules))]
fn listed_traces(alloc: Global, adapted: &Adapted, listing: &str) -> Result<TracePairs, Stop>
    requires { IsAdapted adapted.now }
    ensures traces { IfOk result (λ pairs. GivesTraces (listed adapted.now) listing.now (map sides_of pairs)) }
    ensures stopped { IfErr result (StopsWith (IsUnfitListing (listed adapted.now) listing.now)) }
{
    if line_count(listing.as_bytes()).saturating_mul(most_types(adapted.functions.as_slice()))
        > MOST
    {
        return Err(Stop::OutOfMemory);
    }
    match read_traces(alloc, adapted, listing) {
        Ok(pairs) => Ok(pairs),
        Err(TracesError::Line { line }) => Err(unfit_stop(alloc, line)),
        Err(TracesError::OutOfMemory) => Err(Stop::OutOfMemory),
    }
}

fn line_count(listing: &[u8]) -> usize {
    let mut count = 0usize;
    for byte in listing {
        if *byte == b'\n' {
            count = count.saturating_add(1);
        }
    }
    count
}

/// How many parameters and results the function has that has most.
fn most_types(functions: &[AdaptedFunc]) -> usize {
    let mut most = 0usize;
    for entry in functions {
        let types = entry
            .func
            .params
            .len()
            .saturating_add(entry.func.results.len());
        most = most.max(types);
    }
    most
}

/// The end of a run whose listing has this line where it can't stand.
fn unfit_stop(alloc: Global, line: usize) -> Stop
    ensures { StopsWith (λ report. report ≡ unfit_report line) result }
{
    match unfit_report(alloc, line) {
        Ok(report) => Stop::Refused(Refusal::Command(report)),
        Err(_) => Stop::OutOfMemory,
    }
}

fn unfit_report(alloc: Global, line: usize) -> Result<Text, OutOfMemory>
    ensures { IfOk result (λ report. report ≡ codes "listing: unexpected line " ++ decimal line) }
{
    Ok(Text::from_string(format!(in alloc; "listing: unexpected line {line}")?))
}

/// A line for each function with its traces.
#[tactic(auto, unfolding(crate::specs::VerdictTexts::verdicts_text))]
fn verdicts_text(alloc: Global, adapted: &Adapted, pairs: &[TracePair]) -> Result<Text, OutOfMemory>
    ensures { IfOk result (λ text. text ≡ verdicts_text (map owned_of adapted.now.functions) (map sides_of pairs.now)) }
{
    let mut text = String::new(alloc);
    put_verdicts(alloc, &mut text, adapted.functions.as_slice(), pairs)?;
    Ok(Text::from_string(text))
}

#[tactic(auto, using(crate::proofs::Verdicts::line_rules))]
fn put_verdicts(
    alloc: Global,
    text: &mut String,
    functions: &[AdaptedFunc],
    pairs: &[TracePair],
) -> Result<(), OutOfMemory>
    ensures { OnOk result (string_bytes text.new ≡ string_bytes text.old
        ++ flat_map (λ p. judged_line p.0 p.1) (zip (map owned_of functions.now) (map sides_of pairs.now))) }
{
    let mut allotment = Allotment::new();
    for (entry, pair) in functions.iter().zip(pairs) {
        put_judged(alloc, &mut allotment, text, entry, pair)?;
    }
    Ok(())
}

/// The line of a function with its traces.
fn put_judged(
    alloc: Global,
    allotment: &mut Allotment,
    text: &mut String,
    entry: &AdaptedFunc,
    pair: &TracePair,
) -> Result<(), OutOfMemory>
    ensures { OnOk result (string_bytes text.new ≡ string_bytes text.old
        ++ judged_line (owned_of entry.now) (sides_of pair.now)) }
{
    functions_are_read_as_their_trees();
    let found = verify_within(
        allotment,
        alloc,
        &entry.module.name,
        &entry.func,
        &pair.caller,
        &pair.callee,
    )?;
    Ok(put_verdict(text, entry.func.name.as_str(), found)?)
}

fn put_verdict(text: &mut String, name: &str, found: Verdict) -> Result<(), AllocError>
    ensures { OnOk result (string_bytes text.new ≡ string_bytes text.old ++ verdict_line name.now found) }
{
    text.push_str("func ")?;
    put_quoted(text, name)?;
    put_found(text, found)
}

fn put_found(text: &mut String, found: Verdict) -> Result<(), AllocError>
    ensures { OnOk result (string_bytes text.new ≡ string_bytes text.old ++ found_text found) }
{
    match found {
        Verdict::Yes => text.push_str(" yes\n"),
        Verdict::No(doubt) => put_no(text, doubt),
    }
}

fn put_no(text: &mut String, doubt: Doubt) -> Result<(), AllocError>
    ensures { OnOk result (string_bytes text.new ≡ string_bytes text.old
        ++ (codes " no " ++ doubt_text doubt ++ codes "\n")) }
{
    text.push_str(" no ")?;
    put_doubt(text, doubt)?;
    text.push_str("\n")
}

fn put_doubt(text: &mut String, doubt: Doubt) -> Result<(), AllocError>
    ensures { OnOk result (string_bytes text.new ≡ string_bytes text.old ++ doubt_text doubt) }
{
    match doubt {
        Doubt::Function(_) => text.push_str("function"),
        Doubt::Caller(event) => write!(text, "caller {event}"),
        Doubt::Callee(event) => write!(text, "callee {event}"),
        Doubt::Passes => text.push_str("passes"),
        Doubt::Returns => text.push_str("returns"),
        Doubt::Notes => text.push_str("notes"),
        Doubt::Reply => text.push_str("reply"),
    }
}
