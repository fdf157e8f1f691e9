//! The traces that a text gives.

ghost use Rattle.std.specs.Prelude.{◌≡◌, ◌∷◌, ◌++◌, [], ℕ, List, Some, None, IfOk, IfErr, map, suc, length, ◌≤◌, true};
ghost use Rattle.witx_ast.specs.Definitions.{definition_tree};
ghost use Rattle.witx_adapt.specs.Lines.{event_line, event_lines};
ghost use Rattle.witx_instructions.specs.Views.{event_of};
ghost use Rattle.witx_traces.specs.Passages.{AreFixed, IsCutAt, IsFixed, IsLast, BeginPlainly, LacksWantedLine, Passage as PassageText, ReadPairs, Stretch, StopsAt, StopsBehind, is_ended, events_of, feeds, indented, pair_text, passage_of, side_of, sides_of, stretches};
ghost use Rattle.witx_traces.specs.{ReadTypes.{LinesCanSay, known_in}, Refusals.{RefusesLines, TellsOfStop}};
ghost use Rattle.witx_traces.specs.Traces.{AreSayable, GivesTraces, HasEachEntry, IsSayable, ended, listed, one_line, known_of};
ghost use Rattle.witx_traces.specs.declared.reading.Stopped.TheVariants as stopped;
ghost use Rattle.witx_traces.specs.declared.reading.TracesError.TheVariants as traces_error;

use crate::candidates::KnownTypes;
use crate::event_texts::read_event;
use crate::heads::{cut_line, is_same};
use crate::passages::{Passage, listing_passages};
use std::alloc::Global;
use witx_abi::{Event, Events};
use witx_adapt::Adapted;
use witx_ast::Document;
use witx_base::{Items, OutOfMemory};

/// The traces of a function that a text gives.
#[derive(PartialEq, Eq, Drop)]
pub struct TracePair {
    /// The events of its caller.
    pub caller: Events,
    /// The events of its callee.
    pub callee: Events,
}

/// The traces of functions, in the order of their document.
pub type TracePairs = Items<TracePair>;

/// Why a text gives no traces.
#[derive(Clone, Copy, PartialEq, Eq, Debug)]
pub enum TracesError {
    /// A line can't stand, or lines are missing.
    Line {
        /// The first line that can't stand, counted from 1; the number after the last where lines are missing.
        line: usize,
    },
    /// Want of memory.
    OutOfMemory,
}

impl From<OutOfMemory> for TracesError {
    ghost from_gives = { λ _ e. e ≡ traces_error.OutOfMemory };

    fn from(_refused: OutOfMemory) -> TracesError {
        TracesError::OutOfMemory
    }
}

/// Why reading stopped.
enum Stopped<'a> {
    /// The line that can't stand, and all that follows it.
    At(&'a str),
    OutOfMemory,
}

/// What is read, and what follows it.
type Reading<'t, T> = Result<(T, &'t str), Stopped<'t>>;

impl From<OutOfMemory> for Stopped<'_> {
    ghost from_gives = { λ _ e. e ≡ stopped.OutOfMemory };

    fn from(_refused: OutOfMemory) -> Self {
        Stopped::OutOfMemory
    }
}

/// The traces that a text gives: it has the lines of the document's listing, with any event lines in
/// place of the events of each function's caller and callee. A type's text stands for the typename of
/// that name; else for the first such type of those that lists and pointers of the function are of, and
/// of its result's ok and err types, which come first where a result is lowered.
///
/// Asked of an `adapted` with one entry for each function of its document. Refused as `Line` for the first
/// line that can't stand there, or for lines that are missing. Each line `call_interface` takes memory for
/// the types of all parameters.
#[tactic(auto, using(crate::proofs::Refusing::trace_rules))]
pub fn read_traces(alloc: Global, adapted: &Adapted, text: &str) -> Result<TracePairs, TracesError>
    requires { HasEachEntry (listed adapted.now) }
    ensures traces { IfOk result (λ pairs. GivesTraces (listed adapted.now) text.now (map sides_of pairs)) }
    ensures line { IfErr result (RefusesLines (listed adapted.now) text.now) }
{
    let shown = listing_passages(alloc, adapted)?;
    match read_passages(
        alloc,
        &adapted.document,
        shown.passages.as_slice(),
        shown.last.as_str(),
        text,
    ) {
        Ok(pairs) => Ok(pairs),
        Err(Stopped::At(rest)) => Err(TracesError::Line {
            line: line_number(text, rest),
        }),
        Err(Stopped::OutOfMemory) => Err(TracesError::OutOfMemory),
    }
}

/// The number of the line with which the rest of a text begins.
#[tactic(auto, using(crate::proofs::ReadSteps::number_rules))]
fn line_number(text: &str, rest: &str) -> usize
    ensures { (front : List ℕ) → text.now ≡ front ++ rest.now → result ≡ suc (feeds front) }
{
    let front = text.len().saturating_sub(rest.len());
    1 + count_feeds(&text.as_bytes()[..front])
}

/// How many line feeds there are.
#[tactic(auto, using(crate::proofs::ReadSteps::feed_rules))]
fn count_feeds(bytes: &[u8]) -> usize
    ensures count { result ≡ feeds bytes.now }
    ensures few { result ≤ length bytes.now }
{
    let mut count = 0;
    for byte in bytes {
        if *byte == b'\n' {
            count += 1;
        }
    }
    count
}

/// The traces of the passages, behind which a text ends.
#[tactic(auto, using(crate::proofs::ReadSteps::end_rules))]
fn read_passages<'t>(
    alloc: Global,
    document: &Document,
    passages: &[Passage<'_>],
    last: &str,
    text: &'t str,
) -> Result<TracePairs, Stopped<'t>>
    requires fixed { AreFixed (map passage_of passages.now) }
    requires last { IsLast last.now }
    ensures pairs { IfOk result (λ pairs. ReadPairs (map definition_tree document.now.definitions)
        (map passage_of passages.now) (map sides_of pairs) text.now last.now) }
    ensures stopped { IfErr result (TellsOfStop (StopsAt (stretches (map definition_tree document.now.definitions)
        (map passage_of passages.now)) last.now text.now)) }
{
    let (pairs, rest) = read_pairs(alloc, document, passages, text)?;
    let end = behind_lines(rest, last)?;
    if !end.is_empty() {
        drop(pairs);
        return Err(Stopped::At(end));
    }
    Ok(pairs)
}

/// The traces of the passages, and what follows them.
#[tactic(auto, using(crate::proofs::ReadSteps::pairs_rules))]
fn read_pairs<'t>(
    alloc: Global,
    document: &Document,
    passages: &[Passage<'_>],
    text: &'t str,
) -> Reading<'t, TracePairs>
    requires { AreFixed (map passage_of passages.now) }
    ensures pairs { IfOk result (λ p. ReadPairs (map definition_tree document.now.definitions)
        (map passage_of passages.now) (map sides_of p.0) text.now p.1.now) }
    ensures behind { IfOk result (λ p. (last rest : List ℕ) → IsLast last → StopsAt [] last p.1.now rest
        → StopsAt (stretches (map definition_tree document.now.definitions) (map passage_of passages.now)) last text.now rest) }
    ensures stopped { (last : List ℕ) → IsLast last
        → IfErr result (TellsOfStop (StopsAt (stretches (map definition_tree document.now.definitions) (map passage_of passages.now)) last text.now)) }
{
    let mut pairs = TracePairs::new(alloc);
    let mut rest = text;
    for passage in passages {
        let (pair, more) = read_pair(alloc, document, passage, rest)?;
        pairs.push(pair)?;
        rest = more;
    }
    Ok((pairs, rest))
}

/// The traces of a passage, and what follows it.
#[tactic(auto, using(crate::proofs::ReadSteps::pair_rules))]
fn read_pair<'t>(
    alloc: Global,
    document: &Document,
    passage: &Passage<'_>,
    text: &'t str,
) -> Reading<'t, TracePair>
    requires { IsFixed (passage_of passage.now).fixed }
    ensures pair { IfOk result (λ p. text.now ≡ pair_text (passage_of passage.now) (sides_of p.0) p.1.now) }
    ensures lines { IfOk result (λ p. AreSayable (known_of (map definition_tree document.now.definitions)
        (passage_of passage.now).function.function) (sides_of p.0)) }
    ensures behind { IfOk result (λ p. (ps : List PassageText) (last rest : List ℕ)
        → BeginPlainly (stretches (map definition_tree document.now.definitions) ps) last
        → StopsAt (stretches (map definition_tree document.now.definitions) ps) last p.1.now rest
        → StopsAt (stretches (map definition_tree document.now.definitions) (passage_of passage.now ∷ ps)) last text.now rest) }
    ensures stopped { (ps : List PassageText) (last : List ℕ)
        → BeginPlainly (stretches (map definition_tree document.now.definitions) ps) last
        → IfErr result (TellsOfStop (StopsAt (stretches (map definition_tree document.now.definitions) (passage_of passage.now ∷ ps)) last text.now)) }
{
    let types = KnownTypes::new(alloc, document, &passage.entry.func)?;
    let (caller, rest) = read_side(alloc, &types, passage.fixed.as_str(), text)?;
    let (callee, rest) = read_side(alloc, &types, "callee\n", rest)?;
    Ok((TracePair { caller, callee }, rest))
}

/// The events behind a fixed text, and what follows them.
#[tactic(auto, using(crate::proofs::ReadSteps::side_rules))]
fn read_side<'t>(
    alloc: Global,
    types: &KnownTypes<'_>,
    fixed: &str,
    text: &'t str,
) -> Reading<'t, Events>
    requires { IsFixed fixed.now }
    ensures events { IfOk result (λ p. text.now ≡ fixed.now ++ (event_lines (map event_of p.0) ++ p.1.now)) }
    ensures lines { IfOk result (λ p. LinesCanSay types.now p.0) }
    ensures behind { IfOk result (λ p.
        StopsBehind (side_of fixed.now (known_in types.now)) text.now p.1.now) }
    ensures stopped { (ss : List Stretch) (last : List ℕ) → BeginPlainly ss last
        → IfErr result (TellsOfStop (StopsAt (side_of fixed.now (known_in types.now) ∷ ss) last text.now)) }
{
    let behind = behind_lines(text, fixed)?;
    read_events(alloc, types, behind)
}

/// What follows these lines, if the text begins with them; else it stops at the first that is another.
#[tactic(auto, using(crate::proofs::ReadSteps::lines_rules))]
fn behind_lines<'t>(text: &'t str, lines: &str) -> Result<&'t str, Stopped<'t>>
    requires { is_ended lines.now ≡ true }
    ensures behind { IfOk result (λ rest. text.now ≡ lines.now ++ rest.now) }
    ensures stopped { IfErr result (TellsOfStop (IsCutAt lines.now text.now)) }
{
    let mut rest = text;
    let mut wanted = lines;
    while let Some((line, more)) = cut_line(wanted) {
        rest = behind_line(rest, line)?;
        wanted = more;
    }
    Ok(rest)
}

/// What follows this line, if the text begins with it.
#[tactic(auto, using(crate::proofs::ReadSteps::line_rules))]
fn behind_line<'t>(text: &'t str, wanted: &str) -> Result<&'t str, Stopped<'t>>
    requires { one_line wanted.now ≡ true }
    ensures behind { IfOk result (λ rest. text.now ≡ ended wanted.now ++ rest.now) }
    ensures stopped { IfErr result (TellsOfStop (LacksWantedLine wanted.now text.now)) }
{
    let Some((line, more)) = cut_line(text) else {
        return Err(Stopped::At(text));
    };
    if !is_same(line, wanted) {
        return Err(Stopped::At(text));
    }
    Ok(more)
}

/// The events of the lines that begin with a space, and what follows them.
#[tactic(auto, using(crate::proofs::ReadSteps::events_rules))]
fn read_events<'t>(alloc: Global, types: &KnownTypes<'_>, text: &'t str) -> Reading<'t, Events>
    ensures events { IfOk result (λ p. text.now ≡ event_lines (map event_of p.0) ++ p.1.now) }
    ensures lines { IfOk result (λ p. LinesCanSay types.now p.0) }
    ensures behind { IfOk result (λ p.
        StopsBehind (events_of (known_in types.now)) text.now p.1.now) }
    ensures stopped { (ss : List Stretch) (last : List ℕ) → BeginPlainly ss last
        → IfErr result (TellsOfStop (StopsAt (events_of (known_in types.now) ∷ ss) last text.now)) }
{
    let mut events = Events::new(alloc);
    let mut rest = text;
    while is_indented(rest) {
        let (event, more) = read_line(alloc, types, rest)?;
        events.push(event)?;
        rest = more;
    }
    Ok((events, rest))
}

/// Whether a space stands first.
fn is_indented(text: &str) -> bool
    ensures { result ≡ indented text.now }
{
    text.starts_with(' ')
}

/// The event that the first line says, and what follows the line.
#[tactic(auto, using(crate::proofs::ReadSteps::event_rules))]
fn read_line<'t>(alloc: Global, types: &KnownTypes<'_>, text: &'t str) -> Reading<'t, Event>
    requires { indented text.now ≡ true }
    ensures event { IfOk result (λ p. text.now ≡ event_line (event_of p.0) ++ p.1.now) }
    ensures line { IfOk result (λ p. IsSayable (known_in types.now) (event_of p.0)) }
    ensures stopped { (ss : List Stretch) (last : List ℕ) → BeginPlainly ss last
        → IfErr result (TellsOfStop (StopsAt (events_of (known_in types.now) ∷ ss) last text.now)) }
{
    let Some((line, more)) = cut_line(text) else {
        return Err(Stopped::At(text));
    };
    match read_event(alloc, types, line)? {
        Some(event) => Ok((event, more)),
        None => Err(Stopped::At(text)),
    }
}
