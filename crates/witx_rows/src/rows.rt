//! Cases, what each gives, and what is stored of it.
//!
//! A file of cases, or of what they give, begins with a line that tells its topic, and has a piece for
//! each case behind the mark `==== `: the case's name, up to the end of the line, and what follows.
//!
//! In `cases` that is a line `$ witx` with the words, `''` for an empty one, and then the bundle
//! (`bundles.rt` has its notation). A case with no line behind the words is run over the bundle before.
//!
//! In `gives` it is a line with the status, `and a document` where the run hands one back; then, behind
//! the marks `---- out` and `---- err`, what the run wrote on the output and as a refusal, if anything. Of
//! a text of more than 4,096 bytes the mark tells the length, and only its last lines follow.
//!
//! A text ends before the line feed that stands before the next mark or at the file's end: one that ends
//! with a line feed has an empty line behind it.

use crate::Stop;
use crate::bundles::bundle_of;
use crate::devices::{Ended, run_line, whole};
use std::alloc::{AllocError, Global};
use std::fmt::Write;
use std::str::from_utf8;
use witx_base::OutOfMemory;

/// What stands before each case.
const CASE: &str = "\n==== ";

/// How many bytes a sink holds besides as many as the bundle has.
const ROOM: usize = 65_536;

/// The most bytes of a text that is written whole.
const MOST: usize = 4096;

/// How many lines of a longer one are written.
const LAST: usize = 20;

/// Runs the cases of a topic. Writes those that give something else than is stored, and their number.
pub fn hold(
    alloc: Global,
    topic: &str,
    cases: &str,
    gives: &str,
    answers: &mut String,
) -> Result<(), Stop> {
    let (count, more) = run_cases(alloc, cases, gives, answers)?;
    if more > 0 {
        writeln!(answers, "stored without a case: {more}")?;
    }
    writeln!(answers, "{topic}: {count} cases")?;
    Ok(())
}

/// Runs the cases of a topic, and writes what all give.
pub fn put_all(alloc: Global, cases: &str, answers: &mut String) -> Result<(), Stop> {
    run_cases(alloc, cases, "", answers)?;
    Ok(())
}

/// Runs cases, and writes those that give something else than is stored. Answers how many there are, and
/// how many more are stored.
fn run_cases(
    alloc: Global,
    cases: &str,
    gives: &str,
    answers: &mut String,
) -> Result<(usize, usize), OutOfMemory> {
    let mut stored = without_end(gives).split(CASE);
    let mut last = String::new(alloc);
    let mut count: usize = 0;
    for (number, case) in without_end(cases).split(CASE).enumerate() {
        run_case(alloc, (number, case), stored.next(), &mut last, answers)?;
        count = number;
    }
    let mut more: usize = 0;
    for _piece in stored {
        more = more.saturating_add(1);
    }
    Ok((count, more))
}

fn without_end(text: &str) -> &str {
    text.strip_suffix('\n').unwrap_or(text)
}

/// Runs the case of a piece with its number, and writes what it gives, if it isn't what is stored.
fn run_case(
    alloc: Global,
    (number, case): (usize, &str),
    stored: Option<&str>,
    last: &mut String,
    answers: &mut String,
) -> Result<(), OutOfMemory> {
    let gave = gave(alloc, number, case, last)?;
    if stored != Some(gave.as_str()) {
        put(answers, number, gave.as_str())?;
    }
    Ok(())
}

/// Writes a piece, behind the mark of a case where it isn't the first one.
fn put(answers: &mut String, number: usize, piece: &str) -> Result<(), AllocError> {
    if number > 0 {
        answers.push_str("==== ")?;
    }
    answers.push_str(piece)?;
    answers.push('\n')
}

/// What is stored of a piece of the cases; of the head, which is no case, the head.
fn gave(
    alloc: Global,
    number: usize,
    case: &str,
    last: &mut String,
) -> Result<String, OutOfMemory> {
    if number == 0 {
        return Ok(String::from_str(alloc, case)?);
    }
    let (name, rest) = case.split_once('\n').unwrap_or((case, ""));
    let mut piece = String::from_str(alloc, name)?;
    put_gave(alloc, rest, last, &mut piece)?;
    Ok(piece)
}

/// Runs the words of a case over its bundle, and writes what that gives.
fn put_gave(
    alloc: Global,
    case: &str,
    last: &mut String,
    piece: &mut String,
) -> Result<(), OutOfMemory> {
    let (line, text) = match case.split_once('\n') {
        Some((line, text)) => (line, Some(text)),
        None => (case, None),
    };
    let bundle = bundle_of(alloc, text, last)?;
    put_run(alloc, line, bundle.as_bytes(), piece)
}

fn put_run(
    alloc: Global,
    line: &str,
    bundle: &[u8],
    piece: &mut String,
) -> Result<(), OutOfMemory> {
    let settings = whole(bundle.len().saturating_add(ROOM));
    let words = line.strip_prefix("$ witx ");
    let ended = run_line(alloc, words, ' ', settings, bundle)?;
    put_ended(piece, &ended)?;
    Ok(())
}

/// Writes how a run ended.
fn put_ended(piece: &mut String, ended: &Ended) -> Result<(), AllocError> {
    write!(piece, "\nstatus {}", ended.status)?;
    if ended.has_document {
        piece.push_str(" and a document")?;
    }
    put_text(piece, "out", ended.devices.out.bytes())?;
    put_text(piece, "err", ended.devices.err.bytes())
}

/// Writes what stands on a sink, if anything.
fn put_text(piece: &mut String, sink: &str, bytes: &[u8]) -> Result<(), AllocError> {
    match from_utf8(bytes) {
        Ok("") => Ok(()),
        Ok(text) if text.len() <= MOST => write!(piece, "\n---- {sink}\n{text}"),
        Ok(text) => put_last_lines(piece, sink, text),
        Err(_) => write!(
            piece,
            "\n---- {sink}: {} bytes that are no text",
            bytes.len()
        ),
    }
}

fn put_last_lines(piece: &mut String, sink: &str, text: &str) -> Result<(), AllocError> {
    write!(
        piece,
        "\n---- {sink}: {} bytes, with these last lines",
        text.len()
    )?;
    let count = text.lines().count();
    for line in text.lines().skip(count.saturating_sub(LAST)) {
        write!(piece, "\n{line}")?;
    }
    Ok(())
}
