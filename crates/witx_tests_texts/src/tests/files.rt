//! Files in memory, listed calls that fail, and places in a file as a report shows them.

use std::alloc::Global;
use witx_base::{Duplicate, Items, OutOfMemory, Text, WitxPath};
use witx_files::{FailingFs, IoError, IoFault, Location, MockFs, WitxIo};
use witx_fixtures::{calls_of, files_of, links_of, long_text};

const NOT_FOUND: IoError = IoError::Fault(IoFault::NotFound);

const LINE_NOT_FOUND: IoError = IoError::Fault(IoFault::LineNotFound);

const FAILED: IoError = IoError::Fault(IoFault::Failed);

/// What a call answers: a text, or why there is none.
type Wanted = Result<&'static str, IoError>;

fn is_answer(answer: &Result<Text, IoError>, wanted: Wanted) -> bool {
    match (answer, wanted) {
        (Ok(text), Ok(wanted)) => text.as_str() == wanted,
        (Err(error), Err(wanted)) => *error == wanted,
        _ => false,
    }
}

/// Paths, of which the last spells the first another way.
const HELD: &[(&str, &str)] = &[("/a", "old"), ("/b", ""), ("//a/.", "new")];

const TEXTS: &[(&str, Wanted)] = &[
    ("/a", Ok("new")),
    ("/b", Ok("")),
    ("a", Err(NOT_FOUND)),
    ("/", Err(NOT_FOUND)),
];

fn gives<I: WitxIo>(alloc: Global, io: &mut I, path: &WitxPath, wanted: Wanted) -> bool {
    is_answer(&io.fgets(alloc, path), wanted)
}

fn holds<I: WitxIo>(alloc: Global, io: &mut I, path: &str, wanted: Wanted) -> bool {
    match WitxPath::new(alloc, path) {
        Ok(path) => gives(alloc, io, &path, wanted),
        Err(_) => false,
    }
}

fn gives_all(alloc: Global, mut files: MockFs) -> bool {
    TEXTS
        .iter()
        .all(|(path, wanted)| holds(alloc, &mut files, path, *wanted))
}

fn is_canonical(alloc: Global) -> Result<bool, OutOfMemory> {
    let path = WitxPath::new(alloc, "x/./y")?;
    Ok(gives_path(alloc, &mut MockFs::new(alloc), &path, Ok("x/y")))
}

#[test]
fn texts_in_memory(rt: HostRuntime) {
    let alloc = rt.alloc();
    let gives_all = files_of(alloc, HELD).is_ok_and(|files| gives_all(alloc, files));
    assert!(rt; gives_all && is_canonical(alloc).unwrap_or(false));
}

const LINED: &[(&str, &str)] = &[("/a", "one\r\n\ntwo\r"), ("/b", ""), ("/c", "x\n")];

/// A path, the number of a line, and the line.
const LINES: &[(&str, usize, Wanted)] = &[
    ("/a", 0, Err(LINE_NOT_FOUND)),
    ("/a", 1, Ok("one")),
    ("/a", 2, Ok("")),
    ("/a", 3, Ok("two\r")),
    ("/a", 4, Err(LINE_NOT_FOUND)),
    ("/b", 1, Err(LINE_NOT_FOUND)),
    ("/c", 1, Ok("x")),
    ("/c", 2, Err(LINE_NOT_FOUND)),
    ("/c", usize::MAX, Err(LINE_NOT_FOUND)),
    ("/d", 0, Err(NOT_FOUND)),
    ("/d", 1, Err(NOT_FOUND)),
];

fn gives_line<I: WitxIo>(
    alloc: Global,
    io: &mut I,
    path: &WitxPath,
    line: usize,
    wanted: Wanted,
) -> bool {
    is_answer(&io.fget_line(alloc, path, line), wanted)
}

fn holds_line<I: WitxIo>(
    alloc: Global,
    io: &mut I,
    path: &str,
    line: usize,
    wanted: Wanted,
) -> bool {
    match WitxPath::new(alloc, path) {
        Ok(path) => gives_line(alloc, io, &path, line, wanted),
        Err(_) => false,
    }
}

fn gives_lines(alloc: Global, mut files: MockFs) -> bool {
    LINES.iter().all(|(path, line, wanted)| holds_line(alloc, &mut files, path, *line, *wanted))
}

#[test]
fn lines_in_memory(rt: HostRuntime) {
    let alloc = rt.alloc();
    assert!(rt; files_of(alloc, LINED).is_ok_and(|files| gives_lines(alloc, files)));
}

/// The answers of three calls.
type Answers = (Wanted, Wanted, Wanted);

/// A text, a line of it and the path that it stands for are asked for in turn, of which these calls
/// fail: the answers, and how many calls failed.
const FAILING: &[(&[u64], Answers, u64)] = &[
    (&[], (Ok("one\ntwo"), Ok("two"), Ok("/b")), 0),
    (&[0], (Err(FAILED), Ok("two"), Ok("/b")), 1),
    (&[1, 7], (Ok("one\ntwo"), Err(FAILED), Ok("/b")), 1),
    (&[2], (Ok("one\ntwo"), Ok("two"), Err(FAILED)), 1),
    (&[2, 0, 1], (Err(FAILED), Err(FAILED), Err(FAILED)), 3),
];

/// Two links of one path, of which the first counts.
const LINKS: &[(&str, &str)] = &[("/c", "/a"), ("/a", "/b"), ("/a", "/c")];

fn failing(alloc: Global, numbers: &[u64]) -> Result<FailingFs, OutOfMemory> {
    let files = files_of(alloc, &[("/a", "one\ntwo"), ("/b", "")])?;
    let links = links_of(alloc, LINKS)?;
    Ok(FailingFs::new(files, links, calls_of(alloc, numbers)?))
}

fn gives_path<I: WitxIo>(alloc: Global, io: &mut I, path: &WitxPath, wanted: Wanted) -> bool {
    match (io.canonicalize(alloc, path), wanted) {
        (Ok(found), Ok(wanted)) => found.as_str() == wanted,
        (Err(error), Err(wanted)) => error == wanted,
        _ => false,
    }
}

fn is_linked(alloc: Global, io: &mut FailingFs, path: &str, wanted: Wanted) -> bool {
    match WitxPath::new(alloc, path) {
        Ok(path) => gives_path(alloc, io, &path, wanted),
        Err(_) => false,
    }
}

/// One call of each kind, in turn, and then one of a missing file, which is no fault.
fn answers(alloc: Global, io: &mut FailingFs, (text, line, linked): Answers) -> bool {
    holds(alloc, io, "/a", text)
        && holds_line(alloc, io, "/a", 2, line)
        && is_linked(alloc, io, "/a", linked)
        && holds(alloc, io, "/c", Err(NOT_FOUND))
}

fn fails(
    alloc: Global,
    &(numbers, wanted, faults): &(&[u64], Answers, u64),
) -> Result<bool, OutOfMemory> {
    let mut io = failing(alloc, numbers)?;
    Ok(answers(alloc, &mut io, wanted) && io.faults() == faults)
}

#[test]
fn listed_calls_fail(rt: HostRuntime) {
    let alloc = rt.alloc();
    assert!(rt; FAILING.iter().all(|row| fails(alloc, row).unwrap_or(false)));
}

/// A path, a line and a column of it, the call that fails, and the text of the place.
#[rattlefmt::skip]
const LOCATED: &[(&str, usize, usize, u64, &str)] = &[
    ("/a", 1, 14, 9, r#"in "/a":
    1 | (typename $a $b)
                      ^"#),
    ("/a", 2, 1, 9, "in \"/a\":\n    2 | \n         ^"),
    ("/a", 3, 0, 9, r#"in "/a":
    3 | x
         ^"#),
    ("/a", 4, 1, 9, "in \"/a\":\n"),
    ("/a", 0, 1, 9, "in \"/a\":\n"),
    ("/d/../b", 1, 1, 9, "in \"/d/../b\":\n"),
    ("/a", 1, 14, 0, "in \"/a\":\n"),
];

fn located(alloc: Global, fails: u64) -> Result<FailingFs, OutOfMemory> {
    let files = files_of(alloc, &[("/a", "(typename $a $b)\n\nx\n")])?;
    Ok(FailingFs::new(files, Items::new(alloc), calls_of(alloc, &[fails])?))
}

fn location_at(
    alloc: Global,
    path: &str,
    line: usize,
    column: usize,
) -> Result<Location, OutOfMemory> {
    let path = WitxPath::new(alloc, path)?;
    Ok(Location { path, line, column })
}

/// Whether the place is shown so, and so is its copy.
fn is_shown<I: WitxIo>(alloc: Global, io: &mut I, location: &Location, wanted: &str) -> bool {
    location
        .highlight_source_with(alloc, io)
        .is_ok_and(|text| text.as_str() == wanted)
        && location.copy().is_ok_and(|copy| copy == *location)
}

fn shows(
    alloc: Global,
    &(path, line, column, fails, wanted): &(&str, usize, usize, u64, &str),
) -> Result<bool, OutOfMemory> {
    let location = location_at(alloc, path, line, column)?;
    let mut io = located(alloc, fails)?;
    Ok(is_shown(alloc, &mut io, &location, wanted))
}

#[test]
fn located_texts(rt: HostRuntime) {
    let alloc = rt.alloc();
    assert!(rt; LOCATED.iter().all(|row| shows(alloc, row).unwrap_or(false)));
}

/// Columns, and how far to the right the sign stands.
const WIDE: &[(usize, usize)] = &[(65535, 65535), (65536, 65535), (usize::MAX, 65535)];

/// A file of 123,456 lines, of which the last is `last`.
fn wide_files(alloc: Global) -> Result<MockFs, OutOfMemory> {
    let text = long_text(alloc, "", "\n", 123_455, "last")?;
    files_of(alloc, &[("/a", text.as_str())])
}

fn is_wide(text: &Text, drawn: usize) -> bool {
    let front = "in \"/a\":\n123456 | last\n          ";
    text.as_str().starts_with(front)
        && text.len() == front.len().saturating_sub(1).saturating_add(drawn)
        && text.as_str().ends_with(" ^")
}

fn is_drawn(
    alloc: Global,
    files: &mut MockFs,
    column: usize,
    drawn: usize,
) -> Result<bool, OutOfMemory> {
    let location = location_at(alloc, "/a", 123_456, column)?;
    Ok(
        location
            .highlight_source_with(alloc, files)
            .is_ok_and(|text| is_wide(&text, drawn)),
    )
}

fn all_drawn(alloc: Global, mut files: MockFs) -> bool {
    WIDE.iter().all(|(column, drawn)| is_drawn(alloc, &mut files, *column, *drawn) == Ok(true))
}

#[test]
fn wide_located_texts(rt: HostRuntime) {
    let alloc = rt.alloc();
    assert!(rt; wide_files(alloc).is_ok_and(|files| all_drawn(alloc, files)));
}
