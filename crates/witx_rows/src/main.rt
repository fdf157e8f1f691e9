//! Runs the program `witx` in memory: the cases of each topic that a word names, and then the batch of
//! inputs on standard input, which `tools/fuzz` makes.
//!
//! A topic is a folder of two files, `cases` and `gives`; the head of `rows.rt` has their form. For each
//! topic a line is written, with the number of its cases; before it stand those that gave something else
//! than is stored, with what they gave. Behind the word `write` the topics are written as `gives` files in
//! place of that, for `tools/rows`. The head of `batch.rt` has the form of a batch.
#![tactic(auto)]

mod batch;
mod bundles;
mod devices;
mod rows;

use batch::answer_all;
use rows::{hold, put_all};
use std::alloc::Global;
use std::io::{Read, Write as _};
use std::process::ExitCode;
use std::{env, fs};
use witx_base::MemoryRefused;

/// Why the program ends before its end.
#[derive(Clone, Copy)]
pub enum Stop {
    /// A topic has no such file, or an input has no whole header, or fewer bytes than that says.
    NoInput,
    /// The words or standard input can't be read.
    Unread,
    OutOfMemory,
}

impl<E: MemoryRefused> From<E> for Stop {
    fn from(_refused: E) -> Stop {
        Stop::OutOfMemory
    }
}

/// Status 0 where each case and each input was run, 1 where a file isn't there or an input isn't whole,
/// 3 and 4 where standard input can't be read or the answers can't be written, 5 without memory. What
/// was answered before stands on standard output in each case but 4.
fn main(rt: HostRuntime) -> ExitCode {
    let alloc = rt.alloc();
    let mut answers = String::new(alloc);
    let status = match run_words(&rt, alloc, &mut answers) {
        Ok(()) => 0,
        Err(Stop::NoInput) => 1,
        Err(Stop::Unread) => 3,
        Err(Stop::OutOfMemory) => 5,
    };
    match rt.stdout().write_all(answers.as_bytes()) {
        Ok(()) => ExitCode::from(status),
        Err(_) => ExitCode::from(4),
    }
}

/// Runs the topics that the words name, and then the batch.
fn run_words(rt: &HostRuntime, alloc: Global, answers: &mut String) -> Result<(), Stop> {
    run_topics(rt, alloc, answers)?;
    let mut batch = Vec::new(alloc);
    if rt.stdin().read_to_end(&mut batch).is_err() {
        return Err(Stop::Unread);
    }
    answer_all(alloc, batch.as_slice(), answers)
}

fn run_topics(rt: &HostRuntime, alloc: Global, answers: &mut String) -> Result<(), Stop> {
    let Ok(words) = env::args(rt) else {
        return Err(Stop::Unread);
    };
    let mut is_writing = false;
    for topic in words.skip(1) {
        if topic.as_str() == "write" {
            is_writing = true;
        } else {
            run_topic(rt, alloc, topic.as_str(), is_writing, answers)?;
        }
    }
    Ok(())
}

fn run_topic(
    rt: &HostRuntime,
    alloc: Global,
    topic: &str,
    is_writing: bool,
    answers: &mut String,
) -> Result<(), Stop> {
    let cases = file_of(rt, alloc, topic, "cases")?;
    if is_writing {
        return put_all(alloc, cases.as_str(), answers);
    }
    hold_topic(rt, alloc, topic, cases.as_str(), answers)
}

/// Holds what cases give against the file beside theirs.
fn hold_topic(
    rt: &HostRuntime,
    alloc: Global,
    topic: &str,
    cases: &str,
    answers: &mut String,
) -> Result<(), Stop> {
    let gives = file_of(rt, alloc, topic, "gives")?;
    hold(alloc, topic, cases, gives.as_str(), answers)
}

fn file_of(rt: &HostRuntime, alloc: Global, topic: &str, name: &str) -> Result<String, Stop> {
    let path = format!(in alloc; "{topic}/{name}")?;
    match fs::read_to_string(rt, path.as_str()) {
        Ok(text) => Ok(text),
        Err(_) => Err(Stop::NoInput),
    }
}
