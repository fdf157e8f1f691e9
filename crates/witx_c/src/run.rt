//! The run of a call, and what it wrote.

ghost use Rattle.std.specs.Prelude.{◌≡◌, ℕ, List, []};
ghost use Rattle.witx_c.specs.{Runs.{AreWords, IsRunInMemory}, Words.{words_between_zeros}};

use crate::devices::{SliceSource, VecSink};
use crate::words::texts_in;
use std::alloc::Global;
use std::str::from_utf8;
use witx_base::Text;
use witx_commands::{NO_MEMORY, UNWRITTEN, let_go};
use witx_tools::run_all;

/// What a run wrote, and its status.
#[derive(Drop)]
pub struct Written {
    /// The status, as the program's.
    pub status: u8,
    /// What the program writes on standard output.
    pub out: Vec<u8>,
    /// What it writes on standard error.
    pub err: Vec<u8>,
}

/// Runs the words in the bytes over the input. Where they aren't UTF-8 there are none, so that the program
/// answers as to words without a form.
pub fn run_in_memory(alloc: Global, words: &[u8], input: &[u8]) -> Written
    ensures { (given : List (List ℕ)) × AreWords words.now given
        × IsRunInMemory given input.now result.status result.out.items result.err.items }
{
    match from_utf8(words) {
        Ok(text) => run_text(alloc, text, input),
        Err(_) => run_words(alloc, &[], input),
    }
}

fn run_text(alloc: Global, text: &str, input: &[u8]) -> Written
    ensures { IsRunInMemory (words_between_zeros text.now) input.now result.status result.out.items result.err.items }
{
    match texts_in(alloc, text) {
        Ok(words) => run_words(alloc, words.as_slice(), input),
        Err(_) => unwritten(alloc),
    }
}

/// Both sinks fail only for want of memory, and so a run that couldn't write a text had none: it ends as one
/// that had no memory for the text.
fn run_words(alloc: Global, words: &[Text], input: &[u8]) -> Written
    ensures { IsRunInMemory words.now input.now result.status result.out.items result.err.items }
{
    let mut source = SliceSource::new(input);
    let mut out = VecSink::new(alloc);
    let mut err = VecSink::new(alloc);
    let ran = run_all(alloc, words, &mut source, &mut out, &mut err);
    let status = ran.status;
    let_go(ran.adapted);
    if status == UNWRITTEN {
        return unwritten(alloc);
    }
    Written {
        status,
        out: out.into_bytes(),
        err: err.into_bytes(),
    }
}

/// There was no memory, and nothing is written.
fn unwritten(alloc: Global) -> Written
    ensures status { result.status ≡ 5 }
    ensures out { result.out.items ≡ [] }
    ensures err { result.err.items ≡ [] }
{
    Written {
        status: NO_MEMORY,
        out: Vec::new(alloc),
        err: Vec::new(alloc),
    }
}
