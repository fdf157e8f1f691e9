//! The program for callers in C and Rust: one call, over bytes in memory, for every form of words.
#![tactic(auto)]

ghost use Rattle.std.specs.Prelude.{◌≡◌, ℕ, List, length};
ghost use Rattle.witx_c.specs.Runs.{AreWords, IsRunInMemory, over_front};

mod devices;
mod front;
mod run;
mod words;

use crate::front::put_front;
use crate::run::run_in_memory;
use std::alloc::Global;

/// How many bytes the two texts of a run have, whether or not they fitted.
#[repr(C)]
#[derive(Drop)]
pub struct WitxLengths {
    /// Of what the program writes on standard output.
    pub out: usize,
    /// Of what it writes on standard error.
    pub err: usize,
}

/// Runs the program over words and an input in memory; answers its status: 0 done, 1 refused, 2 words
/// without a form, 5 no memory, 6 the input is no bundle.
///
/// A byte 0 stands between two words, since no word of a command line can hold one; bytes that aren't UTF-8
/// are no words, which have no form. As much of what the program writes on standard output as fits is put at
/// the front of `out`, and of what it writes on standard error at the front of `err`; what stands behind it
/// stays. `lengths` tells how long both texts are. Without memory, with status 5, both are empty.
#[unsafe(no_mangle)]
pub extern "C" fn witx_run(
    alloc: Global,
    words: &[u8],
    input: &[u8],
    out: &mut [u8],
    err: &mut [u8],
    lengths: &mut WitxLengths,
) -> u8
    ensures { (given : List (List ℕ)) × (text : List ℕ) × (notes : List ℕ) × AreWords words.now given
        × IsRunInMemory given input.now result text notes
        × (out.new ≡ over_front text out.old) × (lengths.new.out ≡ length text) × (err.new ≡ over_front notes err.old) × (lengths.new.err ≡ length notes) }
{
    let written = run_in_memory(alloc, words, input);
    lengths.out = put_front(out, written.out.as_slice());
    lengths.err = put_front(err, written.err.as_slice());
    written.status
}
