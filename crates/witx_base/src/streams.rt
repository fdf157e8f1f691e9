//! Readers and writers of std as sources and sinks.

ghost use Rattle.std.specs.Prelude.{◌≡◌, ◌≤◌, length, IfSome};

use crate::device::{Sink, Source};
use crate::memory::Failed;
use std::io::{ErrorKind, Read, Write};

/// Any reader of std as a source. It tells nothing of its bytes, and counts its calls and failures. A
/// read that was interrupted is tried again, and is no failure.
#[derive(Drop)]
pub struct Reading<R> {
    inner: R,
    faults: u64,
    reads: u64,
}

impl<R> Reading<R> {
    /// The reader as a source, before the first call.
    pub fn new(inner: R) -> Reading<R>
        ensures { (result.faults ≡ 0) × (result.reads ≡ 0) }
    {
        Reading {
            inner,
            faults: 0,
            reads: 0,
        }
    }
}

impl<R: Read> Source for Reading<R> {
    ghost use Rattle.std.specs.Prelude.{None};

    ghost left = { λ reading. None };

    ghost faults = { λ reading. reading.faults };

    ghost reads = { λ reading. reading.reads };

    fn read(&mut self, buf: &mut [u8]) -> Result<usize, Failed> {
        self.reads = self.reads.saturating_add(1);
        match read_whole(&mut self.inner, buf) {
            Some(count) => Ok(count),
            None => {
                self.faults = self.faults.saturating_add(1);
                Err(Failed)
            }
        }
    }
}

/// How many bytes a read moves, once it isn't interrupted; none where it fails.
fn read_whole<R: Read>(reader: &mut R, buf: &mut [u8]) -> Option<usize>
    ensures { IfSome result (λ count. count ≤ length buf.old) }
{
    for _ in 0..u64::MAX {
        match reader.read(buf) {
            Ok(count) => return Some(count),
            Err(error) if error.kind() == ErrorKind::Interrupted => {}
            Err(_) => return None,
        }
    }
    None
}

/// Any writer of std as a sink. It tells nothing of its bytes, and counts its failures; to take nothing
/// is one. A write that was interrupted is tried again, and is no failure.
#[derive(Drop)]
pub struct Writing<W> {
    inner: W,
    faults: u64,
}

impl<W> Writing<W> {
    /// The writer as a sink, before the first call.
    pub fn new(inner: W) -> Writing<W>
        ensures { result.faults ≡ 0 }
    {
        Writing { inner, faults: 0 }
    }
}

impl<W: Write> Sink for Writing<W> {
    ghost use Rattle.std.specs.Prelude.{None};

    ghost taken = { λ writing. None };

    ghost faults = { λ writing. writing.faults };

    fn write(&mut self, piece: &[u8]) -> Result<usize, Failed> {
        match write_whole(&mut self.inner, piece) {
            Some(count) if 0 < count => Ok(count),
            _ => {
                self.faults = self.faults.saturating_add(1);
                Err(Failed)
            }
        }
    }
}

/// How many bytes a write takes, once it isn't interrupted; none where it fails.
fn write_whole<W: Write>(writer: &mut W, piece: &[u8]) -> Option<usize>
    ensures { IfSome result (λ count. count ≤ length piece.now) }
{
    for _ in 0..u64::MAX {
        match writer.write(piece) {
            Ok(count) => return Some(count),
            Err(error) if error.kind() == ErrorKind::Interrupted => {}
            Err(_) => return None,
        }
    }
    None
}
