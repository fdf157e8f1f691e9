//! A source over the caller's bytes, and a sink that keeps what it takes.

ghost use Rattle.std.specs.Prelude.{◌≡◌, []};

use std::alloc::Global;
use witx_base::{Failed, Sink, Source};

/// The caller's bytes as a source: nothing is copied but into the reader's buffer, and it never fails.
#[derive(Drop)]
pub struct SliceSource<'a> {
    rest: &'a [u8],
    reads: u64,
}

impl<'a> SliceSource<'a> {
    /// All of the bytes, before the first call.
    pub fn new(bytes: &'a [u8]) -> SliceSource<'a>
        ensures bytes { result.rest.now ≡ bytes.now }
        ensures reads { result.reads ≡ 0 }
    {
        SliceSource {
            rest: bytes,
            reads: 0,
        }
    }
}

impl Source for SliceSource<'_> {
    ghost use Rattle.std.specs.Prelude.{Some};

    ghost left = { λ source. Some source.rest.now };

    ghost faults = { λ source. 0 };

    ghost reads = { λ source. source.reads };

    fn read(&mut self, buf: &mut [u8]) -> Result<usize, Failed> {
        self.reads = self.reads.saturating_add(1);
        let n = self.rest.len().min(buf.len());
        buf[..n].copy_from_slice(&self.rest[..n]);
        self.rest = &self.rest[n..];
        Ok(n)
    }
}

/// A sink that keeps all that it takes, in memory that grows. It fails only where there is none.
#[derive(Drop)]
pub struct VecSink {
    bytes: Vec<u8>,
    faults: u64,
}

impl VecSink {
    /// The empty sink; takes no memory.
    pub fn new(alloc: Global) -> VecSink
        ensures bytes { result.bytes.items ≡ [] }
        ensures faults { result.faults ≡ 0 }
    {
        VecSink {
            bytes: Vec::new(alloc),
            faults: 0,
        }
    }

    /// The bytes taken.
    pub fn into_bytes(self) -> Vec<u8>
        ensures { result.items ≡ self.bytes.items }
    {
        self.bytes
    }
}

impl Sink for VecSink {
    ghost use Rattle.std.specs.Prelude.{Some};

    ghost taken = { λ sink. Some sink.bytes.items };

    ghost faults = { λ sink. sink.faults };

    fn write(&mut self, piece: &[u8]) -> Result<usize, Failed> {
        match self.bytes.extend_from_slice(piece) {
            Ok(()) => Ok(piece.len()),
            Err(_) => {
                self.faults = self.faults.saturating_add(1);
                Err(Failed)
            }
        }
    }
}
