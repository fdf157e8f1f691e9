//! Sources and sinks in memory, of which chosen calls fail.

ghost use Rattle.std.specs.Prelude.{◌≡◌, ◌<◌, ◌≤◌, ◌+◌, ◌++◌, [], Some, length, take, drop, is_err, IfOk};
ghost use Rattle.witx_base.specs.Calls.{fails_next, no_calls};
ghost use Rattle.witx_base.specs.MemDevices.{bytes_accepted, after_read, after_write, fails_write, bytes_given};

use crate::calls::CallCounter;
use crate::device::{Sink, Source};
use crate::memory::{Failed, OutOfMemory};
use crate::{Bytes, Calls};
use std::alloc::Global;
use std::marker::Model;

/// A source over bytes in memory. A call gives as many bytes as are left and the buffer holds, at
/// most `gives`; exactly the calls numbered in `fails`, from 0, fail.
#[derive(Drop)]
pub struct MemSource {
    bytes: Bytes,
    at: usize,
    gives: usize,
    calls: CallCounter,
}

impl Model for MemSource {
    ghost use Rattle.std.specs.Prelude.{◌<◌, ◌≤◌, drop, length};
    ghost use Rattle.witx_base.specs.MemDevices.{SourceState};

    ghost Value = { SourceState };

    ghost view = { λ s. record { left = drop s.at s.bytes; gives = s.gives; calls = s.calls } };

    ghost invariant = { λ s. (s.at ≤ length s.bytes) × (0 < s.gives) };
}

impl MemSource {
    /// The source of `bytes`.
    pub fn new(bytes: Bytes, gives: usize, fails: Calls) -> MemSource
        requires { 0 < gives }
        ensures { result ≡ record { left = bytes; gives = gives; calls = no_calls fails } }
    {
        MemSource {
            bytes,
            at: 0,
            gives,
            calls: CallCounter::new(fails),
        }
    }

    /// How many calls have failed.
    pub fn faults(&self) -> u64
        ensures { result ≡ self.now.calls.faults }
    {
        self.calls.faults()
    }
}

impl Source for MemSource {
    ghost left = { λ s. Some s.left };

    ghost faults = { λ s. s.calls.faults };

    ghost reads = { λ s. s.calls.next };

    fn read(&mut self, buf: &mut [u8]) -> Result<usize, Failed>
        requires { 0 < length buf.old }
        ensures fails { is_err result ≡ fails_next self.old.calls }
        ensures count { IfOk result (λ n. n ≡ bytes_given self.old (length buf.old)) }
        ensures buffer { let n = bytes_given self.old (length buf.old) in buf.new ≡ take n self.old.left ++ drop n buf.old }
        ensures after { self.new ≡ after_read self.old (length buf.old) }
        ensures end { IfOk result (λ n. n ≡ 0 → self.old.left ≡ []) }
        ensures later { self.old.calls.faults ≤ self.new.calls.faults }
    {
        self.calls.count()?;
        let rest = &self.bytes.as_slice()[self.at..];
        let n = rest.len().min(buf.len()).min(self.gives);
        buf[..n].copy_from_slice(&rest[..n]);
        self.at += n;
        Ok(n)
    }
}

/// A sink in memory. A call takes as many bytes as the piece and the room left hold, at most `takes`;
/// exactly the calls numbered in `fails`, from 0, and the writes into a full sink fail.
#[derive(Drop)]
pub struct MemSink {
    buffer: Vec<u8>,
    len: usize,
    takes: usize,
    calls: CallCounter,
}

impl Model for MemSink {
    ghost use Rattle.std.specs.Prelude.{◌<◌, ◌≤◌, take, length};
    ghost use Rattle.witx_base.specs.MemDevices.{SinkState};

    ghost Value = { SinkState };

    ghost view = { λ s. record { bytes = take s.len s.buffer.items; room = length s.buffer.items; takes = s.takes; calls = s.calls } };

    ghost invariant = { λ s. (s.len ≤ length s.buffer.items) × (0 < s.takes) };
}

impl MemSink {
    /// The empty sink with room for `room` bytes, which is taken at once.
    pub fn new(
        alloc: Global,
        room: usize,
        takes: usize,
        fails: Calls,
    ) -> Result<MemSink, OutOfMemory>
        requires { 0 < takes }
        ensures { IfOk result (λ sink. sink ≡ record { bytes = []; room = room; takes = takes; calls = no_calls fails }) }
    {
        Ok(MemSink {
            buffer: vec![in alloc; 0; room]?,
            len: 0,
            takes,
            calls: CallCounter::new(fails),
        })
    }

    /// The bytes taken.
    pub fn bytes(&self) -> &[u8]
        ensures { result.now ≡ self.now.bytes }
    {
        &self.buffer[..self.len]
    }

    /// How many calls have failed.
    pub fn faults(&self) -> u64
        ensures { result ≡ self.now.calls.faults }
    {
        self.calls.faults()
    }
}

impl Sink for MemSink {
    ghost taken = { λ s. Some s.bytes };

    ghost faults = { λ s. s.calls.faults };

    fn write(&mut self, piece: &[u8]) -> Result<usize, Failed>
        requires { 0 < length piece.now }
        ensures fails { is_err result ≡ fails_write self.old }
        ensures count { IfOk result (λ n. n ≡ bytes_accepted self.old (length piece.now)) }
        ensures after { self.new ≡ after_write self.old piece.now }
        ensures some { IfOk result (λ n. 0 < n) }
        ensures later { self.old.calls.faults ≤ self.new.calls.faults }
    {
        self.calls.count()?;
        let room = self.buffer.len() - self.len;
        if room == 0 {
            return Err(self.calls.fault());
        }
        let n = piece.len().min(room).min(self.takes);
        put(self.buffer.as_mut_slice(), self.len, &piece[..n]);
        self.len += n;
        Ok(n)
    }
}

/// Writes the bytes behind the first `len` of the buffer.
fn put(buffer: &mut [u8], len: usize, bytes: &[u8])
    requires { len + length bytes.now ≤ length buffer.old }
    ensures { take (len + length bytes.now) buffer.new ≡ take len buffer.old ++ bytes.now }
{
    buffer[len..len + bytes.len()].copy_from_slice(bytes);
}
