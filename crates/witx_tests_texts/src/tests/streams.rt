//! Readers and writers of std as sources and sinks: what they move, what is tried again, and what
//! fails. Standard error is one of them.

use std::io::{Error, ErrorKind, Read, Result as IoResult, Write};
use witx_base::{Failed, Reading, Sink, Source, Writing};

fn gives<R: Read>(source: &mut Reading<R>, answer: Result<usize, Failed>) -> bool {
    let mut buffer = [0; 2];
    source.read(&mut buffer) == answer
}

/// Three bytes by two, and the end.
fn reads_to_the_end() -> bool {
    let mut source = Reading::new(b"abc".as_slice());
    gives(&mut source, Ok(2)) && gives(&mut source, Ok(1)) && gives(&mut source, Ok(0))
}

/// A reader that is interrupted twice, then reads one byte, and fails from then on.
#[derive(Drop)]
struct Shaky {
    calls: u64,
}

impl Read for Shaky {
    fn read(&mut self, buf: &mut [u8]) -> IoResult<usize> {
        self.calls = self.calls.saturating_add(1);
        match self.calls {
            1 | 2 => Err(Error::from(ErrorKind::Interrupted)),
            3 => Ok(buf.len().min(1)),
            _ => Err(Error::from(ErrorKind::Other)),
        }
    }
}

fn is_tried_again() -> bool {
    let mut source = Reading::new(Shaky { calls: 0 });
    gives(&mut source, Ok(1)) && gives(&mut source, Err(Failed)) && gives(&mut source, Err(Failed))
}

#[test]
fn readers(rt: HostRuntime) {
    assert!(rt; reads_to_the_end() && is_tried_again());
}

/// A writer that has room for three bytes, and fails where it takes none.
fn writes_to_the_end() -> bool {
    let mut room = [0; 3];
    let mut sink = Writing::new(room.as_mut_slice());
    sink.write(b"ab") == Ok(2) && sink.write(b"cd") == Ok(1) && sink.write(b"d") == Err(Failed)
}

impl Write for Shaky {
    fn write(&mut self, piece: &[u8]) -> IoResult<usize> {
        self.calls = self.calls.saturating_add(1);
        match self.calls {
            1 | 2 => Err(Error::from(ErrorKind::Interrupted)),
            3 => Ok(piece.len().min(1)),
            _ => Err(Error::from(ErrorKind::Other)),
        }
    }

    fn flush(&mut self) -> IoResult<()> {
        Ok(())
    }
}

fn is_written_again() -> bool {
    let mut sink = Writing::new(Shaky { calls: 0 });
    sink.write(b"ab") == Ok(1) && sink.write(b"b") == Err(Failed)
}

#[test]
fn writers(rt: HostRuntime) {
    assert!(rt; writes_to_the_end() && is_written_again());
}

#[test]
fn standard_error(rt: HostRuntime) {
    let mut err = Writing::new(rt.stderr());
    assert!(rt; err.write(b"witx\n").is_ok());
}
