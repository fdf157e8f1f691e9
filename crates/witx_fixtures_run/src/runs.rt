//! The program over a source and two sinks in memory, and whether a run gives what its row says.

ghost use Rattle.std.specs.Prelude.{◌<◌};

use std::alloc::Global;
use witx::{Ran, run};
use witx_base::{Bytes, Items, MemSink, MemSource, OutOfMemory, Text};
use witx_fixtures::{Devices, calls_of};

/// A bundle of one document, whose function `add` takes two numbers.
pub const ADD: &str = r#";;;; file /a
(module $m (@interface func (export "add") (param $x u32) (param $y u64) (result $r u32)))"#;

/// Its listing.
pub const ADD_LISTING: &str = r#"module m
func "add" (i32 i64) -> (i32)
caller
  get_arg 0
  i32_from_u32
  get_arg 1
  i64_from_u64
  call_wasm "m" "add" (i32 i64) -> (i32)
  u32_from_i32
  return 1
callee
  get_arg 0
  u32_from_i32
  get_arg 1
  u64_from_i64
  call_interface "m" "add"
  i32_from_u32
  return 1
"#;

/// Words, the bundle, the status, and what is written on the output and of the refusal.
pub type Case = (&'static str, &'static str, u8, &'static str, &'static str);

/// A source that gives so many bytes a call, of whose calls these fail.
pub fn source_of(
    alloc: Global,
    bytes: &[u8],
    gives: usize,
    fails: &[u64],
) -> Result<MemSource, OutOfMemory>
    requires { 0 < gives }
{
    let bytes = Bytes::from_vec(Vec::from_slice(alloc, bytes)?);
    Ok(MemSource::new(bytes, gives, calls_of(alloc, fails)?))
}

/// A sink that takes so many bytes a call, of whose calls these fail.
pub fn sink_of(alloc: Global, takes: usize, fails: &[u64]) -> Result<MemSink, OutOfMemory>
    requires { 0 < takes }
{
    MemSink::new(alloc, 4096, takes, calls_of(alloc, fails)?)
}

/// The words of a line; an empty line has none.
pub fn words_of(alloc: Global, line: &str) -> Result<Items<Text>, OutOfMemory> {
    let mut words = Items::new(alloc);
    if line.is_empty() {
        return Ok(words);
    }
    for word in line.split(' ') {
        words.push(Text::new(alloc, word)?)?;
    }
    Ok(words)
}

/// What a run gives: its status, whether it has a value, and its devices, behind what it read and wrote.
#[derive(Drop)]
pub struct Gave {
    /// The status.
    pub status: u8,
    /// Whether it has a value.
    pub has_value: bool,
    /// The devices.
    pub devices: Devices,
}

impl Gave {
    /// What a run gives that ended so and left its devices like this.
    pub fn of(ran: Ran, devices: Devices) -> Gave {
        let status = ran.status;
        let has_value = ran.adapted.is_some();
        drop(ran);
        Gave {
            status,
            has_value,
            devices,
        }
    }

    /// Whether the run ended so, with a value exactly where `adapt` or `sample` is done.
    fn ended(&self, line: &str, status: u8) -> bool {
        let is_adapting = line.starts_with("adapt") || line.starts_with("sample");
        self.status == status && self.has_value == (status == 0 && is_adapting)
    }

    /// Whether the run ended so, with these texts written.
    pub fn is(&self, line: &str, status: u8, listing: &str, refusal: &str) -> bool {
        self.ended(line, status)
            && self.devices.out.bytes() == listing.as_bytes()
            && self.devices.err.bytes() == refusal.as_bytes()
    }
}

/// A run of the words of a line over these devices.
pub fn run_on(alloc: Global, line: &str, mut devices: Devices) -> Result<Gave, OutOfMemory> {
    let Devices { source, out, err } = &mut devices;
    let words = words_of(alloc, line)?;
    let ran = run(alloc, words.as_slice(), source, out, err);
    Ok(Gave::of(ran, devices))
}

/// A run over devices that don't fail.
pub fn run_over(alloc: Global, line: &str, bundle: &[u8]) -> Result<Gave, OutOfMemory> {
    let out = sink_of(alloc, 500, &[])?;
    let err = sink_of(alloc, 500, &[])?;
    let source = source_of(alloc, bundle, 50_000, &[])?;
    run_on(alloc, line, Devices { source, out, err })
}
