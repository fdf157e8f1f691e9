//! The program's top call: tools over devices that fail, and which words ask for which command.

use std::alloc::Global;
use witx_base::{OutOfMemory, Text};
use witx_commands::{Command, Forms, command_of};
use witx_fixtures_run::{Case, Devices, Gave, sink_of, source_of, words_of};
use witx_tools::run_all;

/// Parameters in another order.
const TURNED: &str = r#";;;; file /n
(module $m (@interface func (export "f") (param $x u8) (param $s string)))
;;;; file /o
(module $m (@interface func (export "f") (param $s string) (param $x u8)))"#;

/// Lists of imports beside the function that they ask for.
const LISTS: &str = r#";;;; file /a
(module $m (@interface func (export "add") (param $x u32) (param $y u64) (result $r u32)))
;;;; file /same
(import "m" "add" (func (param i32) (param $y i64) (result i32)))
;;;; file /missing
(import "m" "sub" (func))"#;

/// A function without words, its listing, and a listing that is cut short.
const TRACES: &str = r#";;;; file /a
(module $m (@interface func (export "f")))
;;;; file /l
module m
func "f" () -> ()
caller
  call_wasm "m" "f" () -> ()
  return 0
callee
  call_interface "m" "f"
  return 0
;;;; file /x
module m
"#;

fn run_all_on(alloc: Global, line: &str, mut devices: Devices) -> Result<Gave, OutOfMemory> {
    let Devices { source, out, err } = &mut devices;
    let words = words_of(alloc, line)?;
    let ran = run_all(alloc, words.as_slice(), source, out, err);
    Ok(Gave::of(ran, devices))
}

/// Calls of the source, of the output and of the sink of refusals that fail.
pub type Fails = (&'static [u64], &'static [u64], &'static [u64]);

/// A run over a source that gives 50 bytes a call, and sinks that take 10.
fn run_failing(alloc: Global, line: &str, bundle: &str, fails: Fails) -> Result<Gave, OutOfMemory> {
    let out = sink_of(alloc, 10, fails.1)?;
    let err = sink_of(alloc, 10, fails.2)?;
    let source = source_of(alloc, bundle.as_bytes(), 50, fails.0)?;
    run_all_on(alloc, line, Devices { source, out, err })
}

fn gives(alloc: Global, case: &Case, fails: Fails) -> bool {
    let (line, bundle, status, listing, refusal) = case;
    run_failing(alloc, line, bundle, fails).is_ok_and(|gave| gave.is(
        line, *status, listing, refusal,
    ))
}

/// Calls that fail, and what a run gives then.
#[rattlefmt::skip]
static FAILING: &[(Fails, Case)] = &[
    ((&[0], &[0], &[]), ("shim /n /o m m", TURNED, 3, "", "witx: cannot read input\n")),
    ((&[1], &[], &[]), ("imports /same /a", LISTS, 3, "", "witx: cannot read input\n")),
    ((&[2], &[], &[]), ("verify /l /a", TRACES, 3, "", "witx: cannot read input\n")),
    ((&[], &[1], &[0]), ("verify /l /a", TRACES, 4, "func \"f\" y", "")),
    ((&[], &[0], &[3]), ("verify /x /a", TRACES, 4, "", "witx: listing: unexpected line")),
    ((&[], &[1], &[0]), ("shim /n /o m m", TURNED, 4, "module m b", "")),
    ((&[], &[0], &[]), ("imports /missing /a", LISTS, 4, "", "")),
    ((&[], &[0], &[0]), ("imports /same /a", LISTS, 0, "", "")),
    ((&[], &[0], &[1]), ("shim /n /o m x", TURNED, 4, "", "witx: Modu")),
    ((&[], &[], &[2]), ("imports /x /a", LISTS, 4, "", "witx: with file \"/x\"")),
    ((&[0], &[0], &[1]), ("shim /n", TURNED, 4, "", "usage: wit")),
    ((&[0], &[], &[0]), ("shim /n /o", TURNED, 4, "", "")),
];

pub fn all_fail(alloc: Global, cases: &[(Fails, Case)]) -> bool {
    cases.iter().all(|(fails, case)| gives(alloc, case, *fails))
}

#[test]
fn failing_devices(rt: HostRuntime) {
    assert!(rt; all_fail(rt.alloc(), FAILING));
}

/// The name of a command.
fn name_of(command: &Command<'_>) -> &'static str {
    match command {
        Command::Adapt { .. } => "adapt",
        Command::Print { .. } => "print",
        Command::Layouts { .. } => "layouts",
        Command::Docs { .. } => "docs",
        Command::Polyfill(_) => "polyfill",
        Command::Sample { .. } => "sample",
        Command::Shim(_) => "shim",
        Command::Verify(_) => "verify",
        Command::Invoke { .. } => "invoke",
        Command::Imports(_) => "imports",
    }
}

/// Whether words ask for the command of this name, or for none.
fn have_command(words: &[Text], name: &str) -> bool {
    match command_of(Forms::All, words) {
        Some(command) => name_of(&command) == name,
        None => name.is_empty(),
    }
}

/// Whether a line asks for the command of this name, or for none.
fn asks_for(alloc: Global, line: &str, name: &str) -> bool {
    words_of(alloc, line).is_ok_and(|words| have_command(words.as_slice(), name))
}

fn all_are_known(alloc: Global) -> bool {
    asks_for(alloc, "shim a b", "shim")
        && asks_for(alloc, "shim a b c d e", "")
        && asks_for(alloc, "verify a b c", "verify")
        && asks_for(alloc, "verify", "")
        && asks_for(alloc, "invoke m f v", "invoke")
        && asks_for(alloc, "invoke m f", "")
        && asks_for(alloc, "imports a", "imports")
        && asks_for(alloc, "imports", "")
        && asks_for(alloc, "adapt a", "adapt")
        && asks_for(alloc, "", "")
}

#[test]
fn commands_of_words(rt: HostRuntime) {
    assert!(rt; all_are_known(rt.alloc()));
}
