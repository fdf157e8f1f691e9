//! The program over devices that fail: each way to end, and what stands on the two sinks then.

ghost use Rattle.std.specs.Prelude.{◌<◌};

use crate::tests::texts::{LINKED, LINKED_LINES, LINKED_PAGE, NUMBER, NUMBER_PAGE, USAGE};
use std::alloc::Global;
use witx_base::{MemSink, OutOfMemory};
use witx_fixtures_run::{ADD, ADD_LISTING, Devices, Gave, run_on, run_over, sink_of, source_of};

const BYTE: &str = "\
;;;; file /a
(typename $t u8)";

const UNKNOWN: &str = "\
;;;; file /a
(typename $a $b)";

const UNKNOWN_REPORT: &str = r#"witx: in "/a":
    1 | (typename $a $b)
                      ^
Unknown name `b`
"#;

const TWICE: &str = "\
;;;; file /a
(typename $a u8)
(typename $a u8)";

const TWICE_REPORT: &str = r#"witx: in "/a":
    2 | (typename $a u8)
                   ^
Redefinition of name `a`
Originally defined at:
in "/a":
    1 | (typename $a u8)
                   ^
"#;

const RECURSIVE: &str = r#";;;; file /a
(module $m (@interface func (export "f") (param $x $m)))"#;

const RECURSIVE_REPORT: &str = r#"witx: in "/a":
    1 | (module $m (@interface func (export "f") (param $x $m)))
                                                            ^
Recursive definition of name `m`
"#;

const WRONG_KIND: &str = "\
;;;; file /a
(module $m)
(typename $t $m)";

const WRONG_KIND_REPORT: &str = r#"witx: in "/a":
    2 | (typename $t $m)
                      ^
Wrong kind of name `m`: expected datatype, got module
"#;

const UNREAD: &str = "witx: cannot read input\n";

/// The failing calls of the source, of the output and of the sink of refusals, and how many of them
/// come.
type Fails = (&'static [u64], &'static [u64], &'static [u64], u64);

/// Words, the bundle, failing calls, the status, and what is written on the two sinks, each of which
/// takes ten bytes a call.
type Case = (
    &'static str,
    &'static str,
    Fails,
    u8,
    &'static str,
    &'static str,
);

#[rattlefmt::skip]
static CASES: &[Case] = &[
    ("adapt /a", ADD, (&[], &[], &[0], 0), 0, ADD_LISTING, ""),
    (
        "adapt /a",
        "",
        (&[], &[], &[], 0),
        1,
        "",
        r#"witx: with file "/a": file not found
"#,
    ),
    ("adapt /a", UNKNOWN, (&[], &[0], &[], 0), 1, "", UNKNOWN_REPORT),
    ("adapt", "", (&[], &[0], &[0], 0), 0, "", ""),
    // The words come before the source.
    ("adopt", "x", (&[0], &[0], &[], 0), 2, "", USAGE),
    // Each of the first calls of the source, also before bytes that are no bundle are read whole.
    ("adapt /a", ADD, (&[0], &[0], &[], 1), 3, "", UNREAD),
    ("adapt /a", ADD, (&[1], &[], &[], 1), 3, "", UNREAD),
    ("adapt /a", ADD, (&[2], &[], &[], 1), 3, "", UNREAD),
    ("layouts /a", ADD, (&[2], &[], &[], 1), 3, "", UNREAD),
    ("print /a", ADD, (&[0], &[0], &[], 1), 3, "", UNREAD),
    ("docs /a", ADD, (&[1], &[0], &[], 1), 3, "", UNREAD),
    ("polyfill /a /a m m", ADD, (&[2], &[0], &[], 1), 3, "", UNREAD),
    ("adapt /a", "x", (&[1], &[], &[], 1), 3, "", UNREAD),
    // The output.
    (
        "adapt /a",
        ADD,
        (&[], &[1], &[], 1),
        4,
        "\
module m
f",
        "",
    ),
    ("layouts /a", BYTE, (&[], &[0], &[], 1), 4, "", ""),
    ("layouts /a", BYTE, (&[], &[2], &[], 1), 4, "typename t size 1 al", ""),
    // The sink of refusals, in place of each other status.
    ("adapt /a", UNKNOWN, (&[], &[], &[1], 1), 4, "", r#"witx: in ""#),
    ("layouts /b", UNKNOWN, (&[], &[], &[0], 1), 4, "", ""),
    ("adopt", "x", (&[], &[], &[0], 1), 4, "", ""),
    ("adapt /a", ADD, (&[1], &[], &[1], 2), 4, "", "witx: cann"),
    ("adapt /a", "x", (&[], &[], &[2], 1), 4, "", "witx: text before th"),
    // Bytes that are no bundle.
    ("adapt /a", "x", (&[], &[], &[], 0), 6, "", "witx: text before the first file at byte 0\n"),
    (
        "layouts",
        " \t\r\nx",
        (&[], &[], &[], 0),
        6,
        "",
        "witx: text before the first file at byte 4\n",
    ),
];

pub fn run_failing(
    alloc: Global,
    line: &str,
    bundle: &str,
    gives: usize,
    fails: (&[u64], &[u64], &[u64]),
) -> Result<Gave, OutOfMemory>
    requires { 0 < gives }
{
    let (source_fails, out_fails, err_fails) = fails;
    let out = sink_of(alloc, 10, out_fails)?;
    let err = sink_of(alloc, 10, err_fails)?;
    let source = source_of(alloc, bundle.as_bytes(), gives, source_fails)?;
    run_on(alloc, line, Devices { source, out, err })
}

/// How many calls failed.
fn faults(gave: &Gave) -> u64 {
    let Devices { source, out, err } = &gave.devices;
    source
        .faults()
        .saturating_add(out.faults())
        .saturating_add(err.faults())
}

/// Whether a run gives this over a source that gives so many bytes a call.
fn gives(alloc: Global, gives: usize, case: &Case) -> bool
    requires { 0 < gives }
{
    let (line, bundle, fails, status, listing, refusal) = case;
    run_failing(alloc, line, bundle, gives, (fails.0, fails.1, fails.2)).is_ok_and(|gave| gave.is(
        line, *status, listing, refusal,
    ) && faults(&gave) == fails.3)
}

fn all_give(alloc: Global, count: usize) -> bool
    requires { 0 < count }
{
    for case in CASES {
        if !gives(alloc, count, case) {
            return false;
        }
    }
    true
}

#[test]
fn failing_devices(rt: HostRuntime) {
    assert!(rt; all_give(rt.alloc(), 1) && all_give(rt.alloc(), 7));
}

/// Words, a bundle, and what a run writes on the two sinks where no call fails.
type Written = (&'static str, &'static str, &'static str, &'static str);

#[rattlefmt::skip]
static TEXTS: &[Written] = &[
    ("adapt /a", ADD, ADD_LISTING, ""),
    ("adapt /a", RECURSIVE, "", RECURSIVE_REPORT),
    ("adapt /a", WRONG_KIND, "", WRONG_KIND_REPORT),
    ("adapt /a", UNKNOWN, "", UNKNOWN_REPORT),
    ("adapt /a", TWICE, "", TWICE_REPORT),
    ("docs /a", NUMBER, NUMBER_PAGE, ""),
    // Links that lead nowhere are told behind the page.
    ("docs /a", LINKED, LINKED_PAGE, LINKED_LINES),
];

/// A run of which these calls of the two sinks fail.
fn run_cut(
    alloc: Global,
    row: &Written,
    out_fails: &[u64],
    err_fails: &[u64],
) -> Result<Gave, OutOfMemory> {
    run_failing(alloc, row.0, row.1, 1000, (&[], out_fails, err_fails))
}

/// Whether the run ended with status 4, and one call failed.
fn is_unwritten(gave: &Gave) -> bool {
    gave.status == 4 && !gave.has_value && faults(gave) == 1
}

/// Whether a sink holds the front of a text that so many calls took.
fn holds_front(sink: &MemSink, text: &str, calls: usize) -> bool {
    text.as_bytes().get(..calls.saturating_mul(10)) == Some(sink.bytes())
}

/// The output holds the front of its text, and nothing is told.
fn out_is_cut(alloc: Global, row: &Written, call: usize) -> bool {
    run_cut(alloc, row, &[call as u64], &[]).is_ok_and(|gave| is_unwritten(&gave)
        && holds_front(&gave.devices.out, row.2, call)
        && gave.devices.err.bytes().is_empty())
}

/// The output holds its whole text, and the other sink the front of its own.
fn err_is_cut(alloc: Global, row: &Written, call: usize) -> bool {
    run_cut(alloc, row, &[], &[call as u64]).is_ok_and(|gave| is_unwritten(&gave)
        && gave.devices.out.bytes() == row.2.as_bytes()
        && holds_front(&gave.devices.err, row.3, call))
}

/// Nothing is cut where the calls behind the last ones fail, which don't come.
fn is_whole(alloc: Global, row: &Written) -> bool {
    let outs = row.2.len().div_ceil(10) as u64;
    let errs = row.3.len().div_ceil(10) as u64;
    run_cut(alloc, row, &[outs], &[errs]).is_ok_and(|gave| faults(&gave) == 0
        && gave.devices.out.bytes() == row.2.as_bytes()
        && gave.devices.err.bytes() == row.3.as_bytes())
}

fn cut_anywhere(alloc: Global, row: &Written) -> bool {
    for call in 0..row.2.len().div_ceil(10) {
        if !out_is_cut(alloc, row, call) {
            return false;
        }
    }
    for call in 0..row.3.len().div_ceil(10) {
        if !err_is_cut(alloc, row, call) {
            return false;
        }
    }
    is_whole(alloc, row)
}

#[test]
fn each_write_failing(rt: HostRuntime) {
    let alloc = rt.alloc();
    assert!(rt; TEXTS.iter().all(|row| cut_anywhere(alloc, row)));
}

/// Bytes that aren't UTF-8, and what is said of them.
#[rattlefmt::skip]
const NOT_UTF8: &[(&[u8], &str)] = &[
    (b";;;; file /a\n\xff", "witx: bundle is not UTF-8 at byte 13\n"),
    (b"x\xe2\x82", "witx: bundle is not UTF-8 at byte 1\n"),
];

fn refuses(alloc: Global, &(bytes, refusal): &(&[u8], &str)) -> bool {
    run_over(alloc, "adapt /a", bytes).is_ok_and(|gave| gave.is("adapt /a", 6, "", refusal))
}

#[test]
fn other_bytes(rt: HostRuntime) {
    let alloc = rt.alloc();
    assert!(rt; NOT_UTF8.iter().all(|row| refuses(alloc, row)));
}

/// More bytes than a bundle may have. Given 65,536 a call, 64 calls give as many as it may have, and the
/// next one gives one more.
const MORE_THAN_A_BUNDLE: usize = 5 * 1024 * 1024;

/// A failing call of the source of so many bytes, the status, how many calls failed, and what is told:
/// once the byte behind the longest bundle is read, no further call is made.
type Late = (u64, u8, u64, &'static str);

#[rattlefmt::skip]
static LATE: &[Late] = &[
    (63, 3, 1, UNREAD),
    (64, 3, 1, UNREAD),
    (65, 6, 0, "witx: bundle has more than 4194304 bytes\n"),
];

fn run_late(alloc: Global, call: u64) -> Result<Gave, OutOfMemory> {
    let bytes = vec![in alloc; b' '; MORE_THAN_A_BUNDLE]?;
    let source = source_of(alloc, bytes.as_slice(), 65_536, &[call])?;
    let out = sink_of(alloc, 10, &[])?;
    let err = sink_of(alloc, 10, &[])?;
    run_on(alloc, "adapt /a", Devices { source, out, err })
}

fn fails_late(alloc: Global, row: &Late) -> bool {
    run_late(alloc, row.0).is_ok_and(|gave| gave.is("adapt /a", row.1, "", row.3)
        && faults(&gave) == row.2)
}

#[test]
fn source_failing_behind_the_longest_bundle(rt: HostRuntime) {
    let alloc = rt.alloc();
    assert!(rt; LATE.iter().all(|row| fails_late(alloc, row)));
}
