//! The sample: its bundle, and the program over it, whose source isn't read. And which words have a form.

use std::alloc::Global;
use witx::has_form;
use witx_base::OutOfMemory;
use witx_fixtures_run::{Devices, Gave, run_on, sink_of, source_of, words_of};
use witx_sample::{sample_bundle, sample_files};

/// Words, and whether they have a form.
const FORMS: &[(&str, bool)] = &[
    ("", false),
    // No path is a number of paths, too.
    ("adapt", true),
    ("adapt /a", true),
    ("adapt /a /b", true),
    ("print", true),
    ("print /a /b", true),
    ("layouts", true),
    ("layouts /a", true),
    ("docs", true),
    ("docs /a", true),
    ("polyfill", false),
    ("polyfill /n", false),
    ("polyfill /n /o", true),
    ("polyfill /n /o m", false),
    ("polyfill /n /o m m", true),
    ("polyfill /n /o m m k", false),
    ("polyfill /n /o m m k k", true),
    ("sample", false),
    ("sample 0", false),
    ("sample 1", true),
    ("sample 01", false),
    ("sample 4096", true),
    ("sample 4097", false),
    ("sample 1 1", false),
    // No commands: the tools have a call of their own.
    ("adopt /a", false),
    ("Adapt /a", false),
    ("adapted /a", false),
    (" adapt /a", false),
    ("/a adapt", false),
    ("shim /n /o m m", false),
    ("verify /l /a", false),
    ("invoke m f /v /a", false),
    ("imports /l /a", false),
];

fn is_as_told(alloc: Global, &(line, wanted): &(&str, bool)) -> bool {
    words_of(alloc, line).is_ok_and(|words| has_form(words.as_slice()) == wanted)
}

#[test]
fn words_with_a_form(rt: HostRuntime) {
    let alloc = rt.alloc();
    assert!(rt; FORMS.iter().all(|row| is_as_told(alloc, row)));
}

/// A run over a source whose first read fails.
fn run_unread(alloc: Global) -> Result<Gave, OutOfMemory> {
    let out = sink_of(alloc, 500, &[])?;
    let err = sink_of(alloc, 500, &[])?;
    let source = source_of(alloc, b"x", 1, &[0])?;
    run_on(alloc, "sample 2", Devices { source, out, err })
}

fn leaves_its_source(alloc: Global) -> bool {
    run_unread(alloc).is_ok_and(|gave| gave.status == 0 && gave.devices.source.faults() == 0)
}

#[test]
fn unread_source(rt: HostRuntime) {
    assert!(rt; leaves_its_source(rt.alloc()));
}

const TWO: &str = r#";;;; file /sample.witx
(typename $e (enum (@witx tag u16) $ok $bad))
(typename $r0 (record (field $a u32) (field $b $e) (field $c u64)))
(typename $v0 (variant (@witx tag u8) (case $x $r0) (case $y (list $r0)) (case $z)))
(typename $r1 (record (field $a u32) (field $b $e) (field $c u64)))
(typename $v1 (variant (@witx tag u8) (case $x $r1) (case $y (list $r1)) (case $z)))
(module $m
(@interface func (export "f0") (param $p $v0) (param $q string) (result $s (expected (tuple $r0 $e) (error $e))))
(@interface func (export "f1") (param $p $v1) (param $q string) (result $s (expected (tuple $r1 $e) (error $e))))
)
"#;

fn is_written(alloc: Global) -> bool {
    sample_bundle(alloc, 2).is_ok_and(|text| text.as_str() == TWO) && sample_files(alloc, 2).is_ok()
}

#[test]
fn bundle_of_a_sample(rt: HostRuntime) {
    assert!(rt; is_written(rt.alloc()));
}

/// The length of the largest bundle: 82 bytes stand once (69 before the types, 11 before the functions, 2
/// behind them). Each number below 4,096 has lines of 260 bytes beside itself (67 its record, 82 its variant,
/// 111 its function), in which it stands seven times (1, 3 and 3), and all these numbers have 15,274 digits.
const LARGEST_LEN: usize = 1_171_960;

const LARGEST_END: &str = r#"
(@interface func (export "f4094") (param $p $v4094) (param $q string) (result $s (expected (tuple $r4094 $e) (error $e))))
(@interface func (export "f4095") (param $p $v4095) (param $q string) (result $s (expected (tuple $r4095 $e) (error $e))))
)
"#;

fn largest_is_written(alloc: Global) -> bool {
    sample_bundle(alloc, 4096).is_ok_and(|text| text.as_str().len() == LARGEST_LEN
        && text.as_str().ends_with(LARGEST_END))
}

#[test]
fn bundle_of_the_largest_sample(rt: HostRuntime) {
    assert!(rt; largest_is_written(rt.alloc()));
}
