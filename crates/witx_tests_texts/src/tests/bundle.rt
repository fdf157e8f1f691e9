//! Bundles with the files that they hold, and bytes that are no bundle.

use std::alloc::{AllocError, Global};
use std::fmt::Write;
use witx_base::{OutOfMemory, WitxPath};
use witx_bundle::{Bundle, BundleError};
use witx_files::{IoError, IoFault, MockFs, WitxIo};
use witx_fixtures::long_text;

/// A bundle, a path and the text of its file.
static FILES: &[(&str, &str, Option<&str>)] = &[
    ("", "/a", None),
    (" \t\r\n", "/a", None),
    (";;;; file /a\n", "/a", Some("")),
    (";;;; file /a", "/a", Some("")),
    (";;;; file /a\r\nx\r\n", "/a", Some("x\r\n")),
    (";;;; file /a\r", "/a", None),
    (";;;; file /a\r", "/a\r", Some("")),
    (";;;; file /a\rb\n", "/a\rb", Some("")),
    (
        "\n;;;; file /a\none\n;;;; file /b\ntwo",
        "/a",
        Some("one\n"),
    ),
    ("\n;;;; file /a\none\n;;;; file /b\ntwo", "/b", Some("two")),
    (";;;; file /a\n;;;; file /b\n", "/a", Some("")),
    (
        ";;;; file /a\nold\n;;;; file //a/.\nnew\n",
        "/a",
        Some("new\n"),
    ),
    (
        ";;;; file /a\n ;;;; file /b\n;;;; filed\n",
        "/a",
        Some(" ;;;; file /b\n;;;; filed\n"),
    ),
    (";;;; file /a\n ;;;; file /b\n", "/b", None),
    (";;;; file /ä b\n\u{20ac}", "/ä b", Some("\u{20ac}")),
    (";;;; file \nx", "", Some("x")),
    (" \t\r\n;;;; file /a\nx", "/a", Some("x")),
    (";;;; file /a\r\n;;;; file /b\r\ny", "/b", Some("y")),
    (";;;; file a/./b\nx", "a/b", Some("x")),
];

fn holds(
    alloc: Global,
    files: &mut MockFs,
    path: &str,
    wanted: Option<&str>,
) -> Result<bool, OutOfMemory> {
    let path = WitxPath::new(alloc, path)?;
    match files.fgets(alloc, &path) {
        Ok(text) => Ok(Some(text.as_str()) == wanted),
        Err(IoError::Fault(IoFault::NotFound)) => Ok(wanted.is_none()),
        Err(_) => Ok(false),
    }
}

fn files_hold(alloc: Global, mut files: MockFs, path: &str, wanted: Option<&str>) -> bool {
    holds(alloc, &mut files, path, wanted).unwrap_or(false)
}

fn bundle_holds(alloc: Global, bundle: &str, path: &str, wanted: Option<&str>) -> bool {
    Bundle::read(alloc, bundle.as_bytes()).is_ok_and(|files| files_hold(alloc, files, path, wanted))
}

#[test]
fn files_of_bundles(rt: HostRuntime) {
    let alloc = rt.alloc();
    assert!(rt;
        FILES.iter().all(|(bundle, path, wanted)| bundle_holds(alloc, bundle, path, *wanted))
    );
}

/// Bytes that are no bundle, and why.
static REFUSED: &[(&[u8], BundleError)] = &[
    (b"x", BundleError::BeforeFirst { at: 0 }),
    (
        b" \t\r\n\x0b\n;;;; file /a\n",
        BundleError::BeforeFirst { at: 4 },
    ),
    (b"; ;;; file /a\n", BundleError::BeforeFirst { at: 0 }),
    (b";;;; file /a\n\xff", BundleError::NotUtf8 { at: 13 }),
    (b"x\xe2\x82", BundleError::NotUtf8 { at: 1 }),
    (b"\xff", BundleError::NotUtf8 { at: 0 }),
    (b"\xff;;;; file /a\n", BundleError::NotUtf8 { at: 0 }),
    (b" ;;;; file /a\n", BundleError::BeforeFirst { at: 1 }),
    (b";;;; file\n", BundleError::BeforeFirst { at: 0 }),
    (b"x\n;;;; file /a\n", BundleError::BeforeFirst { at: 0 }),
    (b"\n\nx;;;; file /a", BundleError::BeforeFirst { at: 2 }),
];

fn is_refused(alloc: Global, &(bytes, wanted): &(&[u8], BundleError)) -> bool {
    Bundle::read(alloc, bytes).err() == Some(wanted)
}

#[test]
fn refused_bundles(rt: HostRuntime) {
    let alloc = rt.alloc();
    assert!(rt; REFUSED.iter().all(|row| is_refused(alloc, row)));
}

/// A bundle of one file, which has so many blanks.
fn blanks(alloc: Global, times: usize) -> Result<String, AllocError> {
    long_text(alloc, ";;;; file /a\n", " ", times, "")
}

fn most_is_read(alloc: Global) -> Result<bool, AllocError> {
    let bundle = blanks(alloc, 4_194_291)?;
    let text = long_text(alloc, "", " ", 4_194_291, "")?;
    Ok(bundle_holds(alloc, bundle.as_str(), "/a", Some(text.as_str())))
}

fn more_is_refused(alloc: Global) -> Result<bool, AllocError> {
    let bundle = blanks(alloc, 4_194_292)?;
    Ok(is_refused(alloc, &(bundle.as_str().as_bytes(), BundleError::TooLong)))
}

#[test]
fn longest_bundle(rt: HostRuntime) {
    let alloc = rt.alloc();
    let most_is_read = most_is_read(alloc).unwrap_or(false);
    assert!(rt; most_is_read && more_is_refused(alloc).unwrap_or(false));
}

/// A line of 4177 bytes.
fn long_line(alloc: Global) -> Result<String, AllocError> {
    long_text(alloc, "", " ", 4175, ";\n")
}

/// A thousand files, each of a long line.
fn thousand(alloc: Global, line: &str) -> Result<String, AllocError> {
    let mut bundle = String::new(alloc);
    for number in 0..1000 {
        write!(bundle, ";;;; file /{number:03}\n{line}")?;
    }
    Ok(bundle)
}

fn thousand_are_read(alloc: Global) -> Result<bool, AllocError> {
    let line = long_line(alloc)?;
    let bundle = thousand(alloc, line.as_str())?;
    let text = bundle.as_str();
    Ok(
        text.len() == 4_192_000
            && bundle_holds(alloc, text, "/000", Some(line.as_str()))
            && bundle_holds(alloc, text, "/999", Some(line.as_str())),
    )
}

#[test]
fn many_files(rt: HostRuntime) {
    assert!(rt; thousand_are_read(rt.alloc()).unwrap_or(false));
}
