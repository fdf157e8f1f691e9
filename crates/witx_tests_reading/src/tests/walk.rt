//! Files that use one another: that each is read once, each call of the reader of files failing, paths that
//! stand for others; texts by themselves, and how errors display.

ghost use Rattle.std.specs.Prelude.{None};

use std::alloc::{AllocError, Global};
use witx::{WitxError, parse, parse_witx_with};
use witx_ast::Document;
use witx_base::{CallCounter, Duplicate, Items, OutOfMemory, Text, WitxPath};
use witx_files::{FailingFs, IoError, MockFs, WitxIo};
use witx_fixtures::{Files, Links, calls_of, files_of, links_of};

/// How many definitions the document has, or the report of the refusal.
fn text_of<I: WitxIo>(
    alloc: Global,
    answer: Result<Document, WitxError>,
    io: &mut I,
) -> Result<Text, OutOfMemory> {
    match answer {
        Ok(document) => {
            let count = document.definitions().len();
            Ok(Text::from_string(format!(in alloc; "{count} definitions")?))
        }
        Err(error) => error.report_with(alloc, io),
    }
}

/// Texts by themselves, each with its answer.
#[rattlefmt::skip]
const SOURCES: &[(&str, &str)] = &[
    ("", "0 definitions"),
    (r#"(use "-")"#, "0 definitions"),
    (r#"(use "./-")"#, r#"with file "./-": file not found"#),
    (r#"(use "b")"#, r#"with file "b": file not found"#),
    ("(typename $t u8)", "1 definitions"),
    (
        "(typename",
        "\
expected an identifier
     --> -:1:10",
    ),
];

fn is_read(alloc: Global, &(source, wanted): &(&str, &str)) -> Result<bool, OutOfMemory> {
    let mut io = MockFs::new(alloc);
    let text = text_of(alloc, parse(alloc, source), &mut io)?;
    Ok(text.as_str() == wanted)
}

#[test]
fn sources(rt: HostRuntime) {
    let alloc = rt.alloc();
    assert!(rt; SOURCES.iter().all(|row| is_read(alloc, row) == Ok(true)));
}

fn paths_of(alloc: Global, handed: &[&str]) -> Result<Items<WitxPath>, OutOfMemory> {
    let mut paths = Items::new(alloc);
    for path in handed {
        paths.push(WitxPath::new(alloc, path)?)?;
    }
    Ok(paths)
}

fn answer_of<I: WitxIo>(alloc: Global, handed: &[&str], io: &mut I) -> Result<Text, OutOfMemory> {
    let paths = paths_of(alloc, handed)?;
    let answer = parse_witx_with(alloc, paths.as_slice(), io);
    text_of(alloc, answer, io)
}

/// The answer over files of which these calls fail, and how many failed.
fn answer_failing(
    alloc: Global,
    files: &[(&str, &str)],
    links: &[(&str, &str)],
    handed: &[&str],
    fails: &[u64],
) -> Result<(Text, u64), OutOfMemory> {
    let files = files_of(alloc, files)?;
    let links = links_of(alloc, links)?;
    let mut io = FailingFs::new(files, links, calls_of(alloc, fails)?);
    let text = answer_of(alloc, handed, &mut io)?;
    Ok((text, io.faults()))
}

/// Files, the handed paths, the path of each call, and the answer where no call fails.
type Reading = (
    Files,
    &'static [&'static str],
    &'static [&'static str],
    &'static str,
);

/// Each path is made canonical where it is mentioned, and read at the first mention alone.
#[rattlefmt::skip]
const READINGS: &[Reading] = &[
    (
        &[("/a", r#"(use "a")(typename $t u8)"#)],
        &["/a", "/a"],
        &["/a", "/a", "/a", "/a"],
        "1 definitions",
    ),
    (
        &[("/a", r#"(use "b")(typename $t u8)"#), ("/b", r#"(use "a")(typename $u u8)"#)],
        &["/a"],
        &["/a", "/a", "/b", "/b", "/a"],
        "2 definitions",
    ),
    (
        &[("/a", r#"(use "b")(use "c")"#), ("/b", r#"(use "d")"#), ("/c", r#"(use "d")"#), ("/d", "(typename $d_char u8)")],
        &["/a"],
        &["/a", "/a", "/b", "/b", "/d", "/d", "/c", "/c", "/d"],
        "1 definitions",
    ),
    (
        &[
            ("/root.witx", "(use \"subdir/child.witx\")"),
            ("/subdir/child.witx", "(use \"sibling.witx\")(typename $b_float f64)"),
            ("/subdir/sibling.witx", "(typename $c_int u32)"),
        ],
        &["/root.witx"],
        &[
            "/root.witx",
            "/root.witx",
            "/subdir/child.witx",
            "/subdir/child.witx",
            "/subdir/sibling.witx",
            "/subdir/sibling.witx",
        ],
        "2 definitions",
    ),
];

/// Whether the failure of a call is told with its path.
fn tells(alloc: Global, reading: &Reading, call: usize, path: &str) -> Result<bool, OutOfMemory> {
    let (files, handed, _, _) = reading;
    let (text, faults) = answer_failing(alloc, files, &[], handed, &[call as u64])?;
    let wanted = format!(in alloc; "with file \"{path}\": read failed")?;
    Ok(text.as_str() == wanted.as_str() && faults == 1)
}

fn tells_each(alloc: Global, reading: &Reading) -> bool {
    for (call, path) in reading.2.iter().enumerate() {
        if !tells(alloc, reading, call, path).unwrap_or(false) {
            return false;
        }
    }
    true
}

/// Whether there is no further call.
fn is_all(alloc: Global, reading: &Reading) -> Result<bool, OutOfMemory> {
    let (files, handed, paths, wanted) = reading;
    let (text, faults) = answer_failing(alloc, files, &[], handed, &[paths.len() as u64])?;
    Ok(text.as_str() == *wanted && faults == 0)
}

fn all_tell(alloc: Global) -> bool {
    for reading in READINGS {
        if !tells_each(alloc, reading) || !is_all(alloc, reading).unwrap_or(false) {
            return false;
        }
    }
    true
}

#[test]
fn each_call_failing(rt: HostRuntime) {
    assert!(rt; all_tell(rt.alloc()));
}

/// Files, links, the handed path, the failing calls, the answer, and how many calls failed.
type Linked = (
    Files,
    Links,
    &'static str,
    &'static [u64],
    &'static str,
    u64,
);

/// A name that is introduced twice.
const TWICE: Files = &[(
    "/a",
    "\
(typename $a u8)
(typename $a u8)",
)];

#[rattlefmt::skip]
static LINKED: &[Linked] = &[
    // Two spellings of one path.
    (
        &[("/a", r#"(use "x/../b")(use "b")"#), ("/b", "(typename $t u8)")],
        &[("/x/../b", "/b")],
        "/a",
        &[],
        "1 definitions",
        0,
    ),
    // A path that a file has used before makes no call.
    (
        &[("/a", r#"(use "b")(use "b/.")(use "c")"#), ("/b", "(typename $t u8)")],
        &[],
        "/a",
        &[4],
        r#"with file "/c": read failed"#,
        1,
    ),
    // A use is seen from the folder of the path that its file stands for, or else from the folder of
    // its mention.
    (
        &[("/sub/a", r#"(use "b")"#)],
        &[("/link", "/sub/a")],
        "/link",
        &[],
        r#"with file "/sub/b": file not found"#,
        0,
    ),
    (
        &[("/", r#"(use "b")"#), ("/d/b", "(typename $t u8)")],
        &[("/d/a", "/")],
        "/d/a",
        &[],
        "1 definitions",
        0,
    ),
    // The path as it is mentioned, or the one that it stands for.
    (&[("/a", r#"(use "b")"#)], &[("/b", "/c")], "/a", &[2], r#"with file "/b": read failed"#, 1),
    (&[("/a", r#"(use "b")"#)], &[("/b", "/c")], "/a", &[3], r#"with file "/c": read failed"#, 1),
    (
        &[("/a", r#"(use "b")"#)],
        &[("/b", "/c")],
        "/a",
        &[4],
        r#"with file "/c": file not found"#,
        0,
    ),
    // A report without the lines whose reading fails.
    (
        &[("/a", "(typename $a $b)")],
        &[],
        "/a",
        &[2],
        r#"in "/a":

Unknown name `b`"#,
        1,
    ),
    (
        &[("/a", "(module $m)(typename $t $m)")],
        &[],
        "/a",
        &[2],
        r#"in "/a":

Wrong kind of name `m`: expected datatype, got module"#,
        1,
    ),
    (
        &[("/a", r#"(module $m (@interface func (export "f") (param $x $m)))"#)],
        &[],
        "/a",
        &[2],
        r#"in "/a":

Recursive definition of name `m`"#,
        1,
    ),
    (
        TWICE,
        &[],
        "/a",
        &[2],
        r#"in "/a":

Redefinition of name `a`
Originally defined at:
in "/a":
    1 | (typename $a u8)
                   ^"#,
        1,
    ),
    (
        TWICE,
        &[],
        "/a",
        &[3],
        r#"in "/a":
    2 | (typename $a u8)
                   ^
Redefinition of name `a`
Originally defined at:
in "/a":
"#,
        1,
    ),
    (
        TWICE,
        &[],
        "/a",
        &[4],
        r#"in "/a":
    2 | (typename $a u8)
                   ^
Redefinition of name `a`
Originally defined at:
in "/a":
    1 | (typename $a u8)
                   ^"#,
        0,
    ),
];

fn is_linked(
    alloc: Global,
    (files, links, handed, fails, wanted, failed): &Linked,
) -> Result<bool, OutOfMemory> {
    let (text, faults) = answer_failing(alloc, files, links, &[*handed], fails)?;
    Ok(text.as_str() == *wanted && faults == *failed)
}

fn all_linked(alloc: Global) -> bool {
    for row in LINKED {
        if !is_linked(alloc, row).unwrap_or(false) {
            return false;
        }
    }
    true
}

#[test]
fn linked_files(rt: HostRuntime) {
    assert!(rt; all_linked(rt.alloc()));
}

/// A reader that tells nothing. Each file that it gives uses the next one, and a file that it hasn't
/// is a fault.
#[derive(Drop)]
struct Untold {
    reads: u64,
    calls: CallCounter,
}

impl WitxIo for Untold {
    ghost files = { λ t. None };

    ghost aliases = { λ t. None };

    ghost faults = { λ t. t.calls.faults };

    fn fgets(&mut self, alloc: Global, _path: &WitxPath) -> Result<Text, IoError> {
        self.calls.count()?;
        self.reads = self.reads.saturating_add(1);
        let text = format!(in alloc; "(use \"f{}\")", self.reads)?;
        Ok(Text::from_string(text))
    }

    fn fget_line(
        &mut self,
        alloc: Global,
        _path: &WitxPath,
        _line_num: usize,
    ) -> Result<Text, IoError> {
        Ok(Text::new(alloc, "")?)
    }

    fn canonicalize(&mut self, _alloc: Global, path: &WitxPath) -> Result<WitxPath, IoError> {
        Ok(path.copy()?)
    }
}

/// Whether that is the answer over a reader whose file of this number is missing, after so many files.
fn is_untold(alloc: Global, missing: u64, wanted: &str, reads: u64) -> Result<bool, OutOfMemory> {
    let calls = CallCounter::new(calls_of(alloc, &[missing])?);
    let mut io = Untold { reads: 0, calls };
    let text = answer_of(alloc, &["/f0"], &mut io)?;
    Ok(text.as_str() == wanted && io.reads == reads)
}

#[test]
fn untold_files(rt: HostRuntime) {
    let wanted = "with file \"/f5\": read failed";
    assert!(rt; is_untold(rt.alloc(), 5, wanted, 5).unwrap_or(false));
}

#[test]
fn too_many_files(rt: HostRuntime) {
    let wanted = "more than 1024 files at \"/f1024\"";
    assert!(rt; is_untold(rt.alloc(), 2000, wanted, 1024).unwrap_or(false));
}

/// An error as it displays, with what it holds.
fn displayed(alloc: Global, error: &WitxError) -> Result<String, AllocError> {
    match error {
        WitxError::Parse(fault) => format!(in alloc; "{error}: {fault}"),
        WitxError::Validation(fault) => format!(in alloc; "{error}: {fault}"),
        _ => format!(in alloc; "{error}"),
    }
}

fn displays(alloc: Global, error: &WitxError, wanted: &str) -> bool {
    match displayed(alloc, error) {
        Ok(text) => text.as_str() == wanted,
        Err(_) => false,
    }
}

/// Texts, each with its error as it displays.
#[rattlefmt::skip]
const DISPLAYED: &[(&str, &str)] = &[
    (r#"(use "b")"#, r#"IO error with file "b""#),
    (
        "(typename",
        "\
Parse error: expected an identifier
     --> -:1:10",
    ),
    ("(typename $a $b)", "Validation error: Unknown name `b`"),
    ("(typename $a $a)", "Validation error: Recursive definition of name `a`"),
    ("(typename $a u8) (typename $a u8)", "Validation error: Redefinition of name `a`"),
    ("(module $m) (typename $t $m)", "Validation error: Wrong kind of name `m`: expected datatype, got module"),
    ("(typename $a (flags (@witx repr char) $x))", "Validation error: Invalid representation `Char`"),
    (
        r#"(module $m (@interface func (export "f") (result $r bool)))"#,
        "Validation error: ABI error: invalid return type",
    ),
    (
        "(typename $t (variant (case $a u8) (case $b))) (typename $a (union (@witx tag $t) u8))",
        "Validation error: Invalid union tag: all variant cases should have empty payloads",
    ),
    (
        "(typename $a (list (handle)))",
        "Validation error: Anonymous structured types (struct, union, enum, flags, handle) are not permitted",
    ),
    (
        "(typename $t (enum $a $b)) (typename $a (union (@witx tag $t) u8))",
        "Validation error: Union expected 2 variants, found 1",
    ),
    (
        "(typename $t (enum $a)) (typename $a (variant (@witx tag $t) (case $c)))",
        "Validation error: Invalid union field `c`: does not correspond to variant in tag `tag`",
    ),
    ("(typename $n u8) (@witx const $n $max 256)", "Validation error: Constant `max` is 256, at most 255"),
];

fn error_displays(alloc: Global, text: &str, wanted: &str) -> bool {
    match parse(alloc, text) {
        Ok(_) => false,
        Err(error) => displays(alloc, &error, wanted),
    }
}

fn all_display(alloc: Global) -> bool {
    DISPLAYED
        .iter()
        .all(|(text, wanted)| error_displays(alloc, text, wanted))
}

/// The refusals that no single text has.
fn others_display(alloc: Global) -> Result<bool, OutOfMemory> {
    let bad = WitxError::BadPath(WitxPath::new(alloc, "/")?);
    let many = WitxError::TooManyFiles(WitxPath::new(alloc, "/a")?);
    Ok(
        displays(alloc, &bad, "path \"/\" has no file name")
            && displays(alloc, &many, "more than 1024 files at \"/a\"")
            && displays(alloc, &WitxError::OutOfMemory, "out of memory"),
    )
}

#[test]
fn displayed_errors(rt: HostRuntime) {
    assert!(rt; all_display(rt.alloc()) && others_display(rt.alloc()).unwrap_or(false));
}
