//! One text of many files: how it is cut, and why it can't be.

ghost use Rattle.std.specs.Prelude.{◌≡◌, ◌≤◌, ◌^◌, [], IfOk, length};
ghost use Rattle.witx_base.specs.Paths.{Path};
ghost use Rattle.witx_bundle.specs.Bundles.{IsRead, is_blank_byte, lines_of, stray, text_before, told_at, with_line};
ghost use Rattle.witx_files.specs.Files.{text_in};

use crate::error::BundleError;
use crate::lines::{cut_line, header_rest, path_before, split_front};
use std::alloc::Global;
use std::str;
use witx_base::{OutOfMemory, Text, WitxPath};
use witx_files::MockFs;

/// How many bytes a bundle has at most.
pub const LONGEST_BUNDLE: usize = 4194304;

/// The longest bundle has 4 MiB.
pub fn longest_bundle()
    ensures { LONGEST_BUNDLE ≡ 2 ^ 22 }
{}

/// The reading of bundles. A bundle is UTF-8, at most `LONGEST_BUNDLE` bytes: headers, each a line that begins
/// with `;;;; file ` and goes on with a path, and behind each header the text of the file at that path.
#[derive(Drop)]
pub struct Bundle;

impl Bundle {
    /// The files that the bytes hold; of a path that is given twice, the last text.
    ///
    /// `TooLong` comes exactly for more than `LONGEST_BUNDLE` bytes, `NotUtf8` exactly for other bytes that
    /// aren't UTF-8, `BeforeFirst` exactly for other bytes with one before the first header that is no
    /// space, tab, line feed or carriage return.
    pub fn read(alloc: Global, bytes: &[u8]) -> Result<MockFs, BundleError>
        ensures { IsRead bytes.now result }
    {
        if bytes.len() > LONGEST_BUNDLE {
            return Err(BundleError::TooLong);
        }
        match str::from_utf8(bytes) {
            Ok(text) => files_of(alloc, text),
            Err(error) => Err(BundleError::NotUtf8 {
                at: error.valid_up_to(),
            }),
        }
    }
}

fn files_of(alloc: Global, text: &str) -> Result<MockFs, BundleError>
    requires { length text.now ≤ LONGEST_BUNDLE }
    ensures { IsRead text.now result }
{
    match stray(text) {
        Some(at) => Err(BundleError::BeforeFirst { at }),
        None => Ok(files_behind(alloc, text)?),
    }
}

/// The place of the first byte before the first header that is no blank.
fn stray(text: &str) -> Option<usize>
    ensures { result ≡ stray (lines_of text.now) }
{
    let (front, _) = split_front(text);
    front.as_bytes().iter().position(|byte| !is_blank(*byte))
}

fn is_blank(byte: u8) -> bool
    ensures { result ≡ is_blank_byte byte }
{
    (byte == b' ' || byte == b'\t') || (byte == b'\n' || byte == b'\r')
}

/// The files of the headers among the lines.
#[tactic(auto, using(crate::proofs::LastTexts::file_rules))]
fn files_behind(alloc: Global, text: &str) -> Result<MockFs, OutOfMemory>
    ensures { IfOk result (λ m. (q : Path) → text_in m q ≡ told_at (lines_of text.now) q) }
{
    let mut files = MockFs::new(alloc);
    let mut rest = text;
    while let Some((line, more)) = cut_line(rest) {
        let (front, behind) = split_front(more);
        put_file(alloc, &mut files, line, more, front)?;
        rest = behind;
    }
    put_last(alloc, &mut files, rest)?;
    Ok(files)
}

/// Puts the file of this line among the files, if the line is a header; `more` stands behind its line
/// feed, and `front` up to the next header.
fn put_file(
    alloc: Global,
    files: &mut MockFs,
    line: &str,
    more: &str,
    front: &str,
) -> Result<(), OutOfMemory>
    requires { front.now ≡ text_before (lines_of more.now) }
    ensures { IfOk result (λ _. (q : Path)
        → text_in files.new q ≡ with_line line.now (lines_of more.now) (text_in files.old) q) }
{
    match header_rest(line) {
        Some(rest) => {
            let path = path_before(alloc, rest, more)?;
            let text = Text::new(alloc, front)?;
            files.insert(path, text)
        }
        None => Ok(()),
    }
}

/// Puts the file of the last line among the files, if it is a header: the file is empty.
fn put_last(alloc: Global, files: &mut MockFs, line: &str) -> Result<(), OutOfMemory>
    ensures { IfOk result (λ _. (q : Path) → text_in files.new q ≡ with_line line.now [] (text_in files.old) q) }
{
    match header_rest(line) {
        Some(rest) => {
            let path = WitxPath::new(alloc, rest)?;
            files.insert(path, Text::from_string(String::new(alloc)))
        }
        None => Ok(()),
    }
}
