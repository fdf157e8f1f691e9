//! A place in a file, and how a report shows it.
#![tactic(auto, using(crate::proofs::Alignment::alignment_rules))]

ghost use Rattle.std.specs.Prelude.{◌≡◌, ◌++◌, ◌^◌, ◌-◌, string_bytes, IfOk};
ghost use Rattle.witx_files.specs.LocatedTexts.{IsLocatedText, heading, numbered_line, caret};

use crate::fault::IoError;
use crate::io::WitxIo;
use std::alloc::{AllocError, Global};
use witx_base::{Duplicate, OutOfMemory, Text, WitxPath};

/// How many places a caret is drawn in at most: a column further right is drawn as this one.
pub const WIDEST: usize = 65535;

/// The last column that is drawn as itself is the last number of 16 bits.
pub fn widest_column()
    ensures { WIDEST ≡ 2 ^ 16 - 1 }
{}

/// A place in a file; line and column are counted from 1.
#[derive(Debug, PartialEq, Eq, Drop)]
pub struct Location {
    pub path: WitxPath,
    pub line: usize,
    pub column: usize,
}

impl Duplicate for Location {
    ghost use Rattle.std.specs.Prelude.{◌≡◌};

    ghost is_copy = { λ location made. made ≡ location };

    fn copy(&self) -> Result<Location, OutOfMemory> {
        Ok(Location {
            path: self.path.copy()?,
            line: self.line,
            column: self.column,
        })
    }
}

impl Location {
    /// The path, and below it the line with a caret under the column. Without the line, where the
    /// reader answers a fault: where told files lack it, or the reader's count of faults rose.
    pub fn highlight_source_with<I: WitxIo>(
        &self,
        alloc: Global,
        witxio: &mut I,
    ) -> Result<Text, OutOfMemory>
        ensures files { I.files witxio.new ≡ I.files witxio.old }
        ensures aliases { I.aliases witxio.new ≡ I.aliases witxio.old }
        ensures text { IsLocatedText (I.files witxio.old) self.now (I.faults witxio.old) (I.faults witxio.new) result }
    {
        let mut text = heading(alloc, &self.path)?;
        match witxio.fget_line(alloc, &self.path, self.line) {
            Ok(line) => {
                put_source(&mut text, self.line, line.as_str(), self.column)?;
                Ok(Text::from_string(text))
            }
            Err(IoError::Fault(_)) => Ok(Text::from_string(text)),
            Err(IoError::OutOfMemory) => Err(OutOfMemory),
        }
    }
}

fn heading(alloc: Global, path: &WitxPath) -> Result<String, AllocError>
    ensures { IfOk result (λ text. string_bytes text ≡ heading path.now) }
{
    format!(in alloc; "in \"{}\":\n", path.as_str())
}

fn put_source(text: &mut String, number: usize, line: &str, column: usize) -> Result<(), AllocError>
    ensures { IfOk result (λ _. string_bytes text.new
        ≡ (string_bytes text.old ++ numbered_line number line.now) ++ caret column) }
{
    put_line(text, number, line)?;
    put_caret(text, column)
}

fn put_line(text: &mut String, number: usize, line: &str) -> Result<(), AllocError>
    ensures { IfOk result (λ _. string_bytes text.new ≡ string_bytes text.old ++ numbered_line number line.now) }
{
    write!(text, "{number:>5} | {line}\n")
}

/// Draws the caret.
fn put_caret(text: &mut String, column: usize) -> Result<(), AllocError>
    ensures { IfOk result (λ _. string_bytes text.new ≡ string_bytes text.old ++ caret column) }
{
    let width = column.min(WIDEST);
    write!(text, "         {:>width$}", "^")
}
