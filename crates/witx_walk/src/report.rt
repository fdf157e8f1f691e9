//! What a user reads of a refusal.

ghost use Rattle.std.specs.Prelude.{◌≡◌, IfOk};
ghost use Rattle.witx_walk.specs.ErrorReports.{IsErrorReport, bad_path_report, fault_text, io_report, parse_report, too_many_report};

use crate::error::WitxError;
use std::alloc::Global;
use witx_base::{OutOfMemory, Text, WitxPath};
use witx_files::{IoFault, WitxIo};
use witx_syntax::ParseError;

impl WitxError {
    /// What a user reads of the refusal; the fault of a declaration with the place in its file, as
    /// far as the file can be read.
    pub fn report_with<I: WitxIo>(&self, alloc: Global, witxio: &mut I) -> Result<Text, OutOfMemory>
        ensures files { I.files witxio.new ≡ I.files witxio.old }
        ensures aliases { I.aliases witxio.new ≡ I.aliases witxio.old }
        ensures report { IsErrorReport (I.files witxio.old) self.now (I.faults witxio.old) (I.faults witxio.new) result }
    {
        match self {
            WitxError::Validation(error) => error.report_with(alloc, witxio),
            WitxError::Io(path, fault) => io_report(alloc, path, *fault),
            WitxError::Parse(error) => parse_report(alloc, error),
            WitxError::BadPath(path) => bad_path_report(alloc, path),
            WitxError::TooManyFiles(path) => too_many_report(alloc, path),
            WitxError::OutOfMemory => Text::new(alloc, "out of memory"),
        }
    }
}

fn io_report(alloc: Global, path: &WitxPath, fault: IoFault) -> Result<Text, OutOfMemory>
    ensures { IfOk result (λ text. text ≡ io_report path.now fault) }
{
    let report = format!(in alloc; "with file \"{}\": {}", path.as_str(), fault_text(fault))?;
    Ok(Text::from_string(report))
}

fn fault_text(fault: IoFault) -> &'static str
    ensures { result.now ≡ fault_text fault }
{
    match fault {
        IoFault::NotFound => "file not found",
        IoFault::LineNotFound => "line not found",
        IoFault::Failed => "read failed",
    }
}

fn parse_report(alloc: Global, error: &ParseError) -> Result<Text, OutOfMemory>
    ensures { IfOk result (λ text. text ≡ parse_report error.now) }
{
    let report = format!(in alloc;
        "{}\n     --> {}:{}:{}",
        error.message,
        error.path.as_str(),
        error.line,
        error.column
    )?;
    Ok(Text::from_string(report))
}

fn bad_path_report(alloc: Global, path: &WitxPath) -> Result<Text, OutOfMemory>
    ensures { IfOk result (λ text. text ≡ bad_path_report path.now) }
{
    let report = format!(in alloc; "path \"{}\" has no file name", path.as_str())?;
    Ok(Text::from_string(report))
}

fn too_many_report(alloc: Global, path: &WitxPath) -> Result<Text, OutOfMemory>
    ensures { IfOk result (λ text. text ≡ too_many_report path.now) }
{
    let report = format!(in alloc; "more than 1024 files at \"{}\"", path.as_str())?;
    Ok(Text::from_string(report))
}
