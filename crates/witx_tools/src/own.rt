//! What tools work on: the file of their own, and adapted documents. A tool is a command that `run` doesn't have.

ghost use Rattle.std.specs.Prelude.{◌≡◌, IfErr, IfOk, OnOk, Ok, Some};
ghost use Rattle.witx_base.specs.Paths.{path_of};
ghost use Rattle.witx_files.specs.{Files.{text_in}, declared.fault.IoFault.{IoFault}};
ghost use Rattle.witx_walk.specs.ErrorReports.{io_report};
ghost use Rattle.witx_commands.specs.Adapting.{IsAdapted, Parses, defined};
ghost use Rattle.witx_commands.specs.{Reports.{AdaptingFails, IsTextReport}, Stops.{StopsWith}};
ghost use Rattle.witx_commands.specs.Words.{own_file, paths_of};
ghost use Rattle.witx_tools.specs.ToolCauses.{LacksOwn, OpeningFails};

use std::alloc::Global;
use witx_adapt::Adapted;
use witx_base::{Duplicate, Text, WitxPath};
use witx_commands::{OwnFile, Stop, adapted_or_stop, paths_of, text_stop};
use witx_files::{IoError, IoFault, MockFs, WitxIo};
use witx_walk::WitxError;

/// The adapted document of the files at the paths of these words, or the end of a run over files that
/// can't be adapted.
#[tactic(auto, using(crate::proofs::Telling::path_rules))]
pub fn adapted_words(alloc: Global, words: &[Text], files: &mut MockFs) -> Result<Adapted, Stop>
    ensures document { IfOk result (λ a. Parses files.old (paths_of words.now) (Ok (defined a))) }
    ensures parts { IfOk result IsAdapted }
    ensures stopped { IfErr result (StopsWith (AdaptingFails files.old (paths_of words.now))) }
    ensures kept { OnOk result (files.new ≡ files.old) }
{
    let paths = paths_of(alloc, words)?;
    adapted_or_stop(alloc, paths.as_slice(), files)
}

/// A tool's own file, and the adapted document of the files behind it.
#[derive(Drop)]
pub struct Opened {
    pub path: WitxPath,
    pub text: Text,
    pub adapted: Adapted,
}

/// A tool's own file and then the document behind it, or the end of a run whose bundle lacks the one or has files
/// for the other that can't be adapted.
#[tactic(auto, using(crate::proofs::Telling::opening_rules))]
pub fn opened_file(alloc: Global, own: &OwnFile<'_>, files: &mut MockFs) -> Result<Opened, Stop>
    ensures path { IfOk result (λ o. o.path ≡ path_of own.now.file.now) }
    ensures held { IfOk result (λ o. text_in files.old (path_of own.now.file.now) ≡ Some o.text) }
    ensures document { IfOk result (λ o. Parses files.old (paths_of own.now.paths.now) (Ok (defined o.adapted))) }
    ensures parts { IfOk result (λ o. IsAdapted o.adapted) }
    ensures stopped { IfErr result (StopsWith (OpeningFails files.old (own_file own.now))) }
{
    let path = WitxPath::new(alloc, own.file.as_str())?;
    let text = own_text(alloc, &path, files)?;
    let adapted = adapted_words(alloc, own.paths, files)?;
    Ok(Opened {
        path,
        text,
        adapted,
    })
}

/// The text of a tool's own file, or the end of a run whose bundle lacks it.
#[tactic(auto, using(crate::proofs::Telling::own_rules))]
fn own_text(alloc: Global, path: &WitxPath, files: &mut MockFs) -> Result<Text, Stop>
    ensures held { IfOk result (λ text. text_in files.old path.now ≡ Some text) }
    ensures stopped { IfErr result (StopsWith (LacksOwn (Some path.now) files.old)) }
    ensures kept { OnOk result (files.new ≡ files.old) }
{
    match files.fgets(alloc, path) {
        Ok(text) => Ok(text),
        Err(IoError::Fault(fault)) => Err(unread_stop(alloc, path, fault, files)),
        Err(IoError::OutOfMemory) => Err(Stop::OutOfMemory),
    }
}

/// The end of a run that can't read a file.
#[tactic(auto, using(crate::proofs::Telling::error_rules))]
fn unread_stop(alloc: Global, path: &WitxPath, fault: IoFault, files: &mut MockFs) -> Stop
    ensures { StopsWith (λ report. report ≡ io_report path.now fault) result }
{
    match path.copy() {
        Ok(path) => error_stop(alloc, WitxError::Io(path, fault), files),
        Err(_) => Stop::OutOfMemory,
    }
}

fn error_stop(alloc: Global, error: WitxError, files: &mut MockFs) -> Stop
    ensures { StopsWith (IsTextReport files.old error) result }
{
    let stop = text_stop(alloc, files, &error);
    drop(error);
    stop
}
