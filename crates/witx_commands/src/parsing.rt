//! The document that files mean, or the end of a run over files that mean none.

ghost use Rattle.std.specs.Prelude.{◌≡◌, Contains, Err, IfErr, IfOk, None, Ok, OnOk, map};
ghost use Rattle.witx_base.specs.Paths.{file_name};
ghost use Rattle.witx_ast.specs.Definitions.{definition_tree};
ghost use Rattle.witx_walk.specs.Answers.{HasCause};
ghost use Rattle.witx_commands.specs.Adapting.{AreClosed, AreOrdered, IsParsedDocument, Parses};
ghost use Rattle.witx_commands.specs.{Reports.{IsTextReport, ParsingFails}, Stops.{StopsWith}};
ghost use Rattle.witx_commands.specs.Words.{paths_of};

use crate::refusal::{Refusal, Stop};
use crate::words::paths_of;
use std::alloc::Global;
use witx_ast::Document;
use witx_base::{OutOfMemory, Text, WitxPath};
use witx_files::{MockFs, WitxIo};
use witx_walk::{WitxError, parse_witx_with};

/// The document that the files at these paths mean.
#[tactic(auto, unfolding(crate::specs::Adapting::IsParsedDocument))]
pub fn parsed<I: WitxIo>(
    alloc: Global,
    paths: &[WitxPath],
    io: &mut I,
) -> Result<Document, WitxError>
    ensures document { IfOk result (λ d.
        IsParsedDocument (I.files io.old) (I.aliases io.old) paths.now (I.faults io.old) (I.faults io.new)
        (Ok (map definition_tree d.definitions))) }
    ensures ordered { IfOk result (λ d. AreOrdered d.definitions) }
    ensures closed { IfOk result (λ d. AreClosed d.definitions) }
    ensures refused { IfErr result (λ e.
        IsParsedDocument (I.files io.old) (I.aliases io.old) paths.now (I.faults io.old) (I.faults io.new) (Err e)) }
    ensures cause { IfErr result
        (HasCause (λ p. Contains paths.now p × (file_name p ≡ None))
        (I.files io.old) (I.faults io.old) (I.faults io.new)) }
    ensures no_fault { OnOk result (I.faults io.new ≡ I.faults io.old) }
    ensures files { I.files io.new ≡ I.files io.old }
    ensures aliases { I.aliases io.new ≡ I.aliases io.old }
{
    parse_witx_with(alloc, paths, io)
}

/// The same over the files of a bundle.
pub fn parsed_bundle(
    alloc: Global,
    paths: &[WitxPath],
    files: &mut MockFs,
) -> Result<Document, WitxError>
    ensures document { IfOk result (λ d. Parses files.old paths.now (Ok (map definition_tree d.definitions))) }
    ensures ordered { IfOk result (λ d. AreOrdered d.definitions) }
    ensures closed { IfOk result (λ d. AreClosed d.definitions) }
    ensures refused { IfErr result (λ e. Parses files.old paths.now (Err e)) }
    ensures kept { files.new ≡ files.old }
{
    parsed(alloc, paths, files)
}

/// The report of a refusal of texts; there is none of want of memory.
#[tactic(auto, unfolding(crate::specs::Reports::IsTextReport))]
pub fn text_report(
    alloc: Global,
    files: &mut MockFs,
    error: &WitxError,
) -> Result<Text, OutOfMemory>
    ensures { IfOk result (λ report. IsTextReport files.old error.now report) }
{
    match error {
        WitxError::Io(_, _)
        | WitxError::Parse(_)
        | WitxError::Validation(_)
        | WitxError::BadPath(_)
        | WitxError::TooManyFiles(_) => error.report_with(alloc, files),
        WitxError::OutOfMemory => Err(OutOfMemory),
    }
}

/// The document that the files at the paths of these words mean, or the end of a run over files that
/// mean none.
#[tactic(auto, using(crate::proofs::Refusing::stop_rules))]
pub fn parsed_or_stop(
    alloc: Global,
    arguments: &[Text],
    files: &mut MockFs,
) -> Result<Document, Stop>
    ensures document { IfOk result (λ d.
        Parses files.old (paths_of arguments.now) (Ok (map definition_tree d.definitions))) }
    ensures ordered { IfOk result (λ d. AreOrdered d.definitions) }
    ensures closed { IfOk result (λ d. AreClosed d.definitions) }
    ensures stopped { IfErr result (StopsWith (ParsingFails files.old (paths_of arguments.now))) }
    ensures kept { OnOk result (files.new ≡ files.old) }
{
    let paths = paths_of(alloc, arguments)?;
    match parsed_bundle(alloc, paths.as_slice(), files) {
        Ok(document) => Ok(document),
        Err(error) => Err(text_stop(alloc, files, &error)),
    }
}

/// The end of a run whose files mean no document.
pub fn text_stop(alloc: Global, files: &mut MockFs, error: &WitxError) -> Stop
    ensures { StopsWith (IsTextReport files.old error.now) result }
{
    match text_report(alloc, files, error) {
        Ok(report) => Stop::Refused(Refusal::Command(report)),
        Err(_) => Stop::OutOfMemory,
    }
}
