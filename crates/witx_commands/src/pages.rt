//! The page of the document that files mean, and what it lacks.

ghost use Rattle.std.specs.Prelude.{◌≡◌, ◌++◌, IfErr, IfOk, None, OnOk, map, string_bytes};
ghost use Rattle.witx_ast.specs.Definitions.{definition_tree};
ghost use Rattle.witx_commands.specs.{Adapting.{AreClosed}, Causes.{IsOutput}};
ghost use Rattle.witx_commands.specs.MeantPages.{IsPage, IsPageReport, IsRefusedPage};
ghost use Rattle.witx_commands.specs.{Reports.{CommandRefuses}, Stops.{StopsWith}};
ghost use Rattle.witx_docs.specs.Pages.{missing_line, missing_lines};
ghost use Rattle.witx_commands.specs.Words as asked;

use crate::output::Output;
use crate::parsing::parsed_or_stop;
use crate::refusal::{Refusal, Stop, too_large};
use std::alloc::{AllocError, Global};
use std::fmt::Write;
use witx_ast::Document;
use witx_base::{Id, OutOfMemory, Text};
use witx_docs::{DocsError, MissingLinks, closed_document_md};
use witx_extent::check_page;
use witx_files::MockFs;

/// What a page may show of types, in bytes. So much is made within two seconds.
const MOST: usize = 1 << 26;

/// The page of the document that the files at these paths mean, with a note for each missing link.
#[tactic(auto, using(crate::proofs::Noting::output_rules))]
pub fn page_of_files(alloc: Global, words: &[Text], files: &mut MockFs) -> Result<Output, Stop>
    ensures output { IfOk result (λ o. IsOutput (asked.docs words.now) files.old o.text o.notes o.adapted) }
    ensures stopped { IfErr result (StopsWith (CommandRefuses (asked.docs words.now) files.old)) }
{
    match parsed_or_stop(alloc, words, files) {
        Ok(document) => document_page(alloc, &document),
        Err(stop) => Err(stop),
    }
}

/// The page of a document. Want of memory also where it would be too long.
#[tactic(auto, using(crate::proofs::Noting::page_rules))]
fn document_page(alloc: Global, document: &Document) -> Result<Output, Stop>
    requires closed { AreClosed document.now.definitions }
    ensures page { IfOk result (λ o. IsPage (map definition_tree document.now.definitions) o.text o.notes) }
    ensures value { IfOk result (λ o. o.adapted ≡ None) }
    ensures refused { IfErr result (StopsWith (IsPageReport (map definition_tree document.now.definitions))) }
{
    if check_page(alloc, document, MOST).is_err() {
        return Err(Stop::OutOfMemory);
    }
    match closed_document_md(alloc, document) {
        Ok((text, missing)) => noted(alloc, text, &missing),
        Err(error) => Err(page_stop(alloc, &error)),
    }
}

/// A page with a note for each missing link.
fn noted(alloc: Global, text: Text, missing: &MissingLinks) -> Result<Output, Stop>
    ensures text { IfOk result (λ o. o.text ≡ text) }
    ensures notes { IfOk result (λ o. o.notes ≡ missing_lines missing.now) }
    ensures value { IfOk result (λ o. o.adapted ≡ None) }
    ensures memory { IfErr result (λ e. e ≡ Stop.OutOfMemory) }
{
    match notes_of(alloc, missing.as_slice()) {
        Ok(notes) => Ok(Output {
            text,
            notes,
            adapted: None,
        }),
        Err(_) => Err(Stop::OutOfMemory),
    }
}

/// A line for each missing link, in order.
#[tactic(auto, using(crate::proofs::Noting::line_rules))]
fn notes_of(alloc: Global, missing: &[Text]) -> Result<Text, OutOfMemory>
    ensures { IfOk result (λ notes. notes ≡ missing_lines missing.now) }
{
    let mut notes = String::new(alloc);
    for name in missing {
        put_note(&mut notes, name.as_str())?;
    }
    Ok(Text::from_string(notes))
}

fn put_note(notes: &mut String, name: &str) -> Result<(), AllocError>
    ensures { OnOk result (string_bytes notes.new ≡ string_bytes notes.old ++ missing_line name.now) }
{
    write!(notes, "witx: link `{name}` not found\n")
}

/// The end of a run whose document has no page.
fn page_stop(alloc: Global, error: &DocsError) -> Stop
    ensures { StopsWith (IsRefusedPage error.now) result }
{
    match error {
        DocsError::UnknownConstantType { name } => unknown_type(alloc, name),
        DocsError::TooLarge => too_large(alloc),
        DocsError::OutOfMemory => Stop::OutOfMemory,
    }
}

fn unknown_type(alloc: Global, name: &Id) -> Stop
    ensures { StopsWith (IsRefusedPage (DocsError.UnknownConstantType name.now)) result }
{
    match unknown_type_report(alloc, name.as_str()) {
        Ok(report) => Stop::Refused(Refusal::Command(report)),
        Err(_) => Stop::OutOfMemory,
    }
}

fn unknown_type_report(alloc: Global, name: &str) -> Result<Text, OutOfMemory>
    ensures { IfOk result (IsRefusedPage (DocsError.UnknownConstantType name.now)) }
{
    Ok(Text::from_string(format!(in alloc; "constant of unknown type `{name}`")?))
}
