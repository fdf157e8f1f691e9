//! The output of each command of `run` over the files of a bundle.

ghost use Rattle.std.specs.Prelude.{◌≡◌, [], IfErr, IfOk, None, map, true};
ghost use Rattle.witx_ast.specs.Definitions.{definition_tree};
ghost use Rattle.witx_render.specs.DocumentTexts.{document_text};
ghost use Rattle.witx_commands.specs.{Causes.{IsOutput}, Reports.{CommandRefuses}, Stops.{StopsWith}};
ghost use Rattle.witx_commands.specs.Words.{asked_by, is_of_run};
ghost use Rattle.witx_commands.specs.Words as asked;

use std::alloc::Global;
use witx_ast::Document;
use witx_base::Text;
use witx_commands::{
    Command, Output, Stop, adapted_or_stop, layouts_of_files, let_document_go, listed, no_notes,
    page_of_files, parsed_or_stop, paths_of, polyfill_files, summary_of_files,
};
use witx_files::MockFs;
use witx_render::document_text;

/// The output of a command of `run` over the files of a bundle: a row for each command. Refused with the report
/// of the files that it refuses, and for want of memory.
pub fn perform(alloc: Global, command: &Command<'_>, files: &mut MockFs) -> Result<Output, Stop>
    requires { is_of_run (asked_by command.now) ≡ true }
    ensures output { IfOk result (λ o. IsOutput (asked_by command.now) files.old o.text o.notes o.adapted) }
    ensures stopped { IfErr result (StopsWith (CommandRefuses (asked_by command.now) files.old)) }
{
    match command {
        Command::Adapt { paths } => adapt_files(alloc, paths, files),
        Command::Print { paths } => print_files(alloc, paths, files),
        Command::Layouts { paths } => layouts_of_files(alloc, paths, files),
        Command::Docs { paths } => page_of_files(alloc, paths, files),
        Command::Polyfill(two) => polyfill_files(alloc, two, files),
        Command::Sample { functions } => summary_of_files(alloc, *functions, files),
        Command::Shim(_) | Command::Verify(_) | Command::Invoke { .. } | Command::Imports(_) =>
            unreachable!(),
    }
}

/// The listing of the document that the files at these paths mean.
#[tactic(auto, using(witx_commands::proofs::Refusing::command_rules))]
pub fn adapt_files(alloc: Global, words: &[Text], files: &mut MockFs) -> Result<Output, Stop>
    ensures output { IfOk result (λ o. IsOutput (asked.adapt words.now) files.old o.text o.notes o.adapted) }
    ensures stopped { IfErr result (StopsWith (CommandRefuses (asked.adapt words.now) files.old)) }
{
    let paths = paths_of(alloc, words)?;
    match adapted_or_stop(alloc, paths.as_slice(), files) {
        Ok(adapted) => listed(alloc, adapted),
        Err(stop) => Err(stop),
    }
}

/// The printed document that the files at these paths mean.
#[tactic(auto, using(witx_commands::proofs::Refusing::command_rules))]
pub fn print_files(alloc: Global, words: &[Text], files: &mut MockFs) -> Result<Output, Stop>
    ensures output { IfOk result (λ o. IsOutput (asked.print words.now) files.old o.text o.notes o.adapted) }
    ensures stopped { IfErr result (StopsWith (CommandRefuses (asked.print words.now) files.old)) }
{
    match parsed_or_stop(alloc, words, files) {
        Ok(document) => {
            let output = printed(alloc, &document);
            let_document_go(document);
            output
        }
        Err(stop) => Err(stop),
    }
}

/// A document, printed.
fn printed(alloc: Global, document: &Document) -> Result<Output, Stop>
    ensures text { IfOk result (λ o. o.text ≡ document_text (map definition_tree document.now.definitions)) }
    ensures value { IfOk result (λ o. (o.notes ≡ []) × (o.adapted ≡ None)) }
    ensures memory { IfErr result (λ e. e ≡ Stop.OutOfMemory) }
{
    match document_text(alloc, document) {
        Ok(text) => Ok(Output {
            text,
            notes: no_notes(alloc),
            adapted: None,
        }),
        Err(_) => Err(Stop::OutOfMemory),
    }
}
