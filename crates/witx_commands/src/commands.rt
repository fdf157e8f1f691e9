//! What commands make of the files of a bundle: adapted documents with their listing or summary, and layouts.

ghost use Rattle.std.specs.Prelude.{◌≡◌, ◌^◌, ◌<◌, [], All, IfErr, IfOk, None, OnOk, Some, map};
ghost use Rattle.witx_ast.specs.Definitions.{definition_tree};
ghost use Rattle.witx_adapt.specs.Listings.{listing_text};
ghost use Rattle.witx_layout.specs.LayoutsText.{layouts_text as text_of_layouts, typename_sizes};
ghost use Rattle.witx_sample.specs.Summaries.{summary_text};
ghost use Rattle.witx_commands.specs.Adapting.{AdaptsFiles, AreOrdered, IsAdapted, RefusesBundle};
ghost use Rattle.witx_commands.specs.Causes.{IsOutput};
ghost use Rattle.witx_commands.specs.Reports.{AdaptingFails, CommandRefuses, IsSizeReport, IsUnadaptedReport};
ghost use Rattle.witx_commands.specs.Stops.{StopsWith};
ghost use Rattle.witx_commands.specs.Words as asked;

use crate::adapting::adapted;
use crate::error::Unadapted;
use crate::output::{Output, no_notes};
use crate::parsing::parsed_or_stop;
use crate::refusal::{Refusal, Stop, too_large};
use crate::report::adapt_report;
use std::alloc::Global;
use witx_adapt::{Adapted, listing};
use witx_ast::Document;
use witx_base::{Text, WitxPath};
use witx_extent::check_layouts;
use witx_files::MockFs;
use witx_layout::{LayoutError, ordered_layouts_text};
use witx_sample::summary;

/// What layouts may show below the lines of typenames, in bytes: of a record that has many names under each of them.
const MOST: usize = 1 << 26;

/// The layouts of the typenames of the document that the files at these paths mean.
#[tactic(auto, using(crate::proofs::Refusing::command_rules))]
pub fn layouts_of_files(alloc: Global, words: &[Text], files: &mut MockFs) -> Result<Output, Stop>
    ensures output { IfOk result (λ o. IsOutput (asked.layouts words.now) files.old o.text o.notes o.adapted) }
    ensures stopped { IfErr result (StopsWith (CommandRefuses (asked.layouts words.now) files.old)) }
{
    match parsed_or_stop(alloc, words, files) {
        Ok(document) => document_layouts(alloc, &document),
        Err(stop) => Err(stop),
    }
}

/// The summary of the document that the file of the sample means.
#[tactic(auto, using(crate::proofs::Refusing::command_rules))]
pub fn summary_of_files(alloc: Global, functions: usize, files: &mut MockFs) -> Result<Output, Stop>
    ensures output { IfOk result (λ o. IsOutput (asked.sample functions) files.old o.text o.notes o.adapted) }
    ensures stopped { IfErr result (StopsWith (CommandRefuses (asked.sample functions) files.old)) }
{
    let path = WitxPath::new(alloc, "/sample.witx")?;
    match adapted_or_stop(alloc, &[path], files) {
        Ok(adapted) => summarized(alloc, adapted),
        Err(stop) => Err(stop),
    }
}

/// The adapted document that the files at these paths mean, or the end of a run over files that can't
/// be adapted.
#[tactic(auto, using(crate::proofs::Refusing::stop_rules))]
pub fn adapted_or_stop(
    alloc: Global,
    paths: &[WitxPath],
    files: &mut MockFs,
) -> Result<Adapted, Stop>
    ensures document { IfOk result (AdaptsFiles files.old paths.now) }
    ensures parts { IfOk result IsAdapted }
    ensures stopped { IfErr result (StopsWith (AdaptingFails files.old paths.now)) }
    ensures kept { OnOk result (files.new ≡ files.old) }
{
    match adapted_bundle(alloc, paths, files) {
        Ok(adapted) => Ok(adapted),
        Err(unadapted) => Err(adapt_stop(alloc, files, &unadapted)),
    }
}

/// The adapted document that the files of a bundle mean.
#[tactic(auto, using(crate::proofs::Refusing::bundle_rules), unfolding(crate::specs::Adapting::AdaptRefusesBundle, crate::specs::Adapting::RefusesBundle))]
fn adapted_bundle(
    alloc: Global,
    paths: &[WitxPath],
    files: &mut MockFs,
) -> Result<Adapted, Unadapted>
    ensures document { IfOk result (AdaptsFiles files.old paths.now) }
    ensures parts { IfOk result IsAdapted }
    ensures refused { IfErr result (RefusesBundle files.old paths.now) }
    ensures kept { files.new ≡ files.old }
{
    adapted(alloc, paths, files)
}

/// The end of a run whose files can't be adapted.
fn adapt_stop(alloc: Global, files: &mut MockFs, unadapted: &Unadapted) -> Stop
    ensures { StopsWith (IsUnadaptedReport files.old unadapted.now) result }
{
    match adapt_report(alloc, files, unadapted) {
        Ok(report) => Stop::Refused(Refusal::Command(report)),
        Err(_) => Stop::OutOfMemory,
    }
}

/// An adapted document with its listing.
pub fn listed(alloc: Global, adapted: Adapted) -> Result<Output, Stop>
    ensures text { IfOk result (λ o. o.text ≡ listing_text adapted) }
    ensures value { IfOk result (λ o. (o.notes ≡ []) × (o.adapted ≡ Some adapted)) }
    ensures memory { IfErr result (λ e. e ≡ Stop.OutOfMemory) }
{
    match listing(alloc, &adapted) {
        Ok(text) => Ok(Output {
            text,
            notes: no_notes(alloc),
            adapted: Some(adapted),
        }),
        Err(_) => Err(Stop::OutOfMemory),
    }
}

/// An adapted document with its summary.
fn summarized(alloc: Global, adapted: Adapted) -> Result<Output, Stop>
    ensures text { IfOk result (λ o. o.text ≡ summary_text adapted) }
    ensures value { IfOk result (λ o. (o.notes ≡ []) × (o.adapted ≡ Some adapted)) }
    ensures memory { IfErr result (λ e. e ≡ Stop.OutOfMemory) }
{
    match summary(alloc, &adapted) {
        Ok(text) => Ok(Output {
            text,
            notes: no_notes(alloc),
            adapted: Some(adapted),
        }),
        Err(_) => Err(Stop::OutOfMemory),
    }
}

/// The layouts of an ordered document. Want of memory also where they would be too long.
#[tactic(auto, using(crate::proofs::Refusing::size_rules))]
fn document_layouts(alloc: Global, document: &Document) -> Result<Output, Stop>
    requires { AreOrdered document.now.definitions }
    ensures text { IfOk result (λ o. o.text ≡ text_of_layouts (map definition_tree document.now.definitions)) }
    ensures sizes { OnOk result
        (All (λ size. size < 2 ^ 64) (typename_sizes (map definition_tree document.now.definitions))) }
    ensures value { IfOk result (λ o. (o.notes ≡ []) × (o.adapted ≡ None)) }
    ensures too_large { IfErr result (StopsWith (IsSizeReport (map definition_tree document.now.definitions))) }
{
    if check_layouts(alloc, document, MOST).is_err() {
        return Err(Stop::OutOfMemory);
    }
    match ordered_layouts_text(alloc, document) {
        Ok(text) => Ok(Output {
            text,
            notes: no_notes(alloc),
            adapted: None,
        }),
        Err(LayoutError::TooLarge) => Err(too_large(alloc)),
        Err(LayoutError::OutOfMemory) => Err(Stop::OutOfMemory),
    }
}
