//! The report on the modules of an old file in terms of those of a new one.

ghost use Rattle.std.specs.{Prelude.{◌≡◌, [], IfErr, IfOk, None, Ok, OnOk, map}, BTreeMap.{insert_entry}};
ghost use Rattle.std.specs.{Cmp.Lexicographic.{slice_cmp}, Ordering.{nat_cmp}};
ghost use Rattle.witx_ast.specs.Definitions.{definition_tree};
ghost use Rattle.witx_compat.specs.{Polyfills.{polyfill_answer}, Views.{module_view}};
ghost use Rattle.witx_docs.specs.PolyfillTexts.{polyfill_text};
ghost use Rattle.witx_commands.specs.Causes.{IsOutput};
ghost use Rattle.witx_commands.specs.Mappings.{IsAbsentReport, IsErrorText, IsPolyfillText, MeansBoth, mapping_of};
ghost use Rattle.witx_commands.specs.{Reports.{BothFail, CommandRefuses}, Stops.{StopsWith}};
ghost use Rattle.witx_commands.specs.{Texts.{absent_function, absent_module}, Words.{two_files}};
ghost use Rattle.witx_commands.specs.Words as asked;

use crate::extents::check_modules;
use crate::output::{Output, no_notes};
use crate::parsing::parsed_or_stop;
use crate::refusal::{Refusal, Stop};
use crate::words::TwoFiles;
use std::alloc::Global;
use std::slice::from_ref;
use witx_ast::Document;
use witx_base::{Id, OutOfMemory, Text};
use witx_compat::{ModuleMap, Polyfill, PolyfillError};
use witx_docs::Documentation;
use witx_files::MockFs;

/// The report on the modules of the old file in terms of those of the new one.
#[tactic(auto, using(crate::proofs::Mapping::output_rules))]
pub fn polyfill_files(alloc: Global, two: &TwoFiles<'_>, files: &mut MockFs) -> Result<Output, Stop>
    ensures output { IfOk result (λ o.
        IsOutput (asked.polyfill (two_files two.now)) files.old o.text o.notes o.adapted) }
    ensures stopped { IfErr result (StopsWith (CommandRefuses (asked.polyfill (two_files two.now)) files.old)) }
{
    match both_or_stop(alloc, two, files) {
        Ok((new, old)) => mapped(alloc, &new, &old, two.names),
        Err(stop) => Err(stop),
    }
}

/// The document that the new file means and that of the old one, or the end of a run where one means
/// none.
#[tactic(auto, using(crate::proofs::Mapping::document_rules))]
fn both_or_stop(
    alloc: Global,
    two: &TwoFiles<'_>,
    files: &mut MockFs,
) -> Result<(Document, Document), Stop>
    ensures documents { IfOk result (λ both.
        MeansBoth files.old (two_files two.now) (map definition_tree both.0.definitions)
        (map definition_tree both.1.definitions)) }
    ensures stopped { IfErr result (StopsWith (BothFail files.old (two_files two.now))) }
{
    let new = parsed_or_stop(alloc, from_ref(two.new), files)?;
    let old = parsed_or_stop(alloc, from_ref(two.old), files)?;
    Ok((new, old))
}

/// The report on the modules of two documents that have these names, two by two.
#[tactic(auto, using(crate::proofs::Mapping::report_rules))]
fn mapped(alloc: Global, new: &Document, old: &Document, names: &[Text]) -> Result<Output, Stop>
    ensures text { IfOk result (λ o.
        IsPolyfillText (map definition_tree new.now.definitions) (map definition_tree old.now.definitions)
        names.now o.text) }
    ensures value { IfOk result (λ o. (o.notes ≡ []) × (o.adapted ≡ None)) }
    ensures stopped { IfErr result (StopsWith
        (IsAbsentReport (map definition_tree new.now.definitions) (map definition_tree old.now.definitions)
        names.now)) }
{
    match mapped_modules(alloc, new, old, names) {
        Ok(polyfill) => reported(alloc, &polyfill),
        Err(stop) => Err(stop),
    }
}

/// The modules of two documents that have these names, two by two, each old one in terms of the new; or
/// the end of a run of which a module or a function is absent. Want of memory also where there is too much to the types
/// of what is mapped, as it is gone through at each of its mentions.
#[tactic(auto, using(crate::proofs::Mapping::report_rules))]
pub fn mapped_modules(
    alloc: Global,
    new: &Document,
    old: &Document,
    names: &[Text],
) -> Result<Polyfill, Stop>
    ensures modules { IfOk result (λ polyfill.
        polyfill_answer (map definition_tree new.now.definitions) (map definition_tree old.now.definitions)
        (mapping_of names.now) ≡ Ok (map module_view polyfill.modules)) }
    ensures stopped { IfErr result (StopsWith
        (IsAbsentReport (map definition_tree new.now.definitions) (map definition_tree old.now.definitions)
        names.now)) }
{
    let mapping = mapping_of(alloc, names)?;
    match Polyfill::new(alloc, new, old, &mapping) {
        Ok(polyfill) => {
            if check_modules(alloc, polyfill.modules.as_slice()).is_err() {
                drop(polyfill);
                return Err(Stop::OutOfMemory);
            }
            Ok(polyfill)
        }
        Err(error) => Err(absent_stop(alloc, &error)),
    }
}

/// The old module of each new one, by names two by two; of a new name that stands twice the last pair
/// counts.
#[tactic(auto, using(crate::proofs::Mapping::mapping_rules))]
fn mapping_of(alloc: Global, names: &[Text]) -> Result<ModuleMap, OutOfMemory>
    ensures { IfOk result (λ mapping. mapping ≡ mapping_of names.now) }
{
    let mut mapping = ModuleMap::new(alloc);
    let mut rest = names;
    while let [new, old, more @ ..] = rest {
        put_pair(alloc, &mut mapping, new, old)?;
        rest = more;
    }
    Ok(mapping)
}

fn put_pair(
    alloc: Global,
    mapping: &mut ModuleMap,
    new: &Text,
    old: &Text,
) -> Result<(), OutOfMemory>
    ensures { OnOk result (mapping.new ≡ insert_entry (slice_cmp nat_cmp) mapping.old new.now old.now) }
{
    let new = Id::new(alloc, new.as_str())?;
    let old = Id::new(alloc, old.as_str())?;
    mapping.insert(new, old)
}

/// The report on mapped modules.
fn reported(alloc: Global, polyfill: &Polyfill) -> Result<Output, Stop>
    ensures text { IfOk result (λ o. o.text ≡ polyfill_text (map module_view polyfill.now.modules)) }
    ensures value { IfOk result (λ o. (o.notes ≡ []) × (o.adapted ≡ None)) }
    ensures memory { IfErr result (λ e. e ≡ Stop.OutOfMemory) }
{
    match polyfill.to_md(alloc) {
        Ok(text) => Ok(Output {
            text,
            notes: no_notes(alloc),
            adapted: None,
        }),
        Err(_) => Err(Stop::OutOfMemory),
    }
}

/// The end of a run of which a module or a function is absent.
fn absent_stop(alloc: Global, error: &PolyfillError) -> Stop
    ensures { StopsWith (IsErrorText error.now) result }
{
    match absent_report(alloc, error) {
        Ok(report) => Stop::Refused(Refusal::Command(report)),
        Err(_) => Stop::OutOfMemory,
    }
}

/// What is told of an absent module or function. There is none of want of memory.
fn absent_report(alloc: Global, error: &PolyfillError) -> Result<Text, OutOfMemory>
    ensures { IfOk result (λ report. IsErrorText error.now report) }
{
    match error {
        PolyfillError::ModuleNotPresent { name } => absent_module(alloc, name.as_str()),
        PolyfillError::FuncNotPresent { name, .. } => absent_function(alloc, name.as_str()),
        PolyfillError::OutOfMemory => Err(OutOfMemory),
    }
}

fn absent_module(alloc: Global, name: &str) -> Result<Text, OutOfMemory>
    ensures { IfOk result (λ report. report ≡ absent_module name.now) }
{
    Ok(Text::from_string(format!(in alloc; "Module not present: `{name}`")?))
}

fn absent_function(alloc: Global, name: &str) -> Result<Text, OutOfMemory>
    ensures { IfOk result (λ report. report ≡ absent_function name.now) }
{
    Ok(Text::from_string(format!(in alloc; "Function not present: `{name}`")?))
}
