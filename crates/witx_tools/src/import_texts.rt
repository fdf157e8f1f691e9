//! The check of a list of imports against a document.

ghost use Rattle.std.specs.Prelude.{◌≡◌, ◌++◌, IfErr, IfOk, OnOk, Ok, Some, codes, map, option_copied, option_map, string_bytes};
ghost use Rattle.std.specs.{Fmt.{decimal}, List.{flat_map}};
ghost use Rattle.witx_imports.specs.{Faults.{offered_import}, Reads.{Lists}};
ghost use Rattle.witx_commands.specs.{Stops.{StopsWith}, Words.{own_file}};
ghost use Rattle.witx_commands.specs.Words as asked;
ghost use Rattle.witx_tools.specs.ImportTexts.{IsBadList, asked_text, bad_report, differs_line, expected_text, fault_line, faults_text, lacking_line, names_text};
ghost use Rattle.witx_tools.specs.{ToolCauses.{ToolRefuses}, ToolRuns.{ToolTells}};

use crate::own::opened_file;
use std::alloc::{AllocError, Global};
use witx_adapt::{Adapted, AdaptedFunc, put_quoted, put_signature};
use witx_base::{OutOfMemory, Text, WitxPath};
use witx_commands::{Output, OwnFile, Refusal, Stop, text_alone};
use witx_files::MockFs;
use witx_imports::{
    ImportFault, ImportsError, WasmImport, WasmImports, check_imports, read_imports,
};

/// How long a text of faults may be, but for its last line.
const LONGEST: usize = 1 << 26;

/// A line for each fault of the imports that the list says, held against the document of the files
/// behind it.
#[tactic(auto, using(crate::proofs::Telling::import_rules))]
pub fn faults_of_files(alloc: Global, own: &OwnFile<'_>, files: &mut MockFs) -> Result<Output, Stop>
    ensures output { IfOk result (λ o.
        ToolTells (asked.imports (own_file own.now)) files.old o.text o.notes o.adapted) }
    ensures stopped { IfErr result (StopsWith (ToolRefuses (asked.imports (own_file own.now)) files.old)) }
{
    let opened = opened_file(alloc, own, files)?;
    let imports = listed_imports(alloc, &opened.path, opened.text.as_str())?;
    let text = faults_text(alloc, &opened.adapted, &imports)?;
    Ok(text_alone(alloc, text))
}

/// The imports that a text lists, or the end of a run whose text at this path is no list.
#[tactic(auto, using(crate::proofs::Telling::list_rules))]
fn listed_imports(alloc: Global, path: &WitxPath, list: &str) -> Result<WasmImports, Stop>
    ensures imports { IfOk result (Lists list.now) }
    ensures stopped { IfErr result (StopsWith (IsBadList path.now list.now)) }
{
    match read_imports(alloc, list) {
        Ok(imports) => Ok(imports),
        Err(ImportsError::Bad { line, column }) => Err(bad_stop(alloc, path, line, column)),
        Err(ImportsError::OutOfMemory) => Err(Stop::OutOfMemory),
    }
}

/// The end of a run whose list has its fault at this place.
fn bad_stop(alloc: Global, path: &WitxPath, line: usize, column: usize) -> Stop
    ensures { StopsWith (λ report. report ≡ bad_report path.now (record { line = line; column = column })) result }
{
    match bad_report(alloc, path.as_str(), line, column) {
        Ok(report) => Stop::Refused(Refusal::Command(report)),
        Err(_) => Stop::OutOfMemory,
    }
}

fn bad_report(alloc: Global, path: &str, line: usize, column: usize) -> Result<Text, OutOfMemory>
    ensures { IfOk result (λ report.
        report ≡ path.now ++ (codes ":"
        ++ (decimal line ++ (codes ":" ++ (decimal column ++ codes ": not an import"))))) }
{
    Ok(Text::from_string(format!(in alloc; "{path}:{line}:{column}: not an import")?))
}

/// A line for each fault of the imports, held against an adapted document.
#[tactic(auto, unfolding(crate::specs::ImportTexts::faults_text))]
fn faults_text(alloc: Global, adapted: &Adapted, imports: &WasmImports) -> Result<Text, OutOfMemory>
    ensures { IfOk result (λ text. text ≡ faults_text (map offered_import adapted.now.functions) imports.now) }
{
    let faults = check_imports(alloc, adapted, imports)?;
    let mut text = String::new(alloc);
    put_faults(
        &mut text,
        adapted.functions.as_slice(),
        imports.as_slice(),
        faults.as_slice(),
    )?;
    Ok(Text::from_string(text))
}

/// Want of memory also where they take more than `LONGEST` bytes, as many imports differ from a function of many words.
#[tactic(auto, using(witx_adapt::proofs::Appending::appending_rules))]
fn put_faults(
    text: &mut String,
    functions: &[AdaptedFunc],
    imports: &[WasmImport],
    faults: &[ImportFault],
) -> Result<(), OutOfMemory>
    ensures { OnOk result (string_bytes text.new ≡ string_bytes text.old
        ++ flat_map (fault_line (map offered_import functions.now) imports.now) faults.now) }
{
    for fault in faults {
        put_fault(text, functions, imports, fault)?;
        if text.len() > LONGEST {
            return Err(OutOfMemory);
        }
    }
    Ok(())
}

fn put_fault(
    text: &mut String,
    functions: &[AdaptedFunc],
    imports: &[WasmImport],
    fault: &ImportFault,
) -> Result<(), AllocError>
    ensures { OnOk result (string_bytes text.new ≡ string_bytes text.old
        ++ fault_line (map offered_import functions.now) imports.now fault.now) }
{
    match fault {
        ImportFault::Missing { index } => put_missing(text, imports.get(*index)),
        ImportFault::Differs { index, function } => {
            put_differs(text, imports.get(*index), functions.get(*function))
        }
    }
}

fn put_missing(text: &mut String, import: Option<&WasmImport>) -> Result<(), AllocError>
    ensures { OnOk result (string_bytes text.new ≡ string_bytes text.old ++ lacking_line (option_copied import.entry)) }
{
    let Some(import) = import else {
        return Ok(());
    };
    text.push_str("missing ")?;
    put_names(text, import)?;
    text.push_str("\n")
}

fn put_differs(
    text: &mut String,
    import: Option<&WasmImport>,
    found: Option<&AdaptedFunc>,
) -> Result<(), AllocError>
    ensures { OnOk result (string_bytes text.new ≡ string_bytes text.old
        ++ differs_line (option_copied import.entry) (option_map offered_import (option_copied found.entry))) }
{
    match (import, found) {
        (Some(import), Some(entry)) => put_both(text, import, entry),
        _ => Ok(()),
    }
}

/// The line of an import that differs from what an entry offers, with both signatures.
fn put_both(text: &mut String, import: &WasmImport, entry: &AdaptedFunc) -> Result<(), AllocError>
    ensures { OnOk result (string_bytes text.new ≡ string_bytes text.old
        ++ differs_line (Some import.now) (Some (offered_import entry.now))) }
{
    text.push_str("differs ")?;
    put_asked(text, import)?;
    put_expected(text, entry)?;
    text.push_str("\n")
}

/// An import with its signature.
fn put_asked(text: &mut String, import: &WasmImport) -> Result<(), AllocError>
    ensures { OnOk result (string_bytes text.new ≡ string_bytes text.old ++ asked_text import.now) }
{
    put_names(text, import)?;
    text.push_str(" ")?;
    put_signature(text, import.params.as_slice(), import.results.as_slice())
}

/// The signature that an entry offers.
fn put_expected(text: &mut String, entry: &AdaptedFunc) -> Result<(), AllocError>
    ensures { OnOk result (string_bytes text.new ≡ string_bytes text.old ++ expected_text (offered_import entry.now)) }
{
    text.push_str(" expected ")?;
    put_signature(text, entry.params.as_slice(), entry.results.as_slice())
}

/// The module and the name that an import asks for, quoted.
fn put_names(text: &mut String, import: &WasmImport) -> Result<(), AllocError>
    ensures { OnOk result (string_bytes text.new ≡ string_bytes text.old ++ names_text import.now) }
{
    put_quoted(text, import.module.as_str())?;
    text.push_str(" ")?;
    put_quoted(text, import.name.as_str())
}
