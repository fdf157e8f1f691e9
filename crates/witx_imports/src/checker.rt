//! Imports held against the signatures of a document.

ghost use Rattle.std.specs.Prelude.{◌≡◌, map, position, IfOk};
ghost use Rattle.witx_imports.specs.Faults as spec;

use crate::fault::{ImportFault, ImportFaults};
use crate::import::{WasmImport, WasmImports};
use std::alloc::Global;
use witx_adapt::{Adapted, AdaptedFunc, first_entries, first_named};
use witx_base::{Items, OutOfMemory};

/// Whether the entry's words are those of the import.
fn has_words(entry: &AdaptedFunc, import: &WasmImport) -> bool
    ensures { result ≡ spec.has_words import.now (spec.offered_import entry.now) }
{
    entry.params == import.params && entry.results == import.results
}

/// The fault of the import with this number. The first entry with its names has the number `first`.
fn fault_of(
    functions: &[AdaptedFunc],
    first: Option<usize>,
    index: usize,
    import: &WasmImport,
) -> Option<ImportFault>
    requires { first ≡ position (λ e. spec.has_import_names import.now (spec.offered_import e)) functions.now }
    ensures { result ≡ spec.import_fault_of (map spec.offered_import functions.now) index import.now }
{
    let Some(function) = first else {
        return Some(ImportFault::Missing { index });
    };
    if has_words(&functions[function], import) {
        None
    } else {
        Some(ImportFault::Differs { index, function })
    }
}

/// The faults of the imports, in their order.
fn faults_of(
    alloc: Global,
    functions: &[AdaptedFunc],
    imports: &[WasmImport],
) -> Result<ImportFaults, OutOfMemory>
    ensures { IfOk result (λ faults. faults ≡ spec.import_faults (map spec.offered_import functions.now) imports.now) }
{
    let entries = first_entries(alloc, functions)?;
    let mut faults = Items::new(alloc);
    for (index, import) in imports.iter().enumerate() {
        let first = first_named(&entries, &import.module, &import.name)?;
        let Some(fault) = fault_of(functions, first, index, import) else {
            continue;
        };
        faults.push(fault)?;
    }
    Ok(faults)
}

/// What is wrong with the imports of a module that is to run against the document, in their order.
///
/// For each import the first entry whose module and function have its names is taken. `Missing` comes
/// where there is none, `Differs` where the types of its words, those that go in or those that come
/// back, aren't the import's. Time is in the sum of the lengths of both lists, times a logarithm.
pub fn check_imports(
    alloc: Global,
    adapted: &Adapted,
    imports: &WasmImports,
) -> Result<ImportFaults, OutOfMemory>
    ensures { IfOk result (λ faults. faults
        ≡ spec.import_faults (map spec.offered_import adapted.now.functions) imports.now) }
{
    faults_of(alloc, adapted.functions.as_slice(), imports.as_slice())
}
