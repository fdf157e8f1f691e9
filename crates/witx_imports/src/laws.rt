//! What holds of every text, as functions that do nothing: each contract is a theorem.

ghost use Rattle.std.specs.{Prelude.{◌≡◌, ◌⊎◌, ◌<◌, ℕ, List}, List.{AllPairs}};
ghost use Rattle.witx_imports.specs.declared.import.WasmImport.{WasmImport};
ghost use Rattle.witx_imports.specs.declared.fault.ImportFault.{ImportFault};
ghost use Rattle.witx_imports.specs.{Exact.{IsFaultAmong, import_number}, Faults.{import_faults}};
ghost use Rattle.witx_imports.specs.Reads.{IsBadAt, LineColumn, Lists};
ghost use Rattle.witx_grammar.specs.Grammar.{In};

use crate::grammar::the_table;
use crate::symbols::{Nonterminal, ProductionName, TokenKind};
use witx_grammar::{at_most_one_derivation, derivation_or_fault};

/// A text is at most one list of imports.
pub fn at_most_one_import_list()
    ensures { (text : List ℕ) (d e : List WasmImport) → Lists text d → Lists text e → d ≡ e }
{
    at_most_one_derivation::<TokenKind, Nonterminal, ProductionName>();
    let _table = the_table();
}

/// A text that is a list of imports has no fault.
pub fn no_fault_where_imports_are_read()
    ensures { (text : List ℕ) (d : List WasmImport) (place : LineColumn) → Lists text d → IsBadAt text place → ⊥ }
{}

/// A text is a list of imports or has a fault.
pub fn an_import_list_or_a_fault()
    ensures { (text : List ℕ) → ((d : List WasmImport) × Lists text d) ⊎ ((place : LineColumn) × IsBadAt text place) }
{
    derivation_or_fault::<TokenKind, Nonterminal, ProductionName>();
    let _table = the_table();
}

/// A text has at most one fault: one line and one column.
pub fn at_most_one_import_list_fault()
    ensures { (text : List ℕ) (place other : LineColumn) → IsBadAt text place → IsBadAt text other → place ≡ other }
{}

/// The faults of imports are exactly those that one of the imports has, in the order of the imports,
/// one at most for each: nothing that is offered has its names, or the first that does is another one.
pub fn import_faults_are_exact()
    ensures only { (offered imports : List WasmImport) (f : ImportFault)
        → In f (import_faults offered imports) → IsFaultAmong offered imports f }
    ensures all { (offered imports : List WasmImport) (f : ImportFault) → IsFaultAmong offered imports f
        → In f (import_faults offered imports) }
    ensures ordered { (offered imports : List WasmImport)
        → AllPairs (λ f g. import_number f < import_number g) (import_faults offered imports) }
{}
