//! The imports of a WebAssembly module: read from a list in text form, and held against the
//! signatures of a document.
#![tactic(auto)]

mod actions;
mod builder;
mod checker;
mod error;
mod fault;
mod grammar;
mod import;
mod laws;
mod leaf;
mod reader;
mod stack;
mod symbols;
mod value;
mod words;

pub use checker::check_imports;
pub use error::ImportsError;
pub use fault::{ImportFault, ImportFaults};
pub use import::{WasmImport, WasmImports};
pub use laws::{
    an_import_list_or_a_fault, at_most_one_import_list, at_most_one_import_list_fault,
    import_faults_are_exact, no_fault_where_imports_are_read,
};
pub use reader::read_imports;
