//! WebAssembly modules in binary form: what they import, read from their bytes.
#![tactic(auto)]

mod fault;
mod imports;
mod laws;
mod module;
mod numbers;
mod reader;
mod sections;
mod types;

pub use fault::{Fault, FaultKind, ModuleError};
pub use laws::{
    a_module_or_a_fault, at_most_one_module, at_most_one_module_fault, no_fault_in_a_module,
};
pub use module::{
    FunctionType, GlobalType, Import, ImportDescription, Limits, ReferenceType, TableType,
    ValueType, WasmModule,
};
pub use sections::read_module;
