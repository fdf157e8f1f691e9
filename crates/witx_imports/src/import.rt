//! The imports of a WebAssembly module.

use witx_abi::WasmTypes;
use witx_base::{Id, Items};

/// A function that a WebAssembly module imports: the module and the name that it is asked for by, and
/// the types of the words that go in and of those that come back.
#[derive(PartialEq, Eq, Drop)]
pub struct WasmImport {
    pub module: Id,
    pub name: Id,
    pub params: WasmTypes,
    pub results: WasmTypes,
}

/// The imports of a module, in the order of its list.
pub type WasmImports = Items<WasmImport>;
