//! The words of WebAssembly that pass in a call.

use witx_machine::WasmType;

/// A word: its type, and its bits, below 2^32 where it has 32 of them.
#[derive(Clone, Copy, PartialEq, Eq, Debug, Drop)]
pub struct Word {
    /// The type.
    pub ty: WasmType,
    /// The bits.
    pub bits: u64,
}
