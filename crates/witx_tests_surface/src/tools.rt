//! The surface of the crates of the tools: `witx_bytes`, `witx_shim`, `witx_verify`, `witx_invoke`,
//! `witx_imports`, `witx_tools`.

use crate::bounds::{copied, each, equal};
use std::alloc::Global;
use witx::{Adapted, AdaptedFunc, Ran};
use witx_abi::Events;
use witx_ast::{InterfaceFunc, TypeRef};
use witx_base::{Id, MemSink, MemSource, OutOfMemory, Text};
use witx_bytes::{
    Bools, ByteMemory, PlaceError, ReadError, Value, Values, is_value, read_value, writable,
    write_value,
};
use witx_compat::FuncPolyfill;
use witx_imports::{
    ImportFault, ImportFaults, ImportsError, WasmImport, WasmImports, check_imports, read_imports,
};
use witx_invoke::{
    GivenValues, InvokeError, Invoked, Placed, PlacedRanges, ValuesError, Word, Words, invoke,
    read_values, value_text,
};
use witx_shim::{Places, Shim, ShimError, shim};
use witx_tools::run_all;
use witx_verify::{Doubt, TracePair, TracePairs, TracesError, Verdict, read_traces, verify};

/// A memory of bytes, and the images of values in it.
pub fn bytes() {
    each!(equal: Value, Values, PlaceError, ReadError);
    copied::<Bools>();
}

/// Shims, and the checker of traces.
pub fn pairs() {
    each!(equal: Shim, ShimError, Verdict, Doubt, TracesError);
    copied::<Places>();
    each!(equal: TracePair, TracePairs);
}

/// One call of a function, over bytes.
pub fn calls() {
    each!(equal: Word, Placed);
    each!(copied: Words, PlacedRanges);
    each!(equal: GivenValues, InvokeError, ValuesError);
}

/// Lists of imports.
pub fn imports() {
    each!(equal: ImportsError, WasmImport, WasmImports, ImportFault, ImportFaults);
}
