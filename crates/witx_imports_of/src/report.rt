//! What the program says on standard error.

use std::alloc::Global;
use witx_adapt::put_quoted;
use witx_base::{OutOfMemory, Text};
use witx_wasm::{FaultKind, Import, ImportDescription, WasmModule};

/// What is wrong with bytes that are no module.
pub fn reason(kind: FaultKind) -> &'static str {
    match kind {
        FaultKind::Magic => "no WebAssembly module begins so",
        FaultKind::Version => "not version 1 of the binary format (components are not read)",
        FaultKind::End => "the module, a section or a name ends too soon",
        FaultKind::Excess => "a section is longer than its contents",
        FaultKind::Number => "a number of more than 32 bits",
        FaultKind::SectionId => "no section has this number",
        FaultKind::SectionOrder => "a section out of order",
        FaultKind::NotUtf8 => "a name is not UTF-8",
        FaultKind::FunctionForm => "no type of a function",
        FaultKind::CompositeType => "types of garbage collection are not read",
        FaultKind::ValueType => "no type of a value",
        FaultKind::Vector => "vectors (v128) are not read",
        FaultKind::ReferenceType => "no type of a reference",
        FaultKind::HeapType => "references other than funcref and externref are not read",
        FaultKind::ImportKind => "no kind of import",
        FaultKind::Tag => "tags are not read",
        FaultKind::Limits => "no limits begin so",
        FaultKind::Shared => "shared memories and tables are not read",
        FaultKind::Wide => "memories and tables of 64 bits are not read",
        FaultKind::PageSize => "memories with pages of another size are not read",
        FaultKind::Mutability => "a global is neither constant nor variable",
        FaultKind::UnknownType => "no type has this number",
    }
}

/// A line for each import that is no function.
pub fn left_out(alloc: Global, module: &WasmModule) -> Result<Text, OutOfMemory> {
    let mut text = String::new(alloc);
    for import in module.imports.as_slice() {
        match import.description {
            ImportDescription::Function(_number) => {}
            ImportDescription::Table(_table) => put_left_out(&mut text, import, " table\n")?,
            ImportDescription::Memory(_memory) => put_left_out(&mut text, import, " memory\n")?,
            ImportDescription::Global(_global) => put_left_out(&mut text, import, " global\n")?,
        }
    }
    Ok(Text::from_string(text))
}

fn put_left_out(text: &mut String, import: &Import, kind: &str) -> Result<(), OutOfMemory> {
    text.push_str("imports-of: left out: ")?;
    put_quoted(text, import.module.as_str())?;
    text.push_str(" ")?;
    put_quoted(text, import.name.as_str())?;
    text.push_str(kind)?;
    Ok(())
}
