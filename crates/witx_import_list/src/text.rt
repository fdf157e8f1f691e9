//! The text of a list of imports, a line for each.
#![tactic(auto, using(crate::proofs::Appending::joining_rules))]

ghost use Rattle.std.specs.Prelude.{◌≡◌, ◌++◌, IfOk, OnOk, string_bytes};
ghost use Rattle.witx_import_list.specs.ListTexts.{quoted_names, group, import_words_line, wasm_import_line, list_text};

use std::alloc::{AllocError, Global};
use witx_adapt::{put_more_words, put_quoted};
use witx_base::{OutOfMemory, Text};
use witx_imports::{WasmImport, WasmImports};
use witx_machine::WasmType;

/// The list of the imports, in their order: a line `(import "m" "f" (func (param ..) (result ..)))` for
/// each, without the groups that would be empty. `read_imports` gives the imports back.
#[tactic(auto, using(witx_adapt::proofs::Appending::appending_rules))]
pub fn import_list_text(alloc: Global, imports: &WasmImports) -> Result<Text, OutOfMemory>
    ensures text { IfOk result (λ t. t ≡ list_text imports.now) }
{
    let mut text = String::new(alloc);
    for import in imports.as_slice() {
        put_import(&mut text, import)?;
    }
    Ok(Text::from_string(text))
}

/// Appends the line of an import.
fn put_import(text: &mut String, import: &WasmImport) -> Result<(), AllocError>
    ensures { OnOk result (string_bytes text.new ≡ string_bytes text.old ++ wasm_import_line import.now) }
{
    put_line(
        text,
        import.module.as_str(),
        import.name.as_str(),
        import.params.as_slice(),
        import.results.as_slice(),
    )
}

/// Appends the line of an import with these names and words.
pub fn put_line(
    text: &mut String,
    module: &str,
    name: &str,
    params: &[WasmType],
    results: &[WasmType],
) -> Result<(), AllocError>
    ensures { OnOk result (string_bytes text.new
        ≡ string_bytes text.old ++ import_words_line «module».now name.now params.now results.now) }
{
    text.push_str("(import ")?;
    put_names(text, module, name)?;
    text.push_str(" (func")?;
    put_group(text, "param", params)?;
    put_group(text, "result", results)?;
    text.push_str("))\n")
}

/// Appends the names of an import.
fn put_names(text: &mut String, module: &str, name: &str) -> Result<(), AllocError>
    ensures { OnOk result (string_bytes text.new ≡ string_bytes text.old ++ quoted_names «module».now name.now) }
{
    put_quoted(text, module)?;
    text.push_str(" ")?;
    put_quoted(text, name)
}

/// Appends a group of words with this head, or nothing where there are none.
fn put_group(text: &mut String, head: &str, types: &[WasmType]) -> Result<(), AllocError>
    ensures { OnOk result (string_bytes text.new ≡ string_bytes text.old ++ group head.now types.now) }
{
    if types.is_empty() {
        return Ok(());
    }
    text.push_str(" (")?;
    text.push_str(head)?;
    put_more_words(text, types)?;
    text.push_str(")")
}
