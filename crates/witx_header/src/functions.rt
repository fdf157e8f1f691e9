//! The prototypes of functions, as WebAssembly imports them.

ghost use Rattle.std.specs.Prelude.{◌≡◌, ◌++◌, OnOk, codes, string_bytes};
ghost use Rattle.witx_ast.specs.Functions.{func_tree};
ghost use Rattle.witx_header.specs.CNames.{imported_name, literal};
ghost use Rattle.witx_header.specs.Headers.{c_func_lines, import_lines, noreturn_line, param_text, params_from, params_text, prototype, c_result_text};

use crate::bodies::put_body;
use crate::comments::put_comment;
use crate::names::{put_imported_name, put_literal};
use crate::types::wasm_word;
use std::alloc::{AllocError, Global};
use std::fmt::Write;
use witx_ast::InterfaceFunc;
use witx_base::{Id, OutOfMemory};
use witx_instructions::{functions_are_read_as_their_trees, words_back};
use witx_lowering::words_in;
use witx_machine::WasmType;

/// Appends the prototype of a function of a module, below its documentation, and its caller's side.
#[tactic(auto, using(crate::proofs::Appending::piece_rules))]
pub fn put_func(text: &mut String, owner: &Id, func: &InterfaceFunc) -> Result<(), OutOfMemory>
    ensures { OnOk result (string_bytes text.new ≡ string_bytes text.old ++ c_func_lines owner.now (func_tree func.now)) }
{
    put_comment(text, "", func.docs.as_str())?;
    put_import(text, owner.as_str(), func)?;
    put_body(text, owner, func)?;
    Ok(())
}

/// Appends the prototype of a function of a module.
fn put_import(text: &mut String, owner: &str, func: &InterfaceFunc) -> Result<(), OutOfMemory>
    ensures { OnOk result (string_bytes text.new ≡ string_bytes text.old ++ import_lines owner.now (func_tree func.now)) }
{
    let alloc = *text.allocator();
    functions_are_read_as_their_trees();
    let params = words_in(alloc, func)?;
    let results = words_back(alloc, func)?;
    put_prototype(
        text,
        owner,
        func.name.as_str(),
        params.as_slice(),
        results.as_slice(),
        func.noreturn,
    )?;
    Ok(())
}

/// Appends the declaration of a function with these words.
fn put_prototype(
    text: &mut String,
    owner: &str,
    name: &str,
    params: &[WasmType],
    results: &[WasmType],
    noreturn: bool,
) -> Result<(), AllocError>
    ensures { OnOk result (string_bytes text.new
        ≡ string_bytes text.old ++ prototype owner.now name.now params.now results.now noreturn) }
{
    put_declared(text, owner, name, results)?;
    put_params(text, params)?;
    put_noreturn(text, noreturn)?;
    put_imported(text, owner, name)?;
    Ok(())
}

/// Appends the type and the name.
fn put_declared(
    text: &mut String,
    owner: &str,
    name: &str,
    results: &[WasmType],
) -> Result<(), AllocError>
    ensures { OnOk result (string_bytes text.new ≡ string_bytes text.old
        ++ (c_result_text results.now ++ codes " " ++ imported_name owner.now name.now)) }
{
    text.push_str(result_text(results))?;
    text.push_str(" ")?;
    put_imported_name(text, owner, name)
}

fn result_text(results: &[WasmType]) -> &'static str
    ensures { result.now ≡ c_result_text results.now }
{
    match results {
        [] => "void",
        [word, ..] => wasm_word(*word),
    }
}

fn put_params(text: &mut String, params: &[WasmType]) -> Result<(), AllocError>
    ensures { OnOk result (string_bytes text.new
        ≡ string_bytes text.old ++ (codes "(" ++ params_text params.now ++ codes ") __attribute__((\n")) }
{
    text.push_str("(")?;
    put_words(text, params)?;
    text.push_str(") __attribute__((\n")?;
    Ok(())
}

fn put_words(text: &mut String, params: &[WasmType]) -> Result<(), AllocError>
    ensures { OnOk result (string_bytes text.new ≡ string_bytes text.old ++ params_text params.now) }
{
    if params.is_empty() {
        return text.push_str("void");
    }
    put_each(text, params)
}

#[tactic(auto, using(crate::proofs::Typing::param_rules))]
fn put_each(text: &mut String, params: &[WasmType]) -> Result<(), AllocError>
    ensures { OnOk result (string_bytes text.new ≡ string_bytes text.old ++ params_from 0 params.now) }
{
    for (place, word) in params.iter().enumerate() {
        put_param(text, place, *word)?;
    }
    Ok(())
}

fn put_param(text: &mut String, place: usize, word: WasmType) -> Result<(), AllocError>
    ensures { OnOk result (string_bytes text.new ≡ string_bytes text.old ++ param_text place word) }
{
    text.push_str(if place == 0 { "" } else { ", " })?;
    let word = wasm_word(word);
    write!(text, "{word} arg{place}")
}

fn put_noreturn(text: &mut String, noreturn: bool) -> Result<(), AllocError>
    ensures { OnOk result (string_bytes text.new ≡ string_bytes text.old ++ noreturn_line noreturn) }
{
    text.push_str(if noreturn { "    __noreturn__,\n" } else { "" })
}

/// Appends the attributes of an import, and the end of the declaration.
fn put_imported(text: &mut String, owner: &str, name: &str) -> Result<(), AllocError>
    ensures { OnOk result (string_bytes text.new ≡ string_bytes text.old
        ++ (codes "    __import_module__(" ++ literal owner.now ++ codes "),\n    __import_name__(" ++ literal name.now ++ codes ")\n));\n\n")) }
{
    text.push_str("    __import_module__(")?;
    put_literal(text, owner)?;
    text.push_str("),\n    __import_name__(")?;
    put_literal(text, name)?;
    text.push_str(")\n));\n\n")
}
