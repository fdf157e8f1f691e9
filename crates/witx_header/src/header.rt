//! The header of a document.

ghost use Rattle.std.specs.Prelude.{◌≡◌, ◌≤◌, ◌<◌, ◌^◌, ◌++◌, All, Any, IfOk, OnOk, map, string_bytes};
ghost use Rattle.std.specs.List.{flat_map};
ghost use Rattle.witx_ast.specs.{Items.{item_tree}, Definitions.{definition_tree, module_tree}};
ghost use Rattle.witx_ast.specs.Views.{tree_of};
ghost use Rattle.witx_header.specs.Headers.{constant_lines, c_definition_lines, definition_numbers, header as header_of, header_numbers, c_item_lines, c_module_lines};
ghost use Rattle.witx_header.specs.Typedefs.{declared_lines, header_typename_lines, typename_numbers};

use crate::comments::put_comment;
use crate::functions::put_func;
use crate::layouts::put_layout;
use crate::typedefs::put_typedef;
use crate::values::{put_define, put_values};
use std::alloc::{AllocError, Global};
use std::fmt::Write;
use witx_ast::{Constant, Definition, Document, Module, ModuleDefinition, NamedType};
use witx_base::{Id, OutOfMemory, Text};
use witx_layout::LayoutError;

/// The header of a document, in C for 32-bit WebAssembly: for each definition, in order, a typename's typedef with its
/// flags' or cases' values and assertions on its size, its alignment and its parts' offsets; a constant as a macro; and
/// the prototypes of a module's functions as imports, by the words of their signatures.
///
/// Too large exactly where a number that it asserts exceeds `usize::MAX`. Names are looked through where a number is
/// computed. A function with more than one word back, which can't be lowered, is declared by its first.
pub fn header_text(alloc: Global, document: &Document) -> Result<Text, LayoutError>
    ensures text { IfOk result (λ text. text ≡ header_of (map definition_tree document.now.definitions)) }
    ensures fits { OnOk result (All (λ n. n < 2 ^ 64) (header_numbers (map definition_tree document.now.definitions))) }
    ensures too_large { result ≡ Err LayoutError.TooLarge
        → Any (λ n. 2 ^ 64 ≤ n) (header_numbers (map definition_tree document.now.definitions)) }
{
    let mut text = String::new(alloc);
    put(
        &mut text,
        "#pragma once\n\n#include <stddef.h>\n#include <stdint.h>\n\n#ifdef __cplusplus\nextern \"C\" {\n#endif\n\n",
    )?;
    put_definitions(&mut text, document.definitions().as_slice())?;
    put(&mut text, "#ifdef __cplusplus\n}\n#endif\n")?;
    Ok(Text::from_string(text))
}

fn put(text: &mut String, piece: &str) -> Result<(), OutOfMemory>
    ensures { OnOk result (string_bytes text.new ≡ string_bytes text.old ++ piece.now) }
{
    text.push_str(piece)?;
    Ok(())
}

#[tactic(auto, using(crate::proofs::Numbered::definition_rules))]
fn put_definitions(text: &mut String, definitions: &[Definition]) -> Result<(), LayoutError>
    ensures lines { OnOk result (string_bytes text.new
        ≡ string_bytes text.old ++ flat_map c_definition_lines (map definition_tree definitions.now)) }
    ensures fits { OnOk result (All (λ n. n < 2 ^ 64) (header_numbers (map definition_tree definitions.now))) }
    ensures too_large { result ≡ Err LayoutError.TooLarge
        → Any (λ n. 2 ^ 64 ≤ n) (header_numbers (map definition_tree definitions.now)) }
{
    for definition in definitions {
        put_definition(text, definition)?;
    }
    Ok(())
}

#[tactic(auto, using(crate::proofs::Numbered::number_rules))]
fn put_definition(text: &mut String, definition: &Definition) -> Result<(), LayoutError>
    ensures lines { OnOk result (string_bytes text.new
        ≡ string_bytes text.old ++ c_definition_lines (definition_tree definition.now)) }
    ensures fits { OnOk result (All (λ n. n < 2 ^ 64) (definition_numbers (definition_tree definition.now))) }
    ensures too_large { result ≡ Err LayoutError.TooLarge
        → Any (λ n. 2 ^ 64 ≤ n) (definition_numbers (definition_tree definition.now)) }
{
    match definition {
        Definition::Typename(named) => put_typename(text, named),
        Definition::Module(module) => Ok(put_module(text, module)?),
        Definition::Constant(constant) => Ok(put_constant(text, constant)?),
    }
}

fn put_typename(text: &mut String, named: &NamedType) -> Result<(), LayoutError>
    ensures lines { OnOk result (string_bytes text.new ≡ string_bytes text.old
        ++ header_typename_lines named.now.name (tree_of named.now.tref) named.now.docs) }
    ensures fits { OnOk result (All (λ n. n < 2 ^ 64) (typename_numbers (tree_of named.now.tref))) }
    ensures too_large { result ≡ Err LayoutError.TooLarge
        → Any (λ n. 2 ^ 64 ≤ n) (typename_numbers (tree_of named.now.tref)) }
{
    put_declared(text, named)?;
    put_layout(text, named.name.as_str(), &named.tref)?;
    Ok(put(text, "\n")?)
}

/// Appends a typename's typedef and values, below its documentation.
fn put_declared(text: &mut String, named: &NamedType) -> Result<(), OutOfMemory>
    ensures { OnOk result (string_bytes text.new
        ≡ string_bytes text.old ++ declared_lines named.now.name (tree_of named.now.tref) named.now.docs) }
{
    put_comment(text, "", named.docs.as_str())?;
    put_typedef(text, named.name.as_str(), &named.tref)?;
    put_values(text, named.name.as_str(), &named.tref)?;
    Ok(())
}

fn put_constant(text: &mut String, constant: &Constant) -> Result<(), OutOfMemory>
    ensures { OnOk result (string_bytes text.new ≡ string_bytes text.old ++ constant_lines constant.now) }
{
    put_comment(text, "", constant.docs.as_str())?;
    put_define(text, constant.ty.as_str(), constant.name.as_str())?;
    let value = constant.value;
    write!(text, "UINT64_C({value})\n\n")?;
    Ok(())
}

fn put_module(text: &mut String, module: &Module) -> Result<(), OutOfMemory>
    ensures { OnOk result (string_bytes text.new ≡ string_bytes text.old ++ c_module_lines (module_tree «module».now)) }
{
    put_comment(text, "", module.docs.as_str())?;
    text.push('\n')?;
    put_items(text, &module.name, module.definitions().as_slice())
}

#[tactic(auto, using(crate::proofs::Appending::appending_rules))]
fn put_items(text: &mut String, owner: &Id, items: &[ModuleDefinition]) -> Result<(), OutOfMemory>
    ensures { OnOk result (string_bytes text.new
        ≡ string_bytes text.old ++ flat_map (c_item_lines owner.now) (map item_tree items.now)) }
{
    for item in items {
        put_item(text, owner, item)?;
    }
    Ok(())
}

fn put_item(text: &mut String, owner: &Id, item: &ModuleDefinition) -> Result<(), OutOfMemory>
    ensures { OnOk result (string_bytes text.new ≡ string_bytes text.old ++ c_item_lines owner.now (item_tree item.now)) }
{
    match item {
        ModuleDefinition::Import(_) => Ok(()),
        ModuleDefinition::Func(func) => put_func(text, owner, func),
    }
}
