//! The listing of an adapted document.

ghost use Rattle.std.specs.Prelude.{◌≡◌, ◌++◌, IfOk, drop, map};
ghost use Rattle.witx_ast.specs.{Items.{item_tree}, Definitions.{definition_tree, module_tree}};
ghost use Rattle.witx_instructions.specs.Views.{event_of};
ghost use Rattle.witx_layout.specs.LayoutsText.{typename_line};
ghost use Rattle.witx_adapt.specs.{Entries.{lowered}, Names.{PutsText}};
ghost use Rattle.witx_adapt.specs.Listings.{FunctionsBehind, constant_line, listed_definition_lines, listed_func_line, func_lines, import_line, item_lines, listing_text, module_line, next_func_lines, side_lines, stored_mark, listed_typename_lines};

use crate::adapted::{Adapted, AdaptedFunc};
use crate::event_lines::put_events;
use crate::names::{put_quoted, put_signature};
use crate::numbers::put_decimal;
use std::alloc::{AllocError, Global};
use std::fmt::Write;
use witx_abi::{Event, WasmType};
use witx_ast::{Abi, Constant, Definition, InterfaceFunc, Module, ModuleDefinition};
use witx_base::{OutOfMemory, Text};
use witx_layout::SizeAlign;

/// The lines of events take so many bytes on the average, or fewer.
const LINE_BYTES: usize = 24;

/// How many bytes the lines of all events take, about. For so many there is room at once, so that a long listing isn't
/// copied while it grows.
fn room_for(functions: &[AdaptedFunc]) -> usize {
    let mut events = 0usize;
    for entry in functions {
        events = events
            .saturating_add(entry.caller.events().len())
            .saturating_add(entry.callee.events().len());
    }
    events.saturating_mul(LINE_BYTES)
}

/// The listing of an adapted document: the lines of each definition, in document order. Layouts and
/// functions are taken from their lists in order, one for each typename and one for each function.
#[tactic(auto, unfolding(crate::specs::Listings::listing_text))]
pub fn listing(alloc: Global, adapted: &Adapted) -> Result<Text, OutOfMemory>
    ensures { IfOk result (λ t. t ≡ listing_text adapted.now) }
{
    let functions = adapted.functions.as_slice();
    let mut text = String::with_capacity(alloc, room_for(functions))?;
    put_definitions(
        alloc,
        &mut text,
        adapted.document.definitions().as_slice(),
        functions,
        adapted.layouts.as_slice(),
    )?;
    Ok(Text::from_string(text))
}

#[tactic(auto, using(crate::proofs::ListingSteps::definition_rules))]
fn put_definitions(
    alloc: Global,
    text: &mut String,
    definitions: &[Definition],
    functions: &[AdaptedFunc],
    layouts: &[SizeAlign],
) -> Result<(), OutOfMemory>
    ensures { PutsText result text.old text.new
        (listed_definition_lines (map definition_tree definitions.now) (map lowered functions.now) layouts.now) }
{
    let mut functions = functions;
    let mut layouts = layouts;
    for definition in definitions {
        match definition {
            Definition::Typename(named) => {
                layouts = put_typename(text, named.name.as_str(), layouts)?;
                continue;
            }
            Definition::Module(module) => {
                functions = put_module(alloc, text, module, functions)?;
                continue;
            }
            Definition::Constant(constant) => {
                put_constant(text, constant)?;
                continue;
            }
        }
    }
    Ok(())
}

/// Appends the line of a typename with the first of the layouts, if there is one; answers the others.
pub fn put_typename<'a>(
    text: &mut String,
    name: &str,
    layouts: &'a [SizeAlign],
) -> Result<&'a [SizeAlign], AllocError>
    ensures lines { PutsText result text.old text.new
        (listed_typename_lines name.now layouts.now) }
    ensures rest { IfOk result (λ rest. rest.now ≡ drop 1 layouts.now) }
{
    if layouts.is_empty() {
        return Ok(layouts);
    }
    put_typename_line(text, name, layouts[0])?;
    Ok(&layouts[1..])
}

fn put_typename_line(text: &mut String, name: &str, layout: SizeAlign) -> Result<(), AllocError>
    ensures { PutsText result text.old text.new (typename_line name.now layout.size layout.align) }
{
    text.push_str("typename ")?;
    text.push_str(name)?;
    text.push_str(" size ")?;
    put_decimal(text, layout.size)?;
    text.push_str(" align ")?;
    put_decimal(text, layout.align)?;
    text.push('\n')
}

/// Appends the line of a constant.
pub fn put_constant(text: &mut String, constant: &Constant) -> Result<(), AllocError>
    ensures { PutsText result text.old text.new (constant_line constant.now) }
{
    let ty = constant.ty.as_str();
    let name = constant.name.as_str();
    let value = constant.value;
    write!(text, "const {ty} {name} {value}\n")
}

/// The lines of a module with the first of the functions; answers the others.
fn put_module<'a>(
    alloc: Global,
    text: &mut String,
    module: &Module,
    functions: &'a [AdaptedFunc],
) -> Result<&'a [AdaptedFunc], OutOfMemory>
    ensures lines { PutsText result text.old text.new
        (module_line «module».now.name ++ item_lines (module_tree «module».now).items (map lowered functions.now)) }
    ensures rest { FunctionsBehind result functions.now (module_tree «module».now).items }
{
    put_module_line(text, module.name.as_str())?;
    put_items(alloc, text, module.definitions().as_slice(), functions)
}

/// Appends the line of a module, which stands before those of its items.
pub fn put_module_line(text: &mut String, name: &str) -> Result<(), AllocError>
    ensures { PutsText result text.old text.new (module_line name.now) }
{
    text.push_str("module ")?;
    text.push_str(name)?;
    text.push('\n')
}

#[tactic(auto, using(crate::proofs::ListingSteps::item_rules))]
fn put_items<'a>(
    alloc: Global,
    text: &mut String,
    items: &[ModuleDefinition],
    functions: &'a [AdaptedFunc],
) -> Result<&'a [AdaptedFunc], OutOfMemory>
    ensures lines { PutsText result text.old text.new
        (item_lines (map item_tree items.now) (map lowered functions.now)) }
    ensures rest { FunctionsBehind result functions.now (map item_tree items.now) }
{
    let mut rest = functions;
    for item in items {
        match item {
            ModuleDefinition::Import(import) => {
                put_import(text, import.name.as_str())?;
                continue;
            }
            ModuleDefinition::Func(func) => {
                rest = put_next_func(alloc, text, func, rest)?;
                continue;
            }
        }
    }
    Ok(rest)
}

/// Appends the line of a module's import of a memory.
pub fn put_import(text: &mut String, name: &str) -> Result<(), AllocError>
    ensures { PutsText result text.old text.new (import_line name.now) }
{
    text.push_str("import ")?;
    put_quoted(text, name)?;
    text.push_str(" memory\n")
}

/// The lines of a function with the first of the functions; answers the others.
fn put_next_func<'a>(
    alloc: Global,
    text: &mut String,
    func: &InterfaceFunc,
    functions: &'a [AdaptedFunc],
) -> Result<&'a [AdaptedFunc], OutOfMemory>
    ensures lines { PutsText result text.old text.new
        (next_func_lines func.now.name func.now.abi (map lowered functions.now)) }
    ensures rest { IfOk result (λ rest. rest.now ≡ drop 1 functions.now) }
{
    if functions.is_empty() {
        return Ok(functions);
    }
    put_func(alloc, text, func, &functions[0])?;
    Ok(&functions[1..])
}

fn put_func(
    alloc: Global,
    text: &mut String,
    func: &InterfaceFunc,
    adapted: &AdaptedFunc,
) -> Result<(), OutOfMemory>
    ensures { PutsText result text.old text.new (func_lines func.now.name func.now.abi (lowered adapted.now)) }
{
    put_func_line(
        text,
        func,
        adapted.params.as_slice(),
        adapted.results.as_slice(),
    )?;
    put_side(alloc, text, "caller", adapted.caller.events().as_slice())?;
    put_side(alloc, text, "callee", adapted.callee.events().as_slice())
}

/// Appends the line of a function with this signature.
pub fn put_func_line(
    text: &mut String,
    func: &InterfaceFunc,
    params: &[WasmType],
    results: &[WasmType],
) -> Result<(), AllocError>
    ensures { PutsText result text.old text.new (listed_func_line func.now.name func.now.abi params.now results.now) }
{
    text.push_str("func ")?;
    put_quoted(text, func.name.as_str())?;
    text.push(' ')?;
    put_signature(text, params, results)?;
    text.push_str(stored_mark(func.abi))?;
    text.push('\n')
}

/// What marks a function that stores its whole result.
fn stored_mark(abi: Abi) -> &'static str
    ensures { result.now ≡ stored_mark abi }
{
    match abi {
        Abi::Preview1 => "",
        Abi::Stored => " stored",
    }
}

fn put_side(
    alloc: Global,
    text: &mut String,
    side: &str,
    events: &[Event],
) -> Result<(), OutOfMemory>
    ensures { PutsText result text.old text.new (side_lines side.now (map event_of events.now)) }
{
    text.push_str(side)?;
    text.push('\n')?;
    put_events(alloc, text, events)
}
