//! What a function and a module add below a node.
#![tactic(auto, using(crate::proofs::FunctionNodes::item_rules))]

ghost use Rattle.std.specs.Prelude.{◌≡◌, IfOk, OnOk, Some, codes, map, option_map};
ghost use Rattle.witx_ast.specs.{Functions.{func_tree, param_field}, Items.{item_tree}};
ghost use Rattle.witx_ast.specs.Definitions.{module_tree};
ghost use Rattle.witx_markdown.specs.{Contents.{level_down}, Forests.{lone_node, sprouted, no_nodes, node}};
ghost use Rattle.witx_markdown.specs.NamesKnown.{NamesKnown, InFunction, InItem, InItems, InParams};
ghost use Rattle.witx_docs.specs.Parts.{section as section_of, param_nodes, function_parts, function_content, inputs_of, outputs_of, import_nodes, func_nodes, module_parts, func_node, import_node};
ghost use Rattle.witx_docs.specs.LaidOut.{Judged, JudgedByFunction, too_large, params_laid_out, items_laid_out, item_laid_out};

use crate::parts::{put_group, put_section, put_typed};
use crate::place::Place;
use std::alloc::Global;
use witx_ast::{InterfaceFunc, InterfaceFuncParam, Module, ModuleDefinition};
use witx_base::{OutOfMemory, Text};
use witx_layout::LayoutError;
use witx_markdown::{Branch, MdContent, MdFunc, MdHeading, MdInputs, MdOutputs, NamedLayouts};

/// Adds the parameters and the results of a function.
pub fn put_function(
    branch: &mut Branch,
    at: &Place,
    names: NamedLayouts,
    func: &InterfaceFunc,
) -> Result<(), LayoutError>
    requires { InFunction (NamesKnown names) (func_tree func.now) }
    ensures nodes { OnOk result (branch.new ≡ sprouted branch.old at.now.node
        (function_parts at.now.heading (option_map (λ id. id.now) at.now.id) (func_tree func.now))) }
    ensures refusal { JudgedByFunction func.now result }
{
    put_section(branch, at, "Params")?;
    put_params(branch, at, names, func.params.as_slice())?;
    put_section(branch, at, "Results")?;
    put_params(branch, at, names, func.results.as_slice())
}

/// Adds parameters, or results, each with the parts of its type.
#[tactic(auto, using(crate::proofs::FunctionNodes::param_rules))]
fn put_params(
    branch: &mut Branch,
    at: &Place,
    names: NamedLayouts,
    params: &[InterfaceFuncParam],
) -> Result<(), LayoutError>
    requires { InParams (NamesKnown names) (map param_field params.now) }
    ensures nodes { OnOk result (branch.new ≡ sprouted branch.old at.now.node
        (param_nodes at.now.heading (option_map (λ id. id.now) at.now.id) (map param_field params.now))) }
    ensures refusal { Judged (too_large (params_laid_out (map param_field params.now))) result }
{
    for param in params {
        put_typed(
            branch,
            at,
            names,
            param.name.as_str(),
            param.docs.as_str(),
            &param.tref,
        )?;
    }
    Ok(())
}

/// The parameters as a function's line shows them.
#[tactic(auto, using(crate::proofs::FunctionNodes::signature_rules))]
pub fn inputs(alloc: Global, params: &[InterfaceFuncParam]) -> Result<MdInputs, OutOfMemory>
    ensures { IfOk result (λ inputs. inputs ≡ inputs_of (map param_field params.now)) }
{
    let mut inputs = MdInputs::new(alloc);
    for param in params {
        let name = Text::new(alloc, param.name.as_str())?;
        inputs.push((name, param.tref.type_name(alloc)?))?;
    }
    Ok(inputs)
}

/// The types of the results as a function's line shows them.
#[tactic(auto, using(crate::proofs::FunctionNodes::signature_rules))]
pub fn outputs(alloc: Global, results: &[InterfaceFuncParam]) -> Result<MdOutputs, OutOfMemory>
    ensures { IfOk result (λ outputs. outputs ≡ outputs_of (map param_field results.now)) }
{
    let mut outputs = MdOutputs::new(alloc);
    for result in results {
        outputs.push(result.tref.type_name(alloc)?)?;
    }
    Ok(outputs)
}

/// Adds the imports and the functions of a module.
pub fn put_module(
    branch: &mut Branch,
    at: &Place,
    names: NamedLayouts,
    shown_module: &Module,
) -> Result<(), LayoutError>
    requires { InItems (NamesKnown names) (map item_tree shown_module.now.contents.definitions) }
    ensures nodes { OnOk result (branch.new
        ≡ sprouted branch.old at.now.node (module_parts at.now.heading (module_tree shown_module.now))) }
    ensures refusal { Judged (too_large (items_laid_out (map item_tree shown_module.now.contents.definitions))) result }
{
    let inner = at.heading.new_level_down();
    let imports = put_group(branch, at.node, at.heading, "Imports")?;
    put_imports(
        branch,
        imports,
        inner,
        shown_module.definitions().as_slice(),
    )?;
    let functions = put_group(branch, at.node, at.heading, "Functions")?;
    put_funcs(
        branch,
        functions,
        inner,
        names,
        shown_module.definitions().as_slice(),
    )
}

/// Adds the imports among definitions.
fn put_imports(
    branch: &mut Branch,
    parent: usize,
    heading: MdHeading,
    definitions: &[ModuleDefinition],
) -> Result<(), OutOfMemory>
    ensures { OnOk result (branch.new ≡ sprouted branch.old parent (import_nodes heading (map item_tree definitions.now))) }
{
    for definition in definitions {
        put_import(branch, parent, heading, definition)?;
    }
    Ok(())
}

fn put_import(
    branch: &mut Branch,
    parent: usize,
    heading: MdHeading,
    definition: &ModuleDefinition,
) -> Result<(), OutOfMemory>
    ensures { OnOk result (branch.new ≡ sprouted branch.old parent (import_node heading (item_tree definition.now))) }
{
    match definition {
        ModuleDefinition::Import(_) => put_memory(branch, parent, heading),
        ModuleDefinition::Func(_) => Ok(()),
    }
}

/// Adds an import: only memories can be imported.
fn put_memory(branch: &mut Branch, parent: usize, heading: MdHeading) -> Result<(), OutOfMemory>
    ensures { OnOk result (branch.new ≡ sprouted branch.old parent (lone_node (section_of heading (codes "Memory")))) }
{
    put_group(branch, parent, heading, "Memory")?;
    Ok(())
}

/// Adds the functions among definitions, each with its parameters and results.
fn put_funcs(
    branch: &mut Branch,
    parent: usize,
    heading: MdHeading,
    names: NamedLayouts,
    definitions: &[ModuleDefinition],
) -> Result<(), LayoutError>
    requires { InItems (NamesKnown names) (map item_tree definitions.now) }
    ensures nodes { OnOk result (branch.new
        ≡ sprouted branch.old parent (func_nodes heading (map item_tree definitions.now))) }
    ensures refusal { Judged (too_large (items_laid_out (map item_tree definitions.now))) result }
{
    for definition in definitions {
        put_item(branch, parent, heading, names, definition)?;
    }
    Ok(())
}

fn put_item(
    branch: &mut Branch,
    parent: usize,
    heading: MdHeading,
    names: NamedLayouts,
    definition: &ModuleDefinition,
) -> Result<(), LayoutError>
    requires { InItem (NamesKnown names) (item_tree definition.now) }
    ensures nodes { OnOk result (branch.new ≡ sprouted branch.old parent (func_node heading (item_tree definition.now))) }
    ensures refusal { Judged (too_large (item_laid_out (item_tree definition.now))) result }
{
    match definition {
        ModuleDefinition::Func(func) => put_func(branch, parent, heading, names, func),
        ModuleDefinition::Import(_) => Ok(()),
    }
}

/// Adds a function with its parameters and results.
fn put_func(
    branch: &mut Branch,
    parent: usize,
    heading: MdHeading,
    names: NamedLayouts,
    func: &InterfaceFunc,
) -> Result<(), LayoutError>
    requires { InFunction (NamesKnown names) (func_tree func.now) }
    ensures nodes { OnOk result (branch.new ≡ sprouted branch.old parent
        (node (function_content heading (func_tree func.now)) (function_parts (level_down heading) (Some func.now.name) (func_tree func.now)) no_nodes)) }
    ensures refusal { JudgedByFunction func.now result }
{
    let content = func_content(branch.allocator(), heading, func)?;
    let node = branch.push(parent, content)?;
    let at = Place {
        node,
        heading: heading.new_level_down(),
        id: Some(func.name.as_str()),
    };
    put_function(branch, &at, names, func)
}

/// A function as its own node shows it.
fn func_content(
    alloc: Global,
    heading: MdHeading,
    func: &InterfaceFunc,
) -> Result<MdContent, OutOfMemory>
    ensures { IfOk result (λ content. content ≡ function_content heading (func_tree func.now)) }
{
    let name = func.name.as_str();
    let inputs = inputs(alloc, func.params.as_slice())?;
    let outputs = outputs(alloc, func.results.as_slice())?;
    let mut content = MdFunc::new(alloc, heading, name, name, func.docs.as_str())?;
    content.inputs = inputs;
    content.outputs = outputs;
    Ok(MdContent::Func(content))
}
