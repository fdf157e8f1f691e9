//! What a document adds below a node.
#![tactic(auto, using(crate::proofs::DocumentParts::definition_rules))]

ghost use Rattle.std.specs.Prelude.{◌≡◌, ◌∷◌, ◌++◌, [], IfOk, OnOk, Some, codes, map, string_bytes};
ghost use Rattle.witx_ast.specs.{Plain.{plain}, Views.{tree_of}};
ghost use Rattle.witx_ast.specs.Definitions.{definition_tree, module_tree, module_of};
ghost use Rattle.witx_layout.specs.Numbers.{align_of, size_of};
ghost use Rattle.witx_markdown.specs.{Forests.{each, no_nodes, node, sprouted}, Constants.{constants_in}};
ghost use Rattle.witx_markdown.specs.NamesKnown.{NamesKnown, AllNamesKnown, InDefinition, InItems};
ghost use Rattle.witx_docs.specs.Parts.{section as section_of, document_parts, typename_nodes, typename_with, typename_docs, layout_lines, number_line, typename_shown, module_node, module_nodes, module_content, constants_part, constant_node};
ghost use Rattle.witx_docs.specs.ByType.{StandByType, standing};
ghost use Rattle.witx_docs.specs.LaidOut.{Judged, JudgedByDefinitions, too_large, typenames_laid_out, modules_laid_out, module_laid_out, laid_out, items_laid_out};

use crate::constants::{ConstantsByType, constants_by_type};
use crate::functions::put_module;
use crate::parts::{bullet, put_group, put_section, put_type, shown};
use crate::place::{Place, dotted_name};
use std::alloc::Global;
use witx_ast::{Constant, Definition, Module, NamedType};
use witx_base::{Id, OutOfMemory, Text};
use witx_layout::{LayoutError, SizeAlign, TooLarge};
use witx_markdown::{
    Branch, MdContent, MdHeading, MdNamedType, MdSection, NamedLayouts, put, type_layout,
};

/// Adds the types and the modules of a document.
pub fn put_document(
    branch: &mut Branch,
    at: &Place,
    names: NamedLayouts,
    definitions: &[Definition],
) -> Result<(), LayoutError>
    requires { AllNamesKnown names definitions.now }
    ensures nodes { OnOk result (branch.new ≡ sprouted branch.old at.now.node
        (document_parts at.now.heading (map definition_tree definitions.now))) }
    ensures refusal { JudgedByDefinitions definitions.now result }
{
    let inner = at.heading.new_level_down();
    let constants = constants_by_type(branch.allocator(), definitions)?;
    let types = put_group(branch, at.node, MdHeading::new_header(1), "Types")?;
    put_typenames(branch, types, inner, names, &constants, definitions)?;
    let modules = put_group(branch, at.node, MdHeading::new_header(1), "Modules")?;
    put_modules(branch, modules, inner, names, definitions)
}

/// Adds the typenames among definitions, all of whose constants stand under the names of their types.
fn put_typenames(
    branch: &mut Branch,
    parent: usize,
    heading: MdHeading,
    names: NamedLayouts,
    constants: &ConstantsByType,
    definitions: &[Definition],
) -> Result<(), LayoutError>
    requires known { AllNamesKnown names definitions.now }
    requires constants { StandByType constants.now.entries (constants_in (map definition_tree definitions.now)) }
    ensures nodes { OnOk result (branch.new ≡ sprouted branch.old parent
        (typename_nodes heading (constants_in (map definition_tree definitions.now)) (map definition_tree definitions.now))) }
    ensures refusal { Judged (too_large (typenames_laid_out (map definition_tree definitions.now))) result }
{
    for definition in definitions {
        let Definition::Typename(named) = definition else {
            continue;
        };
        put_typename(branch, parent, heading, names, constants, named)?;
    }
    Ok(())
}

/// Adds a typename with its constants and the parts of its type.
fn put_typename(
    branch: &mut Branch,
    parent: usize,
    heading: MdHeading,
    names: NamedLayouts,
    constants: &ConstantsByType,
    named: &NamedType,
) -> Result<(), LayoutError>
    requires { NamesKnown names (tree_of named.now.tref) }
    ensures nodes { OnOk result (branch.new ≡ sprouted branch.old parent
        (typename_with heading (standing constants.now.entries named.now.name) named.now.name (tree_of named.now.tref) named.now.docs)) }
    ensures refusal { Judged (too_large (size_of (plain (tree_of named.now.tref))
        ∷ laid_out (tree_of named.now.tref))) result }
{
    let numbers = typename_layout(names, named)?;
    let content = typename_content(branch.allocator(), named, numbers)?;
    let node = branch.push(parent, content)?;
    let at = Place {
        node,
        heading: heading.new_level_down(),
        id: Some(named.name.as_str()),
    };
    put_constants(branch, &at, constants, &named.name)?;
    put_type(branch, &at, names, &named.tref)
}

/// The layout of a typename.
fn typename_layout(names: NamedLayouts, named: &NamedType) -> Result<SizeAlign, LayoutError>
    requires { NamesKnown names (tree_of named.now.tref) }
    ensures exact { IfOk result (λ v. (v.size ≡ size_of (plain (tree_of named.now.tref)))
        × (v.align ≡ align_of (plain (tree_of named.now.tref)))) }
    ensures refusal { Judged (too_large (size_of (plain (tree_of named.now.tref)) ∷ [])) result }
{
    match type_layout(names, &named.tref) {
        Ok(layout) => Ok(layout),
        Err(TooLarge) => Err(LayoutError::TooLarge),
    }
}

/// A typename as its own node shows it.
fn typename_content(
    alloc: Global,
    named: &NamedType,
    numbers: SizeAlign,
) -> Result<MdContent, OutOfMemory>
    ensures { IfOk result (λ content. content
        ≡ typename_shown named.now.name (tree_of named.now.tref) named.now.docs numbers.size numbers.align) }
{
    let name = named.name.as_str();
    let docs = typename_text(alloc, named.docs.as_str(), numbers)?;
    let ty = shown(alloc, &named.tref)?;
    let mut content = MdNamedType::new(alloc, MdHeading::new_header(2), name, name, docs.as_str())?;
    content.ty = Some(ty);
    Ok(MdContent::Named(content))
}

/// A typename's documentation, and below it the layout.
fn typename_text(alloc: Global, docs: &str, numbers: SizeAlign) -> Result<Text, OutOfMemory>
    ensures { IfOk result (λ text. text ≡ typename_docs docs.now numbers.size numbers.align) }
{
    let mut out = String::new(alloc);
    put(&mut out, docs)?;
    put_layout_lines(&mut out, numbers.size, numbers.align)?;
    Ok(Text::from_string(out))
}

fn put_layout_lines(out: &mut String, size: usize, align: usize) -> Result<(), OutOfMemory>
    ensures { OnOk result (string_bytes out.new ≡ string_bytes out.old ++ layout_lines size align) }
{
    put_number_line(out, "Size", size)?;
    put_number_line(out, "Alignment", align)
}

/// A line of its own that shows a number.
fn put_number_line(out: &mut String, word: &str, number: usize) -> Result<(), OutOfMemory>
    ensures { OnOk result (string_bytes out.new ≡ string_bytes out.old ++ number_line word.now number) }
{
    write!(out, "\n{word}: {number}\n")?;
    Ok(())
}

/// Adds the constants of the typename of this name, under a section of their own where there are some.
fn put_constants(
    branch: &mut Branch,
    at: &Place,
    constants: &ConstantsByType,
    name: &Id,
) -> Result<(), OutOfMemory>
    ensures { OnOk result (branch.new ≡ sprouted branch.old at.now.node
        (constants_part at.now.heading (standing constants.now.entries name.now))) }
{
    match constants.get(name) {
        Some(own) => put_constants_part(branch, at, own.as_slice()),
        None => Ok(()),
    }
}

/// Adds constants under a section of their own, where there are some.
fn put_constants_part(
    branch: &mut Branch,
    at: &Place,
    constants: &[&Constant],
) -> Result<(), OutOfMemory>
    ensures { OnOk result (branch.new
        ≡ sprouted branch.old at.now.node (constants_part at.now.heading (map (λ c. c.now) constants.now))) }
{
    match constants {
        [] => Ok(()),
        _ => put_constants_section(branch, at, constants),
    }
}

fn put_constants_section(
    branch: &mut Branch,
    at: &Place,
    constants: &[&Constant],
) -> Result<(), OutOfMemory>
    ensures { OnOk result (branch.new ≡ sprouted branch.old at.now.node
        (node (section_of at.now.heading (codes "Constants")) no_nodes (each constant_node (map (λ c. c.now) constants.now)))) }
{
    put_section(branch, at, "Constants")?;
    put_each_constant(branch, at.node, constants)?;
    Ok(())
}

fn put_each_constant(
    branch: &mut Branch,
    node: usize,
    constants: &[&Constant],
) -> Result<(), OutOfMemory>
    ensures { OnOk result (branch.new ≡ sprouted branch.old node (each constant_node (map (λ c. c.now) constants.now))) }
{
    for constant in constants {
        put_constant(branch, node, constant)?;
    }
    Ok(())
}

fn put_constant(branch: &mut Branch, node: usize, constant: &Constant) -> Result<(), OutOfMemory>
    ensures { OnOk result (branch.new ≡ sprouted branch.old node (constant_node constant.now)) }
{
    let name = constant.name.as_str();
    let id = dotted_name(branch.allocator(), constant.ty.as_str(), name)?;
    let content = bullet(
        branch.allocator(),
        id.as_str(),
        name,
        constant.docs.as_str(),
        None,
    )?;
    branch.push(node, content)?;
    Ok(())
}

/// Adds the modules among definitions.
fn put_modules(
    branch: &mut Branch,
    parent: usize,
    heading: MdHeading,
    names: NamedLayouts,
    definitions: &[Definition],
) -> Result<(), LayoutError>
    requires { AllNamesKnown names definitions.now }
    ensures nodes { OnOk result (branch.new
        ≡ sprouted branch.old parent (module_nodes heading (map definition_tree definitions.now))) }
    ensures refusal { Judged (too_large (modules_laid_out (map definition_tree definitions.now))) result }
{
    for definition in definitions {
        put_module_if(branch, parent, heading, names, definition)?;
    }
    Ok(())
}

fn put_module_if(
    branch: &mut Branch,
    parent: usize,
    heading: MdHeading,
    names: NamedLayouts,
    definition: &Definition,
) -> Result<(), LayoutError>
    requires { InDefinition (NamesKnown names) (definition_tree definition.now) }
    ensures nodes { OnOk result (branch.new
        ≡ sprouted branch.old parent (module_node heading (definition_tree definition.now))) }
    ensures refusal { Judged (too_large (module_laid_out (definition_tree definition.now))) result }
{
    match definition {
        Definition::Module(module) => put_named_module(branch, parent, heading, names, module),
        Definition::Typename(_) | Definition::Constant(_) => Ok(()),
    }
}

/// Adds a module with its imports and functions.
fn put_named_module(
    branch: &mut Branch,
    parent: usize,
    heading: MdHeading,
    names: NamedLayouts,
    shown_module: &Module,
) -> Result<(), LayoutError>
    requires { InItems (NamesKnown names) (module_tree shown_module.now).items }
    ensures nodes { OnOk result (branch.new
        ≡ sprouted branch.old parent (module_node heading (module_of (module_tree shown_module.now)))) }
    ensures refusal { Judged (too_large (items_laid_out (module_tree shown_module.now).items)) result }
{
    let content = module_section(branch.allocator(), shown_module.name.as_str())?;
    let node = branch.push(parent, content)?;
    let at = Place {
        node,
        heading: heading.new_level_down(),
        id: Some(shown_module.name.as_str()),
    };
    put_module(branch, &at, names, shown_module)
}

/// A module as its own node shows it.
fn module_section(alloc: Global, name: &str) -> Result<MdContent, OutOfMemory>
    ensures { IfOk result (λ content. content ≡ module_content name.now) }
{
    let id = Text::new(alloc, name)?;
    let mut section = MdSection::new(alloc, MdHeading::new_header(2), name)?;
    section.id = Some(id);
    Ok(MdContent::Section(section))
}
