//! The layouts of a closed document's typenames.

ghost use Rattle.std.specs.Prelude.{IfErr, IfOk, OnOk, map};
ghost use Rattle.witx_ast.specs.{Definitions.{definition_tree}, Closed.{IsClosed}};
ghost use Rattle.witx_layout.specs.Known.{Knows, KnowsDefinition, HaveDistinctNames, Enters};
ghost use Rattle.witx_docs.specs.LaidOut.{refusal_fits, too_large, document_laid_out, typename_laid_out};
ghost use Rattle.witx_markdown.specs.NamesKnown.{InDefinitions};

use std::alloc::Global;
use witx_ast::{Definition, Document, names_are_distinct};
use witx_base::NameMap;
use witx_layout::{LayoutError, SizeAlign, enter_layout};
use witx_markdown::{NamedLayouts, type_layout};

/// The layouts of the typenames of a closed document, by their names; those whose type is written out flat need no
/// entry. One pass, in which a name is looked up and not looked through.
pub fn kept_layouts(alloc: Global, document: &Document) -> Result<NameMap<SizeAlign>, LayoutError>
    requires { IsClosed (map definition_tree document.now.definitions) }
    ensures known { IfOk result (λ table. InDefinitions (Knows table) (map definition_tree document.now.definitions)) }
    ensures refusal { IfErr result
        (refusal_fits (too_large (document_laid_out (map definition_tree document.now.definitions)))) }
{
    names_are_distinct(document);
    layouts_of(alloc, document.definitions().as_slice())
}

/// The same of definitions, whose names are distinct.
#[tactic(auto, using(crate::proofs::Knowing::knowing_rules))]
fn layouts_of(alloc: Global, definitions: &[Definition]) -> Result<NameMap<SizeAlign>, LayoutError>
    requires closed { IsClosed (map definition_tree definitions.now) }
    requires distinct { HaveDistinctNames definitions.now }
    ensures known { IfOk result (λ table. InDefinitions (Knows table) (map definition_tree definitions.now)) }
    ensures refusal { IfErr result (refusal_fits (too_large (document_laid_out (map definition_tree definitions.now)))) }
{
    let mut table = NameMap::new(alloc);
    for definition in definitions {
        keep_layout(&mut table, definition)?;
    }
    Ok(table)
}

/// Keeps the layout of a typename under its name; other definitions have none.
#[tactic(auto, using(crate::proofs::Knowing::keeping_rules))]
fn keep_layout(table: &mut NameMap<SizeAlign>, definition: &Definition) -> Result<(), LayoutError>
    requires { KnowsDefinition table.old (definition_tree definition.now) }
    ensures kept { OnOk result (Enters definition.now table.old table.new) }
    ensures refusal { IfErr result (refusal_fits (too_large (typename_laid_out (definition_tree definition.now)))) }
{
    let Definition::Typename(named) = definition else {
        return Ok(());
    };
    let layout = type_layout(NamedLayouts::Kept(table), &named.tref)?;
    enter_layout(table, named, layout)?;
    Ok(())
}
