//! Documents and modules made by hand, of their definitions alone.

ghost use Rattle.std.specs.Prelude.{◌≡◌, None, IfOk, IfSome, map};
ghost use Rattle.witx_ast.specs.Definitions.{DefinitionTree, definition_tree, entry_tree, introduced};
ghost use Rattle.witx_ast.specs.Items.{ItemTree, entry_item, item_name, item_tree};
ghost use Rattle.witx_conditions.specs.OwnNames.{HaveOwnNames};

use crate::entering::{Defined, entries_of};
use std::alloc::Global;
use std::rc::Rc;
use witx_ast::{
    Definition, Definitions, Document, Entry, Module, ModuleDefinition, ModuleDefinitions,
    ModuleEntry,
};
use witx_base::{Duplicate, Id, OutOfMemory, Text};

/// The document of these definitions, whose typenames and modules stand there by name; none where two of them have one
/// name.
pub fn document_of(alloc: Global, definitions: Definitions) -> Result<Option<Document>, OutOfMemory>
    ensures made { IfOk result (λ o. IfSome o (λ d. d.definitions ≡ definitions)) }
    ensures distinct { IfOk result (λ o. IfSome o (λ _. HaveOwnNames introduced (map definition_tree definitions))) }
    ensures twice { IfOk result (λ o. o ≡ None → HaveOwnNames introduced (map definition_tree definitions) → ⊥) }
{
    match entries_of(alloc, definitions.as_slice())? {
        Some(entries) => Ok(Some(Document::new(definitions, entries))),
        None => Ok(None),
    }
}

/// The module of these items, whose imports and functions stand there by name; none where two of them have one name.
pub fn module_of(
    alloc: Global,
    name: Id,
    definitions: ModuleDefinitions,
    docs: Text,
) -> Result<Option<Module>, OutOfMemory>
    ensures name { IfOk result (λ o. IfSome o (λ m. m.name ≡ name)) }
    ensures made { IfOk result (λ o. IfSome o (λ m. m.contents.definitions ≡ definitions)) }
    ensures docs { IfOk result (λ o. IfSome o (λ m. m.docs ≡ docs)) }
    ensures distinct { IfOk result (λ o. IfSome o (λ _. HaveOwnNames item_name (map item_tree definitions))) }
    ensures twice { IfOk result (λ o. o ≡ None → HaveOwnNames item_name (map item_tree definitions) → ⊥) }
{
    match entries_of(alloc, definitions.as_slice())? {
        Some(entries) => Ok(Some(Module::new(name, definitions, entries, docs))),
        None => Ok(None),
    }
}

impl Defined for Definition {
    type Entry = Entry;

    ghost Tree = { DefinitionTree };

    ghost view = { definition_tree };

    ghost name_of = { introduced };

    ghost tree = { entry_tree };

    fn entry(&self) -> Result<Option<(Id, Entry)>, OutOfMemory> {
        match self {
            Definition::Typename(named) => {
                let name = named.name.copy()?;
                Ok(Some((name, Entry::Typename(Rc::clone(named)?))))
            }
            Definition::Module(module) => {
                let name = module.name.copy()?;
                Ok(Some((name, Entry::Module(Rc::clone(module)?))))
            }
            Definition::Constant(_) => Ok(None),
        }
    }
}

impl Defined for ModuleDefinition {
    type Entry = ModuleEntry;

    ghost Tree = { ItemTree };

    ghost view = { item_tree };

    ghost name_of = { item_name };

    ghost tree = { entry_item };

    fn entry(&self) -> Result<Option<(Id, ModuleEntry)>, OutOfMemory> {
        match self {
            ModuleDefinition::Import(import) => {
                let name = import.name.copy()?;
                Ok(Some((name, ModuleEntry::Import(Rc::clone(import)?))))
            }
            ModuleDefinition::Func(func) => {
                let name = func.name.copy()?;
                Ok(Some((name, ModuleEntry::Func(Rc::clone(func)?))))
            }
        }
    }
}
