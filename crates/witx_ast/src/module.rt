//! Modules: imports and functions, in order and by name.

ghost use Rattle.std.specs.{Prelude.{◌≡◌, map, option_map}, List.{filter_map}};
ghost use Rattle.witx_ast.specs.ItemKinds.{import_kind, func_kind};
ghost use Rattle.witx_ast.specs.Items.{item_tree, import_called, func_called, ItemsFit};
ghost use Rattle.witx_ast.specs.Functions.{func_tree};

use crate::copying::copied;
use crate::function::InterfaceFunc;
use crate::held::Held;
use crate::holding::held_by;
use crate::kinds::{Kind, OfKind};
use std::marker::Model;
use std::rc::Rc;
use witx_base::{Duplicate, Id, Items, NameMap, OutOfMemory, Text};

/// What can be imported.
#[derive(Clone, Copy, PartialEq, Eq, Hash, Debug, Drop)]
pub enum ModuleImportVariant {
    Memory,
}

/// What a module wants of its host.
#[derive(PartialEq, Eq, Hash, Debug, Drop)]
pub struct ModuleImport {
    pub name: Id,
    pub variant: ModuleImportVariant,
    pub docs: Text,
}

/// An import or a function of a module.
#[derive(PartialEq, Eq, Hash, Debug, Drop)]
pub enum ModuleDefinition {
    Import(Rc<ModuleImport>),
    Func(Rc<InterfaceFunc>),
}

/// What stands under a name in a module.
#[derive(PartialEq, Eq, Debug, Drop)]
pub enum ModuleEntry {
    Import(Rc<ModuleImport>),
    Func(Rc<InterfaceFunc>),
}

/// Imports and functions, in order.
pub type ModuleDefinitions = Items<ModuleDefinition>;

/// Imports and functions by name.
pub type ModuleEntries = NameMap<ModuleEntry>;

impl Kind<ModuleDefinition> for Rc<ModuleImport> {
    ghost of_kind = { import_kind };

    fn of(definition: &ModuleDefinition) -> Option<&Rc<ModuleImport>> {
        held_by!(definition, ModuleDefinition::Import(import) => import)
    }
}

impl Kind<ModuleDefinition> for Rc<InterfaceFunc> {
    ghost of_kind = { func_kind };

    fn of(definition: &ModuleDefinition) -> Option<&Rc<InterfaceFunc>> {
        held_by!(definition, ModuleDefinition::Func(func) => func)
    }
}

/// The imports of a module, in order.
pub type Imports<'a> = OfKind<'a, ModuleDefinition, Rc<ModuleImport>>;

/// The functions of a module, in order.
pub type Funcs<'a> = OfKind<'a, ModuleDefinition, Rc<InterfaceFunc>>;

/// What a module defines, in order and by name.
#[derive(PartialEq, Eq, Hash, Debug, Drop)]
pub(crate) struct Contents {
    held: Held<ModuleDefinitions, ModuleEntry>,
}

impl Model for Contents {
    ghost use Rattle.witx_ast.specs.{Entries.{Held}, Items.{ItemsFit}};
    ghost use Rattle.witx_ast.specs.declared.module.ModuleDefinition.{ModuleDefinition};
    ghost use Rattle.witx_ast.specs.declared.module.ModuleEntry.{ModuleEntry};
    ghost use Rattle.witx_ast.specs.contracts.module.ModuleDefinition as d;
    ghost use Rattle.witx_ast.specs.contracts.module.ModuleEntry as e;
    ghost use Rattle.std.specs.Coded.{codes};

    ghost Value = { Held ModuleDefinition ModuleEntry };

    ghost coded = { Prim.hlevel (codes, d.the_row.coded, e.the_row.coded) };

    ghost view = { λ c. record { definitions = c.held.definitions; entries = c.held.entries } };

    ghost inverse = { λ c. record { held = record { definitions = c.definitions; entries = c.entries } } };

    ghost invariant = { λ c. ItemsFit c.held.definitions c.held.entries };
}

impl Duplicate for Contents {
    ghost use Rattle.witx_ast.specs.Copies.{IsCopyOf, HoldSameItem, HoldSameItemEntry};

    ghost is_copy = { IsCopyOf HoldSameItem HoldSameItemEntry };

    fn copy(&self) -> Result<Contents, OutOfMemory> {
        copied!(self => Contents { held })
    }
}

impl Contents {
    fn new(definitions: ModuleDefinitions, entries: ModuleEntries) -> Contents
        requires { ItemsFit definitions entries }
        ensures definitions { result.definitions ≡ definitions }
        ensures entries { result.entries ≡ entries }
    {
        Contents {
            held: Held::new(definitions, entries),
        }
    }

    fn definitions(&self) -> &ModuleDefinitions
        ensures { result.now ≡ self.now.definitions }
    {
        self.held.definitions()
    }

    fn import(&self, name: &Id) -> Option<&Rc<ModuleImport>>
        ensures { option_map (λ i. i.now.value) result ≡ import_called (map item_tree self.now.definitions) name.now }
    {
        held_by!(self.held.entry(name), Some(ModuleEntry::Import(import)) => import)
    }

    fn func(&self, name: &Id) -> Option<&Rc<InterfaceFunc>>
        ensures { option_map (λ f. func_tree f.now.value) result ≡ func_called (map item_tree self.now.definitions) name.now }
    {
        held_by!(self.held.entry(name), Some(ModuleEntry::Func(func)) => func)
    }
}

/// A module: imports and functions. Modules are equal where their names, their entries and their
/// documentation are.
#[derive(PartialEq, Eq, Hash, Debug, Drop)]
pub struct Module {
    pub name: Id,
    contents: Contents,
    pub docs: Text,
}

impl Module {
    /// The module of `definitions`, which `entries` holds by name.
    pub fn new(
        name: Id,
        definitions: ModuleDefinitions,
        entries: ModuleEntries,
        docs: Text,
    ) -> Module
        requires { ItemsFit definitions entries }
        ensures name { result.name ≡ name }
        ensures docs { result.docs ≡ docs }
        ensures definitions { result.contents.definitions ≡ definitions }
        ensures entries { result.contents.entries ≡ entries }
    {
        Module {
            name,
            contents: Contents::new(definitions, entries),
            docs,
        }
    }

    /// Imports and functions, in order.
    pub fn definitions(&self) -> &ModuleDefinitions
        ensures { result.now ≡ self.now.contents.definitions }
    {
        self.contents.definitions()
    }

    /// The import of that name; none exactly where the module has none.
    pub fn import(&self, name: &Id) -> Option<&Rc<ModuleImport>>
        ensures { option_map (λ i. i.now.value) result ≡ import_called (map item_tree self.now.contents.definitions) name.now }
    {
        self.contents.import(name)
    }

    /// The function of that name; none exactly where the module has none.
    pub fn func(&self, name: &Id) -> Option<&Rc<InterfaceFunc>>
        ensures { option_map (λ f. func_tree f.now.value) result
            ≡ func_called (map item_tree self.now.contents.definitions) name.now }
    {
        self.contents.func(name)
    }

    /// The imports, in order.
    pub fn imports(&self) -> Imports<'_>
        ensures { filter_map import_kind result.rest.now ≡ filter_map import_kind self.now.contents.definitions }
    {
        OfKind::among(self.definitions().as_slice())
    }

    /// The functions, in order.
    pub fn funcs(&self) -> Funcs<'_>
        ensures { filter_map func_kind result.rest.now ≡ filter_map func_kind self.now.contents.definitions }
    {
        OfKind::among(self.definitions().as_slice())
    }
}

impl Duplicate for Module {
    ghost use Rattle.witx_ast.specs.Copies.{IsCopyOf, HoldSameItem, HoldSameItemEntry};

    ghost is_copy = { λ m c. (c.name ≡ m.name) × (c.docs ≡ m.docs) × IsCopyOf HoldSameItem HoldSameItemEntry m.contents c.contents };

    fn copy(&self) -> Result<Module, OutOfMemory> {
        copied!(self => Module { name, contents, docs })
    }
}
