//! A copy of a type, of what it is made of, of a document and of what it defines, or of a list of these
//! equals its original.

ghost use Rattle.std.specs.Prelude.{◌≡◌, map, IsTrue};
ghost use Rattle.witx_ast.specs.{EqualCopies.{EqualCopies}, Items.{entry_item, item_tree}};
ghost use Rattle.witx_ast.specs.Definitions.{definition_tree, entry_tree, module_tree};

use crate::definition::{Constant, Definition, Definitions, Entries, Entry};
use crate::document::Document;
use crate::errors::TypeRefs;
use crate::function::{InterfaceFunc, InterfaceFuncParam, Params};
use crate::module::{
    Module, ModuleDefinition, ModuleDefinitions, ModuleEntries, ModuleEntry, ModuleImport,
};
use crate::types::{
    Case, Cases, Datatype, Members, NamedType, RecordDatatype, RecordMember, TypeRef, Variant,
};
use witx_base::{Duplicate, Items};

/// A copied use of a type equals its original.
pub fn copied_type_is_equal(original: &TypeRef, copy: &TypeRef)
    requires { ⟦<TypeRef as Duplicate>⟧.is_copy original.now copy.now }
    ensures { IsTrue (⟦<TypeRef as PartialEq>⟧.eq copy.now original.now) }
{}

/// A copied named type equals its original.
pub fn copied_named_type_is_equal(original: &NamedType, copy: &NamedType)
    requires { ⟦<NamedType as Duplicate>⟧.is_copy original.now copy.now }
    ensures { IsTrue (⟦<NamedType as PartialEq>⟧.eq copy.now original.now) }
{}

/// A copied type equals its original.
pub fn copied_datatype_is_equal(original: &Datatype, copy: &Datatype)
    requires { ⟦<Datatype as Duplicate>⟧.is_copy original.now copy.now }
    ensures { IsTrue (⟦<Datatype as PartialEq>⟧.eq copy.now original.now) }
{}

/// A copied record equals its original.
pub fn copied_record_is_equal(original: &RecordDatatype, copy: &RecordDatatype)
    requires { ⟦<RecordDatatype as Duplicate>⟧.is_copy original.now copy.now }
    ensures { IsTrue (⟦<RecordDatatype as PartialEq>⟧.eq copy.now original.now) }
{}

/// A copied variant equals its original.
pub fn copied_variant_is_equal(original: &Variant, copy: &Variant)
    requires { ⟦<Variant as Duplicate>⟧.is_copy original.now copy.now }
    ensures { IsTrue (⟦<Variant as PartialEq>⟧.eq copy.now original.now) }
{}

/// A copied member equals its original.
pub fn copied_member_is_equal(original: &RecordMember, copy: &RecordMember)
    requires { ⟦<RecordMember as Duplicate>⟧.is_copy original.now copy.now }
    ensures { IsTrue (⟦<RecordMember as PartialEq>⟧.eq copy.now original.now) }
{}

/// A copied case equals its original.
pub fn copied_case_is_equal(original: &Case, copy: &Case)
    requires { ⟦<Case as Duplicate>⟧.is_copy original.now copy.now }
    ensures { IsTrue (⟦<Case as PartialEq>⟧.eq copy.now original.now) }
{}

/// A copied parameter or result equals its original.
pub fn copied_param_is_equal(original: &InterfaceFuncParam, copy: &InterfaceFuncParam)
    requires { ⟦<InterfaceFuncParam as Duplicate>⟧.is_copy original.now copy.now }
    ensures { IsTrue (⟦<InterfaceFuncParam as PartialEq>⟧.eq copy.now original.now) }
{}

/// A copied function equals its original.
pub fn copied_function_is_equal(original: &InterfaceFunc, copy: &InterfaceFunc)
    requires { ⟦<InterfaceFunc as Duplicate>⟧.is_copy original.now copy.now }
    ensures { IsTrue (⟦<InterfaceFunc as PartialEq>⟧.eq copy.now original.now) }
{}

/// A copied import equals its original.
pub fn copied_import_is_equal(original: &ModuleImport, copy: &ModuleImport)
    requires { ⟦<ModuleImport as Duplicate>⟧.is_copy original.now copy.now }
    ensures { IsTrue (⟦<ModuleImport as PartialEq>⟧.eq copy.now original.now) }
{}

/// A copied constant equals its original.
pub fn copied_constant_is_equal(original: &Constant, copy: &Constant)
    requires { ⟦<Constant as Duplicate>⟧.is_copy original.now copy.now }
    ensures { IsTrue (⟦<Constant as PartialEq>⟧.eq copy.now original.now) }
{}

/// A copied list equals its original, where each copy of an item equals that item.
pub fn copied_lists_are_equal<T: Duplicate + PartialEq + Drop>()
    ensures { EqualCopies T.is_copy T.eq → EqualCopies ⟦<Items<T> as Duplicate>⟧.is_copy ⟦<Items<T> as PartialEq>⟧.eq }
{}

/// A copied list of members, of cases, of parameters, of types, or of items of a module equals its
/// original, and so do copied entries of a module.
pub fn copied_parts_are_equal()
    ensures members { EqualCopies ⟦<Members as Duplicate>⟧.is_copy ⟦<Members as PartialEq>⟧.eq }
    ensures cases { EqualCopies ⟦<Cases as Duplicate>⟧.is_copy ⟦<Cases as PartialEq>⟧.eq }
    ensures params { EqualCopies ⟦<Params as Duplicate>⟧.is_copy ⟦<Params as PartialEq>⟧.eq }
    ensures types { EqualCopies ⟦<TypeRefs as Duplicate>⟧.is_copy ⟦<TypeRefs as PartialEq>⟧.eq }
    ensures items { EqualCopies ⟦<ModuleDefinitions as Duplicate>⟧.is_copy ⟦<ModuleDefinitions as PartialEq>⟧.eq }
    ensures entries { EqualCopies ⟦<ModuleEntries as Duplicate>⟧.is_copy ⟦<ModuleEntries as PartialEq>⟧.eq }
{}

/// A copied import or function of a module equals its original, and reads as the same item.
pub fn copied_item_is_equal(original: &ModuleDefinition, copy: &ModuleDefinition)
    requires { ⟦<ModuleDefinition as Duplicate>⟧.is_copy original.now copy.now }
    ensures equal { IsTrue (⟦<ModuleDefinition as PartialEq>⟧.eq copy.now original.now) }
    ensures item { item_tree copy.now ≡ item_tree original.now }
{}

/// A cloned entry of a module equals its original, and reads as the same item.
pub fn cloned_module_entry_is_equal(entry: &ModuleEntry, copy: &ModuleEntry)
    requires { ⟦<ModuleEntry as Clone>⟧.is_clone entry.now copy.now }
    ensures equal { IsTrue (⟦<ModuleEntry as PartialEq>⟧.eq copy.now entry.now) }
    ensures item { entry_item copy.now ≡ entry_item entry.now }
{}

/// A copied document equals its original, and reads as the same definitions.
pub fn copied_documents_are_equal(document: &Document, copy: &Document)
    requires { ⟦<Document as Duplicate>⟧.is_copy document.now copy.now }
    ensures equal { IsTrue (⟦<Document as PartialEq>⟧.eq copy.now document.now) }
    ensures trees { map definition_tree copy.now.definitions ≡ map definition_tree document.now.definitions }
{}

/// A copied module equals its original, and reads as the same items.
pub fn copied_modules_are_equal(original: &Module, copy: &Module)
    requires { ⟦<Module as Duplicate>⟧.is_copy original.now copy.now }
    ensures equal { IsTrue (⟦<Module as PartialEq>⟧.eq copy.now original.now) }
    ensures tree { module_tree copy.now ≡ module_tree original.now }
{}

/// Copied definitions equal the original ones, and read as the same trees.
pub fn copied_definitions_are_equal(definitions: &Definitions, copy: &Definitions)
    requires { ⟦<Definitions as Duplicate>⟧.is_copy definitions.now copy.now }
    ensures equal { IsTrue (⟦<Definitions as PartialEq>⟧.eq copy.now definitions.now) }
    ensures trees { map definition_tree copy.now ≡ map definition_tree definitions.now }
{}

/// A copied definition equals its original, and reads as the same tree.
pub fn copied_definition_is_equal(definition: &Definition, copy: &Definition)
    requires { ⟦<Definition as Duplicate>⟧.is_copy definition.now copy.now }
    ensures equal { IsTrue (⟦<Definition as PartialEq>⟧.eq copy.now definition.now) }
    ensures tree { definition_tree copy.now ≡ definition_tree definition.now }
{}

/// Copied entries equal the original ones.
pub fn copied_entries_are_equal(entries: &Entries, copy: &Entries)
    requires { ⟦<Entries as Duplicate>⟧.is_copy entries.now copy.now }
    ensures { IsTrue (⟦<Entries as PartialEq>⟧.eq copy.now entries.now) }
{}

/// A cloned entry equals its original, and reads as the same tree.
pub fn cloned_entry_is_equal(entry: &Entry, copy: &Entry)
    requires { ⟦<Entry as Clone>⟧.is_clone entry.now copy.now }
    ensures equal { IsTrue (⟦<Entry as PartialEq>⟧.eq copy.now entry.now) }
    ensures tree { entry_tree copy.now ≡ entry_tree entry.now }
{}
