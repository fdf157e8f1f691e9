//! Laws of the definitions, each the contract of a function; three of these compare their arguments, the others do nothing.

ghost use Rattle.std.specs.{Prelude.{◌≡◌, ◌↔◌, ◌&&◌, ◌++◌, [], List, None, IsTrue}, Bool.{Decides}};
ghost use Rattle.std.specs.Hash as fed;
ghost use Rattle.witx_ast.specs.{Tree.{Tree}, Plain.{Plain, plain}, Views.{tree_of}, Alike.{same_plain}};
ghost use Rattle.witx_ast.specs.{Values.{Value, IsValue}, ValueTests.{is_value}, Functions.{FunctionTree}};
ghost use Rattle.witx_ast.specs.Tags.{FunctionFits, function_fits};
ghost use Rattle.witx_ast.specs.Definitions.{DefinitionTree};
ghost use Rattle.witx_ast.specs.Misfits.{NodesFit, AllNodesFit, misfits, first_misfit};

use crate::definition::Entries;
use crate::document::Document;
use crate::module::{Module, ModuleEntries};
use crate::types::TypeRef;
use std::hash::Hash;
use witx_base::{Id, Text};

/// Types are equal exactly where their trees are: names and documentation count.
pub fn equal_by_tree(a: &TypeRef, b: &TypeRef) -> bool
    ensures { IsTrue result ↔ (tree_of a.now ≡ tree_of b.now) }
{
    a == b
}

/// Alike types have the same values.
pub fn alike_types_share_values(a: &TypeRef, b: &TypeRef)
    requires { plain (tree_of a.now) ≡ plain (tree_of b.now) }
    ensures { (v : Value) → IsValue (plain (tree_of a.now)) v ↔ IsValue (plain (tree_of b.now)) v }
{}

/// Equal documents feed a hasher the same.
pub fn equal_documents_hash_alike(a: &Document, b: &Document)
    requires { IsTrue (⟦<Document as PartialEq>⟧.eq a.now b.now) }
    ensures { ⟦<Document as Hash>⟧.hash_input a.now ≡ ⟦<Document as Hash>⟧.hash_input b.now }
{}

/// Equal modules feed a hasher the same.
pub fn equal_modules_hash_alike(a: &Module, b: &Module)
    requires { IsTrue (⟦<Module as PartialEq>⟧.eq a.now b.now) }
    ensures { ⟦<Module as Hash>⟧.hash_input a.now ≡ ⟦<Module as Hash>⟧.hash_input b.now }
{}

/// Documents are equal where their entries are, whatever the order of their definitions.
pub fn documents_are_equal_by_entries(a: &Document, b: &Document) -> bool
    ensures { result ≡ ⟦<Entries as PartialEq>⟧.eq a.now.entries b.now.entries }
{
    a == b
}

/// Modules are equal where their names, their entries and their documentation are.
pub fn modules_are_equal_by_entries(a: &Module, b: &Module) -> bool
    ensures { result ≡ ⟦<Id as PartialEq>⟧.eq a.now.name b.now.name
        && (⟦<ModuleEntries as PartialEq>⟧.eq a.now.contents.entries b.now.contents.entries
        && ⟦<Text as PartialEq>⟧.eq a.now.docs b.now.docs) }
{
    a == b
}

/// A document is hashed by the names of its entries, in order.
pub fn documents_are_hashed_by_names(document: &Document)
    ensures { ⟦<Document as Hash>⟧.hash_input document.now ≡ fed.slice (λ entry. fed.str entry.0) document.now.entries }
{}

/// A module is hashed by its name, the names of its entries, in order, and its documentation.
pub fn modules_are_hashed_by_names(hashed: &Module)
    ensures { ⟦<Module as Hash>⟧.hash_input hashed.now
        ≡ fed.str hashed.now.name ++ fed.slice (λ entry. fed.str entry.0) hashed.now.contents.entries ++ fed.str hashed.now.docs }
{}

/// The computed test of values holds exactly of the values of a type.
pub fn value_test_is_exact()
    ensures { (t : Plain) (v : Value) → Decides (is_value t v) (IsValue t v) }
{}

/// The computed test of a function's tags holds exactly where each type that it reaches fits its tag.
pub fn tag_test_is_exact()
    ensures { (f : FunctionTree) → Decides (function_fits f) (FunctionFits f) }
{}

/// The computed test of alike types holds exactly of equal plain trees.
pub fn alike_test_is_exact()
    ensures { (t : Plain) (u : Plain) → Decides (same_plain t u) (t ≡ u) }
{}

/// The list of misfits is empty exactly where each type node fits its tag: of a type, and of a document.
pub fn misfits_are_exact()
    ensures types { (t : Tree) → (misfits t ≡ []) ↔ NodesFit t }
    ensures documents { (ds : List DefinitionTree) → (first_misfit ds ≡ None) ↔ AllNodesFit ds }
{}
