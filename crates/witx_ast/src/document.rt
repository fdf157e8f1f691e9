//! The document: its definitions, and look-ups among them.

ghost use Rattle.std.specs.{Prelude.{◌≡◌, map, option_map}, List.{filter_map, IsDistinct}, Map.{keys_of}};
ghost use Rattle.witx_base.specs.Texts.{same_text};
ghost use Rattle.witx_ast.specs.{Entries.{by_name}, Views.{named_tree}};
ghost use Rattle.witx_ast.specs.Kinds.{typename_kind, module_kind, constant_kind};
ghost use Rattle.witx_ast.specs.Definitions.{definition_tree, module_tree, introduced, typename_called, module_called, DefinitionsFit};

use crate::copying::copied;
use crate::definition::{Constants, Definitions, Entries, Entry, Modules, Typenames};
use crate::held::Held;
use crate::holding::held_by;
use crate::kinds::OfKind;
use crate::module::Module;
use crate::types::NamedType;
use std::marker::Model;
use std::rc::Rc;
use witx_base::{Duplicate, Id, OutOfMemory};

/// A document: its definitions, in order and by name. Documents are equal where their entries are,
/// and are hashed by the names of the entries, in order.
#[derive(PartialEq, Eq, Hash, Debug, Drop)]
pub struct Document {
    contents: Held<Definitions, Entry>,
}

impl Model for Document {
    ghost use Rattle.std.specs.Coded.{codes};
    ghost use Rattle.witx_ast.specs.{Entries.{Held}, Definitions.{DefinitionsFit}};
    ghost use Rattle.witx_ast.specs.declared.definition.Definition.{Definition};
    ghost use Rattle.witx_ast.specs.declared.definition.Entry.{Entry};
    ghost use Rattle.witx_ast.specs.contracts.definition.Definition as d;
    ghost use Rattle.witx_ast.specs.contracts.definition.Entry as e;

    ghost Value = { Held Definition Entry };

    ghost coded = { Prim.hlevel (codes, d.the_row.coded, e.the_row.coded) };

    ghost view = { λ d. record { definitions = d.contents.definitions; entries = d.contents.entries } };

    ghost inverse = { λ d. record { contents = record { definitions = d.definitions; entries = d.entries } } };

    ghost invariant = { λ d. DefinitionsFit d.contents.definitions d.contents.entries };
}

impl Document {
    /// The document of `definitions`, whose typenames and modules `entries` holds by name.
    pub fn new(definitions: Definitions, entries: Entries) -> Document
        requires { DefinitionsFit definitions entries }
        ensures definitions { result.definitions ≡ definitions }
        ensures entries { result.entries ≡ entries }
    {
        Document {
            contents: Held::new(definitions, entries),
        }
    }

    /// All definitions, in order.
    pub fn definitions(&self) -> &Definitions
        ensures { result.now ≡ self.now.definitions }
    {
        self.contents.definitions()
    }

    /// The typename of that name; none exactly where the document has none.
    #[tactic(auto, using(crate::proofs::TreeKinds::kind_rules))]
    pub fn typename(&self, name: &Id) -> Option<&Rc<NamedType>>
        ensures { option_map (λ n. named_tree n.now.value) result
            ≡ typename_called (map definition_tree self.now.definitions) name.now }
    {
        held_by!(self.contents.entry(name), Some(Entry::Typename(named)) => named)
    }

    /// The module of that name; none exactly where the document has none.
    pub fn module(&self, name: &Id) -> Option<&Rc<Module>>
        ensures { option_map (λ m. module_tree m.now.value) result
            ≡ module_called (map definition_tree self.now.definitions) name.now }
    {
        held_by!(self.contents.entry(name), Some(Entry::Module(module)) => module)
    }

    /// The typenames, in order.
    pub fn typenames(&self) -> Typenames<'_>
        ensures { filter_map typename_kind result.rest.now ≡ filter_map typename_kind self.now.definitions }
    {
        OfKind::among(self.definitions().as_slice())
    }

    /// The modules, in order.
    pub fn modules(&self) -> Modules<'_>
        ensures { filter_map module_kind result.rest.now ≡ filter_map module_kind self.now.definitions }
    {
        OfKind::among(self.definitions().as_slice())
    }

    /// The constants, in order.
    pub fn constants(&self) -> Constants<'_>
        ensures { filter_map constant_kind result.rest.now ≡ filter_map constant_kind self.now.definitions }
    {
        OfKind::among(self.definitions().as_slice())
    }
}

/// The typenames and modules of a document have distinct names.
pub fn names_are_distinct(document: &Document)
    ensures { IsDistinct same_text (keys_of (by_name introduced (map definition_tree document.now.definitions))) }
{
    let _ = &document.contents;
}

impl Duplicate for Document {
    ghost use Rattle.witx_ast.specs.Copies.{IsCopyOf, HoldSame, HoldSameEntry};

    ghost is_copy = { IsCopyOf HoldSame HoldSameEntry };

    fn copy(&self) -> Result<Document, OutOfMemory> {
        copied!(self => Document { contents })
    }
}
