//! The types that texts can stand for in the lines of a function.

ghost use Rattle.std.specs.Prelude.{◌≡◌};
ghost use Rattle.witx_ast.specs.{TypeNames.{type_text}, Views.{tree_of}};

use witx_ast::{Document, InterfaceFunc, TypeRef};
use witx_base::Text;

/// A type with its text.
#[derive(Drop)]
pub(crate) struct Candidate<'a> {
    pub(crate) text: Text,
    pub(crate) ty: &'a TypeRef,
    ghost shown: { text ≡ type_text (tree_of ty.now) },
}

/// What the texts of types stand for in the lines of a function.
#[derive(Drop)]
pub(crate) struct KnownTypes<'a> {
    pub(crate) document: &'a Document,
    pub(crate) func: &'a InterfaceFunc,
    pub(crate) held: Vec<Candidate<'a>>,
    pub(crate) payloads: Vec<Candidate<'a>>,
}
