//! A range of bytes that was given for a type.

ghost use Rattle.std.specs.Prelude.{◌≡◌};
ghost use Rattle.witx_ast.specs.{Plain.{plain}, Views.{named_tree}};
ghost use Rattle.witx_bytes.specs.ByteMachine.{range_size};

use std::rc::Rc;
use witx_ast::NamedType;

/// A range that was given: where it begins, the type that it was made for, and its length.
#[derive(Drop)]
pub struct Range {
    /// The address of the first byte.
    pub at: u32,
    /// The type that it was made for.
    pub ty: Rc<NamedType>,
    /// The number of bytes, at least 1.
    pub len: u32,
    ghost sized: { len ≡ range_size (plain (named_tree ty.value)) },
}
