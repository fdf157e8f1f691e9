//! Functions, with their parameters and results.

use crate::types::TypeRef;
use witx_base::{Id, Items, Text};

/// How a function is called.
#[derive(Clone, Copy, PartialEq, Eq, Hash, Debug, Drop)]
pub enum Abi {
    /// A result comes back as a word, and what an `ok` carries through return pointers.
    Preview1,
    /// The whole result comes back through one return pointer.
    Stored,
}

/// A parameter or a result of a function.
#[derive(PartialEq, Eq, Hash, Debug, Drop)]
pub struct InterfaceFuncParam {
    pub name: Id,
    pub tref: TypeRef,
    pub docs: Text,
}

/// Parameters, or results, in order.
pub type Params = Items<InterfaceFuncParam>;

/// A function that a module offers.
#[derive(PartialEq, Eq, Hash, Debug, Drop)]
pub struct InterfaceFunc {
    pub abi: Abi,
    pub name: Id,
    pub params: Params,
    pub results: Params,
    /// Whether the function never returns.
    pub noreturn: bool,
    pub docs: Text,
}
