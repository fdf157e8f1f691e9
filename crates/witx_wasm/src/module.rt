//! What a module declares and imports, in the terms of the core specification.

use witx_base::{Id, Items};

/// A type of references.
#[derive(Clone, Copy, PartialEq, Eq)]
pub enum ReferenceType {
    /// To functions: `funcref`.
    Func,
    /// To objects of the host: `externref`.
    Extern,
}

/// A type of values.
#[derive(Clone, Copy, PartialEq, Eq)]
pub enum ValueType {
    I32,
    I64,
    F32,
    F64,
    Reference(ReferenceType),
}

/// The types of a function's parameters and of its results.
#[derive(PartialEq, Eq, Drop)]
pub struct FunctionType {
    pub params: Items<ValueType>,
    pub results: Items<ValueType>,
}

/// How large something is at least, and at most if there is a bound: pages of 65,536 bytes of a memory,
/// elements of a table.
#[derive(Clone, Copy, PartialEq, Eq)]
pub struct Limits {
    pub least: u32,
    pub most: Option<u32>,
}

/// What a table holds, and how many of them.
#[derive(Clone, Copy, PartialEq, Eq)]
pub struct TableType {
    pub element: ReferenceType,
    pub limits: Limits,
}

/// What a global holds, and whether it may be changed.
#[derive(Clone, Copy, PartialEq, Eq)]
pub struct GlobalType {
    pub value: ValueType,
    pub mutable: bool,
}

/// What an import is wanted to be.
#[derive(Clone, Copy, PartialEq, Eq)]
pub enum ImportDescription {
    /// A function of the type with this number, from 0, among the module's types.
    Function(u32),
    Table(TableType),
    Memory(Limits),
    Global(GlobalType),
}

/// What a module wants of another: the two names that it is asked for by, and what it is to be.
#[derive(PartialEq, Eq, Drop)]
pub struct Import {
    pub module: Id,
    pub name: Id,
    pub description: ImportDescription,
}

/// What is read of a module: its function types and its imports, both in its order.
#[derive(PartialEq, Eq, Drop)]
pub struct WasmModule {
    pub types: Items<FunctionType>,
    pub imports: Items<Import>,
}
