//! The events of a trace, kept.

use crate::instruction::WasmTypes;
use std::rc::Rc;
use witx_ast::{NamedType, TypeRef, TypeRefs};
use witx_base::{Id, Items};

/// A call of a function as WebAssembly has it.
#[derive(PartialEq, Eq, Drop)]
pub struct WasmCall {
    /// The module's name.
    pub module: Id,
    /// The function's name.
    pub name: Id,
    /// The types of the words in.
    pub params: WasmTypes,
    /// The types of the words back.
    pub results: WasmTypes,
}

/// A call of a function as the interface has it.
#[derive(PartialEq, Eq, Drop)]
pub struct InterfaceCall {
    /// The module's name.
    pub module: Id,
    /// The function's name.
    pub name: Id,
    /// The types of the values in.
    pub params: TypeRefs,
    /// The types of the values back.
    pub results: TypeRefs,
}

/// What the two cases of a result carry.
#[derive(PartialEq, Eq, Drop)]
pub struct Payloads {
    /// What ok carries.
    pub ok: Option<TypeRef>,
    /// What an error carries.
    pub err: Option<TypeRef>,
}

/// What an instruction said, kept: the variants of [`Instruction`](crate::Instruction) with owned fields.
/// A step takes few bytes, since a trace is a list of them: what takes many lies in a box.
#[derive(PartialEq, Eq, Drop)]
pub enum Step {
    /// Pushes an argument: the caller's values or the callee's words, numbered from 0.
    GetArg { nth: usize },
    /// Takes a value to the address of a place in memory that holds it.
    AddrOf,
    I32FromChar,
    I64FromU64,
    I64FromS64,
    I32FromU32,
    I32FromS32,
    I32FromUsize,
    I32FromU16,
    I32FromS16,
    I32FromU8,
    I32FromS8,
    I32FromChar8,
    I32FromPointer,
    I32FromConstPointer,
    I32FromHandle { ty: Rc<NamedType> },
    I32FromBitflags { ty: Rc<NamedType> },
    I64FromBitflags { ty: Rc<NamedType> },
    F32FromIf32,
    F64FromIf64,
    /// Takes a list to its address and its length.
    ListPointerLength,
    /// Takes an address and a length to a list of this type of items.
    ListFromPointerLength { ty: TypeRef },
    /// Calls the function as WebAssembly has it, with words.
    CallWasm(Box<WasmCall>),
    /// Calls the function as the interface has it, with values.
    CallInterface(Box<InterfaceCall>),
    S8FromI32,
    U8FromI32,
    S16FromI32,
    U16FromI32,
    S32FromI32,
    U32FromI32,
    S64FromI64,
    U64FromI64,
    CharFromI32,
    Char8FromI32,
    UsizeFromI32,
    If32FromF32,
    If64FromF64,
    HandleFromI32 { ty: Rc<NamedType> },
    PointerFromI32 { ty: TypeRef },
    ConstPointerFromI32 { ty: TypeRef },
    BitflagsFromI32 { ty: Rc<NamedType> },
    BitflagsFromI64 { ty: Rc<NamedType> },
    /// Pushes the address of a space, by the number of its slot.
    ReturnPointerGet { n: usize },
    /// Takes an address to the value of this type that stands there.
    Load { ty: Rc<NamedType> },
    /// Takes a value and an address, and stores the value there.
    Store { ty: Rc<NamedType> },
    /// Takes this many values to their tuple.
    TupleLift { amt: usize },
    /// Takes a tuple of this many members to its members.
    TupleLower { amt: usize },
    /// Takes a word to the case of this number.
    EnumLift { ty: Rc<NamedType> },
    /// Takes a case without payload to its number.
    EnumLower { ty: Rc<NamedType> },
    /// Pushes the payload of the case for which a block is run.
    VariantPayload,
    /// Pushes the one word that the call gave.
    ReuseReturn,
    /// Takes a result to its word, by the last two blocks: for ok, and for an error.
    ResultLower(Box<Payloads>),
    /// Takes a word to a result, by the last two blocks: for ok, and for an error.
    ResultLift,
    /// Gives back this many operands, the last event of a trace.
    Return { amt: usize },
}

/// One call of a generator.
#[derive(PartialEq, Eq, Drop)]
pub enum Event {
    Emit(Step),
    /// Room was made for a result of this type, and numbered.
    Space { slot: usize, ty: Rc<NamedType> },
    /// A block begins.
    Push,
    /// The innermost block ends, with a value or with none.
    Finish { value: bool },
}

/// The events of a trace, in order.
pub type Events = Items<Event>;
