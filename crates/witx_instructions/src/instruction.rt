//! Instructions, and how many operands each takes and results it leaves.

ghost use Rattle.std.specs.Prelude.{◌≡◌};
ghost use Rattle.witx_machine.specs.Rows.{operands_count, results_count};
ghost use Rattle.witx_instructions.specs.Views.{step_of};

use std::rc::Rc;
use witx_ast::{InterfaceFunc, NamedType, TypeRef};
use witx_base::Items;
use witx_machine::WasmType;

/// The types of words, in order.
pub type WasmTypes = Items<WasmType>;

/// One instruction for a generator, with what it speaks of borrowed.
///
/// A conversion `XFromY` takes one operand to one result: `I32FromU8` a value to its word, `U8FromI32` a
/// word to its value.
#[derive(Debug, Drop)]
pub enum Instruction<'a> {
    /// Pushes an argument: the caller's values or the callee's words, numbered from 0.
    GetArg {
        nth: usize,
    },
    /// Takes a value to the address of a place in memory that holds it.
    AddrOf,
    I32FromChar,
    I64FromU64,
    I64FromS64,
    I32FromU32,
    I32FromS32,
    I32FromUsize,
    I32FromU16,
    I32FromS16,
    I32FromU8,
    I32FromS8,
    I32FromChar8,
    I32FromPointer,
    I32FromConstPointer,
    I32FromHandle {
        ty: &'a Rc<NamedType>,
    },
    I32FromBitflags {
        ty: &'a Rc<NamedType>,
    },
    I64FromBitflags {
        ty: &'a Rc<NamedType>,
    },
    F32FromIf32,
    F64FromIf64,
    /// Takes a list to its address and its length.
    ListPointerLength,
    /// Takes an address and a length to a list of this type of items.
    ListFromPointerLength {
        ty: &'a TypeRef,
    },
    /// Calls the function as WebAssembly has it, with words.
    CallWasm {
        module: &'a str,
        name: &'a str,
        params: &'a WasmTypes,
        results: &'a WasmTypes,
    },
    /// Calls the function as the interface has it, with values.
    CallInterface {
        module: &'a str,
        func: &'a InterfaceFunc,
    },
    S8FromI32,
    U8FromI32,
    S16FromI32,
    U16FromI32,
    S32FromI32,
    U32FromI32,
    S64FromI64,
    U64FromI64,
    CharFromI32,
    Char8FromI32,
    UsizeFromI32,
    If32FromF32,
    If64FromF64,
    HandleFromI32 {
        ty: &'a Rc<NamedType>,
    },
    PointerFromI32 {
        ty: &'a TypeRef,
    },
    ConstPointerFromI32 {
        ty: &'a TypeRef,
    },
    BitflagsFromI32 {
        ty: &'a Rc<NamedType>,
    },
    BitflagsFromI64 {
        ty: &'a Rc<NamedType>,
    },
    /// Pushes the address of a space, by the number of its slot.
    ReturnPointerGet {
        n: usize,
    },
    /// Takes an address to the value of this type that stands there.
    Load {
        ty: &'a Rc<NamedType>,
    },
    /// Takes a value and an address, and stores the value there.
    Store {
        ty: &'a Rc<NamedType>,
    },
    /// Takes this many values to their tuple.
    TupleLift {
        amt: usize,
    },
    /// Takes a tuple of this many members to its members.
    TupleLower {
        amt: usize,
    },
    /// Takes a word to the case of this number.
    EnumLift {
        ty: &'a Rc<NamedType>,
    },
    /// Takes a case without payload to its number.
    EnumLower {
        ty: &'a Rc<NamedType>,
    },
    /// Pushes the payload of the case for which a block is run.
    VariantPayload,
    /// Pushes the one word that the call gave.
    ReuseReturn,
    /// Takes a result to its word, by the last two blocks: for ok, and for an error.
    ResultLower {
        ok: Option<&'a TypeRef>,
        err: Option<&'a TypeRef>,
    },
    /// Takes a word to a result, by the last two blocks: for ok, and for an error.
    ResultLift,
    /// Gives back this many operands, the last event of a trace.
    Return {
        amt: usize,
    },
}

impl Instruction<'_> {
    /// How many operands the instruction takes.
    pub fn operands_len(&self) -> usize
        ensures { result ≡ operands_count (step_of self.now) }
    {
        match self {
            Instruction::GetArg { .. }
            | Instruction::ReturnPointerGet { .. }
            | Instruction::VariantPayload
            | Instruction::ReuseReturn => 0,
            Instruction::ListFromPointerLength { .. } | Instruction::Store { .. } => 2,
            Instruction::CallWasm { params, .. } => params.len(),
            Instruction::CallInterface { func, .. } => func.params.len(),
            Instruction::TupleLift { amt } | Instruction::Return { amt } => *amt,
            _ => 1,
        }
    }

    /// How many results the instruction leaves.
    pub fn results_len(&self) -> usize
        ensures { result ≡ results_count (step_of self.now) }
    {
        match self {
            Instruction::Store { .. } | Instruction::Return { .. } => 0,
            Instruction::ListPointerLength => 2,
            Instruction::CallWasm { results, .. } => results.len(),
            Instruction::CallInterface { func, .. } => func.results.len(),
            Instruction::TupleLower { amt } => *amt,
            _ => 1,
        }
    }
}
