//! The rows of the machine's table: what each step of a trace is.

ghost use Rattle.std.specs.Prelude.{◌≡◌, false, true, map, option_map};
ghost use Rattle.witx_ast.specs.{declared.types.BuiltinType.TheVariants.{U8, U32}, Views.{tree_of}};
ghost use Rattle.witx_machine.specs.{Rows.{call_interface, call_wasm, result_lower, row}, Words.{number_of}};
ghost use Rattle.witx_instructions.specs.Views.{kept_step};
ghost use Rattle.witx_run.specs.{RowViews.{row_view}, Views.{scalar_of, type_tree}};

use crate::conversion::Conversion;
use std::rc::Rc;
use witx_ast::{BuiltinType, NamedType, TypeRef, TypeRefs};
use witx_base::Id;
use witx_instructions::{InterfaceCall, Payloads, Step, WasmCall, WasmTypes};
use witx_machine::WasmType;

/// What a step does: the conversions of a value to its one word are one row, and so are those of a word
/// to its value.
#[derive(Clone, Copy)]
pub enum Row<'a> {
    /// An argument, by its number.
    GetArg(usize),
    /// A value becomes the address at which it is put.
    AddrOf,
    /// A value becomes its one word.
    Lowering(Conversion<'a>),
    /// A word becomes the value whose word it is.
    Lifting(Conversion<'a>),
    /// A list becomes its address and its length.
    ListPointerLength,
    /// An address and a length become their list.
    ListFromPointerLength,
    /// The address of a slot, by its number.
    ReturnPointerGet(usize),
    /// An address becomes what stands there, under a type.
    Load(&'a Rc<NamedType>),
    /// A value of a type is put at an address.
    Store(&'a Rc<NamedType>),
    /// So many values become their tuple.
    TupleLift(usize),
    /// A tuple becomes its members, so many.
    TupleLower(usize),
    /// The payload of a block that a result step runs.
    VariantPayload,
    /// The one word that the call gave.
    ReuseReturn,
    /// A result becomes its word, by one of the two blocks set aside last.
    ResultLower {
        /// What the first case carries.
        ok: Option<&'a TypeRef>,
        /// What the second case carries.
        err: Option<&'a TypeRef>,
    },
    /// A word becomes the result whose case it tells, by one of the two blocks set aside last.
    ResultLift,
    /// The call of the function in WebAssembly.
    CallWasm {
        /// The module's name.
        module: &'a Id,
        /// The function's name.
        name: &'a Id,
        /// The types of the words that pass.
        params: &'a WasmTypes,
        /// The types of the words that come back.
        results: &'a WasmTypes,
    },
    /// The call of the function of the interface.
    CallInterface {
        /// The module's name.
        module: &'a Id,
        /// The function's name.
        name: &'a Id,
        /// The types of the arguments.
        params: &'a TypeRefs,
        /// The types of the results.
        results: &'a TypeRefs,
    },
    /// The end of a trace, with so many items.
    Return(usize),
}

fn u8_number(lang_c_char: bool) -> Conversion<'static>
    ensures { scalar_of result ≡ number_of (U8 lang_c_char) }
{
    Conversion::Number(BuiltinType::U8 { lang_c_char })
}

fn u32_number(lang_ptr_size: bool) -> Conversion<'static>
    ensures { scalar_of result ≡ number_of (U32 lang_ptr_size) }
{
    Conversion::Number(BuiltinType::U32 { lang_ptr_size })
}

/// A type, where there is one.
fn type_in(ty: &Option<TypeRef>) -> Option<&TypeRef>
    ensures { type_tree result ≡ option_map tree_of ty.now }
{
    match ty {
        Some(ty) => Some(ty),
        None => None,
    }
}

fn wasm_row(call: &WasmCall) -> Row<'_>
    ensures { row_view result ≡ call_wasm call.now.module call.now.name call.now.params call.now.results }
{
    Row::CallWasm {
        module: &call.module,
        name: &call.name,
        params: &call.params,
        results: &call.results,
    }
}

fn interface_row(call: &InterfaceCall) -> Row<'_>
    ensures { row_view result ≡ call_interface call.now.module call.now.name
        (map tree_of call.now.params) (map tree_of call.now.results) }
{
    Row::CallInterface {
        module: &call.module,
        name: &call.name,
        params: &call.params,
        results: &call.results,
    }
}

fn result_row(payloads: &Payloads) -> Row<'_>
    ensures { row_view result
        ≡ result_lower (option_map tree_of payloads.now.ok) (option_map tree_of payloads.now.err) }
{
    Row::ResultLower {
        ok: type_in(&payloads.ok),
        err: type_in(&payloads.err),
    }
}

/// The row of a step.
pub fn row_of(step: &Step) -> Row<'_>
    ensures { row_view result ≡ row (kept_step step.now) }
{
    match step {
        Step::GetArg { nth } => Row::GetArg(*nth),
        Step::AddrOf => Row::AddrOf,
        Step::I32FromChar => Row::Lowering(Conversion::Number(BuiltinType::Char)),
        Step::I64FromU64 => Row::Lowering(Conversion::Number(BuiltinType::U64)),
        Step::I64FromS64 => Row::Lowering(Conversion::Number(BuiltinType::S64)),
        Step::I32FromU32 => Row::Lowering(u32_number(false)),
        Step::I32FromS32 => Row::Lowering(Conversion::Number(BuiltinType::S32)),
        Step::I32FromUsize => Row::Lowering(u32_number(true)),
        Step::I32FromU16 => Row::Lowering(Conversion::Number(BuiltinType::U16)),
        Step::I32FromS16 => Row::Lowering(Conversion::Number(BuiltinType::S16)),
        Step::I32FromU8 => Row::Lowering(u8_number(false)),
        Step::I32FromS8 => Row::Lowering(Conversion::Number(BuiltinType::S8)),
        Step::I32FromChar8 => Row::Lowering(u8_number(true)),
        Step::I32FromPointer => Row::Lowering(Conversion::Pointer),
        Step::I32FromConstPointer => Row::Lowering(Conversion::ConstPointer),
        Step::I32FromHandle { ty } => Row::Lowering(Conversion::Handle(ty)),
        Step::I32FromBitflags { ty } => Row::Lowering(Conversion::Flags(WasmType::I32, ty)),
        Step::I64FromBitflags { ty } => Row::Lowering(Conversion::Flags(WasmType::I64, ty)),
        Step::F32FromIf32 => Row::Lowering(Conversion::Number(BuiltinType::F32)),
        Step::F64FromIf64 => Row::Lowering(Conversion::Number(BuiltinType::F64)),
        Step::EnumLower { ty } => Row::Lowering(Conversion::Enum(ty)),
        Step::ListPointerLength => Row::ListPointerLength,
        Step::ListFromPointerLength { ty: _ } => Row::ListFromPointerLength,
        Step::CallWasm(call) => wasm_row(call),
        Step::CallInterface(call) => interface_row(call),
        Step::S8FromI32 => Row::Lifting(Conversion::Number(BuiltinType::S8)),
        Step::U8FromI32 => Row::Lifting(u8_number(false)),
        Step::S16FromI32 => Row::Lifting(Conversion::Number(BuiltinType::S16)),
        Step::U16FromI32 => Row::Lifting(Conversion::Number(BuiltinType::U16)),
        Step::S32FromI32 => Row::Lifting(Conversion::Number(BuiltinType::S32)),
        Step::U32FromI32 => Row::Lifting(u32_number(false)),
        Step::S64FromI64 => Row::Lifting(Conversion::Number(BuiltinType::S64)),
        Step::U64FromI64 => Row::Lifting(Conversion::Number(BuiltinType::U64)),
        Step::CharFromI32 => Row::Lifting(Conversion::Number(BuiltinType::Char)),
        Step::Char8FromI32 => Row::Lifting(u8_number(true)),
        Step::UsizeFromI32 => Row::Lifting(u32_number(true)),
        Step::If32FromF32 => Row::Lifting(Conversion::Number(BuiltinType::F32)),
        Step::If64FromF64 => Row::Lifting(Conversion::Number(BuiltinType::F64)),
        Step::HandleFromI32 { ty } => Row::Lifting(Conversion::Handle(ty)),
        Step::PointerFromI32 { ty: _ } => Row::Lifting(Conversion::Pointer),
        Step::ConstPointerFromI32 { ty: _ } => Row::Lifting(Conversion::ConstPointer),
        Step::BitflagsFromI32 { ty } => Row::Lifting(Conversion::Flags(WasmType::I32, ty)),
        Step::BitflagsFromI64 { ty } => Row::Lifting(Conversion::Flags(WasmType::I64, ty)),
        Step::EnumLift { ty } => Row::Lifting(Conversion::Enum(ty)),
        Step::ReturnPointerGet { n } => Row::ReturnPointerGet(*n),
        Step::Load { ty } => Row::Load(ty),
        Step::Store { ty } => Row::Store(ty),
        Step::TupleLift { amt } => Row::TupleLift(*amt),
        Step::TupleLower { amt } => Row::TupleLower(*amt),
        Step::VariantPayload => Row::VariantPayload,
        Step::ReuseReturn => Row::ReuseReturn,
        Step::ResultLower(payloads) => result_row(payloads),
        Step::ResultLift => Row::ResultLift,
        Step::Return { amt } => Row::Return(*amt),
    }
}
