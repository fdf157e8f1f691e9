//! Events to come, kept as those of a trace.

ghost use Rattle.std.specs.Prelude.{◌≡◌, IfOk, map, option_map};
ghost use Rattle.witx_ast.specs.Views.{tree_of};
ghost use Rattle.witx_machine.specs.Events as machine;
ghost use Rattle.witx_instructions.specs.Calling.{call_of_interface};
ghost use Rattle.witx_instructions.specs.Views.{event_of, kept_step, param_types, planned_event, step_of, payload_tree};

use crate::event::{Event, InterfaceCall, Payloads, Step, WasmCall};
use crate::instruction::{Instruction, WasmTypes};
use crate::plan::Planned;
use std::alloc::Global;
use std::rc::Rc;
use witx_ast::{InterfaceFunc, Params, TypeRef, TypeRefs};
use witx_base::{Duplicate, Id, Items, OutOfMemory};

/// What an event to come says, kept.
pub(crate) fn kept_event(alloc: Global, planned: &Planned<'_>) -> Result<Event, OutOfMemory>
    ensures { IfOk result (λ event. event_of event ≡ planned_event planned.now) }
{
    match planned {
        Planned::Emit(instruction) => kept_emit(alloc, instruction),
        Planned::CallWasm {
            module,
            name,
            params,
            results,
        } => kept_wasm(alloc, module, name, params, results),
        Planned::CallInterface { module, func } => kept_interface(alloc, module, func),
        Planned::Space { slot, ty } => Ok(Event::Space {
            slot: *slot,
            ty: Rc::clone(ty)?,
        }),
        Planned::Push => Ok(Event::Push),
        Planned::Finish { value } => Ok(Event::Finish { value: *value }),
    }
}

fn kept_emit(alloc: Global, instruction: &Instruction<'_>) -> Result<Event, OutOfMemory>
    ensures { IfOk result (λ event. event_of event ≡ machine.emit (step_of instruction.now)) }
{
    Ok(Event::Emit(Step::of(alloc, instruction)?))
}

fn kept_wasm(
    alloc: Global,
    module: &Id,
    name: &Id,
    params: &WasmTypes,
    results: &WasmTypes,
) -> Result<Event, OutOfMemory>
    ensures { IfOk result (λ event. event_of event
        ≡ machine.emit (machine.Step.CallWasm «module».now name.now params.now results.now)) }
{
    let module = module.copy()?;
    let name = name.copy()?;
    Ok(Event::Emit(wasm_step(alloc, module, name, params, results)?))
}

fn kept_interface(alloc: Global, module: &Id, func: &InterfaceFunc) -> Result<Event, OutOfMemory>
    ensures { IfOk result (λ event. event_of event ≡ machine.emit (call_of_interface «module».now func.now)) }
{
    let module = module.copy()?;
    Ok(Event::Emit(interface_step(alloc, module, func)?))
}

impl Step {
    /// What an instruction says, kept.
    pub(crate) fn of(alloc: Global, inst: &Instruction<'_>) -> Result<Step, OutOfMemory>
        ensures { IfOk result (λ step. kept_step step ≡ step_of inst.now) }
    {
        match inst {
            Instruction::GetArg { nth } => Ok(Step::GetArg { nth: *nth }),
            Instruction::AddrOf => Ok(Step::AddrOf),
            Instruction::I32FromChar => Ok(Step::I32FromChar),
            Instruction::I64FromU64 => Ok(Step::I64FromU64),
            Instruction::I64FromS64 => Ok(Step::I64FromS64),
            Instruction::I32FromU32 => Ok(Step::I32FromU32),
            Instruction::I32FromS32 => Ok(Step::I32FromS32),
            Instruction::I32FromUsize => Ok(Step::I32FromUsize),
            Instruction::I32FromU16 => Ok(Step::I32FromU16),
            Instruction::I32FromS16 => Ok(Step::I32FromS16),
            Instruction::I32FromU8 => Ok(Step::I32FromU8),
            Instruction::I32FromS8 => Ok(Step::I32FromS8),
            Instruction::I32FromChar8 => Ok(Step::I32FromChar8),
            Instruction::I32FromPointer => Ok(Step::I32FromPointer),
            Instruction::I32FromConstPointer => Ok(Step::I32FromConstPointer),
            Instruction::I32FromHandle { ty } => Ok(Step::I32FromHandle { ty: Rc::clone(ty)? }),
            Instruction::I32FromBitflags { ty } => Ok(Step::I32FromBitflags { ty: Rc::clone(ty)? }),
            Instruction::I64FromBitflags { ty } => Ok(Step::I64FromBitflags { ty: Rc::clone(ty)? }),
            Instruction::F32FromIf32 => Ok(Step::F32FromIf32),
            Instruction::F64FromIf64 => Ok(Step::F64FromIf64),
            Instruction::ListPointerLength => Ok(Step::ListPointerLength),
            Instruction::ListFromPointerLength { ty } => Ok(Step::ListFromPointerLength {
                ty: TypeRef::clone(ty)?,
            }),
            Instruction::CallWasm {
                module,
                name,
                params,
                results,
            } => kept_call_wasm(alloc, module, name, params, results),
            Instruction::CallInterface { module, func } => kept_call_interface(alloc, module, func),
            Instruction::S8FromI32 => Ok(Step::S8FromI32),
            Instruction::U8FromI32 => Ok(Step::U8FromI32),
            Instruction::S16FromI32 => Ok(Step::S16FromI32),
            Instruction::U16FromI32 => Ok(Step::U16FromI32),
            Instruction::S32FromI32 => Ok(Step::S32FromI32),
            Instruction::U32FromI32 => Ok(Step::U32FromI32),
            Instruction::S64FromI64 => Ok(Step::S64FromI64),
            Instruction::U64FromI64 => Ok(Step::U64FromI64),
            Instruction::CharFromI32 => Ok(Step::CharFromI32),
            Instruction::Char8FromI32 => Ok(Step::Char8FromI32),
            Instruction::UsizeFromI32 => Ok(Step::UsizeFromI32),
            Instruction::If32FromF32 => Ok(Step::If32FromF32),
            Instruction::If64FromF64 => Ok(Step::If64FromF64),
            Instruction::HandleFromI32 { ty } => Ok(Step::HandleFromI32 { ty: Rc::clone(ty)? }),
            Instruction::PointerFromI32 { ty } => Ok(Step::PointerFromI32 {
                ty: TypeRef::clone(ty)?,
            }),
            Instruction::ConstPointerFromI32 { ty } => Ok(Step::ConstPointerFromI32 {
                ty: TypeRef::clone(ty)?,
            }),
            Instruction::BitflagsFromI32 { ty } => Ok(Step::BitflagsFromI32 { ty: Rc::clone(ty)? }),
            Instruction::BitflagsFromI64 { ty } => Ok(Step::BitflagsFromI64 { ty: Rc::clone(ty)? }),
            Instruction::ReturnPointerGet { n } => Ok(Step::ReturnPointerGet { n: *n }),
            Instruction::Load { ty } => Ok(Step::Load { ty: Rc::clone(ty)? }),
            Instruction::Store { ty } => Ok(Step::Store { ty: Rc::clone(ty)? }),
            Instruction::TupleLift { amt } => Ok(Step::TupleLift { amt: *amt }),
            Instruction::TupleLower { amt } => Ok(Step::TupleLower { amt: *amt }),
            Instruction::EnumLift { ty } => Ok(Step::EnumLift { ty: Rc::clone(ty)? }),
            Instruction::EnumLower { ty } => Ok(Step::EnumLower { ty: Rc::clone(ty)? }),
            Instruction::VariantPayload => Ok(Step::VariantPayload),
            Instruction::ReuseReturn => Ok(Step::ReuseReturn),
            Instruction::ResultLower { ok, err } => kept_result_lower(alloc, *ok, *err),
            Instruction::ResultLift => Ok(Step::ResultLift),
            Instruction::Return { amt } => Ok(Step::Return { amt: *amt }),
        }
    }
}

fn kept_call_wasm(
    alloc: Global,
    module: &str,
    name: &str,
    params: &WasmTypes,
    results: &WasmTypes,
) -> Result<Step, OutOfMemory>
    ensures { IfOk result (λ step. kept_step step ≡ machine.Step.CallWasm «module».now name.now params.now results.now) }
{
    let module = Id::new(alloc, module)?;
    let name = Id::new(alloc, name)?;
    wasm_step(alloc, module, name, params, results)
}

fn wasm_step(
    alloc: Global,
    module: Id,
    name: Id,
    params: &WasmTypes,
    results: &WasmTypes,
) -> Result<Step, OutOfMemory>
    ensures { IfOk result (λ step. kept_step step ≡ machine.Step.CallWasm «module» name params.now results.now) }
{
    let params = params.copy()?;
    let results = results.copy()?;
    let call = WasmCall {
        module,
        name,
        params,
        results,
    };
    Ok(Step::CallWasm(Box::new(alloc, call)?))
}

fn kept_call_interface(
    alloc: Global,
    module: &str,
    func: &InterfaceFunc,
) -> Result<Step, OutOfMemory>
    ensures { IfOk result (λ step. kept_step step ≡ call_of_interface «module».now func.now) }
{
    let module = Id::new(alloc, module)?;
    interface_step(alloc, module, func)
}

fn interface_step(alloc: Global, module: Id, func: &InterfaceFunc) -> Result<Step, OutOfMemory>
    ensures { IfOk result (λ step. kept_step step ≡ call_of_interface «module» func.now) }
{
    let name = func.name.copy()?;
    let params = types_of(alloc, &func.params)?;
    let results = types_of(alloc, &func.results)?;
    let call = InterfaceCall {
        module,
        name,
        params,
        results,
    };
    Ok(Step::CallInterface(Box::new(alloc, call)?))
}

// The type of each parameter, or of each result.
fn types_of(alloc: Global, params: &Params) -> Result<TypeRefs, OutOfMemory>
    ensures { IfOk result (λ types. map tree_of types ≡ param_types params.now) }
{
    let mut types = Items::new(alloc);
    types.reserve(params.len())?;
    for param in params.as_slice() {
        types.push(param.tref.clone()?)?;
    }
    Ok(types)
}

fn kept_result_lower(
    alloc: Global,
    ok: Option<&TypeRef>,
    err: Option<&TypeRef>,
) -> Result<Step, OutOfMemory>
    ensures { IfOk result (λ step. kept_step step
        ≡ machine.Step.ResultLower (payload_tree ok.entry) (payload_tree err.entry)) }
{
    let ok = kept_type(ok)?;
    let err = kept_type(err)?;
    Ok(Step::ResultLower(Box::new(alloc, Payloads { ok, err })?))
}

fn kept_type(tref: Option<&TypeRef>) -> Result<Option<TypeRef>, OutOfMemory>
    ensures { IfOk result (λ kept. option_map tree_of kept ≡ payload_tree tref.entry) }
{
    match tref {
        Some(tref) => Ok(Some(tref.clone()?)),
        None => Ok(None),
    }
}
