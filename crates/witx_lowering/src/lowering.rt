//! The instruction that lowers a value of a type, and the one that lifts it.
#![tactic(auto, using(witx_ast::proofs::TreeKinds::kind_rules, witx_instructions::proofs::Instructions::step_rules))]

ghost use Rattle.std.specs.Prelude.{◌≡◌, true};
ghost use Rattle.witx_ast.specs.Views.{tree_of, datatype_tree, named_tree, record_tree, variant_tree};
ghost use Rattle.witx_machine.specs.Lowerable.{can_be_param};
ghost use Rattle.witx_machine.specs.Traces.{lower_builtin, lower_at, lower_step, lift_builtin, lift_at, lift_step};
ghost use Rattle.witx_instructions.specs.Views.{step_of};

use std::rc::Rc;
use witx_ast::{
    BuiltinType, Datatype, IntRepr, NamedType, RecordDatatype, RecordKind, TypeRef, Variant,
};
use witx_instructions::Instruction;

/// The instruction that lowers a value of the type.
pub fn lower<'a>(tref: &'a TypeRef) -> Instruction<'a>
    requires { can_be_param (tree_of tref.now) ≡ true }
    ensures { step_of result ≡ lower_step (tree_of tref.now) }
{
    match tref {
        TypeRef::Name(named) => lower_as(named, named.tref.type_()),
        TypeRef::Value(datatype) => lower_unnamed(datatype),
    }
}

/// The instruction that lifts a value of the type.
pub fn lift<'a>(tref: &'a TypeRef) -> Instruction<'a>
    requires { can_be_param (tree_of tref.now) ≡ true }
    ensures { step_of result ≡ lift_step (tree_of tref.now) }
{
    match tref {
        TypeRef::Name(named) => lift_as(named, named.tref.type_()),
        TypeRef::Value(datatype) => lift_unnamed(datatype),
    }
}

// A type without a name of its own: a builtin, a pointer or a list.
fn lower_unnamed<'a>(datatype: &'a Datatype) -> Instruction<'a>
    requires { can_be_param (datatype_tree datatype.now) ≡ true }
    ensures { step_of result ≡ lower_step (datatype_tree datatype.now) }
{
    match datatype {
        Datatype::Builtin(builtin) => lower_number(*builtin),
        Datatype::Pointer(_) => Instruction::I32FromPointer,
        Datatype::ConstPointer(_) => Instruction::I32FromConstPointer,
        Datatype::List(_) => Instruction::ListPointerLength,
        Datatype::Record(_) | Datatype::Variant(_) | Datatype::Handle(_) => unreachable!(),
    }
}

fn lift_unnamed<'a>(datatype: &'a Datatype) -> Instruction<'a>
    requires { can_be_param (datatype_tree datatype.now) ≡ true }
    ensures { step_of result ≡ lift_step (datatype_tree datatype.now) }
{
    match datatype {
        Datatype::Builtin(builtin) => lift_number(*builtin),
        Datatype::Pointer(ty) => Instruction::PointerFromI32 { ty },
        Datatype::ConstPointer(ty) => Instruction::ConstPointerFromI32 { ty },
        Datatype::List(ty) => Instruction::ListFromPointerLength { ty },
        Datatype::Record(_) | Datatype::Variant(_) | Datatype::Handle(_) => unreachable!(),
    }
}

// A named type, by what stands behind its names.
fn lower_as<'a>(ty: &'a Rc<NamedType>, datatype: &'a Datatype) -> Instruction<'a>
    ensures { step_of result ≡ lower_at (named_tree ty.now.value) (datatype_tree datatype.now) }
{
    match datatype {
        Datatype::Builtin(builtin) => lower_number(*builtin),
        Datatype::Handle(_) => Instruction::I32FromHandle { ty },
        Datatype::Pointer(_) => Instruction::I32FromPointer,
        Datatype::ConstPointer(_) => Instruction::I32FromConstPointer,
        Datatype::List(_) => Instruction::ListPointerLength,
        Datatype::Record(record) => lower_record(ty, record),
        Datatype::Variant(variant) => lower_variant(ty, variant),
    }
}

fn lift_as<'a>(ty: &'a Rc<NamedType>, datatype: &'a Datatype) -> Instruction<'a>
    ensures { step_of result ≡ lift_at (named_tree ty.now.value) (datatype_tree datatype.now) }
{
    match datatype {
        Datatype::Builtin(builtin) => lift_number(*builtin),
        Datatype::Handle(_) => Instruction::HandleFromI32 { ty },
        Datatype::Pointer(target) => Instruction::PointerFromI32 { ty: target },
        Datatype::ConstPointer(target) => Instruction::ConstPointerFromI32 { ty: target },
        Datatype::List(item) => Instruction::ListFromPointerLength { ty: item },
        Datatype::Record(record) => lift_record(ty, record),
        Datatype::Variant(variant) => lift_variant(ty, variant),
    }
}

fn lower_record<'a>(ty: &'a Rc<NamedType>, record: &'a RecordDatatype) -> Instruction<'a>
    ensures { step_of result ≡ lower_at (named_tree ty.now.value) (record_tree «record».now) }
{
    match record.kind {
        RecordKind::Bitflags(IntRepr::U64) => Instruction::I64FromBitflags { ty },
        RecordKind::Bitflags(IntRepr::U8 | IntRepr::U16 | IntRepr::U32) => {
            Instruction::I32FromBitflags { ty }
        }
        RecordKind::Tuple | RecordKind::Other => Instruction::AddrOf,
    }
}

fn lift_record<'a>(ty: &'a Rc<NamedType>, record: &'a RecordDatatype) -> Instruction<'a>
    ensures { step_of result ≡ lift_at (named_tree ty.now.value) (record_tree «record».now) }
{
    match record.kind {
        RecordKind::Bitflags(IntRepr::U64) => Instruction::BitflagsFromI64 { ty },
        RecordKind::Bitflags(IntRepr::U8 | IntRepr::U16 | IntRepr::U32) => {
            Instruction::BitflagsFromI32 { ty }
        }
        RecordKind::Tuple | RecordKind::Other => Instruction::Load { ty },
    }
}

fn lower_variant<'a>(ty: &'a Rc<NamedType>, variant: &'a Variant) -> Instruction<'a>
    ensures { step_of result ≡ lower_at (named_tree ty.now.value) (variant_tree variant.now) }
{
    if variant.is_enum() {
        Instruction::EnumLower { ty }
    } else {
        Instruction::AddrOf
    }
}

fn lift_variant<'a>(ty: &'a Rc<NamedType>, variant: &'a Variant) -> Instruction<'a>
    ensures { step_of result ≡ lift_at (named_tree ty.now.value) (variant_tree variant.now) }
{
    if variant.is_enum() {
        Instruction::EnumLift { ty }
    } else {
        Instruction::Load { ty }
    }
}

fn lower_number(builtin: BuiltinType) -> Instruction<'static>
    ensures { step_of result ≡ lower_builtin builtin }
{
    match builtin {
        BuiltinType::Char => Instruction::I32FromChar,
        BuiltinType::U8 { lang_c_char: true } => Instruction::I32FromChar8,
        BuiltinType::U8 { lang_c_char: false } => Instruction::I32FromU8,
        BuiltinType::U16 => Instruction::I32FromU16,
        BuiltinType::U32 {
            lang_ptr_size: true,
        } => Instruction::I32FromUsize,
        BuiltinType::U32 {
            lang_ptr_size: false,
        } => Instruction::I32FromU32,
        BuiltinType::U64 => Instruction::I64FromU64,
        BuiltinType::S8 => Instruction::I32FromS8,
        BuiltinType::S16 => Instruction::I32FromS16,
        BuiltinType::S32 => Instruction::I32FromS32,
        BuiltinType::S64 => Instruction::I64FromS64,
        BuiltinType::F32 => Instruction::F32FromIf32,
        BuiltinType::F64 => Instruction::F64FromIf64,
    }
}

fn lift_number(builtin: BuiltinType) -> Instruction<'static>
    ensures { step_of result ≡ lift_builtin builtin }
{
    match builtin {
        BuiltinType::Char => Instruction::CharFromI32,
        BuiltinType::U8 { lang_c_char: true } => Instruction::Char8FromI32,
        BuiltinType::U8 { lang_c_char: false } => Instruction::U8FromI32,
        BuiltinType::U16 => Instruction::U16FromI32,
        BuiltinType::U32 {
            lang_ptr_size: true,
        } => Instruction::UsizeFromI32,
        BuiltinType::U32 {
            lang_ptr_size: false,
        } => Instruction::U32FromI32,
        BuiltinType::U64 => Instruction::U64FromI64,
        BuiltinType::S8 => Instruction::S8FromI32,
        BuiltinType::S16 => Instruction::S16FromI32,
        BuiltinType::S32 => Instruction::S32FromI32,
        BuiltinType::S64 => Instruction::S64FromI64,
        BuiltinType::F32 => Instruction::If32FromF32,
        BuiltinType::F64 => Instruction::If64FromF64,
    }
}
