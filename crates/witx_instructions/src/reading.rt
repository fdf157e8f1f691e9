//! What is read off the types of parameters and results.
#![tactic(auto, using(witx_ast::proofs::TreeKinds::kind_rules, crate::proofs::Types::type_rules))]

ghost use Rattle.std.specs.Prelude.{◌≡◌, ◌++◌, ◌∷◌, [], IfOk, map, option_map};
ghost use Rattle.witx_ast.specs.{Plain.{plain}, Views.{tree_of, datatype_tree, record_tree, case_arm}};
ghost use Rattle.witx_machine.specs.Functions.{ok_of, err_of, tuple_types, is_tuple, result_cases};
ghost use Rattle.witx_machine.specs.Signature.{param_words, result_word};
ghost use Rattle.witx_machine.specs.{Words.{builtin_word_type, same_types}, Lowerable.{can_be_param}};
ghost use Rattle.witx_instructions.specs.Views.{variant_arms, is_list_type, payload_tree};

use crate::instruction::WasmTypes;
use witx_ast::{
    BuiltinType, Case, Datatype, IntRepr, Members, RecordDatatype, RecordKind, TypeRef, Variant,
};
use witx_base::OutOfMemory;
use witx_machine::WasmType;

fn builtin_word(builtin: BuiltinType) -> WasmType
    ensures { result ≡ builtin_word_type builtin }
{
    match builtin {
        BuiltinType::U64 | BuiltinType::S64 => WasmType::I64,
        BuiltinType::F32 => WasmType::F32,
        BuiltinType::F64 => WasmType::F64,
        BuiltinType::Char
        | BuiltinType::U8 { .. }
        | BuiltinType::U16
        | BuiltinType::U32 { .. }
        | BuiltinType::S8
        | BuiltinType::S16
        | BuiltinType::S32 => WasmType::I32,
    }
}

/// Appends the words of a parameter.
pub fn push_param_words(words: &mut WasmTypes, tref: &TypeRef) -> Result<(), OutOfMemory>
    ensures { IfOk result (λ _. words.new ≡ words.old ++ param_words (plain (tree_of tref.now))) }
{
    push_words(words, tref.type_())
}

fn push_words(words: &mut WasmTypes, datatype: &Datatype) -> Result<(), OutOfMemory>
    ensures { IfOk result (λ _. words.new ≡ words.old ++ param_words (plain (datatype_tree datatype.now))) }
{
    match datatype {
        Datatype::List(_) => {
            words.push(WasmType::I32)?;
            words.push(WasmType::I32)
        }
        Datatype::Builtin(builtin) => words.push(builtin_word(*builtin)),
        Datatype::Record(record) => words.push(record_word(record).unwrap_or(WasmType::I32)),
        Datatype::Variant(_)
        | Datatype::Handle(_)
        | Datatype::Pointer(_)
        | Datatype::ConstPointer(_) => words.push(WasmType::I32),
    }
}

/// The word of a result; none for a list and for a record that isn't flags.
pub fn result_word(tref: &TypeRef) -> Option<WasmType>
    ensures { result ≡ result_word (plain (tree_of tref.now)) }
{
    datatype_word(tref.type_())
}

fn datatype_word(datatype: &Datatype) -> Option<WasmType>
    ensures { result ≡ result_word (plain (datatype_tree datatype.now)) }
{
    match datatype {
        Datatype::Builtin(builtin) => Some(builtin_word(*builtin)),
        Datatype::Record(record) => record_word(record),
        Datatype::Variant(variant) => Some(WasmType::from(variant.tag_repr)),
        Datatype::Handle(_) | Datatype::Pointer(_) | Datatype::ConstPointer(_) => {
            Some(WasmType::I32)
        }
        Datatype::List(_) => None,
    }
}

// The word of flags; none for another record.
fn record_word(record: &RecordDatatype) -> Option<WasmType>
    ensures { result ≡ result_word (plain (record_tree «record».now)) }
{
    match record.kind {
        RecordKind::Bitflags(repr) => Some(WasmType::from(repr)),
        RecordKind::Tuple | RecordKind::Other => None,
    }
}

/// The variant of a result that has payloads.
pub fn result_cases(tref: &TypeRef) -> Option<&Variant>
    ensures { option_map (λ v. variant_arms v.now) result ≡ result_cases (tree_of tref.now) }
{
    datatype_cases(tref.type_())
}

fn datatype_cases(datatype: &Datatype) -> Option<&Variant>
    ensures { option_map (λ v. variant_arms v.now) result ≡ result_cases (datatype_tree datatype.now) }
{
    match datatype {
        Datatype::Variant(variant) if !variant.is_enum() => Some(variant),
        _ => None,
    }
}

/// What the first case carries.
pub fn ok_type(variant: &Variant) -> Option<&TypeRef>
    ensures { payload_tree result ≡ ok_of (variant_arms variant.now) }
{
    match variant.cases.get(0) {
        Some(case) => payload(case),
        None => None,
    }
}

/// What the second case carries.
pub fn err_type(variant: &Variant) -> Option<&TypeRef>
    ensures { payload_tree result ≡ err_of (variant_arms variant.now) }
{
    match variant.cases.get(1) {
        Some(case) => payload(case),
        None => None,
    }
}

fn payload(case: &Case) -> Option<&TypeRef>
    ensures { payload_tree result ≡ (case_arm case.now).payload }
{
    match &case.tref {
        Some(tref) => Some(tref),
        None => None,
    }
}

/// Whether a type is a tuple, names looked through.
pub fn is_tuple(tref: &TypeRef) -> bool
    ensures { result ≡ is_tuple (tree_of tref.now) }
{
    datatype_is_tuple(tref.type_())
}

fn datatype_is_tuple(datatype: &Datatype) -> bool
    ensures { result ≡ is_tuple (datatype_tree datatype.now) }
{
    match datatype {
        Datatype::Record(record) => record.is_tuple(),
        _ => false,
    }
}

/// Whether a parameter of the type can be lowered.
pub fn can_be_param(tref: &TypeRef) -> bool
    ensures { result ≡ can_be_param (tree_of tref.now) }
{
    match tref {
        TypeRef::Name(_) => true,
        TypeRef::Value(datatype) => match &**datatype {
            Datatype::Builtin(_)
            | Datatype::Pointer(_)
            | Datatype::ConstPointer(_)
            | Datatype::List(_) => true,
            Datatype::Record(_) | Datatype::Variant(_) | Datatype::Handle(_) => false,
        },
    }
}

/// Whether a parameter of the type is passed as one I32.
pub fn passes_one_i32(tref: &TypeRef) -> bool
    ensures { result ≡ same_types (param_words (plain (tree_of tref.now))) (WasmType.I32 ∷ []) }
{
    is_one_i32(tref.type_())
}

fn is_one_i32(datatype: &Datatype) -> bool
    ensures { result ≡ same_types (param_words (plain (datatype_tree datatype.now))) (WasmType.I32 ∷ []) }
{
    match datatype {
        Datatype::Builtin(builtin) => matches!(builtin_word(*builtin), WasmType::I32),
        Datatype::Record(record) => record_is_one_i32(record),
        Datatype::List(_) => false,
        Datatype::Variant(_)
        | Datatype::Handle(_)
        | Datatype::Pointer(_)
        | Datatype::ConstPointer(_) => true,
    }
}

fn record_is_one_i32(record: &RecordDatatype) -> bool
    ensures { result ≡ same_types (param_words (plain (record_tree «record».now))) (WasmType.I32 ∷ []) }
{
    match record.kind {
        RecordKind::Bitflags(IntRepr::U64) => false,
        RecordKind::Bitflags(IntRepr::U8 | IntRepr::U16 | IntRepr::U32)
        | RecordKind::Tuple
        | RecordKind::Other => true,
    }
}

/// Whether a type is a list, names looked through.
pub fn is_list(tref: &TypeRef) -> bool
    ensures { result ≡ is_list_type (plain (tree_of tref.now)) }
{
    datatype_is_list(tref.type_())
}

fn datatype_is_list(datatype: &Datatype) -> bool
    ensures { result ≡ is_list_type (plain (datatype_tree datatype.now)) }
{
    matches!(datatype, Datatype::List(_))
}

/// The members of a tuple, names looked through.
pub fn tuple_members(tref: &TypeRef) -> Option<&Members>
    ensures { option_map (λ ms. map (λ m. tree_of m.tref) ms.now) result ≡ tuple_types (tree_of tref.now) }
{
    datatype_members(tref.type_())
}

fn datatype_members(datatype: &Datatype) -> Option<&Members>
    ensures { option_map (λ ms. map (λ m. tree_of m.tref) ms.now) result ≡ tuple_types (datatype_tree datatype.now) }
{
    match datatype {
        Datatype::Record(record) => record_members(record),
        _ => None,
    }
}

fn record_members(record: &RecordDatatype) -> Option<&Members>
    ensures { option_map (λ ms. map (λ m. tree_of m.tref) ms.now) result ≡ tuple_types (record_tree «record».now) }
{
    match record.kind {
        RecordKind::Tuple => Some(&record.members),
        RecordKind::Bitflags(_) | RecordKind::Other => None,
    }
}
