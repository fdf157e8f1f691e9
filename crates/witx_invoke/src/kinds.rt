//! Which types are passed by address, and how flags and tags are represented.
#![tactic(auto, using(crate::proofs::KindLemmas::kept_rules))]

ghost use Rattle.std.specs.Prelude.{◌≡◌, ◌%◌};
ghost use Rattle.witx_ast.specs.{Plain.{plain}, Views.{tree_of, datatype_tree, record_tree}};
ghost use Rattle.witx_machine.specs.Functions.{by_address};
ghost use Rattle.witx_machine.specs.Words.{repr_modulus, repr_word_type as type_of_word};
ghost use Rattle.witx_invoke.specs.Representing.{flags_kept, tag_kept};

use witx_ast::{Datatype, IntRepr, RecordDatatype, RecordKind, TypeRef};
use witx_machine::WasmType;

/// Whether a value of the type is passed by address: a record that isn't flags, or a variant with a payload.
#[tactic(auto, using(crate::proofs::KindLemmas::kind_rules))]
pub(crate) fn is_by_address(ty: &TypeRef) -> bool
    ensures { result ≡ by_address (plain (tree_of ty.now)) }
{
    is_datatype_by_address(ty.type_())
}

#[tactic(auto, using(crate::proofs::KindLemmas::kind_rules))]
fn is_datatype_by_address(datatype: &Datatype) -> bool
    ensures { result ≡ by_address (plain (datatype_tree datatype.now)) }
{
    match datatype {
        Datatype::Record(record) => is_record_by_address(record),
        Datatype::Variant(variant) => !variant.is_enum(),
        Datatype::Handle(_) => false,
        Datatype::List(_) => false,
        Datatype::Pointer(_) => false,
        Datatype::ConstPointer(_) => false,
        Datatype::Builtin(_) => false,
    }
}

#[tactic(auto, using(crate::proofs::KindLemmas::kind_rules))]
fn is_record_by_address(members: &RecordDatatype) -> bool
    ensures { result ≡ by_address (plain (record_tree members.now)) }
{
    match members.kind {
        RecordKind::Bitflags(_) => false,
        RecordKind::Tuple => true,
        RecordKind::Other => true,
    }
}

/// The representation of flags, and how many they are; none where the type isn't one of flags.
pub(crate) fn flags_repr(ty: &TypeRef) -> Option<(IntRepr, usize)>
    ensures { result ≡ flags_kept (plain (tree_of ty.now)) }
{
    datatype_flags_repr(ty.type_())
}

fn datatype_flags_repr(datatype: &Datatype) -> Option<(IntRepr, usize)>
    ensures { result ≡ flags_kept (plain (datatype_tree datatype.now)) }
{
    match datatype {
        Datatype::Record(record) => record_flags_repr(record),
        Datatype::Variant(_) => None,
        Datatype::Handle(_) => None,
        Datatype::List(_) => None,
        Datatype::Pointer(_) => None,
        Datatype::ConstPointer(_) => None,
        Datatype::Builtin(_) => None,
    }
}

fn record_flags_repr(members: &RecordDatatype) -> Option<(IntRepr, usize)>
    ensures { result ≡ flags_kept (plain (record_tree members.now)) }
{
    match members.kind {
        RecordKind::Bitflags(repr) => Some((repr, members.members.len())),
        RecordKind::Tuple => None,
        RecordKind::Other => None,
    }
}

/// The representation of a variant's tag; none where the type isn't a variant.
pub(crate) fn tag_repr(ty: &TypeRef) -> Option<IntRepr>
    ensures { result ≡ tag_kept (plain (tree_of ty.now)) }
{
    datatype_tag_repr(ty.type_())
}

fn datatype_tag_repr(datatype: &Datatype) -> Option<IntRepr>
    ensures { result ≡ tag_kept (plain (datatype_tree datatype.now)) }
{
    match datatype {
        Datatype::Variant(variant) => Some(variant.tag_repr),
        Datatype::Record(_) => None,
        Datatype::Handle(_) => None,
        Datatype::List(_) => None,
        Datatype::Pointer(_) => None,
        Datatype::ConstPointer(_) => None,
        Datatype::Builtin(_) => None,
    }
}

/// The type of the word in which flags of a representation are kept.
pub(crate) fn repr_word_type(repr: IntRepr) -> WasmType
    ensures { result ≡ type_of_word repr }
{
    match repr {
        IntRepr::U8 | IntRepr::U16 | IntRepr::U32 => WasmType::I32,
        IntRepr::U64 => WasmType::I64,
    }
}

/// Bits, cut to the width of a representation.
pub(crate) fn cut_to(repr: IntRepr, bits: u64) -> u64
    ensures { result ≡ bits % repr_modulus repr }
{
    match repr {
        IntRepr::U8 => bits % (1 << 8),
        IntRepr::U16 => bits % (1 << 16),
        IntRepr::U32 => bits % (1 << 32),
        IntRepr::U64 => bits,
    }
}
