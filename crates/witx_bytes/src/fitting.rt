//! Whether each part of a type fits its tag, targets of lists and pointers aside.
#![tactic(auto, using(crate::proofs::Fits::fit_rules))]

ghost use Rattle.std.specs.Prelude.{◌≡◌, nat_le, ◌^◌, ◌&&◌};
ghost use Rattle.witx_ast.specs.Plain.{plain};
ghost use Rattle.witx_ast.specs.Views.{tree_of, datatype_tree, record_tree, variant_tree, members_plain, cases_plain};
ghost use Rattle.witx_ast.specs.Tags.{fits, flags_fit, fields_fit, arms_fit, repr_bits};
ghost use Rattle.witx_bytes.specs.Payloads.{payload_fits};

use witx_ast::{
    Case, Datatype, IntRepr, RecordDatatype, RecordKind, RecordMember, TypeRef, Variant,
};

/// Whether each type that is reached fits its tag: names are looked through, the targets of lists and
/// pointers aren't entered.
#[cycle(fitting)]
pub fn writable(ty: &TypeRef) -> bool
    ensures { result ≡ fits (plain (tree_of ty.now)) }
{
    match ty {
        TypeRef::Name(named) => writable(&named.tref),
        TypeRef::Value(datatype) => datatype_fits(datatype),
    }
}

#[cycle(fitting)]
fn datatype_fits(datatype: &Datatype) -> bool
    ensures { result ≡ fits (plain (datatype_tree datatype.now)) }
{
    match datatype {
        Datatype::Record(record) => record_fits(record),
        Datatype::Variant(variant) => variant_fits(variant),
        Datatype::Handle(_) => true,
        Datatype::List(_) => true,
        Datatype::Pointer(_) => true,
        Datatype::ConstPointer(_) => true,
        Datatype::Builtin(_) => true,
    }
}

#[cycle(fitting)]
fn record_fits(record_type: &RecordDatatype) -> bool
    ensures { result ≡ fits (plain (record_tree record_type.now)) }
{
    let members = record_type.members.as_slice();
    kind_fits(record_type.kind, members.len()) && members_fit(members)
}

#[cycle(fitting)]
fn variant_fits(variant: &Variant) -> bool
    ensures { result ≡ fits (plain (variant_tree variant.now)) }
{
    let cases = variant.cases.as_slice();
    count_fits(cases.len(), variant.tag_repr) && cases_fit(cases)
}

#[cycle(fitting)]
fn members_fit(members: &[RecordMember]) -> bool
    ensures { result ≡ fields_fit (members_plain members.now) }
{
    for member in members {
        if !writable(&member.tref) {
            return false;
        }
    }
    true
}

#[cycle(fitting)]
fn cases_fit(cases: &[Case]) -> bool
    ensures { result ≡ arms_fit (cases_plain cases.now) }
{
    for case in cases {
        if !case_fits(case) {
            return false;
        }
    }
    true
}

#[cycle(fitting)]
fn case_fits(case: &Case) -> bool
    ensures { result ≡ payload_fits case.now }
{
    match &case.tref {
        Some(tref) => writable(tref),
        None => true,
    }
}

/// Whether flags, as many as there are members, fit their representation.
fn kind_fits(kind: RecordKind, count: usize) -> bool
    ensures { result ≡ flags_fit kind count }
{
    match kind {
        RecordKind::Bitflags(repr) => count <= bits(repr),
        RecordKind::Tuple => true,
        RecordKind::Other => true,
    }
}

pub(crate) fn bits(repr: IntRepr) -> usize
    ensures { result ≡ repr_bits repr }
{
    match repr {
        IntRepr::U8 => 8,
        IntRepr::U16 => 16,
        IntRepr::U32 => 32,
        IntRepr::U64 => 64,
    }
}

/// Whether as many cases have numbers in the tag, and below 2^32.
pub(crate) fn count_fits(count: usize, repr: IntRepr) -> bool
    ensures { result ≡ (nat_le count (2 ^ repr_bits repr) && nat_le count (2 ^ 32)) }
{
    let most = match repr {
        IntRepr::U8 => 1 << 8,
        IntRepr::U16 => 1 << 16,
        IntRepr::U32 | IntRepr::U64 => 1 << 32,
    };
    count <= most
}
