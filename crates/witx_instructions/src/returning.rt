//! Whether a record or a variant can come back as a result.
#![tactic(auto, using(witx_ast::proofs::TreeKinds::kind_rules, crate::proofs::Results::lowerable_rules))]

ghost use Rattle.std.specs.Prelude.{◌≡◌, map};
ghost use Rattle.witx_ast.specs.Views.{tree_of, datatype_tree, record_tree, variant_tree};
ghost use Rattle.witx_machine.specs.Lowerable.{can_be_ok, can_be_err, can_return, cases_can_return, members_are_named, all_names};
ghost use Rattle.witx_instructions.specs.Views.{variant_arms, payload_tree};

use crate::reading::{err_type, is_tuple, ok_type, passes_one_i32};
use witx_ast::{Datatype, IntRepr, Members, RecordDatatype, RecordKind, TypeRef, Variant};

/// Whether a record can come back: named flags.
pub fn record_can_return(record: &RecordDatatype, named: bool) -> bool
    ensures { result ≡ can_return named (record_tree «record».now) }
{
    match record.kind {
        RecordKind::Bitflags(_) => named,
        RecordKind::Tuple | RecordKind::Other => false,
    }
}

/// Whether a variant can come back, as a result of `ok` and `err`.
pub fn variant_can_return(variant: &Variant, named: bool) -> bool
    ensures { result ≡ can_return named (variant_tree variant.now) }
{
    match variant.tag_repr {
        IntRepr::U64 => false,
        IntRepr::U8 | IntRepr::U16 | IntRepr::U32 => { cases_can_return(variant, named) }
    }
}

fn cases_can_return(variant: &Variant, named: bool) -> bool
    ensures { result ≡ cases_can_return named (variant_arms variant.now) }
{
    variant.as_expected().is_some()
        && (!variant.is_enum() || named)
        && can_be_ok(ok_type(variant))
        && can_be_err(err_type(variant))
}

fn can_be_ok(ok: Option<&TypeRef>) -> bool
    ensures { result ≡ can_be_ok (payload_tree ok.entry) }
{
    match ok {
        None => true,
        Some(tref) => (tref.named() || is_tuple(tref)) && members_are_named(tref.type_()),
    }
}

fn can_be_err(err: Option<&TypeRef>) -> bool
    ensures { result ≡ can_be_err (payload_tree err.entry) }
{
    match err {
        None => true,
        Some(tref) => tref.named() && passes_one_i32(tref),
    }
}

// Whether the members of a tuple are names; true for what isn't a tuple.
fn members_are_named(datatype: &Datatype) -> bool
    ensures { result ≡ members_are_named (datatype_tree datatype.now) }
{
    match datatype {
        Datatype::Record(record) => tuple_is_named(record),
        _ => true,
    }
}

fn tuple_is_named(record: &RecordDatatype) -> bool
    ensures { result ≡ members_are_named (record_tree «record».now) }
{
    match record.kind {
        RecordKind::Tuple => all_are_named(&record.members),
        RecordKind::Bitflags(_) | RecordKind::Other => true,
    }
}

fn all_are_named(members: &Members) -> bool
    ensures { result ≡ all_names (map (λ m. tree_of m.tref) members.now) }
{
    for member in members.as_slice() {
        if !member.tref.named() {
            return false;
        }
    }
    true
}
