//! Whether a value is one of a type.
#![tactic(auto, using(crate::proofs::Belonging::value_rules))]

ghost use Rattle.std.specs.Prelude.{◌≡◌, ◌^◌, Some, nat_lt, option_map};
ghost use Rattle.witx_ast.specs.Plain.{plain, builtin, handle, list_of, pointer_to, const_pointer_to, record_of, variant_of, all_bare};
ghost use Rattle.witx_ast.specs.Views.{tree_of, datatype_tree, record_tree, variant_tree, members_plain, cases_plain};
ghost use Rattle.witx_ast.specs.ValueTests.{is_value as is_of, are_values as are_of};
ghost use Rattle.witx_ast.specs.{declared.types.IntRepr.{IntRepr}, declared.types.RecordKind.{RecordKind}};
ghost use Rattle.witx_bytes.specs.{Payloads.{is_case, is_payload_of}, Seen.{seen, seen_in, values_seen}};

use crate::numbers::in_range;
use crate::value::Value;
use std::boxed::Box;
use witx_ast::{
    BuiltinType, Case, Datatype, RecordDatatype, RecordKind, RecordMember, TypeRef, Variant,
};

/// Whether it is a value of the type, names looked through.
#[cycle(membership)]
#[tactic(auto, using(crate::proofs::Belonging::member_rules))]
pub fn is_value(ty: &TypeRef, value: &Value) -> bool
    ensures { result ≡ is_of (plain (tree_of ty.now)) (seen value.now) }
{
    match ty {
        TypeRef::Name(named) => is_value(&named.tref, value),
        TypeRef::Value(datatype) => is_datatype_value(datatype, value),
    }
}

#[cycle(membership)]
#[tactic(auto, using(crate::proofs::Belonging::member_rules))]
fn is_datatype_value(datatype: &Datatype, value: &Value) -> bool
    ensures { result ≡ is_of (plain (datatype_tree datatype.now)) (seen value.now) }
{
    match datatype {
        Datatype::Record(record) => is_record_value(record, value),
        Datatype::Variant(variant) => is_variant_value(variant, value),
        Datatype::Handle(_) => is_handle(value),
        Datatype::List(target) => is_list(target, value),
        Datatype::Pointer(target) => is_pointer(target, value),
        Datatype::ConstPointer(target) => is_const_pointer(target, value),
        Datatype::Builtin(builtin) => is_number(*builtin, value),
    }
}

#[cycle(membership)]
#[tactic(auto, using(crate::proofs::Belonging::member_rules))]
fn is_record_value(record_type: &RecordDatatype, value: &Value) -> bool
    ensures { result ≡ is_of (plain (record_tree record_type.now)) (seen value.now) }
{
    match record_type.kind {
        RecordKind::Bitflags(_) => are_flags(record_type.members.as_slice(), value),
        RecordKind::Tuple => is_tuple(record_type.members.as_slice(), value),
        RecordKind::Other => is_record(record_type.members.as_slice(), value),
    }
}

#[cycle(membership)]
fn is_tuple(members: &[RecordMember], value: &Value) -> bool
    ensures { result ≡ is_of (record_of RecordKind.Tuple (members_plain members.now)) (seen value.now) }
{
    match value {
        Value::Tuple(values) => are_member_values(members, values.as_slice()),
        _ => false,
    }
}

#[cycle(membership)]
fn is_record(members: &[RecordMember], value: &Value) -> bool
    ensures { result ≡ is_of (record_of RecordKind.Other (members_plain members.now)) (seen value.now) }
{
    match value {
        Value::Rec(values) => are_member_values(members, values.as_slice()),
        _ => false,
    }
}

/// Whether there is a value for each member, and no further one.
#[cycle(membership)]
#[tactic(auto, using(crate::proofs::Belonging::loop_rules))]
fn are_member_values(members: &[RecordMember], values: &[Value]) -> bool
    ensures { result ≡ are_of (members_plain members.now) (values_seen values.now) }
{
    if members.len() != values.len() {
        return false;
    }
    for i in 0..members.len() {
        let member = &members[i];
        let value = &values[i];
        if !is_value(&member.tref, value) {
            return false;
        }
    }
    true
}

#[cycle(membership)]
#[tactic(auto, using(crate::proofs::Belonging::member_rules))]
fn is_variant_value(variant: &Variant, value: &Value) -> bool
    ensures { result ≡ is_of (plain (variant_tree variant.now)) (seen value.now) }
{
    is_case_value(variant.cases.as_slice(), value)
}

#[cycle(membership)]
fn is_case_value(cases: &[Case], value: &Value) -> bool
    ensures { (r : IntRepr) → result ≡ is_of (variant_of r (cases_plain cases.now)) (seen value.now) }
{
    match value {
        Value::Enum(i) => are_bare(cases) && (*i as usize) < cases.len(),
        Value::Case(i, payload) => !are_bare(cases) && is_payload(cases, *i as usize, payload),
        _ => false,
    }
}

/// Whether the payload, or that there is none, is right for case i.
#[cycle(membership)]
#[tactic(auto, using(crate::proofs::Belonging::loop_rules))]
fn is_payload(cases: &[Case], i: usize, payload: &Option<Box<Value>>) -> bool
    ensures { result ≡ is_case (cases_plain cases.now) i (option_map seen_in payload.now) }
{
    if i >= cases.len() {
        return false;
    }
    let case = &cases[i];
    is_case_payload(case, payload)
}

#[cycle(membership)]
#[tactic(auto, using(crate::proofs::Belonging::member_rules))]
fn is_case_payload(case: &Case, payload: &Option<Box<Value>>) -> bool
    ensures { result ≡ is_payload_of case.now.tref (option_map seen_in payload.now) }
{
    match payload {
        Some(value) => has_payload(case, value),
        None => case.tref.is_none(),
    }
}

#[cycle(membership)]
#[tactic(auto, using(crate::proofs::Belonging::member_rules))]
fn has_payload(case: &Case, value: &Value) -> bool
    ensures { result ≡ is_payload_of case.now.tref (Some (seen value.now)) }
{
    match &case.tref {
        Some(tref) => is_value(tref, value),
        None => false,
    }
}

/// Whether no case has a payload.
#[tactic(auto, using(crate::proofs::Belonging::loop_rules))]
pub fn are_bare(cases: &[Case]) -> bool
    ensures { result ≡ all_bare (cases_plain cases.now) }
{
    for case in cases {
        if case.tref.is_some() {
            return false;
        }
    }
    true
}

/// Flags are as many as there are members.
fn are_flags(members: &[RecordMember], value: &Value) -> bool
    ensures { (r : IntRepr)
        → result ≡ is_of (record_of (RecordKind.Bitflags r) (members_plain members.now)) (seen value.now) }
{
    match value {
        Value::Flags(flags) => flags.len() == members.len(),
        _ => false,
    }
}

fn is_number(ty: BuiltinType, value: &Value) -> bool
    ensures { result ≡ is_of (builtin ty) (seen value.now) }
{
    match value {
        Value::Num(kind, number) => *kind == ty && in_range(ty, *number),
        _ => false,
    }
}

fn is_handle(value: &Value) -> bool
    ensures { result ≡ is_of handle (seen value.now) }
{
    match value {
        Value::Handle(number) => is_word(*number),
        _ => false,
    }
}

fn is_list(target: &TypeRef, value: &Value) -> bool
    ensures { result ≡ is_of (list_of (plain (tree_of target.now))) (seen value.now) }
{
    match value {
        Value::List { address, length } => is_word(*address) && is_word(*length),
        _ => false,
    }
}

fn is_pointer(target: &TypeRef, value: &Value) -> bool
    ensures { result ≡ is_of (pointer_to (plain (tree_of target.now))) (seen value.now) }
{
    match value {
        Value::Pointer(address) => is_word(*address),
        _ => false,
    }
}

fn is_const_pointer(target: &TypeRef, value: &Value) -> bool
    ensures { result ≡ is_of (const_pointer_to (plain (tree_of target.now))) (seen value.now) }
{
    match value {
        Value::ConstPointer(address) => is_word(*address),
        _ => false,
    }
}

/// Whether a number is one of 32 bits, as handles, addresses and lengths are.
fn is_word(number: u32) -> bool
    ensures { result ≡ nat_lt number (2 ^ 32) }
{
    (number as u64) < 1 << 32
}
