//! What a hasher is fed of a type: the type as it is written, part by part, and of a name its text, so that a set tells
//! types apart without comparing each with each, and what a name stands for isn't gone through.
#![tactic(auto, using(crate::proofs::Feeding::feed_rules))]

ghost use Rattle.std.specs.{Prelude.{◌≡◌, map, option_map}, List.{fold}};
ghost use Rattle.witx_ast.specs.Tree.{fields_of, arms_of};
ghost use Rattle.witx_ast.specs.Views.{tree_of, datatype_tree, member_field, case_arm};
ghost use Rattle.witx_ast.specs.Written.{type_writes, member_writes, members_writes, payload_writes, case_writes, cases_writes};

use crate::types::{Case, Datatype, RecordMember, TypeRef};
use std::hash::{Hash, Hasher};

/// A type by its name, or as it is written out.
#[cycle(written)]
pub fn feed_type<H: Hasher>(tref: &TypeRef, state: &mut H)
    ensures { state.new ≡ fold H.write state.old (type_writes (tree_of tref.now)) }
{
    match tref {
        TypeRef::Name(named) => {
            state.write_u8(0);
            named.name.hash(state);
        }
        TypeRef::Value(datatype) => feed_datatype(datatype, state),
    }
}

#[cycle(written)]
fn feed_datatype<H: Hasher>(datatype: &Datatype, state: &mut H)
    ensures { state.new ≡ fold H.write state.old (type_writes (datatype_tree datatype.now)) }
{
    match datatype {
        Datatype::Builtin(builtin) => {
            state.write_u8(1);
            builtin.hash(state);
        }
        Datatype::Handle(_) => state.write_u8(2),
        Datatype::List(target) => {
            state.write_u8(3);
            feed_type(target, state);
        }
        Datatype::Pointer(target) => {
            state.write_u8(4);
            feed_type(target, state);
        }
        Datatype::ConstPointer(target) => {
            state.write_u8(5);
            feed_type(target, state);
        }
        Datatype::Record(record) => {
            state.write_u8(6);
            record.kind.hash(state);
            feed_members(record.members.as_slice(), state);
        }
        Datatype::Variant(variant) => {
            state.write_u8(7);
            variant.tag_repr.hash(state);
            feed_cases(variant.cases.as_slice(), state);
        }
    }
}

#[cycle(written)]
fn feed_members<H: Hasher>(members: &[RecordMember], state: &mut H)
    ensures { state.new ≡ fold H.write state.old (members_writes (fields_of (map member_field members.now))) }
{
    for member in members {
        feed_member(member, state);
    }
    state.write_u8(0);
}

#[cycle(written)]
fn feed_member<H: Hasher>(member: &RecordMember, state: &mut H)
    ensures { state.new ≡ fold H.write state.old
        (member_writes member.now.name (type_writes (tree_of member.now.tref)) member.now.docs) }
{
    state.write_u8(1);
    member.name.hash(state);
    feed_type(&member.tref, state);
    member.docs.hash(state);
}

#[cycle(written)]
fn feed_cases<H: Hasher>(cases: &[Case], state: &mut H)
    ensures { state.new ≡ fold H.write state.old (cases_writes (arms_of (map case_arm cases.now))) }
{
    for case in cases {
        feed_case(case, state);
    }
    state.write_u8(0);
}

#[cycle(written)]
fn feed_case<H: Hasher>(case: &Case, state: &mut H)
    ensures { state.new ≡ fold H.write state.old
        (case_writes case.now.name (option_map (λ t. type_writes (tree_of t)) case.now.tref) case.now.docs) }
{
    feed_payload(&case.tref, state);
    case.name.hash(state);
    case.docs.hash(state);
}

#[cycle(written)]
fn feed_payload<H: Hasher>(payload: &Option<TypeRef>, state: &mut H)
    ensures { state.new ≡ fold H.write state.old (payload_writes (option_map (λ t. type_writes (tree_of t)) payload.now)) }
{
    match payload {
        Some(tref) => {
            state.write_u8(2);
            feed_type(tref, state);
        }
        None => state.write_u8(1),
    }
}
