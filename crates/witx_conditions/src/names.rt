//! Whether each name in a type is that of a typename that stands before, for an equal type.
#![tactic(auto, using(crate::proofs::Naming::name_rules))]

ghost use Rattle.std.specs.Prelude.{◌≡◌, map};
ghost use Rattle.witx_ast.specs.{Definitions.{definition_tree}, Tree.{arms_of, fields_of}};
ghost use Rattle.witx_ast.specs.Views.{case_arm, datatype_tree, member_field, tree_of};
ghost use Rattle.witx_conditions.specs.NameTests.{arms_stand, fields_stand, names_stand, payload_stands};

use crate::lookup::stands_before;
use witx_ast::{Case, Datatype, Definition, RecordMember, TypeRef};

/// Whether so it is of each name in this type. What a name stands for isn't entered.
#[cycle(naming)]
pub(crate) fn names_stand(before: &[Definition], tref: &TypeRef) -> bool
    ensures { result ≡ names_stand (map definition_tree before.now) (tree_of tref.now) }
{
    match tref {
        TypeRef::Name(named) => stands_before(before, named),
        TypeRef::Value(datatype) => datatype_stands(before, datatype),
    }
}

#[cycle(naming)]
fn datatype_stands(before: &[Definition], datatype: &Datatype) -> bool
    ensures { result ≡ names_stand (map definition_tree before.now) (datatype_tree datatype.now) }
{
    match datatype {
        Datatype::Record(record) => members_stand(before, record.members.as_slice()),
        Datatype::Variant(variant) => cases_stand(before, variant.cases.as_slice()),
        Datatype::Handle(_) => true,
        Datatype::List(tref) => names_stand(before, tref),
        Datatype::Pointer(tref) => names_stand(before, tref),
        Datatype::ConstPointer(tref) => names_stand(before, tref),
        Datatype::Builtin(_) => true,
    }
}

#[cycle(naming)]
fn members_stand(before: &[Definition], members: &[RecordMember]) -> bool
    ensures { result ≡ fields_stand (map definition_tree before.now) (fields_of (map member_field members.now)) }
{
    for member in members {
        if !names_stand(before, &member.tref) {
            return false;
        }
    }
    true
}

#[cycle(naming)]
fn cases_stand(before: &[Definition], cases: &[Case]) -> bool
    ensures { result ≡ arms_stand (map definition_tree before.now) (arms_of (map case_arm cases.now)) }
{
    for case in cases {
        if !case_stands(before, case) {
            return false;
        }
    }
    true
}

#[cycle(naming)]
fn case_stands(before: &[Definition], case: &Case) -> bool
    ensures { result ≡ payload_stands (map definition_tree before.now) case.now.tref }
{
    match &case.tref {
        Some(tref) => names_stand(before, tref),
        None => true,
    }
}
