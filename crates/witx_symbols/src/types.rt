//! Whether two types are alike.
#![tactic(auto, using(crate::proofs::AlikeTypes::alike_rules))]

ghost use Rattle.std.specs.Prelude.{◌≡◌, ◌&&◌, option_map};
ghost use Rattle.witx_ast.specs.{Plain.{plain}, Views.{tree_of, datatype_tree, members_plain, cases_plain}};
ghost use Rattle.witx_ast.specs.Alike.{same_plain, same_plain_fields, same_plain_arms};
ghost use Rattle.witx_base.specs.SameBytes.{same_bytes};
ghost use Rattle.witx_symbols.specs.Payloads.{payloads_alike};

use witx_ast::{Case, Datatype, RecordMember, TypeRef};

/// Whether two types are alike: names looked through, and documentation left out.
#[cycle(alike)]
pub fn alike(a: &TypeRef, b: &TypeRef) -> bool
    ensures { result ≡ same_plain (plain (tree_of a.now)) (plain (tree_of b.now)) }
{
    let mut tref = a;
    loop {
        match tref {
            TypeRef::Name(named) => tref = &named.tref,
            TypeRef::Value(datatype) => return datatypes_alike(datatype, b.type_()),
        }
    }
}

/// The same of types that are written out.
#[cycle(alike)]
pub(crate) fn datatypes_alike(a: &Datatype, b: &Datatype) -> bool
    ensures { result ≡ same_plain (plain (datatype_tree a.now)) (plain (datatype_tree b.now)) }
{
    match (a, b) {
        (Datatype::Builtin(x), Datatype::Builtin(y)) => *x == *y,
        (Datatype::Handle(_), Datatype::Handle(_)) => true,
        (Datatype::List(x), Datatype::List(y)) => alike(x, y),
        (Datatype::Pointer(x), Datatype::Pointer(y)) => alike(x, y),
        (Datatype::ConstPointer(x), Datatype::ConstPointer(y)) => alike(x, y),
        (Datatype::Record(x), Datatype::Record(y)) => {
            x.kind == y.kind && members_alike(x.members.as_slice(), y.members.as_slice())
        }
        (Datatype::Variant(x), Datatype::Variant(y)) => {
            x.tag_repr == y.tag_repr && cases_alike(x.cases.as_slice(), y.cases.as_slice())
        }
        _ => false,
    }
}

#[cycle(alike)]
fn members_alike(a: &[RecordMember], b: &[RecordMember]) -> bool
    ensures { result ≡ same_plain_fields (members_plain a.now) (members_plain b.now) }
{
    if a.len() != b.len() {
        return false;
    }
    for i in 0..a.len() {
        if !member_alike(&a[i], &b[i]) {
            return false;
        }
    }
    true
}

#[cycle(alike)]
fn member_alike(a: &RecordMember, b: &RecordMember) -> bool
    ensures { result ≡ same_bytes a.now.name b.now.name && same_plain (plain (tree_of a.now.tref))
        (plain (tree_of b.now.tref)) }
{
    a.name == b.name && alike(&a.tref, &b.tref)
}

#[cycle(alike)]
fn cases_alike(a: &[Case], b: &[Case]) -> bool
    ensures { result ≡ same_plain_arms (cases_plain a.now) (cases_plain b.now) }
{
    if a.len() != b.len() {
        return false;
    }
    for i in 0..a.len() {
        if !case_alike(&a[i], &b[i]) {
            return false;
        }
    }
    true
}

#[cycle(alike)]
fn case_alike(a: &Case, b: &Case) -> bool
    ensures { result ≡ same_bytes a.now.name b.now.name && payloads_alike (option_map tree_of a.now.tref)
        (option_map tree_of b.now.tref) }
{
    a.name == b.name && payloads_alike(&a.tref, &b.tref)
}

#[cycle(alike)]
fn payloads_alike(a: &Option<TypeRef>, b: &Option<TypeRef>) -> bool
    ensures { result ≡ payloads_alike (option_map tree_of a.now) (option_map tree_of b.now) }
{
    match (a, b) {
        (None, None) => true,
        (Some(x), Some(y)) => alike(x, y),
        _ => false,
    }
}
