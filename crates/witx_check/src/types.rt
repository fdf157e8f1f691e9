//! Types: the checks of each form of syntax, and the type that it means.
#![tactic(auto, using(crate::proofs::Onward::type_rules))]

ghost use Rattle.std.specs.Prelude.{◌≡◌, IfOk, IfErr, OnOk, None, [], map, option_map};
ghost use Rattle.witx_syntax_tree.specs.Views.{type_view, fields_view, types_view, union_fields_view, cases_view, boxed_view};
ghost use Rattle.witx_scope.specs.SyntaxChecks.{lacks_name, checks_of, payload_view, part_checks, record_checks, record_meant, tuple_checks, tuple_meant, expected_checks, expected_meant, all_tag_checks, union_checks, union_meant, variant_checks, variant_meant};
ghost use Rattle.witx_scope.specs.Faults.{first_fault};
ghost use Rattle.witx_scope.specs.Checks.{field_checks, each_type_checks, maybe_checks, case_checks};
ghost use Rattle.witx_scope.specs.Trees.{tree_meant, fields_meant, types_meant, maybe_tree, union_arms, case_arms};
ghost use Rattle.witx_scope.specs.{Tags.{tag_repr, tag_names}, Blame.{Blames}, Senses.{here_of}};
ghost use Rattle.witx_ast.specs.Views.{tree_of, member_field, case_arm};

use crate::parts::{
    Tag, bool_type, builtin_type, checked_case, checked_enum, checked_flags, checked_size,
    expected_type, number_name, ordered_type, push_case, push_member, string_type, tag_of,
    union_name, value, variant_type,
};
use witx_ast::{
    Cases, Datatype, HandleDatatype, IntRepr, Members, RecordDatatype, RecordKind, RecordMember,
    TypeRef,
};
use witx_base::Text;
use witx_scope::{
    CheckError, Marks, Scope, TagNames, anonymous_type, introduce_mark, used, with_room,
};
use witx_syntax_tree::{
    CaseSyntax, Documented, ExpectedSyntax, FieldSyntax, RecordSyntax, TupleSyntax, TypedefSyntax,
    UnionSyntax, VariantSyntax,
};

/// Whether a type that stands for itself only under a name has none.
#[tactic(auto, using(crate::proofs::SyntaxTrees::form_rules))]
fn is_anonymous(syntax: &TypedefSyntax<'_>, named: bool) -> bool
    ensures { result ≡ lacks_name named (type_view syntax.now) }
{
    match syntax {
        TypedefSyntax::Handle(_)
        | TypedefSyntax::Record(_)
        | TypedefSyntax::Enum(_)
        | TypedefSyntax::Flags(_)
        | TypedefSyntax::Union(_) => !named,
        TypedefSyntax::Ident(_)
        | TypedefSyntax::Builtin(_)
        | TypedefSyntax::List(_)
        | TypedefSyntax::Pointer(_)
        | TypedefSyntax::ConstPointer(_)
        | TypedefSyntax::Tuple(_)
        | TypedefSyntax::Variant(_)
        | TypedefSyntax::Expected(_)
        | TypedefSyntax::String
        | TypedefSyntax::Bool => false,
    }
}

/// The type of a syntax, whose place is that of the innermost identifier around it.
#[cycle(types)]
#[tactic(auto, using(crate::proofs::Onward::guarded_rules))]
pub fn checked_type(
    syntax: &TypedefSyntax<'_>,
    scope: &Scope<'_>,
    named: bool,
    near: usize,
) -> Result<TypeRef, CheckError>
    ensures ok { OnOk result (first_fault (checks_of (here_of scope.now) named near syntax.now) ≡ None) }
    ensures tree { IfOk result (λ t. tree_of t ≡ tree_meant (here_of scope.now) (type_view syntax.now)) }
    ensures fault { IfErr result (λ e. Blames e (first_fault (checks_of (here_of scope.now) named near syntax.now))) }
{
    if is_anonymous(syntax, named) {
        return Err(anonymous_type(scope, near));
    }
    match syntax {
        TypedefSyntax::Ident(name) => used(scope, name),
        TypedefSyntax::Builtin(of) => Ok(value(scope.alloc, Datatype::Builtin(builtin_type(*of)))?),
        TypedefSyntax::List(of) => {
            let of = checked_type(of, scope, false, near)?;
            Ok(value(scope.alloc, Datatype::List(of))?)
        }
        TypedefSyntax::Pointer(of) => {
            let of = checked_type(of, scope, false, near)?;
            Ok(value(scope.alloc, Datatype::Pointer(of))?)
        }
        TypedefSyntax::ConstPointer(of) => {
            let of = checked_type(of, scope, false, near)?;
            Ok(value(scope.alloc, Datatype::ConstPointer(of))?)
        }
        TypedefSyntax::Handle(_) => Ok(value(scope.alloc, Datatype::Handle(HandleDatatype))?),
        TypedefSyntax::Record(of) => checked_record(of, scope),
        TypedefSyntax::Tuple(of) => checked_tuple(of, scope, near),
        TypedefSyntax::Enum(of) => checked_enum(of, scope, near),
        TypedefSyntax::Flags(of) => checked_flags(of, scope, near),
        TypedefSyntax::Union(of) => checked_union(of, scope, near),
        TypedefSyntax::Variant(of) => checked_variant(of, scope, near),
        TypedefSyntax::Expected(of) => checked_expected(of, scope, near),
        TypedefSyntax::String => Ok(string_type(scope.alloc)?),
        TypedefSyntax::Bool => Ok(bool_type(scope.alloc)?),
    }
}

#[cycle(types)]
fn checked_record(syntax: &RecordSyntax<'_>, scope: &Scope<'_>) -> Result<TypeRef, CheckError>
    ensures ok { OnOk result (first_fault (record_checks (here_of scope.now) syntax.now) ≡ None) }
    ensures tree { IfOk result (λ t. tree_of t ≡ record_meant (here_of scope.now) syntax.now) }
    ensures fault { IfErr result (λ e. Blames e (first_fault (record_checks (here_of scope.now) syntax.now))) }
{
    let members = checked_rows(syntax.fields.as_slice(), scope)?;
    let kind = RecordKind::Other;
    Ok(value(
        scope.alloc,
        Datatype::Record(RecordDatatype { kind, members }),
    )?)
}

#[cycle(types)]
#[tactic(auto, using(crate::proofs::Onward::row_rules))]
fn checked_rows(
    fields: &[Documented<'_, FieldSyntax<'_>>],
    scope: &Scope<'_>,
) -> Result<Members, CheckError>
    ensures ok { OnOk result (first_fault (field_checks (here_of scope.now) [] (fields_view fields.now)) ≡ None) }
    ensures tree { IfOk result (λ ms. map member_field ms ≡ fields_meant (here_of scope.now) (fields_view fields.now)) }
    ensures fault { IfErr result
        (λ e. Blames e (first_fault (field_checks (here_of scope.now) [] (fields_view fields.now)))) }
{
    let mut names = Marks::new(scope.alloc);
    let mut members: Members = with_room(scope.alloc, fields.len())?;
    for field in fields {
        let at = field.item.name.span.start;
        let name = introduce_mark(&mut names, scope, field.item.name.name, at)?;
        let tref = checked_type(&field.item.type_, scope, false, at)?;
        push_member(&mut members, scope.alloc, name, tref, &field.comments)?;
    }
    Ok(members)
}

#[cycle(types)]
fn checked_tuple(
    syntax: &TupleSyntax<'_>,
    scope: &Scope<'_>,
    near: usize,
) -> Result<TypeRef, CheckError>
    ensures ok { OnOk result
        (first_fault (tuple_checks (here_of scope.now) ((here_of scope.now).place near) syntax.now) ≡ None) }
    ensures tree { IfOk result (λ t. tree_of t ≡ tuple_meant (here_of scope.now) syntax.now) }
    ensures fault { IfErr result (λ e. Blames e
        (first_fault (tuple_checks (here_of scope.now) ((here_of scope.now).place near) syntax.now))) }
{
    let members = checked_parts(syntax.types.as_slice(), scope, near)?;
    let kind = RecordKind::Tuple;
    Ok(value(
        scope.alloc,
        Datatype::Record(RecordDatatype { kind, members }),
    )?)
}

#[cycle(types)]
#[tactic(auto, using(crate::proofs::Onward::part_rules))]
fn checked_parts(
    types: &[TypedefSyntax<'_>],
    scope: &Scope<'_>,
    near: usize,
) -> Result<Members, CheckError>
    ensures ok { OnOk result (first_fault (each_type_checks (here_of scope.now)
        ((here_of scope.now).place near) (types_view types.now)) ≡ None) }
    ensures tree { IfOk result (λ ms. map member_field ms ≡ types_meant (here_of scope.now) 0 (types_view types.now)) }
    ensures fault { IfErr result (λ e. Blames e (first_fault
        (each_type_checks (here_of scope.now) ((here_of scope.now).place near) (types_view types.now)))) }
{
    let mut members: Members = with_room(scope.alloc, types.len())?;
    for i in 0..types.len() {
        let tref = checked_type(&types[i], scope, false, near)?;
        let name = number_name(scope.alloc, i)?;
        let docs = Text::new(scope.alloc, "")?;
        members.push(RecordMember { name, tref, docs })?;
    }
    Ok(members)
}

#[cycle(types)]
fn checked_maybe(
    of: &Option<Box<TypedefSyntax<'_>>>,
    scope: &Scope<'_>,
    near: usize,
) -> Result<Option<TypeRef>, CheckError>
    ensures ok { OnOk result (first_fault
        (maybe_checks (here_of scope.now) ((here_of scope.now).place near) (boxed_view of.now)) ≡ None) }
    ensures tree { IfOk result (λ t. option_map tree_of t ≡ maybe_tree (here_of scope.now) (boxed_view of.now)) }
    ensures fault { IfErr result (λ e. Blames e (first_fault
        (maybe_checks (here_of scope.now) ((here_of scope.now).place near) (boxed_view of.now)))) }
{
    match of {
        Some(of) => Ok(Some(checked_type(of, scope, false, near)?)),
        None => Ok(None),
    }
}

#[cycle(types)]
fn checked_payload(
    of: &Option<TypedefSyntax<'_>>,
    scope: &Scope<'_>,
    near: usize,
) -> Result<Option<TypeRef>, CheckError>
    ensures ok { OnOk result (first_fault
        (maybe_checks (here_of scope.now) ((here_of scope.now).place near) (payload_view of.now)) ≡ None) }
    ensures tree { IfOk result (λ t. option_map tree_of t ≡ maybe_tree (here_of scope.now) (payload_view of.now)) }
    ensures fault { IfErr result (λ e. Blames e (first_fault
        (maybe_checks (here_of scope.now) ((here_of scope.now).place near) (payload_view of.now)))) }
{
    match of {
        Some(of) => Ok(Some(checked_type(of, scope, false, near)?)),
        None => Ok(None),
    }
}

#[cycle(types)]
fn checked_expected(
    syntax: &ExpectedSyntax<'_>,
    scope: &Scope<'_>,
    near: usize,
) -> Result<TypeRef, CheckError>
    ensures ok { OnOk result (first_fault
        (expected_checks (here_of scope.now) ((here_of scope.now).place near) syntax.now) ≡ None) }
    ensures tree { IfOk result (λ t. tree_of t ≡ expected_meant (here_of scope.now) syntax.now) }
    ensures fault { IfErr result (λ e. Blames e
        (first_fault (expected_checks (here_of scope.now) ((here_of scope.now).place near) syntax.now))) }
{
    let ok = checked_maybe(&syntax.ok, scope, near)?;
    let err = checked_maybe(&syntax.err, scope, near)?;
    Ok(expected_type(scope.alloc, ok, err)?)
}

/// The types of a union.
#[cycle(types)]
#[tactic(auto, using(crate::proofs::Onward::union_rules))]
fn union_cases(
    types: &[Documented<'_, TypedefSyntax<'_>>],
    scope: &Scope<'_>,
    names: &Option<TagNames>,
    near: usize,
) -> Result<Cases, CheckError>
    ensures ok { OnOk result (first_fault (part_checks (here_of scope.now) near types.now) ≡ None) }
    ensures tree { IfOk result (λ cs. map case_arm cs
        ≡ union_arms (here_of scope.now) names.now 0 (union_fields_view types.now)) }
    ensures fault { IfErr result (λ e. Blames e (first_fault (part_checks (here_of scope.now) near types.now))) }
{
    let mut cases: Cases = with_room(scope.alloc, types.len())?;
    for i in 0..types.len() {
        let part = &types[i];
        let tref = checked_type(&part.item, scope, false, near)?;
        let name = union_name(scope.alloc, names, i)?;
        push_case(&mut cases, scope.alloc, name, Some(tref), &part.comments)?;
    }
    Ok(cases)
}

/// The cases of a variant, in the order of the text.
#[cycle(types)]
#[tactic(auto, using(crate::proofs::Onward::choice_rules))]
fn variant_cases(
    cases: &[Documented<'_, CaseSyntax<'_>>],
    scope: &Scope<'_>,
    names: &Option<TagNames>,
) -> Result<Cases, CheckError>
    ensures ok { OnOk result (first_fault (case_checks (here_of scope.now) names.now [] (cases_view cases.now)) ≡ None) }
    ensures tree { IfOk result (λ cs. map case_arm cs ≡ case_arms (here_of scope.now) (cases_view cases.now)) }
    ensures fault { IfErr result
        (λ e. Blames e (first_fault (case_checks (here_of scope.now) names.now [] (cases_view cases.now)))) }
{
    let mut seen = Marks::new(scope.alloc);
    let mut made: Cases = with_room(scope.alloc, cases.len())?;
    for case in cases {
        let name = checked_case(names, &mut seen, &case.item.name, scope)?;
        let tref = checked_payload(&case.item.ty, scope, case.item.name.span.start)?;
        push_case(&mut made, scope.alloc, name, tref, &case.comments)?;
    }
    Ok(made)
}

#[cycle(types)]
#[tactic(auto, using(crate::proofs::Onward::tag_rules))]
fn checked_tag(
    of: &Option<Box<TypedefSyntax<'_>>>,
    scope: &Scope<'_>,
    near: usize,
) -> Result<Tag, CheckError>
    ensures ok { OnOk result (first_fault
        (all_tag_checks (here_of scope.now) ((here_of scope.now).place near) (boxed_view of.now)) ≡ None) }
    ensures tree { IfOk result (λ t. t.repr ≡ tag_repr (maybe_tree (here_of scope.now) (boxed_view of.now))) }
    ensures fault { IfErr result (λ e. Blames e (first_fault
        (all_tag_checks (here_of scope.now) ((here_of scope.now).place near) (boxed_view of.now)))) }
    ensures names { IfOk result (λ t. t.names ≡ tag_names (maybe_tree (here_of scope.now) (boxed_view of.now))) }
{
    match of {
        Some(of) => {
            let tref = checked_type(of, scope, false, near)?;
            tag_of(&tref, scope, near)
        }
        None => Ok(Tag {
            repr: IntRepr::U32,
            names: None,
        }),
    }
}

#[cycle(types)]
#[tactic(auto, using(crate::proofs::Onward::tagged_rules))]
fn checked_union(
    syntax: &UnionSyntax<'_>,
    scope: &Scope<'_>,
    near: usize,
) -> Result<TypeRef, CheckError>
    ensures ok { OnOk result
        (first_fault (union_checks (here_of scope.now) ((here_of scope.now).place near) syntax.now) ≡ None) }
    ensures tree { IfOk result (λ t. tree_of t ≡ union_meant (here_of scope.now) syntax.now) }
    ensures fault { IfErr result (λ e. Blames e
        (first_fault (union_checks (here_of scope.now) ((here_of scope.now).place near) syntax.now))) }
{
    let tag = checked_tag(&syntax.tag, scope, near)?;
    checked_size(&tag.names, syntax.fields.len(), scope, near)?;
    let cases = union_cases(syntax.fields.as_slice(), scope, &tag.names, near)?;
    Ok(variant_type(scope.alloc, tag.repr, cases)?)
}

#[cycle(types)]
#[tactic(auto, using(crate::proofs::Onward::tagged_rules))]
fn checked_variant(
    syntax: &VariantSyntax<'_>,
    scope: &Scope<'_>,
    near: usize,
) -> Result<TypeRef, CheckError>
    ensures ok { OnOk result (first_fault
        (variant_checks (here_of scope.now) ((here_of scope.now).place near) syntax.now) ≡ None) }
    ensures tree { IfOk result (λ t. tree_of t ≡ variant_meant (here_of scope.now) syntax.now) }
    ensures fault { IfErr result (λ e. Blames e
        (first_fault (variant_checks (here_of scope.now) ((here_of scope.now).place near) syntax.now))) }
{
    let tag = checked_tag(&syntax.tag, scope, near)?;
    checked_size(&tag.names, syntax.cases.len(), scope, near)?;
    let cases = variant_cases(syntax.cases.as_slice(), scope, &tag.names)?;
    Ok(ordered_type(scope.alloc, tag, cases)?)
}
