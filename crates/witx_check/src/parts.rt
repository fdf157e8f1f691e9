//! What types are made of: builtins, representations, tags, the names of members and cases.
#![tactic(auto, using(witx_scope::proofs::Steps::step_rules))]

ghost use Rattle.std.specs.Prelude.{◌≡◌, ◌∷◌, ◌++◌, IfOk, IfErr, IfSome, OnOk, Some, None, [], map, option_map};
ghost use Rattle.std.specs.Map.{keys_of};
ghost use Rattle.witx_ast.specs.Tree.{Tree, behind, arms_of};
ghost use Rattle.witx_ast.specs.Views.{tree_of, datatype_tree, member_field, case_arm};
ghost use Rattle.witx_scope.specs.{Faults.{first_fault}, Checks.{member_checks}};
ghost use Rattle.witx_scope.specs.Trees.{in_order, member_arm, flag_field, bool_tree, string_tree, expected_tree, number_name, union_name, enum_tree, flags_tree};
ghost use Rattle.witx_scope.specs.Tags.{builtin_type, repr_check, repr_meant, repr_of, has_name, case_check, size_check, tag_check, repr_in, names_in, names_of_cases};
ghost use Rattle.witx_scope.specs.Names.{FindsOnOk};
ghost use Rattle.witx_scope.specs.SyntaxChecks.{made_field, made_arm, member_views, enum_checks, flags_checks, name_check, Sees};
ghost use Rattle.witx_scope.specs.{Blame.{Blames}, Senses.{here_of}};

use std::alloc::Global;
use std::rc::Rc;
use witx_ast::{
    BuiltinType, Case, Cases, Datatype, IntRepr, Members, RecordDatatype, RecordKind, RecordMember,
    TypeRef, Variant,
};
use witx_base::{Duplicate, Id, OutOfMemory};
use witx_scope::{
    CheckError, Marks, Scope, TagNames, bad_field, bad_tag, case_names, case_with, introduce_mark,
    mark, ordered, repr, with_room, wrong_kind, wrong_size,
};
use witx_syntax_tree::{
    BuiltinSyntax, CommentSyntax, Documented, EnumSyntax, FlagsSyntax, IdSyntax,
};

/// A use of the type that has no name.
pub fn value(alloc: Global, datatype: Datatype) -> Result<TypeRef, OutOfMemory>
    ensures { IfOk result (λ t. tree_of t ≡ datatype_tree datatype) }
{
    Ok(TypeRef::Value(Rc::new(alloc, datatype)?))
}

/// The builtin type of its syntax, with the same fields.
pub fn builtin_type(syntax: BuiltinSyntax) -> BuiltinType
    ensures { result ≡ builtin_type syntax }
{
    match syntax {
        BuiltinSyntax::Char => BuiltinType::Char,
        BuiltinSyntax::U8 { lang_c_char } => BuiltinType::U8 { lang_c_char },
        BuiltinSyntax::U16 => BuiltinType::U16,
        BuiltinSyntax::U32 { lang_ptr_size } => BuiltinType::U32 { lang_ptr_size },
        BuiltinSyntax::U64 => BuiltinType::U64,
        BuiltinSyntax::S8 => BuiltinType::S8,
        BuiltinSyntax::S16 => BuiltinType::S16,
        BuiltinSyntax::S32 => BuiltinType::S32,
        BuiltinSyntax::S64 => BuiltinType::S64,
        BuiltinSyntax::F32 => BuiltinType::F32,
        BuiltinSyntax::F64 => BuiltinType::F64,
    }
}

/// The text of a number, if it has one digit.
fn digit(number: usize) -> Option<&'static str>
    ensures { IfSome result (λ text. text.now ≡ number_name number) }
{
    match number {
        0 => Some("0"),
        1 => Some("1"),
        2 => Some("2"),
        3 => Some("3"),
        4 => Some("4"),
        5 => Some("5"),
        6 => Some("6"),
        7 => Some("7"),
        8 => Some("8"),
        9 => Some("9"),
        _ => None,
    }
}

/// The name of the member or case numbered `i`: its decimal digits.
pub fn number_name(alloc: Global, i: usize) -> Result<Id, OutOfMemory>
    ensures { IfOk result (λ id. id ≡ number_name i) }
{
    if let Some(digit) = digit(i) {
        return Ok(Id::new(alloc, digit)?);
    }
    let text = format!(in alloc; "{i}")?;
    Ok(Id::new(alloc, text.as_str())?)
}

/// The type of a string: a list of `char`.
pub fn string_type(alloc: Global) -> Result<TypeRef, OutOfMemory>
    ensures { IfOk result (λ t. tree_of t ≡ string_tree) }
{
    let char = value(alloc, Datatype::Builtin(BuiltinType::Char))?;
    value(alloc, Datatype::List(char))
}

fn two_cases(alloc: Global, first: Case, second: Case) -> Result<Cases, OutOfMemory>
    ensures { IfOk result (λ cs. cs ≡ first ∷ second ∷ []) }
{
    let mut cases: Cases = with_room(alloc, 2)?;
    cases.push(first)?;
    cases.push(second)?;
    Ok(cases)
}

/// The type of a bool: a variant with the tag u32 and the cases `false` and `true`.
pub fn bool_type(alloc: Global) -> Result<TypeRef, OutOfMemory>
    ensures { IfOk result (λ t. tree_of t ≡ bool_tree) }
{
    let no = case_with(alloc, "false", None)?;
    let yes = case_with(alloc, "true", None)?;
    let cases = two_cases(alloc, no, yes)?;
    variant_type(alloc, IntRepr::U32, cases)
}

/// The type of an expected result: a variant with the tag u32 and the cases `ok` and `err`.
pub fn expected_type(
    alloc: Global,
    ok: Option<TypeRef>,
    err: Option<TypeRef>,
) -> Result<TypeRef, OutOfMemory>
    ensures { IfOk result (λ t. tree_of t ≡ expected_tree (option_map tree_of ok) (option_map tree_of err)) }
{
    let ok = case_with(alloc, "ok", ok)?;
    let err = case_with(alloc, "err", err)?;
    let cases = two_cases(alloc, ok, err)?;
    variant_type(alloc, IntRepr::U32, cases)
}

/// The unsigned representation that the builtin type is, if it is one.
pub fn unsigned(of: BuiltinType) -> Option<IntRepr>
    ensures { result ≡ repr_of of }
{
    match of {
        BuiltinType::U8 { .. } => Some(IntRepr::U8),
        BuiltinType::U16 => Some(IntRepr::U16),
        BuiltinType::U32 { .. } => Some(IntRepr::U32),
        BuiltinType::U64 => Some(IntRepr::U64),
        BuiltinType::Char
        | BuiltinType::S8
        | BuiltinType::S16
        | BuiltinType::S32
        | BuiltinType::S64
        | BuiltinType::F32
        | BuiltinType::F64 => None,
    }
}

fn checked_repr(
    of: &Option<BuiltinSyntax>,
    scope: &Scope<'_>,
    near: usize,
) -> Result<IntRepr, CheckError>
    ensures ok { OnOk result (repr_check of.now ((here_of scope.now).place near) ≡ None) }
    ensures meant { IfOk result (λ r. r ≡ repr_meant of.now) }
    ensures fault { IfErr result (λ e. Blames e (repr_check of.now ((here_of scope.now).place near))) }
{
    match of {
        None => Ok(IntRepr::U32),
        Some(of) => {
            let of = builtin_type(*of);
            match unsigned(of) {
                Some(repr) => Ok(repr),
                None => Err(repr(scope, of, near)),
            }
        }
    }
}

/// Puts a member, with its documentation, behind the others.
#[tactic(auto, using(crate::proofs::Onward::push_rules))]
pub fn push_member(
    members: &mut Members,
    alloc: Global,
    name: Id,
    tref: TypeRef,
    comments: &CommentSyntax<'_>,
) -> Result<(), OutOfMemory>
    ensures { OnOk result (map member_field members.new
        ≡ map member_field members.old ++ made_field name (tree_of tref) comments.now ∷ []) }
{
    let docs = comments.docs(alloc)?;
    members.push(RecordMember { name, tref, docs })?;
    Ok(())
}

/// Puts a case, with its documentation, behind the others.
#[tactic(auto, using(crate::proofs::Onward::push_rules))]
pub fn push_case(
    cases: &mut Cases,
    alloc: Global,
    name: Id,
    tref: Option<TypeRef>,
    comments: &CommentSyntax<'_>,
) -> Result<(), OutOfMemory>
    ensures { OnOk result (map case_arm cases.new
        ≡ map case_arm cases.old ++ made_arm name (option_map tree_of tref) comments.now ∷ []) }
{
    let docs = comments.docs(alloc)?;
    cases.push(Case { name, tref, docs })?;
    Ok(())
}

#[tactic(auto, using(crate::proofs::Onward::noted_rules))]
fn noted_cases(
    members: &[Documented<'_, IdSyntax<'_>>],
    scope: &Scope<'_>,
) -> Result<Cases, CheckError>
    ensures ok { OnOk result (first_fault (member_checks (here_of scope.now) [] (member_views members.now)) ≡ None) }
    ensures tree { IfOk result (λ cs. map case_arm cs ≡ map member_arm (member_views members.now)) }
    ensures fault { IfErr result
        (λ e. Blames e (first_fault (member_checks (here_of scope.now) [] (member_views members.now)))) }
{
    let mut names = Marks::new(scope.alloc);
    let mut cases: Cases = with_room(scope.alloc, members.len())?;
    for member in members {
        let name = introduce_mark(&mut names, scope, member.item.name, member.item.span.start)?;
        push_case(&mut cases, scope.alloc, name, None, &member.comments)?;
    }
    Ok(cases)
}

#[tactic(auto, using(crate::proofs::Onward::noted_rules))]
fn noted_flags(
    flags: &[Documented<'_, IdSyntax<'_>>],
    scope: &Scope<'_>,
    bool_type: &TypeRef,
) -> Result<Members, CheckError>
    requires { tree_of bool_type.now ≡ bool_tree }
    ensures ok { OnOk result (first_fault (member_checks (here_of scope.now) [] (member_views flags.now)) ≡ None) }
    ensures tree { IfOk result (λ ms. map member_field ms ≡ map flag_field (member_views flags.now)) }
    ensures fault { IfErr result
        (λ e. Blames e (first_fault (member_checks (here_of scope.now) [] (member_views flags.now)))) }
{
    let mut names = Marks::new(scope.alloc);
    let mut members: Members = with_room(scope.alloc, flags.len())?;
    for flag in flags {
        let name = introduce_mark(&mut names, scope, flag.item.name, flag.item.span.start)?;
        let tref = bool_type.clone()?;
        push_member(&mut members, scope.alloc, name, tref, &flag.comments)?;
    }
    Ok(members)
}

/// The type of an enum: a variant whose cases have no payload.
#[tactic(auto, using(crate::proofs::Onward::enum_rules))]
pub fn checked_enum(
    syntax: &EnumSyntax<'_>,
    scope: &Scope<'_>,
    near: usize,
) -> Result<TypeRef, CheckError>
    ensures ok { OnOk result
        (first_fault (enum_checks (here_of scope.now) ((here_of scope.now).place near) syntax.now) ≡ None) }
    ensures tree { IfOk result (λ t. tree_of t ≡ enum_tree syntax.now.repr (member_views syntax.now.members)) }
    ensures fault { IfErr result (λ e. Blames e
        (first_fault (enum_checks (here_of scope.now) ((here_of scope.now).place near) syntax.now))) }
{
    let tag_repr = checked_repr(&syntax.repr, scope, near)?;
    let cases = noted_cases(syntax.members.as_slice(), scope)?;
    Ok(variant_type(scope.alloc, tag_repr, cases)?)
}

/// The type of flags: a record of bools with a representation.
#[tactic(auto, using(crate::proofs::Onward::enum_rules))]
pub fn checked_flags(
    syntax: &FlagsSyntax<'_>,
    scope: &Scope<'_>,
    near: usize,
) -> Result<TypeRef, CheckError>
    ensures ok { OnOk result
        (first_fault (flags_checks (here_of scope.now) ((here_of scope.now).place near) syntax.now) ≡ None) }
    ensures tree { IfOk result (λ t. tree_of t ≡ flags_tree syntax.now.repr (member_views syntax.now.flags)) }
    ensures fault { IfErr result (λ e. Blames e
        (first_fault (flags_checks (here_of scope.now) ((here_of scope.now).place near) syntax.now))) }
{
    let repr = checked_repr(&syntax.repr, scope, near)?;
    let bool_type = bool_type(scope.alloc)?;
    let members = noted_flags(syntax.flags.as_slice(), scope, &bool_type)?;
    let kind = RecordKind::Bitflags(repr);
    Ok(value(
        scope.alloc,
        Datatype::Record(RecordDatatype { kind, members }),
    )?)
}

/// What a union or a variant takes from its tag.
#[derive(Drop)]
pub struct Tag {
    pub repr: IntRepr,
    pub names: Option<TagNames>,
}

/// A variant of these cases.
pub fn variant_type(alloc: Global, repr: IntRepr, cases: Cases) -> Result<TypeRef, OutOfMemory>
    ensures { IfOk result (λ t. tree_of t ≡ Tree.variant_of repr (arms_of (map case_arm cases))) }
{
    let tag_repr = repr;
    value(alloc, Datatype::Variant(Variant { tag_repr, cases }))
}

/// A variant of these cases, in the order of the tag's names.
pub fn ordered_type(alloc: Global, tag: Tag, cases: Cases) -> Result<TypeRef, OutOfMemory>
    ensures { IfOk result (λ t. tree_of t ≡ Tree.variant_of tag.repr (arms_of (in_order tag.names (map case_arm cases)))) }
{
    let cases = ordered(alloc, &tag.names, cases)?;
    variant_type(alloc, tag.repr, cases)
}

fn tag_names(alloc: Global, cases: &[Case]) -> Result<TagNames, OutOfMemory>
    ensures { IfOk result (λ ns. ns ≡ names_of_cases cases.now) }
{
    TagNames::new(alloc, case_names(alloc, cases)?)
}

/// What a union or a variant takes from the type of its tag: an enum gives its names, too.
#[tactic(auto, using(crate::proofs::Onward::case_rules))]
pub fn tag_of(tag: &TypeRef, scope: &Scope<'_>, near: usize) -> Result<Tag, CheckError>
    ensures ok { OnOk result (tag_check (behind (tree_of tag.now)) ((here_of scope.now).place near) ≡ None) }
    ensures repr { IfOk result (λ t. t.repr ≡ repr_in (behind (tree_of tag.now))) }
    ensures names { IfOk result (λ t. t.names ≡ names_in (behind (tree_of tag.now))) }
    ensures fault { IfErr result (λ e. Blames e (tag_check (behind (tree_of tag.now)) ((here_of scope.now).place near))) }
{
    scope.steps.take_names(tag)?;
    let datatype = tag.type_();
    match &**datatype {
        Datatype::Variant(variant) => {
            if !variant.is_enum() {
                return Err(bad_tag(scope, "all variant cases should have empty payloads", near));
            }
            Ok(Tag {
                repr: variant.tag_repr,
                names: Some(tag_names(scope.alloc, variant.cases.as_slice())?),
            })
        }
        Datatype::Builtin(of) => match unsigned(*of) {
            Some(repr) => Ok(Tag { repr, names: None }),
            None => Err(wrong_kind(scope, "tag", "enum or builtin", "builtin", near)),
        },
        Datatype::Record(_) => Err(wrong_kind(scope, "tag", "enum or builtin", "record", near)),
        Datatype::Handle(_) => Err(wrong_kind(scope, "tag", "enum or builtin", "handle", near)),
        Datatype::List(_) => Err(wrong_kind(scope, "tag", "enum or builtin", "list", near)),
        Datatype::Pointer(_) => Err(wrong_kind(scope, "tag", "enum or builtin", "pointer", near)),
        Datatype::ConstPointer(_) => Err(wrong_kind(
            scope,
            "tag",
            "enum or builtin",
            "constpointer",
            near,
        )),
    }
}

/// Refuses so many fields or cases, where the tag has another number of names.
pub fn checked_size(
    names: &Option<TagNames>,
    found: usize,
    scope: &Scope<'_>,
    near: usize,
) -> Result<(), CheckError>
    ensures ok { OnOk result (size_check names.now found ((here_of scope.now).place near) ≡ None) }
    ensures fault { IfErr result (λ e. Blames e (size_check names.now found ((here_of scope.now).place near))) }
{
    match names {
        Some(names) => {
            if names.len() == found {
                Ok(())
            } else {
                Err(wrong_size(scope, names.len(), found, near))
            }
        }
        None => Ok(()),
    }
}

/// Whether the name is one of those taken in.
fn is_marked(marks: &Marks, name: &Id) -> bool
    ensures { result ≡ has_name (keys_of marks.now) name.now }
{
    marks.get(name).is_some()
}

/// Takes the name of a case in, which is one of the tag's and stands nowhere earlier.
fn take_case(
    names: &TagNames,
    seen: &mut Marks,
    name: &Id,
    scope: &Scope<'_>,
    at: usize,
) -> Result<(), CheckError>
    ensures ok { OnOk result
        (case_check (Some names.now) (keys_of seen.old) name.now ((here_of scope.now).place at) ≡ None) }
    ensures kept { FindsOnOk result seen.new ((name.now, at) ∷ seen.old) }
    ensures fault { IfErr result (λ e. Blames e
        (case_check (Some names.now) (keys_of seen.old) name.now ((here_of scope.now).place at))) }
{
    if names.has(name) && !is_marked(seen, name) {
        Ok(mark(seen, name.copy()?, at)?)
    } else {
        Err(bad_field(
            scope,
            name.as_str(),
            "does not correspond to variant in tag `tag`",
            at,
        ))
    }
}

/// The name of a case. Only a tag with names asks for the names of the cases before it.
pub fn checked_case(
    names: &Option<TagNames>,
    seen: &mut Marks,
    name: &IdSyntax<'_>,
    scope: &Scope<'_>,
) -> Result<Id, CheckError>
    ensures ok { OnOk result (name_check (here_of scope.now) names.now seen.old name.now ≡ None) }
    ensures id { IfOk result (λ id. id ≡ name.now.name.now) }
    ensures kept { OnOk result (Sees names.now seen.old seen.new name.now) }
    ensures fault { IfErr result (λ e. Blames e (name_check (here_of scope.now) names.now seen.old name.now)) }
{
    let id = Id::new(scope.alloc, name.name)?;
    match names {
        Some(names) => {
            take_case(names, seen, &id, scope, name.span.start)?;
            Ok(id)
        }
        None => Ok(id),
    }
}

/// The name of a union's case numbered `i`: the tag's name there, or the decimal digits under a tag without
/// names.
pub fn union_name(alloc: Global, names: &Option<TagNames>, i: usize) -> Result<Id, OutOfMemory>
    ensures { IfOk result (λ id. id ≡ union_name names.now i) }
{
    match names {
        Some(names) => match names.get(i) {
            Some(name) => name.copy(),
            None => Id::new(alloc, ""),
        },
        None => number_name(alloc, i),
    }
}
