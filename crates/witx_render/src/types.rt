//! The expressions of types.
#![tactic(auto, using(crate::proofs::TypesShown::shown_rules))]

ghost use Rattle.std.specs.Prelude.{◌≡◌, IfOk, false, map, option_map};
ghost use Rattle.witx_ast.specs.Views.{tree_of, datatype_tree, record_tree, variant_tree, member_field, case_arm};
ghost use Rattle.witx_render.specs.{Expressions.{ident, nil, exprs_of}, ExpressionViews.{expr_view}};
ghost use Rattle.witx_render.specs.TypeExpressions.{builtin_expr, handle_expr, pointer_expr, type_expr, record_expr, member_expr, variant_expr, case_expr};
ghost use Rattle.witx_render.specs.Lists.{record_words, member_item, variant_words, case_item, payload_exprs};

use crate::expression::{SExpr, SExprs};
use crate::parts::{
    annotated, in_parentheses, lone, named, one_item, pair, triple, two_items, width,
};
use crate::to_sexpr::ToSExpr;
use std::alloc::Global;
use witx_ast::{
    BuiltinType, Case, Datatype, HandleDatatype, IntRepr, RecordDatatype, RecordKind, RecordMember,
    TypeRef, Variant,
};
use witx_base::{Id, OutOfMemory};

impl ToSExpr for Id {
    ghost expression = { ident };

    fn to_sexpr(&self, alloc: Global) -> Result<SExpr, OutOfMemory> {
        SExpr::ident(alloc, self.as_str())
    }
}

impl ToSExpr for BuiltinType {
    ghost expression = { builtin_expr };

    fn to_sexpr(&self, alloc: Global) -> Result<SExpr, OutOfMemory> {
        match self {
            BuiltinType::Char => SExpr::word(alloc, "char"),
            BuiltinType::U8 { lang_c_char: true } => annotated(alloc, "char8"),
            BuiltinType::U8 { lang_c_char: false } => SExpr::word(alloc, "u8"),
            BuiltinType::U16 => SExpr::word(alloc, "u16"),
            BuiltinType::U32 {
                lang_ptr_size: true,
            } => annotated(alloc, "usize"),
            BuiltinType::U32 {
                lang_ptr_size: false,
            } => SExpr::word(alloc, "u32"),
            BuiltinType::U64 => SExpr::word(alloc, "u64"),
            BuiltinType::S8 => SExpr::word(alloc, "s8"),
            BuiltinType::S16 => SExpr::word(alloc, "s16"),
            BuiltinType::S32 => SExpr::word(alloc, "s32"),
            BuiltinType::S64 => SExpr::word(alloc, "s64"),
            BuiltinType::F32 => SExpr::word(alloc, "f32"),
            BuiltinType::F64 => SExpr::word(alloc, "f64"),
        }
    }
}

impl ToSExpr for HandleDatatype {
    ghost expression = { λ h. handle_expr };

    fn to_sexpr(&self, alloc: Global) -> Result<SExpr, OutOfMemory> {
        lone(alloc, "handle")
    }
}

impl ToSExpr for TypeRef {
    ghost expression = { λ t. type_expr (tree_of t) };

    #[cycle(types)]
    fn to_sexpr(&self, alloc: Global) -> Result<SExpr, OutOfMemory> {
        match self {
            TypeRef::Name(named) => SExpr::ident(alloc, named.name.as_str()),
            TypeRef::Value(datatype) => datatype.to_sexpr(alloc),
        }
    }
}

impl ToSExpr for Datatype {
    ghost expression = { λ d. type_expr (datatype_tree d) };

    #[cycle(types)]
    fn to_sexpr(&self, alloc: Global) -> Result<SExpr, OutOfMemory> {
        match self {
            Datatype::Record(record) => record.to_sexpr(alloc),
            Datatype::Variant(variant) => variant.to_sexpr(alloc),
            Datatype::Handle(handle) => handle.to_sexpr(alloc),
            Datatype::List(tref) => {
                let target = tref.to_sexpr(alloc)?;
                pair(alloc, SExpr::word(alloc, "list")?, target)
            }
            Datatype::Pointer(tref) => {
                let target = tref.to_sexpr(alloc)?;
                pointer(alloc, "pointer", target)
            }
            Datatype::ConstPointer(tref) => {
                let target = tref.to_sexpr(alloc)?;
                pointer(alloc, "const_pointer", target)
            }
            Datatype::Builtin(builtin) => builtin.to_sexpr(alloc),
        }
    }
}

/// `(@witx WORD T)`
fn pointer(alloc: Global, text: &str, target: SExpr) -> Result<SExpr, OutOfMemory>
    ensures { IfOk result (λ e. expr_view e ≡ pointer_expr text.now (expr_view target)) }
{
    triple(
        alloc,
        SExpr::annot(alloc, "witx")?,
        SExpr::word(alloc, text)?,
        target,
    )
}

impl ToSExpr for RecordDatatype {
    ghost expression = { λ r. type_expr (record_tree r) };

    #[cycle(types)]
    fn to_sexpr(&self, alloc: Global) -> Result<SExpr, OutOfMemory> {
        members_sexpr(alloc, self.kind, self.members.as_slice())
    }
}

/// The expression of a record of that kind with these members.
#[cycle(types)]
fn members_sexpr(
    alloc: Global,
    kind: RecordKind,
    members: &[RecordMember],
) -> Result<SExpr, OutOfMemory>
    ensures { IfOk result (λ e. expr_view e
        ≡ record_expr kind (exprs_of (map (member_item kind) (map member_field members.now)))) }
{
    let mut items = record_head(alloc, kind)?;
    for member in members {
        items.push(member_sexpr(alloc, kind, member)?)?;
    }
    Ok(in_parentheses(items))
}

/// What stands before the members.
fn record_head(alloc: Global, kind: RecordKind) -> Result<SExprs, OutOfMemory>
    ensures { IfOk result (λ es. map expr_view es ≡ record_words kind) }
{
    match kind {
        RecordKind::Tuple => one_item(alloc, SExpr::word(alloc, "tuple")?),
        RecordKind::Bitflags(repr) => two_items(
            alloc,
            SExpr::word(alloc, "flags")?,
            width(alloc, "repr", repr)?,
        ),
        RecordKind::Other => one_item(alloc, SExpr::word(alloc, "record")?),
    }
}

/// A member of a record of that kind, with its documentation.
#[cycle(types)]
fn member_sexpr(
    alloc: Global,
    kind: RecordKind,
    member: &RecordMember,
) -> Result<SExpr, OutOfMemory>
    ensures { IfOk result (λ e. expr_view e ≡ member_item kind (member_field member.now)) }
{
    let shown = bare_member(alloc, kind, member)?;
    SExpr::docs(alloc, member.docs.as_str(), shown)
}

/// A member without its documentation: its type in a tuple, its name among flags, else both.
#[cycle(types)]
fn bare_member(alloc: Global, kind: RecordKind, member: &RecordMember) -> Result<SExpr, OutOfMemory>
    ensures { IfOk result (λ e. expr_view e ≡ member_expr kind member.now.name (type_expr (tree_of member.now.tref))) }
{
    match kind {
        RecordKind::Tuple => member.tref.to_sexpr(alloc),
        RecordKind::Bitflags(_) => member.name.to_sexpr(alloc),
        RecordKind::Other => {
            let type_ = member.tref.to_sexpr(alloc)?;
            named(alloc, "field", member.name.as_str(), type_)
        }
    }
}

impl ToSExpr for Variant {
    ghost expression = { λ v. type_expr (variant_tree v) };

    #[cycle(types)]
    fn to_sexpr(&self, alloc: Global) -> Result<SExpr, OutOfMemory> {
        if self.is_bool() {
            return SExpr::word(alloc, "bool");
        }
        cases_sexpr(alloc, self.is_enum(), self.tag_repr, self.cases.as_slice())
    }
}

/// The expression of a variant, or of an enum, with that tag and these cases.
#[cycle(types)]
fn cases_sexpr(
    alloc: Global,
    is_enum: bool,
    tag: IntRepr,
    cases: &[Case],
) -> Result<SExpr, OutOfMemory>
    ensures { IfOk result (λ e. expr_view e
        ≡ variant_expr false is_enum tag (exprs_of (map (case_item is_enum) (map case_arm cases.now)))) }
{
    let mut items = variant_head(alloc, is_enum, tag)?;
    for case in cases {
        items.push(case_sexpr(alloc, is_enum, case)?)?;
    }
    Ok(in_parentheses(items))
}

/// What stands before the cases.
fn variant_head(alloc: Global, is_enum: bool, tag: IntRepr) -> Result<SExprs, OutOfMemory>
    ensures { IfOk result (λ es. map expr_view es ≡ variant_words is_enum tag) }
{
    let head = if is_enum { "enum" } else { "variant" };
    two_items(alloc, SExpr::word(alloc, head)?, width(alloc, "tag", tag)?)
}

/// A case, with its documentation.
#[cycle(types)]
fn case_sexpr(alloc: Global, is_enum: bool, shown_case: &Case) -> Result<SExpr, OutOfMemory>
    ensures { IfOk result (λ e. expr_view e ≡ case_item is_enum (case_arm shown_case.now)) }
{
    let shown = bare_case(alloc, is_enum, shown_case)?;
    SExpr::docs(alloc, shown_case.docs.as_str(), shown)
}

/// A case without its documentation: its name in an enum, else with its payload if it has one.
#[cycle(types)]
fn bare_case(alloc: Global, is_enum: bool, shown_case: &Case) -> Result<SExpr, OutOfMemory>
    ensures { IfOk result (λ e. expr_view e
        ≡ case_expr is_enum shown_case.now.name (payload_exprs (option_map tree_of shown_case.now.tref))) }
{
    if is_enum {
        return shown_case.name.to_sexpr(alloc);
    }
    match &shown_case.tref {
        None => lone_case(alloc, &shown_case.name),
        Some(tref) => {
            let payload = tref.to_sexpr(alloc)?;
            named(alloc, "case", shown_case.name.as_str(), payload)
        }
    }
}

/// `(case $name)`
fn lone_case(alloc: Global, name: &Id) -> Result<SExpr, OutOfMemory>
    ensures { IfOk result (λ e. expr_view e ≡ case_expr false name.now nil) }
{
    pair(alloc, SExpr::word(alloc, "case")?, name.to_sexpr(alloc)?)
}
