//! Small expressions that others are made of.

ghost use Rattle.std.specs.Prelude.{◌≡◌, ◌∷◌, [], IfOk, map};
ghost use Rattle.witx_render.specs.Expressions.{vec, nil, ◌▹◌, word, ident};
ghost use Rattle.witx_render.specs.ExpressionViews.{expr_view, exprs_view};
ghost use Rattle.witx_render.specs.TypeExpressions.{named_expr, repr_expr, width_expr, witx_expr};

use crate::expression::{SExpr, SExprs};
use crate::to_sexpr::ToSExpr;
use std::alloc::Global;
use witx_ast::IntRepr;
use witx_base::{Items, OutOfMemory};

/// The items in parentheses.
#[tactic(auto, unfolding(crate::specs::ExpressionViews::expr_view))]
pub(crate) fn in_parentheses(items: SExprs) -> SExpr
    ensures { expr_view result ≡ vec (exprs_view items) }
{
    SExpr::Vec(items)
}

/// Two expressions in parentheses.
pub(crate) fn pair(alloc: Global, first: SExpr, second: SExpr) -> Result<SExpr, OutOfMemory>
    ensures { IfOk result (λ e. expr_view e ≡ vec (expr_view first ▹ expr_view second ▹ nil)) }
{
    Ok(in_parentheses(two_items(alloc, first, second)?))
}

/// Three expressions in parentheses.
pub(crate) fn triple(
    alloc: Global,
    first: SExpr,
    second: SExpr,
    third: SExpr,
) -> Result<SExpr, OutOfMemory>
    ensures { IfOk result (λ e. expr_view e ≡ vec (expr_view first ▹ expr_view second ▹ expr_view third ▹ nil)) }
{
    let mut items = two_items(alloc, first, second)?;
    items.push(third)?;
    Ok(in_parentheses(items))
}

/// A list of two items, for others to follow.
pub(crate) fn two_items(alloc: Global, first: SExpr, second: SExpr) -> Result<SExprs, OutOfMemory>
    ensures { IfOk result (λ es. map expr_view es ≡ expr_view first ∷ expr_view second ∷ []) }
{
    let mut items = Items::new(alloc);
    items.push(first)?;
    items.push(second)?;
    Ok(items)
}

/// A list of one item, for others to follow.
pub(crate) fn one_item(alloc: Global, first: SExpr) -> Result<SExprs, OutOfMemory>
    ensures { IfOk result (λ es. map expr_view es ≡ expr_view first ∷ []) }
{
    let mut items = Items::new(alloc);
    items.push(first)?;
    Ok(items)
}

/// `(WORD)`
pub(crate) fn lone(alloc: Global, text: &str) -> Result<SExpr, OutOfMemory>
    ensures { IfOk result (λ e. expr_view e ≡ vec (word text.now ▹ nil)) }
{
    Ok(in_parentheses(one_item(alloc, SExpr::word(alloc, text)?)?))
}

/// `(@witx WORD)`
pub(crate) fn annotated(alloc: Global, text: &str) -> Result<SExpr, OutOfMemory>
    ensures { IfOk result (λ e. expr_view e ≡ witx_expr text.now) }
{
    pair(
        alloc,
        SExpr::annot(alloc, "witx")?,
        SExpr::word(alloc, text)?,
    )
}

/// `(WORD $name SHOWN)`
pub(crate) fn named(
    alloc: Global,
    text: &str,
    name: &str,
    shown: SExpr,
) -> Result<SExpr, OutOfMemory>
    ensures { IfOk result (λ e. expr_view e ≡ named_expr text.now name.now (expr_view shown)) }
{
    triple(
        alloc,
        SExpr::word(alloc, text)?,
        SExpr::ident(alloc, name)?,
        shown,
    )
}

/// `(@witx WORD REPR)`, where `@witx` is a word.
pub(crate) fn width(alloc: Global, text: &str, repr: IntRepr) -> Result<SExpr, OutOfMemory>
    ensures { IfOk result (λ e. expr_view e ≡ width_expr text.now repr) }
{
    triple(
        alloc,
        SExpr::word(alloc, "@witx")?,
        SExpr::word(alloc, text)?,
        repr.to_sexpr(alloc)?,
    )
}

impl ToSExpr for IntRepr {
    ghost expression = { repr_expr };

    fn to_sexpr(&self, alloc: Global) -> Result<SExpr, OutOfMemory> {
        match self {
            IntRepr::U8 => SExpr::word(alloc, "u8"),
            IntRepr::U16 => SExpr::word(alloc, "u16"),
            IntRepr::U32 => SExpr::word(alloc, "u32"),
            IntRepr::U64 => SExpr::word(alloc, "u64"),
        }
    }
}
