//! S-expressions and their texts.
#![tactic(auto, unfolding(crate::specs::ExpressionViews::expr_view))]

ghost use Rattle.std.specs.{Prelude.{◌≡◌, IfOk, Some, map}, Fmt.{WritesOnOk}};
ghost use Rattle.witx_render.specs.Expressions.{word, ident, quote, annot, text_of, text_behind, with_docs};
ghost use Rattle.witx_render.specs.ExpressionViews.{expr_view, exprs_view};

use std::alloc::Global;
use std::fmt::{self, Display};
use witx_base::{Duplicate, Items, OutOfMemory, Text};

/// The items of an expression.
pub type SExprs = Items<SExpr>;

/// An S-expression, and documentation that stands before one.
///
/// It displays as its text: a list in parentheses with one blank between its items, a word as it is,
/// `$name`, `"quoted"`, `@annotation`, and documentation as `(;; .. ;)` before its expression. The texts
/// are written as they are, nothing is escaped.
#[derive(PartialEq, Eq, Debug, Drop)]
pub enum SExpr {
    /// Expressions in parentheses, with one blank between them.
    Vec(SExprs),
    /// A word, written as it is.
    Word(Text),
    /// A name, written behind `$`.
    Ident(Text),
    /// A text, written in double quotes.
    Quote(Text),
    /// An annotation, written behind `@`.
    Annot(Text),
    /// Documentation, written between `(;; ` and ` ;) `, and the expression that it stands before.
    Docs(Text, Box<SExpr>),
}

impl SExpr {
    /// The word `s`.
    pub fn word(alloc: Global, s: &str) -> Result<SExpr, OutOfMemory>
        ensures { IfOk result (λ e. expr_view e ≡ word s.now) }
    {
        Ok(SExpr::Word(Text::new(alloc, s)?))
    }

    /// The identifier named `s`, without the `$` that it is written with.
    pub fn ident(alloc: Global, s: &str) -> Result<SExpr, OutOfMemory>
        ensures { IfOk result (λ e. expr_view e ≡ ident s.now) }
    {
        Ok(SExpr::Ident(Text::new(alloc, s)?))
    }

    /// The text `s`, without the quotes that it is written in.
    pub fn quote(alloc: Global, s: &str) -> Result<SExpr, OutOfMemory>
        ensures { IfOk result (λ e. expr_view e ≡ quote s.now) }
    {
        Ok(SExpr::Quote(Text::new(alloc, s)?))
    }

    /// The annotation `s`, without the `@` that it is written with.
    pub fn annot(alloc: Global, s: &str) -> Result<SExpr, OutOfMemory>
        ensures { IfOk result (λ e. expr_view e ≡ annot s.now) }
    {
        Ok(SExpr::Annot(Text::new(alloc, s)?))
    }

    /// The expression `s` with the documentation `d`; `s` itself where `d` is empty.
    pub fn docs(alloc: Global, d: &str, s: SExpr) -> Result<SExpr, OutOfMemory>
        ensures { IfOk result (λ e. expr_view e ≡ with_docs d.now (expr_view s)) }
    {
        if d.is_empty() {
            return Ok(s);
        }
        let text = Text::new(alloc, d)?;
        Ok(SExpr::Docs(text, Box::new(alloc, s)?))
    }
}

/// Each expression with a blank before it.
#[cycle(printed)]
fn write_behind<W: fmt::Write>(items: &[SExpr], f: &mut fmt::Formatter<W>) -> fmt::Result
    ensures { WritesOnOk W.Write.write_str_gives f.old result (text_behind (exprs_view items.now)) f.new }
{
    for item in items {
        f.write_str(" ")?;
        item.fmt(f)?;
    }
    Ok(())
}

impl fmt::Display for SExpr {
    ghost output = { λ e. Some (text_of (expr_view e)) };

    #[cycle(printed)]
    fn fmt<W: fmt::Write>(&self, f: &mut fmt::Formatter<W>) -> fmt::Result {
        match self {
            SExpr::Vec(items) => {
                f.write_str("(")?;
                if let Some((first, rest)) = items.as_slice().split_first() {
                    first.fmt(f)?;
                    write_behind(rest, f)?;
                }
                f.write_str(")")
            }
            SExpr::Word(word) => f.write_str(word.as_str()),
            SExpr::Ident(name) => {
                f.write_str("$")?;
                f.write_str(name.as_str())
            }
            SExpr::Quote(text) => {
                f.write_str("\"")?;
                f.write_str(text.as_str())?;
                f.write_str("\"")
            }
            SExpr::Annot(name) => {
                f.write_str("@")?;
                f.write_str(name.as_str())
            }
            SExpr::Docs(text, item) => {
                f.write_str("(;; ")?;
                f.write_str(text.as_str())?;
                f.write_str(" ;) ")?;
                (**item).fmt(f)
            }
        }
    }
}

impl Duplicate for SExpr {
    ghost is_copy = { λ e made. expr_view made ≡ expr_view e };

    #[cycle(copied)]
    fn copy(&self) -> Result<SExpr, OutOfMemory> {
        match self {
            SExpr::Vec(items) => Ok(SExpr::Vec(copied_items(items.allocator(), items.as_slice())?)),
            SExpr::Word(word) => Ok(SExpr::Word(word.copy()?)),
            SExpr::Ident(name) => Ok(SExpr::Ident(name.copy()?)),
            SExpr::Quote(text) => Ok(SExpr::Quote(text.copy()?)),
            SExpr::Annot(name) => Ok(SExpr::Annot(name.copy()?)),
            SExpr::Docs(text, item) => Ok(SExpr::Docs(text.copy()?, boxed_copy(item)?)),
        }
    }
}

/// A copy of the expression, in memory of its own.
#[cycle(copied)]
fn boxed_copy(item: &Box<SExpr>) -> Result<Box<SExpr>, OutOfMemory>
    ensures { IfOk result (λ made. expr_view made.value ≡ expr_view item.now.value) }
{
    Ok(Box::new(*Box::allocator(item), (**item).copy()?)?)
}

/// Copies of the expressions. The list leads back to expressions, so it has a loop of its own.
#[cycle(copied)]
fn copied_items(alloc: Global, items: &[SExpr]) -> Result<SExprs, OutOfMemory>
    ensures { IfOk result (λ made. map expr_view made ≡ map expr_view items.now) }
{
    let mut copies = Items::new(alloc);
    for item in items {
        copies.push(item.copy()?)?;
    }
    Ok(copies)
}
