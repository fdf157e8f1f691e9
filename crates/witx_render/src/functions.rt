//! The expressions of imports and functions.
#![tactic(auto, using(crate::proofs::ModulesShown::shown_rules))]

ghost use Rattle.std.specs.Prelude.{◌≡◌, ◌++◌, IfOk, OnOk, codes, map};
ghost use Rattle.witx_ast.specs.Functions.{func_tree, param_field};
ghost use Rattle.witx_render.specs.{Expressions.{vec, word, quote, nil, ◌▹◌}, ExpressionViews.{expr_view}};
ghost use Rattle.witx_render.specs.ModuleExpressions.{import_expr, func_expr, func_parts, param_expr, noreturn_mark, stored_expressions, export_expr};
ghost use Rattle.witx_render.specs.Lists.{func_words};

use crate::expression::{SExpr, SExprs};
use crate::parts::{annotated, in_parentheses, lone, named, pair, triple, two_items};
use crate::to_sexpr::ToSExpr;
use std::alloc::Global;
use witx_ast::{Abi, InterfaceFunc, InterfaceFuncParam, ModuleImport, ModuleImportVariant};
use witx_base::OutOfMemory;

impl ToSExpr for ModuleImport {
    ghost expression = { import_expr };

    fn to_sexpr(&self, alloc: Global) -> Result<SExpr, OutOfMemory> {
        let shown = bare_import(alloc, self.name.as_str(), self.variant)?;
        SExpr::docs(alloc, self.docs.as_str(), shown)
    }
}

/// `(import "name" (memory))`
fn bare_import(
    alloc: Global,
    name: &str,
    variant: ModuleImportVariant,
) -> Result<SExpr, OutOfMemory>
    ensures { IfOk result (λ e. expr_view e
        ≡ vec (word (codes "import") ▹ quote name.now ▹ vec (word (codes "memory") ▹ nil) ▹ nil)) }
{
    let wanted = match variant {
        ModuleImportVariant::Memory => "memory",
    };
    triple(
        alloc,
        SExpr::word(alloc, "import")?,
        SExpr::quote(alloc, name)?,
        lone(alloc, wanted)?,
    )
}

impl ToSExpr for InterfaceFunc {
    ghost expression = { λ f. func_expr (func_tree f) };

    fn to_sexpr(&self, alloc: Global) -> Result<SExpr, OutOfMemory> {
        let shown = bare_func(alloc, self)?;
        SExpr::docs(alloc, self.docs.as_str(), shown)
    }
}

/// A function without its documentation.
fn bare_func(alloc: Global, func: &InterfaceFunc) -> Result<SExpr, OutOfMemory>
    ensures { IfOk result (λ e. expr_view e ≡ vec (func_parts (func_tree func.now))) }
{
    let mut items = func_head(alloc, func.name.as_str())?;
    push_params(alloc, &mut items, "param", func.params.as_slice())?;
    push_params(alloc, &mut items, "result", func.results.as_slice())?;
    push_noreturn(alloc, &mut items, func.noreturn)?;
    push_stored(alloc, &mut items, func.abi)?;
    Ok(in_parentheses(items))
}

/// What stands before the parameters.
fn func_head(alloc: Global, name: &str) -> Result<SExprs, OutOfMemory>
    ensures { IfOk result (λ es. map expr_view es ≡ func_words name.now) }
{
    let mut items = two_items(
        alloc,
        SExpr::annot(alloc, "interface")?,
        SExpr::word(alloc, "func")?,
    )?;
    items.push(export(alloc, name)?)?;
    Ok(items)
}

/// `(export "name")`
fn export(alloc: Global, name: &str) -> Result<SExpr, OutOfMemory>
    ensures { IfOk result (λ e. expr_view e ≡ export_expr name.now) }
{
    pair(
        alloc,
        SExpr::word(alloc, "export")?,
        SExpr::quote(alloc, name)?,
    )
}

/// Appends the parameters, or the results, each by its word.
fn push_params(
    alloc: Global,
    items: &mut SExprs,
    text: &str,
    params: &[InterfaceFuncParam],
) -> Result<(), OutOfMemory>
    ensures { OnOk result (map expr_view items.new
        ≡ map expr_view items.old ++ map (param_expr text.now) (map param_field params.now)) }
{
    for param in params {
        items.push(param_sexpr(alloc, text, param)?)?;
    }
    Ok(())
}

/// A parameter or a result, with its documentation.
fn param_sexpr(alloc: Global, text: &str, param: &InterfaceFuncParam) -> Result<SExpr, OutOfMemory>
    ensures { IfOk result (λ e. expr_view e ≡ param_expr text.now (param_field param.now)) }
{
    let type_ = param.tref.to_sexpr(alloc)?;
    let shown = named(alloc, text, param.name.as_str(), type_)?;
    SExpr::docs(alloc, param.docs.as_str(), shown)
}

fn push_noreturn(alloc: Global, items: &mut SExprs, noreturn: bool) -> Result<(), OutOfMemory>
    ensures { OnOk result (map expr_view items.new ≡ map expr_view items.old ++ noreturn_mark noreturn) }
{
    if !noreturn {
        return Ok(());
    }
    items.push(annotated(alloc, "noreturn")?)?;
    Ok(())
}

fn push_stored(alloc: Global, items: &mut SExprs, abi: Abi) -> Result<(), OutOfMemory>
    ensures { OnOk result (map expr_view items.new ≡ map expr_view items.old ++ stored_expressions abi) }
{
    match abi {
        Abi::Preview1 => Ok(()),
        Abi::Stored => {
            items.push(annotated(alloc, "stored")?)?;
            Ok(())
        }
    }
}
