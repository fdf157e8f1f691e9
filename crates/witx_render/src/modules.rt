//! The expressions of typenames and modules.
#![tactic(auto, using(crate::proofs::ModulesShown::shown_rules))]

ghost use Rattle.std.specs.Prelude.{◌≡◌, ◌++◌, IfOk, OnOk, filter, map};
ghost use Rattle.witx_ast.specs.{Views.{tree_of}, Items.{item_tree}, Definitions.{module_tree}};
ghost use Rattle.witx_render.specs.{Expressions.{vec}, ExpressionViews.{expr_view}};
ghost use Rattle.witx_render.specs.ModuleExpressions.{item_expr, is_import, is_func, module_expr, module_expressions};
ghost use Rattle.witx_render.specs.DocumentTexts.{typename_expr};

use crate::expression::{SExpr, SExprs};
use crate::parts::{in_parentheses, named, two_items};
use crate::to_sexpr::ToSExpr;
use std::alloc::Global;
use witx_ast::{Module, ModuleDefinition, NamedType};
use witx_base::OutOfMemory;

impl ToSExpr for NamedType {
    ghost expression = { λ n. typename_expr n.name (tree_of n.tref) n.docs };

    fn to_sexpr(&self, alloc: Global) -> Result<SExpr, OutOfMemory> {
        let type_ = self.tref.to_sexpr(alloc)?;
        let shown = named(alloc, "typename", self.name.as_str(), type_)?;
        SExpr::docs(alloc, self.docs.as_str(), shown)
    }
}

impl ToSExpr for Module {
    ghost expression = { λ m. module_expr (module_tree m) };

    fn to_sexpr(&self, alloc: Global) -> Result<SExpr, OutOfMemory> {
        let shown = bare_module(alloc, self)?;
        SExpr::docs(alloc, self.docs.as_str(), shown)
    }
}

/// A module without its documentation: imports, and then functions.
fn bare_module(alloc: Global, shown_module: &Module) -> Result<SExpr, OutOfMemory>
    ensures { IfOk result (λ e. expr_view e ≡ vec (module_expressions (module_tree shown_module.now))) }
{
    let mut items = two_items(
        alloc,
        SExpr::word(alloc, "module")?,
        shown_module.name.to_sexpr(alloc)?,
    )?;
    push_imports(alloc, &mut items, shown_module.definitions().as_slice())?;
    push_funcs(alloc, &mut items, shown_module.definitions().as_slice())?;
    Ok(in_parentheses(items))
}

/// Appends the imports among the definitions.
fn push_imports(
    alloc: Global,
    items: &mut SExprs,
    definitions: &[ModuleDefinition],
) -> Result<(), OutOfMemory>
    ensures { OnOk result (map expr_view items.new
        ≡ map expr_view items.old ++ map item_expr (filter is_import (map item_tree definitions.now))) }
{
    for definition in definitions {
        match definition {
            ModuleDefinition::Import(import) => {
                items.push(import.to_sexpr(alloc)?)?;
                continue;
            }
            ModuleDefinition::Func(_) => continue,
        }
    }
    Ok(())
}

/// Appends the functions among the definitions.
fn push_funcs(
    alloc: Global,
    items: &mut SExprs,
    definitions: &[ModuleDefinition],
) -> Result<(), OutOfMemory>
    ensures { OnOk result (map expr_view items.new
        ≡ map expr_view items.old ++ map item_expr (filter is_func (map item_tree definitions.now))) }
{
    for definition in definitions {
        match definition {
            ModuleDefinition::Func(func) => {
                items.push(func.to_sexpr(alloc)?)?;
                continue;
            }
            ModuleDefinition::Import(_) => continue,
        }
    }
    Ok(())
}
