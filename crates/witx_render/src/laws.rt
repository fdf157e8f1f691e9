//! A copied expression equals its original, and so does a copied list of expressions.

ghost use Rattle.witx_ast.specs.EqualCopies.{EqualCopies};

use crate::expression::{SExpr, SExprs};
use witx_base::Duplicate;

/// A copied expression, and a copied list of expressions, equals its original.
pub fn copied_expressions_are_equal()
    ensures expression { EqualCopies ⟦<SExpr as Duplicate>⟧.is_copy ⟦<SExpr as PartialEq>⟧.eq }
    ensures list { EqualCopies ⟦<SExprs as Duplicate>⟧.is_copy ⟦<SExprs as PartialEq>⟧.eq }
{}
