//! Which cases the result of a function has.

ghost use Rattle.std.specs.Prelude.{◌≡◌};
ghost use Rattle.witx_ast.specs.Views.{tree_of};
ghost use Rattle.witx_machine.specs.Functions.{result_cases};
ghost use Rattle.witx_machine.specs.Run.{cases_are, result_has_cases, same_presence};
ghost use Rattle.witx_instructions.specs.Views.{param_types};
ghost use Rattle.witx_run.specs.Views.{type_tree};

use witx_ast::{InterfaceFuncParam, TypeRef};
use witx_instructions::{err_type, ok_type, result_cases};

/// Whether the first result, which is the function's, has cases that carry something exactly where a type is given here.
pub(crate) fn has_cases(
    results: &[InterfaceFuncParam],
    ok: Option<&TypeRef>,
    err: Option<&TypeRef>,
) -> bool
    ensures { result ≡ result_has_cases (param_types results.now) (type_tree ok.entry) (type_tree err.entry) }
{
    match results.first() {
        Some(first) => cases_are(&first.tref, ok, err),
        None => false,
    }
}

fn cases_are(ty: &TypeRef, ok: Option<&TypeRef>, err: Option<&TypeRef>) -> bool
    ensures { result ≡ cases_are (result_cases (tree_of ty.now)) (type_tree ok.entry) (type_tree err.entry) }
{
    match result_cases(ty) {
        Some(variant) => {
            same_presence(ok_type(variant), ok) && same_presence(err_type(variant), err)
        }
        None => false,
    }
}

fn same_presence(a: Option<&TypeRef>, b: Option<&TypeRef>) -> bool
    ensures { result ≡ same_presence (type_tree a.entry) (type_tree b.entry) }
{
    match (a, b) {
        (None, None) | (Some(_), Some(_)) => true,
        _ => false,
    }
}
