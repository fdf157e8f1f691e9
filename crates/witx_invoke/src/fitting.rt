//! Whether a function fits its tags.

ghost use Rattle.std.specs.Prelude.{◌≡◌, map};
ghost use Rattle.witx_ast.specs.{Functions.{func_tree, param_field}, Tags.{function_fits, types_fit}};

use witx_ast::{InterfaceFunc, InterfaceFuncParam};
use witx_bytes::writable;

/// Whether the types of the function's parameters and results fit their tags, as each function of
/// an adapted document does.
pub fn function_fits(func: &InterfaceFunc) -> bool
    ensures { result ≡ function_fits (func_tree func.now) }
{
    types_fit(func.params.as_slice()) && types_fit(func.results.as_slice())
}

/// Whether the types of parameters, or of results, fit their tags.
#[tactic(auto, using(crate::proofs::FitLoops::fitting_rules))]
fn types_fit(params: &[InterfaceFuncParam]) -> bool
    ensures { result ≡ types_fit (map param_field params.now) }
{
    for param in params {
        if !writable(&param.tref) {
            return false;
        }
    }
    true
}
