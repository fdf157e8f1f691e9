//! Functions and values made by hand: whether a function takes values from lines, and whether values are of its types.
#![tactic(auto, using(crate::proofs::Fitting::reply_rules))]

ghost use Rattle.std.specs.Prelude.{◌≡◌, ◌≤◌, IsTrue, Some, length, map, option_map, true};
ghost use Rattle.witx_ast.specs.{Functions.{func_tree, param_field}, Tags.{function_fits, types_fit}};
ghost use Rattle.witx_bytes.specs.Seen.{seen};
ghost use Rattle.witx_instructions.specs.Views.{called, param_types};
ghost use Rattle.witx_machine.specs.Faithful.{are_arguments, is_reply};

use witx_ast::{InterfaceFunc, InterfaceFuncParam};
use witx_bytes::{Value, Values, is_value, writable};

/// Whether a function has at most one result and its types fit their tags, as `read_values` asks for.
pub fn takes_values(func: &InterfaceFunc) -> bool
    ensures single { result ≡ true → length func.now.results ≤ 1 }
    ensures fits { result ≡ true → function_fits (func_tree func.now) ≡ true }
    ensures exact { length func.now.results ≤ 1 → function_fits (func_tree func.now) ≡ true → result ≡ true }
{
    func.results.len() <= 1 && fits(func)
}

/// Whether each type of a function fits its tag.
pub(crate) fn fits(func: &InterfaceFunc) -> bool
    ensures { result ≡ function_fits (func_tree func.now) }
{
    all_fit(func.params.as_slice()) && all_fit(func.results.as_slice())
}

#[tactic(auto, using(crate::proofs::Fitting::fit_rules))]
fn all_fit(params: &[InterfaceFuncParam]) -> bool
    ensures { result ≡ types_fit (map param_field params.now) }
{
    for param in params {
        if !writable(&param.tref) {
            return false;
        }
    }
    true
}

/// Whether there is a value of its type for each parameter, and for the result if there is one, as `invoke` asks for.
pub fn are_values(func: &InterfaceFunc, args: &Values, reply: Option<&Value>) -> bool
    ensures arguments { result ≡ true → IsTrue (are_arguments (called func.now).params (map seen args.now)) }
    ensures reply { result ≡ true → IsTrue (is_reply (called func.now).results (option_map (λ v. seen v.now) reply.entry)) }
    ensures exact { IsTrue (are_arguments (called func.now).params (map seen args.now))
        → IsTrue (is_reply (called func.now).results (option_map (λ v. seen v.now) reply.entry)) → result ≡ true }
{
    are_arguments(func.params.as_slice(), args.as_slice())
        && is_reply(func.results.as_slice(), reply)
}

#[tactic(auto, using(crate::proofs::Fitting::argument_rules))]
fn are_arguments(params: &[InterfaceFuncParam], args: &[Value]) -> bool
    ensures { result ≡ are_arguments (param_types params.now) (map seen args.now) }
{
    if params.len() != args.len() {
        return false;
    }
    for i in 0..params.len() {
        let param = &params[i];
        let arg = &args[i];
        if !is_value(&param.tref, arg) {
            return false;
        }
    }
    true
}

fn is_reply(results: &[InterfaceFuncParam], reply: Option<&Value>) -> bool
    ensures { result ≡ is_reply (param_types results.now) (option_map (λ v. seen v.now) reply.entry) }
{
    match reply {
        Some(value) => is_only(results, value),
        None => results.is_empty(),
    }
}

fn is_only(results: &[InterfaceFuncParam], value: &Value) -> bool
    ensures { result ≡ is_reply (param_types results.now) (Some (seen value.now)) }
{
    if results.len() != 1 {
        return false;
    }
    let only = &results[0];
    is_value(&only.tref, value)
}
