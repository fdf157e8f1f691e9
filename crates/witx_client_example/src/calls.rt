//! A function, called with the values that lines give.

ghost use Rattle.std.specs.Prelude.{All, IfOk, map, option_map};
ghost use Rattle.witx_tools.specs.{Seen.{seen}, Callable.{IsCallable}};
ghost use Rattle.witx_client_example.specs.Whole.{AreGiven, Carries, IsWhole};

use crate::error::{ClientError, refused};
use std::alloc::Global;
use witx_tools::{
    Adapted, AdaptedFunc, GivenValues, Invoked, adapted_meets_conditions,
    given_values_meet_conditions, invoke, read_values,
};

/// The call of the first function of the document, if there is one.
pub fn first_call(
    alloc: Global,
    adapted: &Adapted,
    lines: &str,
) -> Result<Option<Invoked>, ClientError>
    requires { IsWhole adapted.now }
{
    adapted_meets_conditions(adapted);
    call_of_first(alloc, adapted.functions.as_slice(), lines)
}

fn call_of_first(
    alloc: Global,
    functions: &[AdaptedFunc],
    lines: &str,
) -> Result<Option<Invoked>, ClientError>
    requires { All IsCallable functions.now }
{
    if functions.is_empty() {
        return Ok(None);
    }
    Ok(Some(called(alloc, &functions[0], lines)?))
}

/// The call of a function with the values that lines give: the callee is handed these, and their reply comes back.
pub fn called(alloc: Global, entry: &AdaptedFunc, lines: &str) -> Result<Invoked, ClientError>
    requires { IsCallable entry.now }
    ensures { IfOk result (Carries entry.now lines.now) }
{
    match read_values(alloc, &entry.func, lines) {
        Ok(given) => called_with(alloc, entry, lines, &given),
        Err(error) => Err(refused(alloc, &error)),
    }
}

fn called_with(
    alloc: Global,
    entry: &AdaptedFunc,
    lines: &str,
    given: &GivenValues,
) -> Result<Invoked, ClientError>
    requires callable { IsCallable entry.now }
    requires given { AreGiven entry.now lines.now (map seen given.now.args)
        (option_map seen given.now.reply) }
    ensures { IfOk result (Carries entry.now lines.now) }
{
    given_values_meet_conditions(entry, lines, given);
    match invoke(alloc, entry, &given.args, given.reply.as_ref()) {
        Ok(invoked) => Ok(invoked),
        Err(error) => Err(refused(alloc, &error)),
    }
}
