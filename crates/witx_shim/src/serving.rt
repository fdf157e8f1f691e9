//! The shim of an old function by a new one.

ghost use Rattle.std.specs.Prelude.{◌≡◌, IfOk, Some};
ghost use Rattle.witx_ast.specs.Functions.{func_tree};
ghost use Rattle.witx_compat.specs.{Polyfills.{function_mapped}, Views.{function_view}};
ghost use Rattle.witx_shim.specs.Refusals.{AnswersRefusal, call_refusals, first_refusal_of, refusal_of};
ghost use Rattle.witx_shim.specs.Arrivals.{EachArrives, words_passed};

use crate::error::ShimError;
use crate::passed::Shim;
use crate::passing::words_passed;
use crate::spans::spans_of;
use std::alloc::Global;
use witx_compat::FuncPolyfill;
use witx_instructions::functions_are_read_as_their_trees;
use witx_lowering::{lowerable, words_in};
use witx_machine::shims_are_faithful;

/// The shim of a mapped function: for each parameter of the new function, in order, the words of the old
/// parameter of its name, and then the old return pointers. Through it every call of the old function
/// arrives at the new one.
///
/// Refused, in this order, for the first name that two parameters of the old function have, or else of the
/// new one; where the functions aren't fully compatible; where they are called in other ways; for the first
/// part of the old function, or else of the new one, that can't be lowered.
pub fn shim(alloc: Global, poly: &FuncPolyfill) -> Result<Shim, ShimError>
    requires { function_view poly.now ≡ function_mapped (func_tree poly.now.new.value) (func_tree poly.now.old.value) }
    ensures refused { AnswersRefusal (refusal_of (function_view poly.now)) result }
    ensures pass { IfOk result (λ made. words_passed (func_tree poly.now.old.value)
        (func_tree poly.now.new.value) ≡ Some made.pass) }
    ensures arrives { IfOk result
        (λ made. EachArrives (func_tree poly.now.old.value) (func_tree poly.now.new.value) made.pass) }
{
    shims_are_faithful();
    functions_are_read_as_their_trees();
    let spans = spans_of(alloc, poly.old.params.as_slice())?;
    spans_of(alloc, poly.new.params.as_slice())?;
    check_calls(poly)?;
    let total = words_in(alloc, &poly.old)?.len();
    let pass = words_passed(alloc, &spans, poly.new.params.as_slice(), total)?;
    Ok(Shim { pass })
}

/// Whether calls of the old function could go to the new one, where the names of parameters are distinct.
fn check_calls(poly: &FuncPolyfill) -> Result<(), ShimError>
    ensures { AnswersRefusal (first_refusal_of (call_refusals (function_view poly.now))) result }
{
    functions_are_read_as_their_trees();
    if !poly.full_compat() {
        return Err(ShimError::NotCompatible);
    }
    if poly.old.abi != poly.new.abi {
        return Err(ShimError::OtherAbi);
    }
    if let Err(place) = lowerable(&poly.old) {
        return Err(ShimError::OldUnlowerable(place));
    }
    if let Err(place) = lowerable(&poly.new) {
        return Err(ShimError::NewUnlowerable(place));
    }
    Ok(())
}
