//! Whether a function can be lowered, or its first part that can't.
#![tactic(auto, using(witx_instructions::proofs::Results::lowerable_rules))]

ghost use Rattle.std.specs.Prelude.{◌≡◌, not, position};
ghost use Rattle.witx_ast.specs.Views.{tree_of, datatype_tree};
ghost use Rattle.witx_machine.specs.Lowerable.{can_be_result, can_return, can_be_param, unlowerable, unlowerable_result};
ghost use Rattle.witx_instructions.specs.{Views.{called, param_types}, Told.{refused_place}};

use witx_ast::{Abi, Datatype, InterfaceFunc, Params, TypeRef};
use witx_instructions::{can_be_param, record_can_return, variant_can_return};
use witx_machine::Place;

/// Whether a function can be lowered, and if not, where: the first parameter that can't, else result 1
/// where there are two or more results, else result 0.
///
/// A parameter that is a record, a variant or a handle must be a name. Under `Stored` a result must be a
/// name. Under `Preview1` it is a builtin, a pointer, a named handle, named flags, or a variant of the
/// cases `ok` and `err` whose tag isn't `u64`: named if it has no payload, with a name or a tuple of names
/// for ok, and a name passed as one I32 for err. Where ok's name stands for a tuple, that one's members
/// must be names too.
pub fn lowerable(func: &InterfaceFunc) -> Result<(), Place>
    ensures { refused_place result ≡ unlowerable (called func.now) }
{
    if let Some(i) = first_failing(&func.params) {
        return Err(Place::Param(i));
    }
    match failing_result(func.abi, &func.results) {
        None => Ok(()),
        Some(place) => Err(place),
    }
}

// The first parameter that can't be lowered.
fn first_failing(params: &Params) -> Option<usize>
    ensures { result ≡ position (λ p. not (can_be_param (tree_of p.tref))) params.now }
{
    params
        .as_slice()
        .iter()
        .position(|param| !can_be_param(&param.tref))
}

fn failing_result(abi: Abi, results: &Params) -> Option<Place>
    ensures { result ≡ unlowerable_result abi (param_types results.now) }
{
    match results.as_slice() {
        [] => None,
        [only] => {
            if can_be_result(abi, &only.tref) {
                None
            } else {
                Some(Place::Result(0))
            }
        }
        [_, _, ..] => Some(Place::Result(1)),
    }
}

#[tactic(auto, using(witx_ast::proofs::TreeKinds::kind_rules, witx_instructions::proofs::Results::lowerable_rules))]
fn can_be_result(abi: Abi, tref: &TypeRef) -> bool
    ensures { result ≡ can_be_result abi (tree_of tref.now) }
{
    match abi {
        Abi::Preview1 => can_return(tref.type_(), tref.named()),
        Abi::Stored => tref.named(),
    }
}

#[tactic(auto, using(witx_ast::proofs::TreeKinds::kind_rules, witx_instructions::proofs::Results::lowerable_rules))]
fn can_return(datatype: &Datatype, named: bool) -> bool
    ensures { result ≡ can_return named (datatype_tree datatype.now) }
{
    match datatype {
        Datatype::Builtin(_) | Datatype::Pointer(_) | Datatype::ConstPointer(_) => true,
        Datatype::Handle(_) => named,
        Datatype::Record(record) => record_can_return(record, named),
        Datatype::Variant(variant) => variant_can_return(variant, named),
        Datatype::List(_) => false,
    }
}
