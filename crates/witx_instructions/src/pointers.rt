//! The return pointers of a function, by the types that they point to.
#![tactic(auto, using(crate::proofs::Sides::side_rules))]

ghost use Rattle.std.specs.Prelude.{◌≡◌, ◌++◌, ◌∷◌, [], None, Some, IfOk, map, take, true};
ghost use Rattle.witx_ast.specs.{declared.function.Abi.TheVariants.{Preview1, Stored}, Views.{tree_of}};
ghost use Rattle.witx_ast.specs.Words.{is_named};
ghost use Rattle.witx_machine.specs.Lowerable.{can_be_ok, can_be_result, all_names, unlowerable_result};
ghost use Rattle.witx_machine.specs.Functions.{result_cases};
ghost use Rattle.witx_machine.specs.Signature.{ok_pointers, pointers_of, pointers_by, pointers_under};
ghost use Rattle.witx_instructions.specs.Views.{param_types, pointer_types, payload_tree};

use crate::reading::{ok_type, result_cases, tuple_members};
use std::alloc::Global;
use std::rc::Rc;
use witx_ast::{Abi, Members, NamedType, Params, TypeRef};
use witx_base::{Items, OutOfMemory};

/// The types of return pointers, in order.
pub type Pointers<'a> = Items<&'a Rc<NamedType>>;

/// The return pointers of a function that can be lowered.
pub fn return_pointers<'a>(
    alloc: Global,
    abi: Abi,
    results: &'a Params,
) -> Result<Pointers<'a>, OutOfMemory>
    requires { unlowerable_result abi (param_types results.now) ≡ None }
    ensures { IfOk result (λ pointers. pointer_types pointers ≡ pointers_under abi (param_types results.now)) }
{
    match abi {
        Abi::Preview1 => first_pointers(alloc, results),
        Abi::Stored => stored_pointer(alloc, results),
    }
}

// The one pointer to a result that is stored whole.
#[tactic(auto, using(crate::proofs::Sides::side_rules, crate::proofs::PointerTypes::pointer_rules))]
fn stored_pointer<'a>(alloc: Global, results: &'a Params) -> Result<Pointers<'a>, OutOfMemory>
    requires { unlowerable_result Stored (param_types results.now) ≡ None }
    ensures { IfOk result (λ pointers. pointer_types pointers ≡ take 1 (param_types results.now)) }
{
    let mut pointers = Items::new(alloc);
    if let Some(only) = results.get(0) {
        push_named(&mut pointers, &only.tref)?;
    }
    Ok(pointers)
}

fn first_pointers<'a>(alloc: Global, results: &'a Params) -> Result<Pointers<'a>, OutOfMemory>
    requires { unlowerable_result Preview1 (param_types results.now) ≡ None }
    ensures { IfOk result (λ pointers. pointer_types pointers ≡ pointers_of (param_types results.now)) }
{
    match results.get(0) {
        Some(only) => result_pointers(alloc, &only.tref),
        None => Ok(Items::new(alloc)),
    }
}

fn result_pointers<'a>(alloc: Global, tref: &'a TypeRef) -> Result<Pointers<'a>, OutOfMemory>
    requires { can_be_result Preview1 (tree_of tref.now) ≡ true }
    ensures { IfOk result (λ pointers. pointer_types pointers ≡ pointers_by (result_cases (tree_of tref.now))) }
{
    match result_cases(tref) {
        Some(variant) => ok_pointers(alloc, ok_type(variant)),
        None => Ok(Items::new(alloc)),
    }
}

// The return pointers of an ok type: those of a tuple's members, or the one of another type.
#[tactic(auto, using(crate::proofs::PointerTypes::pointer_rules))]
fn ok_pointers<'a>(alloc: Global, ok: Option<&'a TypeRef>) -> Result<Pointers<'a>, OutOfMemory>
    requires { can_be_ok (payload_tree ok) ≡ true }
    ensures { IfOk result (λ pointers. pointer_types pointers ≡ ok_pointers (payload_tree ok.entry)) }
{
    let mut pointers = Items::new(alloc);
    if let Some(tref) = ok {
        push_pointers(&mut pointers, tref)?;
    }
    Ok(pointers)
}

#[tactic(auto, using(witx_ast::proofs::TreeKinds::kind_rules, crate::proofs::PointerTypes::pointer_rules))]
fn push_pointers<'a>(pointers: &mut Pointers<'a>, tref: &'a TypeRef) -> Result<(), OutOfMemory>
    requires { can_be_ok (Some (tree_of tref.now)) ≡ true }
    ensures { IfOk result (λ _. pointer_types pointers.new
        ≡ pointer_types pointers.old ++ ok_pointers (Some (tree_of tref.now))) }
{
    match tuple_members(tref) {
        Some(members) => push_members(pointers, members),
        None => push_named(pointers, tref),
    }
}

#[tactic(auto, using(crate::proofs::PointerTypes::pointer_rules))]
fn push_members<'a>(pointers: &mut Pointers<'a>, members: &'a Members) -> Result<(), OutOfMemory>
    requires { all_names (map (λ m. tree_of m.tref) members.now) ≡ true }
    ensures { IfOk result (λ _. pointer_types pointers.new
        ≡ pointer_types pointers.old ++ map (λ m. tree_of m.tref) members.now) }
{
    for member in members.as_slice() {
        push_named(pointers, &member.tref)?;
    }
    Ok(())
}

#[tactic(auto, using(witx_ast::proofs::TreeKinds::kind_rules, crate::proofs::PointerTypes::pointer_rules))]
fn push_named<'a>(pointers: &mut Pointers<'a>, tref: &'a TypeRef) -> Result<(), OutOfMemory>
    requires { is_named (tree_of tref.now) ≡ true }
    ensures { IfOk result (λ _. pointer_types pointers.new ≡ pointer_types pointers.old ++ tree_of tref.now ∷ []) }
{
    if let TypeRef::Name(named) = tref {
        pointers.push(named)?;
    }
    Ok(())
}
