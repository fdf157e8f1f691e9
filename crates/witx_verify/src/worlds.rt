//! The worlds of a function: what its reply can be.
#![tactic(auto, using(witx_symbols::proofs::WorldsLemmas::worlds_rules))]

ghost use Rattle.std.specs.Prelude.{◌≡◌, ◌∷◌, [], IfOk, Some, nat_le};
ghost use Rattle.witx_ast.specs.Views.{tree_of};
ghost use Rattle.witx_instructions.specs.Views.{called, variant_arms};
ghost use Rattle.witx_symbols.specs.Symbolic.{worlds, worlds_of, worlds_by, unknown_world};
ghost use Rattle.witx_symbols.specs.{WordViews.{shared_of}, WorldViews.{GainWorld, worlds_read}};

use std::alloc::Global;
use std::rc::Rc;
use witx_abi::{err_type, ok_type, result_cases};
use witx_ast::{Abi, InterfaceFunc, TypeRef, Variant};
use witx_base::OutOfMemory;
use witx_symbols::{Source, Symbol, World, known, one_world, push_second, symbol_from, unknown};

/// The worlds of a function, at most three. Where its result is a variant with a payload, the reply is
/// the first case, the second, or a later one, as far as there are such cases; else there is one world.
pub(crate) fn worlds(alloc: Global, func: &InterfaceFunc) -> Result<Vec<World>, OutOfMemory>
    ensures { IfOk result (λ made. worlds_read made.items ≡ worlds (called func.now)) }
{
    match func.results.get(0) {
        Some(first) => worlds_of_result(alloc, func.abi, &first.tref),
        None => one_world(alloc, func.abi, None),
    }
}

fn worlds_of_result(alloc: Global, abi: Abi, ty: &TypeRef) -> Result<Vec<World>, OutOfMemory>
    ensures { IfOk result (λ made. worlds_read made.items ≡ worlds_of abi (tree_of ty.now ∷ [])) }
{
    let source = Rc::new(alloc, Source::Reply)?;
    let reply = symbol_from(alloc, ty, &source)?;
    match result_cases(ty) {
        Some(variant) => worlds_of_cases(alloc, abi, &reply, variant),
        None => one_world(alloc, abi, Some(reply)),
    }
}

fn worlds_of_cases(
    alloc: Global,
    abi: Abi,
    reply: &Rc<Symbol>,
    variant: &Variant,
) -> Result<Vec<World>, OutOfMemory>
    ensures { IfOk result (λ made. worlds_read made.items
        ≡ worlds_by abi (Some (shared_of reply.now)) (Some (variant_arms variant.now))) }
{
    let mut worlds = Vec::new(alloc);
    let count = variant.cases.len();
    worlds.push(known(alloc, abi, reply, false, ok_type(variant))?)?;
    push_second(&mut worlds, abi, reply, count, err_type(variant))?;
    push_later(&mut worlds, abi, reply, count)?;
    Ok(worlds)
}

// The world of the cases behind the second, of which nothing more is known, where there are so many.
fn push_later(
    worlds: &mut Vec<World>,
    abi: Abi,
    reply: &Rc<Symbol>,
    count: usize,
) -> Result<(), OutOfMemory>
    ensures { IfOk result (λ _. GainWorld worlds.old.items worlds.new.items
        (nat_le 3 count) (unknown_world abi (Some (shared_of reply.now)))) }
{
    if count >= 3 {
        worlds.push(unknown(abi, Some(Rc::clone(reply)?)))?;
    }
    Ok(())
}
