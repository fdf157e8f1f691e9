//! One world of a function: that of a known case, and that in which nothing is known.
#![tactic(auto, using(crate::proofs::WorldsLemmas::worlds_rules))]

ghost use Rattle.std.specs.Prelude.{◌≡◌, ◌∷◌, [], IfOk, nat_le, true};
ghost use Rattle.witx_instructions.specs.Views.{payload_tree};
ghost use Rattle.witx_symbols.specs.Symbolic.{unknown_world, payload_from};
ghost use Rattle.witx_symbols.specs.WordViews.{option_of, shared_of, world_of};
ghost use Rattle.witx_symbols.specs.WorldViews.{GainWorld, worlds_read, world_known};

use crate::from::symbol_from;
use crate::symbol::{Source, Symbol};
use crate::world::World;
use std::alloc::Global;
use std::rc::Rc;
use witx_ast::{Abi, TypeRef};
use witx_base::OutOfMemory;

/// This world alone, in which nothing is known of the reply but its type.
pub fn one_world(
    alloc: Global,
    abi: Abi,
    reply: Option<Rc<Symbol>>,
) -> Result<Vec<World>, OutOfMemory>
    ensures { IfOk result (λ made. worlds_read made.items ≡ unknown_world abi (option_of reply) ∷ []) }
{
    let mut worlds = Vec::new(alloc);
    worlds.push(unknown(abi, reply))?;
    Ok(worlds)
}

/// The world in which nothing is known of the reply but its type.
pub fn unknown(abi: Abi, reply: Option<Rc<Symbol>>) -> World
    ensures { world_of result ≡ unknown_world abi (option_of reply) }
{
    World {
        abi,
        whole: reply,
        error: None,
        load: None,
    }
}

/// The world of the second case, where there are so many cases.
pub fn push_second(
    worlds: &mut Vec<World>,
    abi: Abi,
    reply: &Rc<Symbol>,
    count: usize,
    err: Option<&TypeRef>,
) -> Result<(), OutOfMemory>
    ensures { IfOk result (λ _. GainWorld worlds.old.items worlds.new.items
        (nat_le 2 count) (world_known abi (shared_of reply.now) true (payload_tree err.entry))) }
{
    if count >= 2 {
        let alloc = *worlds.allocator();
        worlds.push(known(alloc, abi, reply, true, err)?)?;
    }
    Ok(())
}

/// The world of a case that carries a value of this type, or nothing.
pub fn known(
    alloc: Global,
    abi: Abi,
    reply: &Rc<Symbol>,
    error: bool,
    payload: Option<&TypeRef>,
) -> Result<World, OutOfMemory>
    ensures { IfOk result (λ world. world_of world
        ≡ world_known abi (shared_of reply.now) error (payload_tree payload.entry)) }
{
    let load = payload_from(alloc, payload)?;
    Ok(World {
        abi,
        whole: Some(Rc::clone(reply)?),
        error: Some(error),
        load,
    })
}

fn payload_from(alloc: Global, payload: Option<&TypeRef>) -> Result<Option<Rc<Symbol>>, OutOfMemory>
    ensures { IfOk result (λ load. option_of load ≡ payload_from (payload_tree payload.entry)) }
{
    match payload {
        Some(ty) => {
            let source = Rc::new(alloc, Source::Payload)?;
            Ok(Some(symbol_from(alloc, ty, &source)?))
        }
        None => Ok(None),
    }
}
