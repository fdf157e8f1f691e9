//! What may still be gone through.
#![tactic(auto, using(crate::proofs::Counting::extent_rules))]

ghost use Rattle.std.specs.Prelude.{◌≡◌};
ghost use Rattle.witx_ast.specs.Views.{tree_of};
ghost use Rattle.witx_extent.specs.{Extents.{TakesOff, extent, params_extent}, Waiting.{own_extent}};

use crate::parts::{Waiting, first_waiting, own_extent, put_parts};
use std::alloc::Global;
use witx_ast::{InterfaceFuncParam, TypeRef};
use witx_base::OutOfMemory;

/// How much of types may still be gone through, each name looked through wherever it is mentioned.
#[derive(Debug, Drop)]
pub struct Allowance {
    left: usize,
    names: usize,
    types: usize,
}

impl Allowance {
    /// So much: one for each name and for each type that is written out, at each of its mentions, and one for each
    /// case. At most `deepest` names may stand one for the other, and as many lists, pointers, records and variants lie
    /// one in the other.
    pub fn new(extent: usize, deepest: usize) -> Allowance
        ensures { result.left ≡ extent }
    {
        Allowance::with_depths(extent, deepest, deepest)
    }

    /// The same, where so many names may stand one for the other, and so many lists, pointers, records and variants lie
    /// one in the other.
    pub fn with_depths(extent: usize, names: usize, types: usize) -> Allowance
        ensures { result.left ≡ extent }
    {
        Allowance {
            left: extent,
            names,
            types,
        }
    }

    /// Takes what there is to a type. Want of memory where that is more than is left, or where it is deeper.
    pub fn take(&mut self, alloc: Global, tref: &TypeRef) -> Result<(), OutOfMemory>
        ensures { TakesOff result self.old self.new (extent (tree_of tref.now)) }
    {
        let mut waiting = first_waiting(alloc, tref)?;
        while let Some(next) = waiting.pop() {
            self.take_one(next)?;
            put_parts(&mut waiting, next)?;
        }
        Ok(())
    }

    /// Takes what there is to the types of parameters, or of results.
    pub fn take_params(
        &mut self,
        alloc: Global,
        params: &[InterfaceFuncParam],
    ) -> Result<(), OutOfMemory>
        ensures { TakesOff result self.old self.new (params_extent params.now) }
    {
        for param in params {
            self.take(alloc, &param.tref)?;
        }
        Ok(())
    }

    /// How much is left.
    pub fn left(&self) -> usize
        ensures { result ≡ self.now.left }
    {
        self.left
    }

    /// Takes so much. Want of memory where that is more than is left.
    pub fn take_number(&mut self, number: usize) -> Result<(), OutOfMemory>
        ensures { TakesOff result self.old self.new number }
    {
        if number > self.left {
            return Err(OutOfMemory);
        }
        self.left -= number;
        Ok(())
    }

    /// Takes what there is to a type beside its parts.
    pub(crate) fn take_one(&mut self, one: Waiting<'_>) -> Result<(), OutOfMemory>
        ensures { TakesOff result self.old self.new (own_extent (tree_of one.entry.tref.now)) }
    {
        let own = own_extent(one.tref);
        if one.names > self.names || one.types > self.types || own > self.left {
            return Err(OutOfMemory);
        }
        self.left -= own;
        Ok(())
    }
}
