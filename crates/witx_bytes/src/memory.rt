//! A memory of bytes: a finite map from address to byte.
#![tactic(auto, using(crate::proofs::Ranges::span_rules))]

ghost use Rattle.std.specs.Prelude.{◌≡◌, ◌+◌, ◌-◌, ◌/◌, ◌%◌, ◌^◌, ◌<◌, ◌≤◌, ℕ, [], Some, None, Ok, Err, OnOk, OnErr, IfOk, ◌↔◌, true, false, is_some};
ghost use Rattle.witx_bytes.specs.Bytes.{IsByteMemory, held, with_zeros, all_stand, none_held as none_are_held, holds as holds_range, HasBlock, HasBlocks, block_of, Filled, RunAt};
ghost use Rattle.witx_bytes.specs.{Images.{little}, Writes.{Writes}};

use crate::block::{Block, SIZE, all_stand};
use std::alloc::Global;
use std::collections::BTreeMap;
use std::marker::Model;
use witx_base::OutOfMemory;

/// Where addresses end.
const END: u64 = 1 << 32;

/// A memory of bytes, which contracts see as its blocks, each with its number.
#[derive(Debug, Drop)]
pub struct ByteMemory {
    alloc: Global,
    blocks: BTreeMap<u32, Block>,
}

impl Model for ByteMemory {
    ghost use Rattle.std.specs.Prelude.{List, Option, ℕ};
    ghost use Rattle.witx_bytes.specs.Bytes.{held, IsByteMemory};

    ghost Value = { List (ℕ × List (Option ℕ)) };

    ghost view = { λ m. m.blocks.entries };

    ghost invariant = { λ m. IsByteMemory (held m.blocks.entries) };
}

/// Why a range isn't placed.
#[derive(Clone, Copy, PartialEq, Eq, Debug)]
pub enum PlaceError {
    /// A byte of the range is held already.
    Taken,
    /// Want of memory.
    OutOfMemory,
}

impl ByteMemory {
    /// The memory that holds no byte; takes no memory.
    pub fn new(alloc: Global) -> ByteMemory
        ensures { result ≡ [] }
    {
        ByteMemory {
            alloc,
            blocks: BTreeMap::new(alloc),
        }
    }

    /// The memory once more.
    pub fn copy(&self) -> Result<ByteMemory, OutOfMemory>
        ensures { IfOk result (λ made. made ≡ self.now) }
    {
        let blocks = copy_blocks(self.alloc, &self.blocks)?;
        Ok(ByteMemory {
            alloc: self.alloc,
            blocks,
        })
    }

    /// What is held are bytes, at addresses below 2^32.
    pub(crate) fn bounds(&self)
        ensures { IsByteMemory (held self.now) }
    {
        let _ = &self.blocks;
    }

    /// The byte at an address, if it is held.
    pub fn byte(&self, at: u32) -> Option<u8>
        ensures { result ≡ held self.now at }
    {
        match self.run(at) {
            [byte, ..] => *byte,
            [] => None,
        }
    }

    /// What stands from an address to the end of its block; nothing where no byte of the block is held.
    #[tactic(auto, using(crate::proofs::Blocks::run_rules))]
    pub(crate) fn run(&self, at: u32) -> &[Option<u8>]
        ensures { RunAt at result.now (held self.now) }
    {
        match self.blocks.get(&(at / SIZE)) {
            Some(block) => block.bytes_from(at % SIZE),
            None => &[],
        }
    }

    /// Whether `at` is above 0, the range ends within 2^32, and all its bytes are held.
    pub fn holds(&self, at: u32, len: u64) -> bool
        ensures { result ≡ holds_range at len (held self.now) }
    {
        at > 0 && len <= END - at as u64 && self.all_held(at, len)
    }

    /// Whether each byte of the range is held.
    fn all_held(&self, at: u32, len: u64) -> bool
        requires { at + len ≤ 2 ^ 32 }
        ensures { result ≡ all_stand true at len (held self.now) }
    {
        self.all_stand(at, len, true)
    }

    /// Whether no byte of the range is held.
    fn none_held(&self, at: u32, len: u64) -> bool
        requires { at + len ≤ 2 ^ 32 }
        ensures { result ≡ all_stand false at len (held self.now) }
    {
        self.all_stand(at, len, false)
    }

    /// Whether each byte of the range is held, where that is wanted, or else whether none is.
    fn all_stand(&self, at: u32, len: u64, wanted: bool) -> bool
        requires { at + len ≤ 2 ^ 32 }
        ensures { result ≡ all_stand wanted at len (held self.now) }
    {
        let end = at as u64 + len;
        let mut x = at as u64;
        while x < end {
            let stop = part_end(x, end);
            if !self.part_stands(x as u32, (stop - x) as usize, wanted) {
                return false;
            }
            x = stop;
        }
        true
    }

    /// The same of a range in one block.
    #[tactic(auto, using(crate::proofs::Blocks::part_rules))]
    fn part_stands(&self, at: u32, len: usize, wanted: bool) -> bool
        requires some { 0 < len }
        requires inside { at % 256 + len ≤ 256 }
        ensures { result ≡ all_stand wanted at len (held self.now) }
    {
        let run = self.run(at);
        if run.is_empty() {
            return !wanted;
        }
        all_stand(&run[..len], wanted)
    }

    /// Holds zeros in the range, besides all that it held; a refusal changes nothing.
    #[tactic(auto, using(crate::proofs::Ranges::fill_rules))]
    pub fn place(&mut self, at: u32, len: u32) -> Result<(), PlaceError>
        requires some { 1 ≤ len }
        requires above { 0 < at }
        requires within { at + len ≤ 2 ^ 32 }
        ensures zeros { OnOk result ((x : ℕ) → held self.new x ≡ with_zeros at len (held self.old) x) }
        ensures taken { result ≡ Err PlaceError.Taken ↔ (none_are_held at len (held self.old) ≡ false) }
        ensures unchanged { OnErr result ((x : ℕ) → held self.new x ≡ held self.old x) }
    {
        if !self.none_held(at, len as u64) {
            return Err(PlaceError::Taken);
        }
        // All blocks come first: one that is new holds no byte, so a refusal has nothing to take back.
        let end = at as u64 + len as u64;
        if self
            .make_blocks(at / SIZE, ((end + 255) / 256) as u32)
            .is_err()
        {
            return Err(PlaceError::OutOfMemory);
        }
        self.fill(at as u64, end);
        Ok(())
    }

    /// Makes all blocks with numbers from `first` up to `end` that aren't there; no byte changes.
    #[tactic(auto, using(crate::proofs::Blocks::made_rules))]
    fn make_blocks(&mut self, first: u32, end: u32) -> Result<(), OutOfMemory>
        ensures made { OnOk result (HasBlocks first end self.new) }
        ensures same { (x : ℕ) → held self.new x ≡ held self.old x }
    {
        for number in first..end {
            self.make_block(number)?;
        }
        Ok(())
    }

    /// Makes a block with that number if there is none; no byte changes.
    fn make_block(&mut self, number: u32) -> Result<(), OutOfMemory>
        ensures made { OnOk result (HasBlock number self.new) }
        ensures kept { (n : ℕ) → HasBlock n self.old → HasBlock n self.new }
        ensures same { (x : ℕ) → held self.new x ≡ held self.old x }
    {
        if self.has_block(number) {
            return Ok(());
        }
        let block = Block::new(self.alloc)?;
        self.blocks.insert(number, block)?;
        Ok(())
    }

    fn has_block(&self, number: u32) -> bool
        ensures { result ≡ is_some (block_of number self.now) }
    {
        self.blocks.contains_key(&number)
    }

    /// Holds zeros from an address up to another, in blocks that are there.
    #[tactic(auto, using(crate::proofs::Ranges::fill_rules))]
    fn fill(&mut self, at: u64, end: u64)
        requires blocks { HasBlocks (at / 256) ((end + 255) / 256) self.old }
        requires order { at ≤ end }
        requires within { end ≤ 2 ^ 32 }
        ensures { Filled at end (Some 0) (held self.old) (held self.new) }
    {
        let mut x = at;
        while x < end {
            let stop = part_end(x, end);
            self.fill_part(x as u32, (stop - x) as u32);
            x = stop;
        }
    }

    /// The same in one block.
    #[tactic(auto, using(crate::proofs::Blocks::change_rules))]
    fn fill_part(&mut self, at: u32, len: u32)
        requires block { HasBlock (at / 256) self.old }
        requires inside { at % 256 + len ≤ 256 }
        ensures filled { Filled at (at + len) (Some 0) (held self.old) (held self.new) }
        ensures kept { (n : ℕ) → HasBlock n self.old → HasBlock n self.new }
    {
        let Some(block) = self.blocks.get_mut(&(at / SIZE)) else {
            return;
        };
        block.fill(at % SIZE, len);
    }

    /// Writes a number into so many bytes of one block, the lowest first; takes no memory.
    #[tactic(auto, using(crate::proofs::Blocks::change_rules))]
    pub(crate) fn write_part(&mut self, at: u32, width: u32, number: u64)
        requires block { HasBlock (at / 256) self.old }
        requires inside { at % 256 + width ≤ 256 }
        ensures { Writes at (little width number) (held self.old) (held self.new) }
    {
        let Some(block) = self.blocks.get_mut(&(at / SIZE)) else {
            return;
        };
        block.write(at % SIZE, width, number);
    }
}

fn copy_blocks(
    alloc: Global,
    blocks: &BTreeMap<u32, Block>,
) -> Result<BTreeMap<u32, Block>, OutOfMemory>
    ensures { IfOk result (λ made. made.entries ≡ blocks.now.entries) }
{
    let mut made = BTreeMap::new(alloc);
    for (number, block) in blocks.iter() {
        let block = block.copy(alloc)?;
        made.insert(*number, block)?;
    }
    Ok(made)
}

/// Where the part of a range ends that lies in the block of its first address.
fn part_end(at: u64, end: u64) -> u64
    requires some { at < end }
    requires within { end ≤ 2 ^ 32 }
    ensures after { at < result }
    ensures within { result ≤ end }
    ensures inside { at % 256 + (result - at) ≤ 256 }
{
    (at - at % 256 + 256).min(end)
}
