//! A block of a memory of bytes: 256 places in a row, each a byte or none.
#![tactic(auto, using(crate::proofs::Ranges::range_rules))]

ghost use Rattle.std.specs.Prelude.{◌≡◌, ◌≢◌, ◌<◌, ◌≤◌, ◌+◌, ◌-◌, ℕ, None, Some, IfOk, length, drop};
ghost use Rattle.witx_bytes.specs.{Bytes.{block_bytes, all_stand, stands_as, Filled}, Images.{little}};
ghost use Rattle.witx_bytes.specs.Writes.{Writes};

use std::alloc::Global;
use std::marker::Model;
use witx_base::OutOfMemory;

/// How many addresses share a block.
pub(crate) const SIZE: u32 = 256;

/// What stands at so many addresses in a row: at each a byte, or none.
#[derive(Debug, Drop)]
pub(crate) struct Block {
    bytes: Vec<Option<u8>>,
}

impl Model for Block {
    ghost use Rattle.std.specs.Prelude.{◌≡◌, List, Option, ℕ, length};

    ghost Value = { List (Option ℕ) };

    ghost view = { λ b. b.bytes.items };

    ghost invariant = { λ b. length b.bytes.items ≡ 256 };
}

impl Block {
    /// The block in which no byte is held.
    pub(crate) fn new(alloc: Global) -> Result<Block, OutOfMemory>
        ensures { IfOk result (λ made. (i : ℕ) → block_bytes made i ≡ None) }
    {
        let bytes = Vec::from_elem(alloc, None, SIZE as usize)?;
        Ok(Block { bytes })
    }

    /// The block once more.
    pub(crate) fn copy(&self, alloc: Global) -> Result<Block, OutOfMemory>
        ensures { IfOk result (λ made. made ≡ self.now) }
    {
        let bytes = Vec::from_slice(alloc, self.bytes.as_slice())?;
        Ok(Block { bytes })
    }

    /// What stands from a place on.
    pub(crate) fn bytes_from(&self, i: u32) -> &[Option<u8>]
        requires { i < 256 }
        ensures bytes { result.now ≡ drop i self.now }
        ensures long { length result.now ≡ 256 - i }
    {
        &self.bytes.as_slice()[i as usize..]
    }

    /// Holds a byte at a place.
    fn set(&mut self, i: u32, byte: u8)
        requires { i < 256 }
        ensures there { block_bytes self.new i ≡ Some byte }
        ensures elsewhere { (j : ℕ) → j ≢ i → block_bytes self.new j ≡ block_bytes self.old j }
    {
        self.bytes[i as usize] = Some(byte);
    }

    /// Holds zeros at so many places.
    #[tactic(auto, using(crate::proofs::Ranges::fill_rules))]
    pub(crate) fn fill(&mut self, i: u32, len: u32)
        requires { i + len ≤ 256 }
        ensures { Filled i (i + len) (Some 0) (block_bytes self.old) (block_bytes self.new) }
    {
        for j in i..i + len {
            self.set(j, 0);
        }
    }

    /// Holds a number in so many bytes, the lowest first.
    #[tactic(auto, using(crate::proofs::Writing::number_rules))]
    pub(crate) fn write(&mut self, i: u32, width: u32, number: u64)
        requires { i + width ≤ 256 }
        ensures { Writes i (little width number) (block_bytes self.old) (block_bytes self.new) }
    {
        let mut rest = number;
        for j in i..i + width {
            self.set(j, (rest % 256) as u8);
            rest /= 256;
        }
    }
}

/// Whether a byte is held at each place, where that is wanted, or else whether none is.
pub(crate) fn all_stand(run: &[Option<u8>], wanted: bool) -> bool
    ensures { result ≡ all_stand wanted 0 (length run.now) (block_bytes run.now) }
{
    for byte in run {
        if !stands(byte, wanted) {
            return false;
        }
    }
    true
}

fn stands(byte: &Option<u8>, wanted: bool) -> bool
    ensures { result ≡ stands_as wanted byte.now }
{
    if wanted {
        byte.is_some()
    } else {
        byte.is_none()
    }
}
