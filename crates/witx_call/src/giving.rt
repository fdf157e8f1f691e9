//! Ranges that are given one behind the other.
#![tactic(auto, using(crate::proofs::PlacementLemmas::placement_rules))]

ghost use Rattle.std.specs.Prelude.{◌≡◌, ◌+◌, ◌^◌, ◌<◌, ◌≤◌, [], MatchOption, IfOk, option_map};
ghost use Rattle.witx_ast.specs.{Plain.{plain}, Views.{named_tree}};
ghost use Rattle.witx_machine.specs.Words.{i32 as word_i32};
ghost use Rattle.witx_bytes.specs.{ByteMachine.{range_size}, Bytes.{held}};
ghost use Rattle.witx_call.specs.{PlacementViews.{room_of}, RangeViews.{range_of, taken_of}};
ghost use Rattle.witx_call.specs.{Room.{room_given, no_bytes}, Zeroing.{Zeroed}};

use crate::placement::Placement;
use crate::range::Range;
use std::alloc::Global;
use std::rc::Rc;
use witx_ast::NamedType;
use witx_base::OutOfMemory;
use witx_bytes::{ByteMemory, PlaceError};
use witx_layout::Layout;

/// Where the first range begins.
const FIRST: u32 = 16;

/// Above which no range ends.
const LIMIT: u32 = 1 << 20;

impl Placement {
    /// No byte is held, and no range was given; takes no memory.
    pub fn new(alloc: Global) -> Placement
        ensures { room_of result ≡ record { bytes = no_bytes; taken = [] } }
    {
        Placement {
            bytes: ByteMemory::new(alloc),
            taken: Vec::new(alloc),
            next: FIRST,
        }
    }

    /// Gives the next range, of zeros, for a type; none where it would end above 2^20.
    pub fn give(&mut self, ty: &Rc<NamedType>) -> Result<Option<u32>, OutOfMemory>
        ensures { IfOk result (λ at. option_map (λ a. (word_i32 a, room_of self.new)) at
            ≡ room_given (named_tree ty.now.value) (room_of self.old)) }
    {
        match range_len(ty) {
            Some(len) => self.give_sized(ty, len),
            None => Ok(None),
        }
    }

    fn give_sized(&mut self, ty: &Rc<NamedType>, len: u32) -> Result<Option<u32>, OutOfMemory>
        requires size { len ≡ range_size (plain (named_tree ty.now.value)) }
        requires some { 0 < len }
        requires few { len ≤ 2 ^ 20 }
        ensures { IfOk result (λ at. option_map (λ a. (word_i32 a, room_of self.new)) at
            ≡ room_given (named_tree ty.now.value) (room_of self.old)) }
    {
        let at = self.next;
        let end = at + len;
        if end > LIMIT {
            return Ok(None);
        }
        if !put_zeros(&mut self.bytes, at, len)? {
            return Ok(None);
        }
        let ty = Rc::clone(ty)?;
        self.taken.push(Range { at, ty, len })?;
        self.next = end + (8 - end % 8) % 8;
        Ok(Some(at))
    }
}

impl Placement {
    /// The memory once more.
    pub fn copy(&self, alloc: Global) -> Result<Placement, OutOfMemory>
        ensures { IfOk result (λ made. room_of made ≡ room_of self.now) }
    {
        let bytes = self.bytes.copy()?;
        let taken = copy_ranges(alloc, self.taken.as_slice())?;
        Ok(Placement {
            bytes,
            taken,
            next: self.next,
        })
    }
}

#[tactic(auto, using(crate::proofs::CopyLemmas::copy_rules))]
fn copy_ranges(alloc: Global, ranges: &[Range]) -> Result<Vec<Range>, OutOfMemory>
    ensures { IfOk result (λ made. taken_of made.items ≡ taken_of ranges.now) }
{
    let mut made = Vec::new(alloc);
    for range in ranges {
        made.push(copy_range(range)?)?;
    }
    Ok(made)
}

fn copy_range(range: &Range) -> Result<Range, OutOfMemory>
    ensures { IfOk result (λ made. range_of made ≡ range_of range.now) }
{
    let ty = Rc::clone(&range.ty)?;
    Ok(Range {
        at: range.at,
        ty,
        len: range.len,
    })
}

/// Zeros in a range, where none of it is held; else nothing changes.
fn put_zeros(memory: &mut ByteMemory, at: u32, len: u32) -> Result<bool, OutOfMemory>
    requires some { 0 < len }
    requires above { 0 < at }
    requires within { at + len ≤ 2 ^ 32 }
    ensures { IfOk result (λ placed. Zeroed at len (held memory.old) (held memory.new) placed) }
{
    match memory.place(at, len) {
        Ok(()) => Ok(true),
        Err(PlaceError::Taken) => Ok(false),
        Err(PlaceError::OutOfMemory) => Err(OutOfMemory),
    }
}

/// The length of a range for a type, at least 1; none where it is above 2^20.
fn range_len(ty: &NamedType) -> Option<u32>
    ensures { MatchOption result (2 ^ 20 < range_size (plain (named_tree ty.now)))
        (λ len. (len ≡ range_size (plain (named_tree ty.now))) × ((0 < len) × (len ≤ 2 ^ 20))) }
{
    match ty.tref.mem_size() {
        Ok(size) => {
            if size <= LIMIT as usize {
                Some(size.max(1) as u32)
            } else {
                None
            }
        }
        Err(_) => None,
    }
}
