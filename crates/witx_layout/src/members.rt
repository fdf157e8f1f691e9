//! Where the members of a record begin.

ghost use Rattle.std.specs.Prelude.{◌≡◌, ◌≤◌, ◌<◌, ◌+◌, ◌^◌, ℕ, List, map, All, Any, IfOk, OnOk, MatchOption};
ghost use Rattle.witx_layout.specs.Numbers.{align_to as rounded, offsets as offsets_from, size_of};
ghost use Rattle.witx_layout.specs.{Laws.{ArePlaced}, declared.members.LayoutError.{LayoutError}};
ghost use Rattle.witx_ast.specs.{Plain.{plain}, Views.{tree_of, members_plain}};
ghost use Rattle.witx_ast.specs.declared.types.RecordMember.{RecordMember};

use crate::layout::{Layout, TooLarge};
use crate::rounding::align_to;
use std::alloc::Global;
use witx_ast::{RecordDatatype, RecordMember, TypeRef};
use witx_base::{Items, OutOfMemory};

/// Why a layout isn't given.
#[derive(Clone, Copy, PartialEq, Eq)]
pub enum LayoutError {
    /// An exact number of the answer exceeds `usize::MAX`.
    TooLarge,
    OutOfMemory,
}

impl From<TooLarge> for LayoutError {
    ghost from_gives = { λ _ error. error ≡ LayoutError.TooLarge };

    fn from(_error: TooLarge) -> LayoutError {
        LayoutError::TooLarge
    }
}

impl From<OutOfMemory> for LayoutError {
    ghost from_gives = { λ _ error. error ≡ LayoutError.OutOfMemory };

    fn from(_error: OutOfMemory) -> LayoutError {
        LayoutError::OutOfMemory
    }
}

/// A member and where it begins, in bytes from the begin of its record.
#[derive(Drop)]
pub struct RecordMemberLayout<'a> {
    pub member: &'a RecordMember,
    pub offset: usize,
}

/// Members with their offsets, in order.
pub type MemberLayouts<'a> = Items<RecordMemberLayout<'a>>;

/// Where the members of a record begin.
pub trait RecordMembers {
    /// The members, in order.
    ghost members: { Self → List RecordMember };

    /// Each member with its offset, also for flags, as if they were a plain record.
    ///
    /// It is too large exactly where an offset is; the end of the last member doesn't count.
    fn member_layout(&self, alloc: Global) -> Result<MemberLayouts<'_>, LayoutError>
        ensures members { IfOk result (ArePlaced (members self.now)) }
        ensures begins { IfOk result (λ layouts. map (λ m. m.offset) layouts
            ≡ offsets_from 0 (members_plain (members self.now))) }
        ensures fits { OnOk result (All (λ offset. offset < 2 ^ 64) (offsets_from 0 (members_plain (members self.now)))) }
        ensures too_large { result ≡ Err LayoutError.TooLarge
            → Any (λ offset. 2 ^ 64 ≤ offset) (offsets_from 0 (members_plain (members self.now))) };
}

impl RecordMembers for RecordDatatype {
    ghost use Rattle.witx_ast.specs.declared.types.RecordDatatype.{out-RecordDatatype};

    ghost members = { λ r. (out-RecordDatatype r).members };

    fn member_layout(&self, alloc: Global) -> Result<MemberLayouts<'_>, LayoutError> {
        placed(alloc, self.members.as_slice())
    }
}

/// The members, each at the next multiple of its alignment behind the one before it.
#[tactic(auto, using(crate::proofs::Begins::begin_rules))]
fn placed<'a>(alloc: Global, members: &'a [RecordMember]) -> Result<MemberLayouts<'a>, LayoutError>
    ensures members { IfOk result (ArePlaced members.now) }
    ensures begins { IfOk result (λ layouts. map (λ m. m.offset) layouts ≡ offsets_from 0 (members_plain members.now)) }
    ensures fits { OnOk result (All (λ offset. offset < 2 ^ 64) (offsets_from 0 (members_plain members.now))) }
    ensures too_large { result ≡ Err LayoutError.TooLarge
        → Any (λ offset. 2 ^ 64 ≤ offset) (offsets_from 0 (members_plain members.now)) }
{
    let mut layouts = MemberLayouts::new(alloc);
    let mut end = Some(0);
    for member in members {
        let Some(offset) = next_begin(end, member.tref.mem_align()) else {
            return Err(LayoutError::TooLarge);
        };
        layouts.push(RecordMemberLayout { member, offset })?;
        end = end_of(offset, &member.tref);
    }
    Ok(layouts)
}

/// Where a part begins behind an end; an end that exceeds `usize::MAX` is none, and so is such a begin.
fn next_begin(end: Option<usize>, alignment: usize) -> Option<usize>
    requires { 0 < alignment }
    ensures { (exact : ℕ) → MatchOption end (2 ^ 64 ≤ exact) (λ e. e ≡ exact)
        → MatchOption result (2 ^ 64 ≤ rounded exact alignment) (λ n. n ≡ rounded exact alignment) }
{
    align_to(end?, alignment)
}

/// Where a part ends that begins at the offset; none where that exceeds `usize::MAX`.
fn end_of(offset: usize, tref: &TypeRef) -> Option<usize>
    ensures { MatchOption result (2 ^ 64 ≤ offset + size_of (plain (tree_of tref.now))) (λ n. n
        ≡ offset + size_of (plain (tree_of tref.now))) }
{
    match tref.mem_size() {
        Ok(size) => offset.checked_add(size),
        Err(TooLarge) => None,
    }
}
