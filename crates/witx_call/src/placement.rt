//! The memory of a call: bytes, and the ranges that were given.

ghost use Rattle.std.specs.Prelude.{◌≡◌, ◌^◌, ◌≤◌};
ghost use Rattle.witx_call.specs.{Room.{next_address}, RangeViews.{taken_of}};

use crate::range::Range;
use witx_bytes::ByteMemory;

/// Bytes, the ranges that were given, in order, and where the next one begins.
#[derive(Drop)]
pub struct Placement {
    /// The bytes.
    pub bytes: ByteMemory,
    /// The ranges that were given, in order.
    pub taken: Vec<Range>,
    /// Where the next range begins.
    pub next: u32,
    ghost stated: { next ≡ next_address (taken_of taken.items) },
    ghost low: { 16 ≤ next },
    ghost high: { next ≤ 2 ^ 20 },
}
