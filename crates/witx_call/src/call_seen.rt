//! What is seen of a call that was run over a memory of bytes.

use crate::word::Word;
use witx_base::Items;
use witx_bytes::{ByteMemory, Value, Values};

/// A range that was given: where it begins, and how many bytes it has.
#[derive(Clone, Copy, PartialEq, Eq, Debug, Drop)]
pub struct Placed {
    /// The address of the first byte.
    pub at: u32,
    /// The number of bytes, at least 1.
    pub len: u32,
}

/// Words, in order.
pub type Words = Items<Word>;

/// Ranges, in order.
pub type PlacedRanges = Items<Placed>;

/// What is seen of a call.
#[derive(Debug, Drop)]
pub struct Invoked {
    /// The words that the caller hands to the callee.
    pub pass: Words,
    /// The values with which the callee calls the interface.
    pub notes: Values,
    /// The words that the callee hands back.
    pub back: Words,
    /// The value that the caller returns, if the function has a result.
    pub returned: Option<Value>,
    /// The ranges in the order in which they were given.
    pub taken: PlacedRanges,
    /// The bytes in the end.
    pub memory: ByteMemory,
}
