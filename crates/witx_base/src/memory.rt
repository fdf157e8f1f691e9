//! The two answers of any call that takes memory or asks a device: want of memory, and a failure.
use std::alloc::{AllocError, AllocFailed};

/// Memory was wanted and refused: the one answer that any call which takes memory may give.
#[derive(Clone, Copy, PartialEq, Eq, Debug)]
pub struct OutOfMemory;

/// A device refused a call. It comes only where the device counted a fault.
#[derive(Clone, Copy, PartialEq, Eq, Debug)]
pub struct Failed;

/// What a call answers that wanted memory and got none: ours, and the two of std. An error that tells of it is made from
/// each of them alike.
pub trait MemoryRefused: Drop {}

impl MemoryRefused for OutOfMemory {}

impl MemoryRefused for AllocError {}

impl<T: Drop> MemoryRefused for AllocFailed<T> {}

impl From<AllocError> for OutOfMemory {
    fn from(_error: AllocError) -> OutOfMemory {
        OutOfMemory
    }
}

impl<T: Drop> From<AllocFailed<T>> for OutOfMemory {
    fn from(_refused: AllocFailed<T>) -> OutOfMemory {
        OutOfMemory
    }
}
