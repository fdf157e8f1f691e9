//! Copies of values where memory may be refused.

ghost use Rattle.std.specs.Prelude.{◌≡◌, IfOk};
ghost use Rattle.witx_base.specs.Copies.{IsCopyOfOption};

use crate::memory::OutOfMemory;

/// What can be copied where memory is to be had: `copy` stands for std's `clone`.
pub trait Duplicate: Sized {
    /// Whether the second value is a copy of the first.
    ghost is_copy: { Self → Self → Type 0 };

    /// A copy of the value, or the want of memory.
    fn copy(&self) -> Result<Self, OutOfMemory>
        ensures { IfOk result (λ made. is_copy self.now made) };
}

impl Duplicate for bool {
    ghost is_copy = { λ value made. made ≡ value };

    fn copy(&self) -> Result<bool, OutOfMemory> {
        Ok(*self)
    }
}

impl Duplicate for u8 {
    ghost is_copy = { λ byte made. made ≡ byte };

    fn copy(&self) -> Result<u8, OutOfMemory> {
        Ok(*self)
    }
}

impl Duplicate for u32 {
    ghost is_copy = { λ number made. made ≡ number };

    fn copy(&self) -> Result<u32, OutOfMemory> {
        Ok(*self)
    }
}

impl Duplicate for u64 {
    ghost is_copy = { λ number made. made ≡ number };

    fn copy(&self) -> Result<u64, OutOfMemory> {
        Ok(*self)
    }
}

impl Duplicate for usize {
    ghost is_copy = { λ number made. made ≡ number };

    fn copy(&self) -> Result<usize, OutOfMemory> {
        Ok(*self)
    }
}

impl<'a> Duplicate for &'a str {
    ghost is_copy = { λ text made. made ≡ text };

    fn copy(&self) -> Result<&'a str, OutOfMemory> {
        Ok(*self)
    }
}

impl<T: Duplicate> Duplicate for Option<T> {
    ghost is_copy = { IsCopyOfOption T.is_copy };

    fn copy(&self) -> Result<Option<T>, OutOfMemory> {
        match self {
            Some(value) => Ok(Some(value.copy()?)),
            None => Ok(None),
        }
    }
}

impl<A: Duplicate + Drop, B: Duplicate> Duplicate for (A, B) {
    ghost is_copy = { λ pair made. A.is_copy pair.0 made.0 × B.is_copy pair.1 made.1 };

    fn copy(&self) -> Result<(A, B), OutOfMemory> {
        Ok((self.0.copy()?, self.1.copy()?))
    }
}
