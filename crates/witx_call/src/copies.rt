//! Words and ranges once more: each copy is its original.

ghost use Rattle.std.specs.Prelude.{◌≡◌};

use crate::call_seen::{Placed, PlacedRanges, Words};
use crate::word::Word;
use witx_base::{Duplicate, OutOfMemory};

impl Duplicate for Word {
    ghost is_copy = { λ word made. made ≡ word };

    fn copy(&self) -> Result<Word, OutOfMemory> {
        Ok(*self)
    }
}

impl Duplicate for Placed {
    ghost is_copy = { λ range made. made ≡ range };

    fn copy(&self) -> Result<Placed, OutOfMemory> {
        Ok(*self)
    }
}

/// Copied words are their original.
pub fn copied_words_are_equal(original: &Words, copy: &Words)
    requires { ⟦<Words as Duplicate>⟧.is_copy original.now copy.now }
    ensures { copy.now ≡ original.now }
{}

/// Copied ranges are their original.
pub fn copied_ranges_are_equal(original: &PlacedRanges, copy: &PlacedRanges)
    requires { ⟦<PlacedRanges as Duplicate>⟧.is_copy original.now copy.now }
    ensures { copy.now ≡ original.now }
{}
