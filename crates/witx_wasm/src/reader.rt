//! Vectors: a number, and so many values of one form.

ghost use Rattle.std.specs.Prelude.{ℕ, List};
ghost use Rattle.witx_wasm.specs.Readers.{Reading, ReadsBytes, many_at, vector_at};

use crate::fault::ReadError;
use crate::numbers::number;
use std::alloc::Global;
use witx_base::Items;

/// How the values of a vector are read.
pub trait Reader {
    /// A value.
    type Value: Drop;

    // What the bytes are read as.
    ghost value_at: { Self → List ℕ → Reading Self.Value };

    /// A value, and the bytes behind it.
    fn read<'a>(&self, bytes: &'a [u8]) -> Result<(Self::Value, &'a [u8]), ReadError>
        ensures { ReadsBytes (λ x. (x.0, x.1.now)) result (value_at self.now bytes.now) };
}

/// A vector. Memory is taken value by value, whatever the number says.
#[tactic(auto, unfolding(crate::specs::Readers::vector_at))]
pub fn vector<'a, R: Reader>(
    alloc: Global,
    reader: &R,
    bytes: &'a [u8],
) -> Result<(Items<R::Value>, &'a [u8]), ReadError>
    ensures { ReadsBytes (λ x. (x.0, x.1.now)) result (vector_at (R.value_at reader.now) bytes.now) }
{
    let (count, rest) = number(bytes)?;
    many(alloc, reader, count, rest)
}

/// So many values.
fn many<'a, R: Reader>(
    alloc: Global,
    reader: &R,
    count: u32,
    bytes: &'a [u8],
) -> Result<(Items<R::Value>, &'a [u8]), ReadError>
    ensures { ReadsBytes (λ x. (x.0, x.1.now)) result (many_at (R.value_at reader.now) count bytes.now) }
{
    let mut values = Items::new(alloc);
    let mut rest = bytes;
    for _ in 0..count {
        let (value, behind) = reader.read(rest)?;
        values.push(value)?;
        rest = behind;
    }
    Ok((values, rest))
}
