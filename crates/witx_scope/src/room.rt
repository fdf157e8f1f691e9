//! Lists that take no more memory than their items.

ghost use Rattle.std.specs.Prelude.{◌≡◌, [], IfOk};

use std::alloc::Global;
use witx_base::{Items, OutOfMemory};

/// An empty list with room for just so many items.
pub fn with_room<T>(alloc: Global, count: usize) -> Result<Items<T>, OutOfMemory>
    ensures { IfOk result (λ list. list ≡ []) }
{
    Ok(Items::from_vec(Vec::with_capacity(alloc, count)?))
}
