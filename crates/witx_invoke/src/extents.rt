//! How far the types of a function may go where a call goes through them, and through values of them.

ghost use Rattle.std.specs.Prelude.{◌+◌, ◌^◌, ◌≤◌, IfOk};
ghost use Rattle.witx_extent.specs.Extents.{params_extent};

use std::alloc::Global;
use witx_ast::InterfaceFunc;
use witx_base::OutOfMemory;
use witx_bytes::DEEPEST;
use witx_extent::Allowance;

/// How many names may stand one for the other: comparing types takes 96 bytes of the stack for each.
const MOST_NAMES: usize = 40_000;

/// What there may be to the types of a function, each of which is gone through within a second.
const MOST: usize = 1 << 20;

/// Want of memory where there is more to the types of the function, or where they are deeper than its values may be.
pub(crate) fn check_types(alloc: Global, func: &InterfaceFunc) -> Result<(), OutOfMemory>
    ensures { IfOk result (λ _. params_extent func.now.params + params_extent func.now.results ≤ 2 ^ 20) }
{
    let mut allowance = Allowance::with_depths(MOST, MOST_NAMES, DEEPEST as usize);
    allowance.take_params(alloc, func.params.as_slice())?;
    allowance.take_params(alloc, func.results.as_slice())?;
    Ok(())
}
