//! Why there is no shim.

ghost use Rattle.std.specs.Prelude.{◌≡◌};

use witx_base::{Id, OutOfMemory};
use witx_machine::Place;

/// Why the callers of an old function can't be served by a new one.
#[derive(PartialEq, Eq, Debug, Drop)]
pub enum ShimError {
    /// Two parameters of one function have this name.
    Repeated(Id),
    /// The functions aren't fully compatible.
    NotCompatible,
    /// The functions are called in other ways.
    OtherAbi,
    /// This parameter or result of the old function can't be lowered.
    OldUnlowerable(Place),
    /// This parameter or result of the new function can't be lowered.
    NewUnlowerable(Place),
    /// Memory was refused.
    OutOfMemory,
}

impl From<OutOfMemory> for ShimError {
    ghost use Rattle.witx_shim.specs.declared.error.ShimError.TheVariants as error;

    ghost from_gives = { λ _ e. e ≡ error.OutOfMemory };

    fn from(_refused: OutOfMemory) -> ShimError {
        ShimError::OutOfMemory
    }
}
