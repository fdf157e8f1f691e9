//! Why modules can't be mapped to each other.

ghost use Rattle.std.specs.Prelude.{◌≡◌};
ghost use Rattle.witx_compat.specs.declared.error.PolyfillError.{PolyfillError};

use thiserror::Error;
use witx_base::{Id, MemoryRefused};

/// Why modules can't be mapped to each other.
#[derive(PartialEq, Eq, Debug, Drop, Error)]
pub enum PolyfillError {
    /// A document lacks a module of that name.
    #[error("Module not present: `{}`", .name.as_str())]
    ModuleNotPresent { name: Id },
    /// The new module, named `module`, lacks an old function.
    #[error("Function not present: `{}`", .name.as_str())]
    FuncNotPresent { module: Id, name: Id },
    /// Memory was refused.
    #[error("out of memory")]
    OutOfMemory,
}

impl<E: MemoryRefused> From<E> for PolyfillError {
    ghost from_gives = { λ _ e. e ≡ PolyfillError.OutOfMemory };

    fn from(_refused: E) -> PolyfillError {
        PolyfillError::OutOfMemory
    }
}
