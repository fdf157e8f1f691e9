//! Why a text is no list of imports.

ghost use Rattle.std.specs.Prelude.{◌≡◌};
ghost use Rattle.witx_imports.specs.declared.error.ImportsError.TheVariants.{OutOfMemory};

use witx_base::MemoryRefused;

/// Why a text is no list of imports.
#[derive(PartialEq, Eq, Drop)]
pub enum ImportsError {
    /// The text isn't in the grammar; line and column are counted from 1, the column in bytes.
    Bad { line: usize, column: usize },
    /// Memory was refused.
    OutOfMemory,
}

impl<E: MemoryRefused> From<E> for ImportsError {
    ghost from_gives = { λ _ e. e ≡ OutOfMemory };

    fn from(_refused: E) -> ImportsError {
        ImportsError::OutOfMemory
    }
}
