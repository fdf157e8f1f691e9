//! Why a text is no document: its fault, as it is told.

ghost use Rattle.std.specs.Prelude.{◌≡◌};
ghost use Rattle.witx_language.specs.declared.error.SyntaxError.TheVariants.{OutOfMemory};

use thiserror::Error;
use witx_base::{MemoryRefused, WitxPath};

/// Why a text has no tree, and where, both counted from 1 and the column in bytes.
#[derive(Clone, Copy, PartialEq, Eq, Debug)]
pub struct ParseFault {
    pub message: &'static str,
    pub line: usize,
    pub column: usize,
}

/// Why a file has no tree, and where in it.
#[derive(Error, PartialEq, Eq, Debug, Drop)]
#[error("{message}\n     --> {}:{line}:{column}", .path.as_str())]
pub struct ParseError {
    pub message: &'static str,
    pub path: WitxPath,
    pub line: usize,
    pub column: usize,
}

/// Why a text wasn't read.
#[derive(PartialEq, Eq, Debug, Drop)]
pub enum SyntaxError {
    /// The text has this fault.
    Parse(ParseFault),
    /// Memory was refused.
    OutOfMemory,
}

impl<E: MemoryRefused> From<E> for SyntaxError {
    ghost from_gives = { λ _ e. e ≡ OutOfMemory };

    fn from(_refused: E) -> SyntaxError {
        SyntaxError::OutOfMemory
    }
}
