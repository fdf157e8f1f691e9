//! Why a document has no documentation.

ghost use Rattle.std.specs.Prelude.{◌≡◌};
ghost use Rattle.witx_docs.specs.declared.error.DocsError.{DocsError};

use std::alloc::AllocError;
use witx_base::{Id, OutOfMemory};
use witx_layout::LayoutError;

/// Why a document has no documentation.
#[derive(PartialEq, Eq, Debug, Drop)]
pub enum DocsError {
    /// A constant's type is no typename of the document: the name of that type.
    UnknownConstantType { name: Id },
    /// A size or an offset that is shown exceeds `usize::MAX`.
    TooLarge,
    /// Memory was refused.
    OutOfMemory,
}

impl From<OutOfMemory> for DocsError {
    ghost from_gives = { λ _ e. e ≡ DocsError.OutOfMemory };

    fn from(_refused: OutOfMemory) -> DocsError {
        DocsError::OutOfMemory
    }
}

impl From<AllocError> for DocsError {
    ghost from_gives = { λ _ e. e ≡ DocsError.OutOfMemory };

    fn from(_refused: AllocError) -> DocsError {
        DocsError::OutOfMemory
    }
}

impl From<LayoutError> for DocsError {
    ghost use Rattle.witx_docs.specs.LaidOut.{layout_refusal};

    ghost from_gives = { λ layout e. e ≡ layout_refusal layout };

    fn from(refused: LayoutError) -> DocsError {
        match refused {
            LayoutError::TooLarge => DocsError::TooLarge,
            LayoutError::OutOfMemory => DocsError::OutOfMemory,
        }
    }
}
