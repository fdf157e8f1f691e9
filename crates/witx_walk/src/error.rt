//! Why files have no document, as an error with its message.

ghost use Rattle.std.specs.Prelude.{◌≡◌};

use std::alloc::{AllocError, AllocFailed};
use thiserror::Error;
use witx_base::{OutOfMemory, WitxPath};
use witx_check::ValidationError;
use witx_files::IoFault;
use witx_syntax::ParseError;

/// Why files have no document.
#[derive(PartialEq, Eq, Debug, Drop, Error)]
pub enum WitxError {
    /// A call of the reader gave nothing: the path as it was to be made canonical, or the canonical
    /// one as it was to be read.
    #[error("IO error with file \"{}\"", .0.as_str())]
    Io(WitxPath, IoFault),
    /// A text that is no document.
    #[error("Parse error")]
    Parse(ParseError),
    /// A declaration with a fault.
    #[error("Validation error")]
    Validation(ValidationError),
    /// A path that was handed over and has no file name.
    #[error("path \"{}\" has no file name", .0.as_str())]
    BadPath(WitxPath),
    /// A canonical path behind 1,024 others.
    #[error("more than 1024 files at \"{}\"", .0.as_str())]
    TooManyFiles(WitxPath),
    /// Memory was refused.
    #[error("out of memory")]
    OutOfMemory,
}

impl From<ParseError> for WitxError {
    ghost use Rattle.witx_walk.specs.declared.error.WitxError.TheVariants.{Parse};

    ghost from_gives = { λ error e. e ≡ Parse error };

    fn from(error: ParseError) -> WitxError {
        WitxError::Parse(error)
    }
}

impl From<ValidationError> for WitxError {
    ghost use Rattle.witx_walk.specs.declared.error.WitxError.TheVariants.{Validation};

    ghost from_gives = { λ error e. e ≡ Validation error };

    fn from(error: ValidationError) -> WitxError {
        WitxError::Validation(error)
    }
}

impl From<OutOfMemory> for WitxError {
    ghost use Rattle.witx_walk.specs.declared.error.WitxError.TheVariants as error;

    ghost from_gives = { λ _ e. e ≡ error.OutOfMemory };

    fn from(_refused: OutOfMemory) -> WitxError {
        WitxError::OutOfMemory
    }
}

impl From<AllocError> for WitxError {
    ghost use Rattle.witx_walk.specs.declared.error.WitxError.TheVariants as error;

    ghost from_gives = { λ _ e. e ≡ error.OutOfMemory };

    fn from(_refused: AllocError) -> WitxError {
        WitxError::OutOfMemory
    }
}

impl<T: Drop> From<AllocFailed<T>> for WitxError {
    ghost use Rattle.witx_walk.specs.declared.error.WitxError.TheVariants as error;

    ghost from_gives = { λ _ e. e ≡ error.OutOfMemory };

    fn from(_refused: AllocFailed<T>) -> WitxError {
        WitxError::OutOfMemory
    }
}
