//! Why a reader of files gives no answer, and at which path.

ghost use Rattle.std.specs.Prelude.{◌≡◌};

use std::alloc::{AllocError, AllocFailed};

/// Why a reader of files gives no answer.
#[derive(Clone, Copy, PartialEq, Eq, Debug)]
pub enum IoFault {
    /// There is no file at the path.
    NotFound,
    /// The file has no such line; no file has a line 0.
    LineNotFound,
    /// The read failed.
    Failed,
}

/// Why a call of a reader of files gives no answer.
#[derive(Clone, Copy, PartialEq, Eq, Debug)]
pub enum IoError {
    /// The file can't be read.
    Fault(IoFault),
    /// Memory was wanted and refused.
    OutOfMemory,
}

impl From<witx_base::OutOfMemory> for IoError {
    ghost use Rattle.std.specs.Prelude.{◌≡◌};
    ghost use Rattle.witx_files.specs.declared.fault.IoError.TheVariants.{OutOfMemory};

    ghost from_gives = { λ _ e. e ≡ OutOfMemory };

    fn from(_error: witx_base::OutOfMemory) -> IoError {
        IoError::OutOfMemory
    }
}

impl From<AllocError> for IoError {
    ghost use Rattle.std.specs.Prelude.{◌≡◌};
    ghost use Rattle.witx_files.specs.declared.fault.IoError.TheVariants.{OutOfMemory};

    ghost from_gives = { λ _ e. e ≡ OutOfMemory };

    fn from(_error: AllocError) -> IoError {
        IoError::OutOfMemory
    }
}

impl<T: Drop> From<AllocFailed<T>> for IoError {
    ghost use Rattle.std.specs.Prelude.{◌≡◌};
    ghost use Rattle.witx_files.specs.declared.fault.IoError.TheVariants.{OutOfMemory};

    ghost from_gives = { λ _ e. e ≡ OutOfMemory };

    fn from(_error: AllocFailed<T>) -> IoError {
        IoError::OutOfMemory
    }
}
