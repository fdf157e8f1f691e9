//! Why lines give no values, and why a call isn't run.

ghost use Rattle.std.specs.Prelude.{◌≡◌};
ghost use Rattle.witx_invoke.specs.declared.error.{InvokeError.{InvokeError}, ValuesError.{ValuesError}};

use witx_base::OutOfMemory;

/// Why no values are read.
#[derive(Clone, Copy, PartialEq, Eq, Debug)]
pub enum ValuesError {
    /// The first line that isn't the text of a value of its type, or is one too many or missing;
    /// lines are counted from 1.
    Line { line: usize },
    /// Want of memory.
    OutOfMemory,
}

impl From<OutOfMemory> for ValuesError {
    ghost from_gives = { λ _ error. error ≡ ValuesError.OutOfMemory };

    fn from(_refused: OutOfMemory) -> ValuesError {
        ValuesError::OutOfMemory
    }
}

/// Why a call isn't run.
#[derive(Clone, Copy, PartialEq, Eq, Debug)]
pub enum InvokeError {
    /// The reply is an error that is passed as the word 0, which can't be told from ok.
    ZeroError,
    /// The two traces together have more than 2^30 events, or no run at the addresses that `invoke` gives keeps
    /// all its ranges within the first 2^20 bytes.
    NoRoom,
    /// Want of memory.
    OutOfMemory,
}

impl From<OutOfMemory> for InvokeError {
    ghost from_gives = { λ _ error. error ≡ InvokeError.OutOfMemory };

    fn from(_refused: OutOfMemory) -> InvokeError {
        InvokeError::OutOfMemory
    }
}
