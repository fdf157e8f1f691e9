//! Why no value is read.

ghost use Rattle.std.specs.Prelude.{◌≡◌};

use witx_base::OutOfMemory;

/// Why no value is read.
#[derive(Clone, Copy, PartialEq, Eq, Debug)]
pub enum ReadError {
    /// The bytes spell no value of the type.
    NoValue,
    /// Want of memory.
    OutOfMemory,
}

impl From<OutOfMemory> for ReadError {
    ghost use Rattle.witx_bytes.specs.declared.read_error.ReadError.{ReadError};

    ghost from_gives = { λ _ error. error ≡ ReadError.OutOfMemory };

    fn from(_refused: OutOfMemory) -> ReadError {
        ReadError::OutOfMemory
    }
}
