//! Why a function has no signature, or why its events weren't all made.

ghost use Rattle.std.specs.Prelude.{◌≡◌};

use crate::bindgen::BindgenError;
use witx_base::OutOfMemory;
use witx_machine::Place;

/// Why a function has no signature.
#[derive(Clone, Copy, PartialEq, Eq)]
pub enum SignatureError {
    /// This result, under `Preview1`, is a list, or a record that isn't flags.
    Unlowerable(Place),
    OutOfMemory,
}

/// Why a function's events weren't all made.
#[derive(Clone, Copy, PartialEq, Eq)]
pub enum AbiError {
    /// This parameter or result can't be lowered; there was no event.
    Unlowerable(Place),
    /// The generator counted a fault.
    BindgenFailed,
    OutOfMemory,
}

impl From<OutOfMemory> for SignatureError {
    ghost use Rattle.witx_instructions.specs.declared.error.SignatureError.{SignatureError};

    ghost from_gives = { λ refused error. error ≡ SignatureError.OutOfMemory };

    fn from(_refused: OutOfMemory) -> SignatureError {
        SignatureError::OutOfMemory
    }
}

impl From<OutOfMemory> for AbiError {
    ghost use Rattle.witx_instructions.specs.declared.error.AbiError.{AbiError};

    ghost from_gives = { λ refused error. error ≡ AbiError.OutOfMemory };

    fn from(_refused: OutOfMemory) -> AbiError {
        AbiError::OutOfMemory
    }
}

impl From<BindgenError> for AbiError {
    ghost use Rattle.witx_instructions.specs.{declared.error.AbiError.{AbiError}, Told.{abi_error}};

    ghost from_gives = { λ refused error. error ≡ abi_error refused };

    fn from(refused: BindgenError) -> AbiError {
        match refused {
            BindgenError::Failed => AbiError::BindgenFailed,
            BindgenError::OutOfMemory => AbiError::OutOfMemory,
        }
    }
}
