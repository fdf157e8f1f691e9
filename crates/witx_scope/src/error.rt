//! What is wrong with a declaration, as an error with its message.

ghost use Rattle.std.specs.Prelude.{◌≡◌};

use crate::report::repr_word;
use thiserror::Error;
use witx_ast::BuiltinType;
use witx_base::{MemoryRefused, Text};
use witx_files::Location;

/// What is wrong with a declaration, and where. `Display` gives the message.
#[derive(PartialEq, Eq, Debug, Drop, Error)]
pub enum ValidationError {
    /// A type name that no declaration so far introduces.
    #[error("Unknown name `{}`", .name.as_str())]
    UnknownName {
        name: Text,
        location: Location,
    },
    /// A type name that is introduced and not finished, or whose declaration was refused.
    #[error("Recursive definition of name `{}`", .name.as_str())]
    Recursive {
        name: Text,
        location: Location,
    },
    /// A name that stands earlier in its scope.
    #[error("Redefinition of name `{}`", .name.as_str())]
    NameAlreadyExists {
        name: Text,
        at_location: Location,
        previous_location: Location,
    },
    /// A module where a type is wanted, a tag that no tag can be, or a constant's type that is no
    /// integer.
    #[error("Wrong kind of name `{}`: expected {expected}, got {got}", .name.as_str())]
    WrongKindName {
        name: Text,
        expected: &'static str,
        got: &'static str,
        location: Location,
    },
    /// A representation that is no unsigned number.
    #[error("Invalid representation `{}`", repr_word(*.repr))]
    InvalidRepr {
        repr: BuiltinType,
        location: Location,
    },
    /// Results that no function can have.
    #[error("ABI error: {reason}")]
    Abi {
        reason: &'static str,
        location: Location,
    },
    /// A tag with a payload.
    #[error("Invalid union tag: {reason}")]
    InvalidUnionTag {
        reason: &'static str,
        location: Location,
    },
    /// A structured type anywhere but as a typename's own type.
    #[error("Anonymous structured types (struct, union, enum, flags, handle) are not permitted")]
    AnonymousRecord {
        location: Location,
    },
    /// Not as many fields or cases as the tag has names.
    #[error("Union expected {expected} variants, found {found}")]
    UnionSizeMismatch {
        expected: usize,
        found: usize,
        location: Location,
    },
    /// A case that the tag lacks, or that an earlier case has taken.
    #[error("Invalid union field `{}`: {reason}", .name.as_str())]
    InvalidUnionField {
        name: Text,
        reason: &'static str,
        location: Location,
    },
    /// A constant above the greatest number of its type.
    #[error("Constant `{}` is {value}, at most {largest}", .name.as_str())]
    ConstantTooLarge {
        name: Text,
        value: u64,
        largest: u64,
        location: Location,
    },
}

/// Why a declaration was refused.
#[derive(PartialEq, Eq, Drop)]
pub enum CheckError {
    Validation(ValidationError),
    OutOfMemory,
}

impl<E: MemoryRefused> From<E> for CheckError {
    ghost use Rattle.witx_scope.specs.declared.error.CheckError.TheVariants as check_error;

    ghost from_gives = { λ _ e. e ≡ check_error.OutOfMemory };

    fn from(_refused: E) -> CheckError {
        CheckError::OutOfMemory
    }
}
