//! The fault of each check, with its place.

ghost use Rattle.std.specs.Prelude.{◌≡◌, IfOk, Some};
ghost use Rattle.witx_scope.specs.{Places.{location_in}, Blame.{Blames}, Senses.{here_of}};
ghost use Rattle.witx_scope.specs.Faults as fault;

use crate::error::{CheckError, ValidationError};
use crate::place::SharedPlace;
use crate::scope::Scope;
use std::alloc::Global;
use witx_ast::BuiltinType;
use witx_base::{Duplicate, Id, OutOfMemory, Text, WitxPath};
use witx_files::Location;
use witx_lex::line_column;

/// The location of the byte at an offset.
#[tactic(auto, unfolding(crate::specs::Places::location_in))]
pub fn locate(text: &str, path: &WitxPath, at: usize) -> Result<Location, OutOfMemory>
    ensures { IfOk result (λ l. l ≡ location_in text.now path.now at) }
{
    let (line, column) = line_column(text, at);
    Ok(Location {
        path: path.copy()?,
        line,
        column,
    })
}

impl<'a> Scope<'a> {
    /// The location of the byte at an offset.
    #[tactic(auto, unfolding(crate::specs::Senses::here_of))]
    pub fn location(&self, at: usize) -> Result<Location, OutOfMemory>
        ensures { IfOk result (λ l. l ≡ (here_of self.now).place at) }
    {
        locate(self.text, self.path, at)
    }
}

/// No declaration so far introduces the name.
pub fn unknown(scope: &Scope<'_>, name: &str, at: usize) -> CheckError
    ensures { Blames result (Some (fault.unknown_name name.now ((here_of scope.now).place at))) }
{
    match (Text::new(scope.alloc, name), scope.location(at)) {
        (Ok(name), Ok(location)) => CheckError::Validation(ValidationError::UnknownName {
            name,
            location,
        }),
        _ => CheckError::OutOfMemory,
    }
}

/// The name is introduced and not finished, or its declaration was refused.
pub fn recursive(scope: &Scope<'_>, name: &str, at: usize) -> CheckError
    ensures { Blames result (Some (fault.recursive name.now ((here_of scope.now).place at))) }
{
    match (Text::new(scope.alloc, name), scope.location(at)) {
        (Ok(name), Ok(location)) => CheckError::Validation(ValidationError::Recursive {
            name,
            location,
        }),
        _ => CheckError::OutOfMemory,
    }
}

/// The name denotes another kind of thing.
pub fn wrong_kind(
    scope: &Scope<'_>,
    name: &str,
    expected: &'static str,
    got: &'static str,
    at: usize,
) -> CheckError
    ensures { Blames result (Some (fault.wrong_kind_name name.now expected.now got.now ((here_of scope.now).place at))) }
{
    match (Text::new(scope.alloc, name), scope.location(at)) {
        (Ok(name), Ok(location)) => CheckError::Validation(ValidationError::WrongKindName {
            name,
            expected,
            got,
            location,
        }),
        _ => CheckError::OutOfMemory,
    }
}

/// The representation is no unsigned number.
pub fn repr(scope: &Scope<'_>, repr: BuiltinType, at: usize) -> CheckError
    ensures { Blames result (Some (fault.invalid_repr repr ((here_of scope.now).place at))) }
{
    match scope.location(at) {
        Ok(location) => CheckError::Validation(ValidationError::InvalidRepr { repr, location }),
        Err(_) => CheckError::OutOfMemory,
    }
}

/// The tag has a payload.
pub fn bad_tag(scope: &Scope<'_>, reason: &'static str, at: usize) -> CheckError
    ensures { Blames result (Some (fault.invalid_union_tag reason.now ((here_of scope.now).place at))) }
{
    match scope.location(at) {
        Ok(location) => CheckError::Validation(ValidationError::InvalidUnionTag {
            reason,
            location,
        }),
        Err(_) => CheckError::OutOfMemory,
    }
}

/// No function can have these results.
pub fn abi_fault(scope: &Scope<'_>, reason: &'static str, at: usize) -> CheckError
    ensures { Blames result (Some (fault.abi reason.now ((here_of scope.now).place at))) }
{
    match scope.location(at) {
        Ok(location) => CheckError::Validation(ValidationError::Abi { reason, location }),
        Err(_) => CheckError::OutOfMemory,
    }
}

/// A structured type stands anywhere but as a typename's own type.
pub fn anonymous_type(scope: &Scope<'_>, at: usize) -> CheckError
    ensures { Blames result (Some (fault.anonymous_record ((here_of scope.now).place at))) }
{
    match scope.location(at) {
        Ok(location) => CheckError::Validation(ValidationError::AnonymousRecord { location }),
        Err(_) => CheckError::OutOfMemory,
    }
}

/// There are not as many fields or cases as the tag has names.
pub fn wrong_size(scope: &Scope<'_>, expected: usize, found: usize, at: usize) -> CheckError
    ensures { Blames result (Some (fault.union_size_mismatch expected found ((here_of scope.now).place at))) }
{
    match scope.location(at) {
        Ok(location) => CheckError::Validation(ValidationError::UnionSizeMismatch {
            expected,
            found,
            location,
        }),
        Err(_) => CheckError::OutOfMemory,
    }
}

/// The tag lacks the case, or an earlier case has taken it.
pub fn bad_field(scope: &Scope<'_>, name: &str, reason: &'static str, at: usize) -> CheckError
    ensures { Blames result (Some (fault.invalid_union_field name.now reason.now ((here_of scope.now).place at))) }
{
    match (Text::new(scope.alloc, name), scope.location(at)) {
        (Ok(name), Ok(location)) => CheckError::Validation(ValidationError::InvalidUnionField {
            name,
            reason,
            location,
        }),
        _ => CheckError::OutOfMemory,
    }
}

/// The constant is above the greatest number of its type.
pub fn too_large(scope: &Scope<'_>, name: &str, value: u64, largest: u64, at: usize) -> CheckError
    ensures { Blames result (Some (fault.constant_too_large name.now value largest ((here_of scope.now).place at))) }
{
    match (Text::new(scope.alloc, name), scope.location(at)) {
        (Ok(name), Ok(location)) => CheckError::Validation(ValidationError::ConstantTooLarge {
            name,
            value,
            largest,
            location,
        }),
        _ => CheckError::OutOfMemory,
    }
}

/// The name stands in the document already, at the place `before`.
pub fn known(alloc: Global, name: &Id, at: &SharedPlace, before: &SharedPlace) -> CheckError
    ensures { Blames result (Some (fault.name_already_exists name.now at.now before.now)) }
{
    match (
        Text::new(alloc, name.as_str()),
        at.location(),
        before.location(),
    ) {
        (Ok(name), Ok(at_location), Ok(previous_location)) => CheckError::Validation(
            ValidationError::NameAlreadyExists {
                name,
                at_location,
                previous_location,
            },
        ),
        _ => CheckError::OutOfMemory,
    }
}

/// The name stands inside the declaration already, at the offset `before`.
pub fn known_mark(scope: &Scope<'_>, name: &Id, at: usize, before: usize) -> CheckError
    ensures { Blames result (Some (fault.name_already_exists name.now ((here_of scope.now).place at)
        ((here_of scope.now).place before))) }
{
    match (
        Text::new(scope.alloc, name.as_str()),
        scope.location(at),
        scope.location(before),
    ) {
        (Ok(name), Ok(at_location), Ok(previous_location)) => CheckError::Validation(
            ValidationError::NameAlreadyExists {
                name,
                at_location,
                previous_location,
            },
        ),
        _ => CheckError::OutOfMemory,
    }
}
