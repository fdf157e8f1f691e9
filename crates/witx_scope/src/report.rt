//! What a user reads of a fault: its message, and the lines in which it stands.

ghost use Rattle.std.specs.Prelude.{◌≡◌, ◌++◌, IfOk, codes, option_map, string_bytes};
ghost use Rattle.witx_scope.specs.{Blame.{fault_of}, Messages.{message, fault_location, quoted, repr_word}};
ghost use Rattle.witx_scope.specs.Reports.{IsReport, earlier_location};

use crate::error::ValidationError;
use std::alloc::{AllocError, Global};
use witx_ast::BuiltinType;
use witx_base::{OutOfMemory, Text};
use witx_files::{Location, WitxIo};

impl ValidationError {
    /// The place of the fault as the file shows it, and below it the message; of a name that
    /// stands already the earlier place too.
    #[tactic(auto, using(crate::proofs::Reporting::report_rules))]
    pub fn report_with<I: WitxIo>(&self, alloc: Global, witxio: &mut I) -> Result<Text, OutOfMemory>
        ensures files { I.files witxio.new ≡ I.files witxio.old }
        ensures aliases { I.aliases witxio.new ≡ I.aliases witxio.old }
        ensures report { IsReport (I.files witxio.old) (fault_of self.now) (I.faults witxio.old) (I.faults witxio.new) result }
    {
        let place = self.location().highlight_source_with(alloc, witxio)?;
        let message = self.message(alloc)?;
        match self.earlier() {
            None => {
                let report = format!(in alloc; "{}\n{}", place.as_str(), message.as_str())?;
                Ok(Text::from_string(report))
            }
            Some(earlier) => {
                let second = earlier.highlight_source_with(alloc, witxio)?;
                let report = repeated(alloc, place.as_str(), message.as_str(), second.as_str())?;
                Ok(report)
            }
        }
    }

    /// Where the fault is told.
    pub(crate) fn location(&self) -> &Location
        ensures { result.now ≡ fault_location (fault_of self.now) }
    {
        match self {
            ValidationError::UnknownName { location, .. }
            | ValidationError::Recursive { location, .. }
            | ValidationError::WrongKindName { location, .. }
            | ValidationError::InvalidRepr { location, .. }
            | ValidationError::Abi { location, .. }
            | ValidationError::InvalidUnionTag { location, .. }
            | ValidationError::AnonymousRecord { location }
            | ValidationError::UnionSizeMismatch { location, .. }
            | ValidationError::InvalidUnionField { location, .. }
            | ValidationError::ConstantTooLarge { location, .. } => location,
            ValidationError::NameAlreadyExists { at_location, .. } => at_location,
        }
    }

    /// Where a repeated name stands first.
    pub(crate) fn earlier(&self) -> Option<&Location>
        ensures { option_map (λ location. location.now) result ≡ earlier_location (fault_of self.now) }
    {
        match self {
            ValidationError::NameAlreadyExists {
                previous_location,
                ..
            } => Some(previous_location),
            _ => None,
        }
    }

    /// The message, which `Display` gives too.
    #[rattlefmt::skip]
    fn message(&self, alloc: Global) -> Result<String, AllocError>
        ensures { IfOk result (λ text. string_bytes text ≡ message (fault_of self.now)) }
    {
        match self {
            Self::UnknownName { name, .. } => quoted(alloc, "Unknown name", name.as_str()),
            Self::Recursive { name, .. } => quoted(alloc, "Recursive definition of name", name.as_str()),
            Self::NameAlreadyExists { name, .. } => quoted(alloc, "Redefinition of name", name.as_str()),
            Self::WrongKindName { name, expected, got, .. } => {
                let name = name.as_str();
                format!(in alloc; "Wrong kind of name `{name}`: expected {expected}, got {got}")
            }
            Self::InvalidRepr { repr, .. } => quoted(alloc, "Invalid representation", repr_word(*repr)),
            Self::Abi { reason, .. } => format!(in alloc; "ABI error: {reason}"),
            Self::InvalidUnionTag { reason, .. } => format!(in alloc; "Invalid union tag: {reason}"),
            Self::AnonymousRecord { .. } => String::from_str(
                alloc,
                "Anonymous structured types (struct, union, enum, flags, handle) are not permitted",
            ),
            Self::UnionSizeMismatch { expected, found, .. } => {
                format!(in alloc; "Union expected {expected} variants, found {found}")
            }
            Self::InvalidUnionField { name, reason, .. } => {
                let name = name.as_str();
                format!(in alloc; "Invalid union field `{name}`: {reason}")
            }
            Self::ConstantTooLarge { name, value, largest, .. } => {
                let name = name.as_str();
                format!(in alloc; "Constant `{name}` is {value}, at most {largest}")
            }
        }
    }
}

/// Words, and behind them a name in backquotes.
fn quoted(alloc: Global, words: &str, name: &str) -> Result<String, AllocError>
    ensures { IfOk result (λ text. string_bytes text ≡ quoted words.now name.now) }
{
    format!(in alloc; "{words} `{name}`")
}

/// The report of a repeated name, whose second place is the earlier one.
fn repeated(alloc: Global, place: &str, message: &str, second: &str) -> Result<Text, OutOfMemory>
    ensures { IfOk result (λ text. text
        ≡ place.now ++ (codes "\n" ++ (message.now ++ (codes "\nOriginally defined at:\n" ++ second.now)))) }
{
    let report = format!(in alloc; "{place}\n{message}\nOriginally defined at:\n{second}")?;
    Ok(Text::from_string(report))
}

/// The name of a builtin's kind.
pub(crate) fn repr_word(repr: BuiltinType) -> &'static str
    ensures { result.now ≡ repr_word repr }
{
    match repr {
        BuiltinType::Char => "Char",
        BuiltinType::U8 { .. } => "U8",
        BuiltinType::U16 => "U16",
        BuiltinType::U32 { .. } => "U32",
        BuiltinType::U64 => "U64",
        BuiltinType::S8 => "S8",
        BuiltinType::S16 => "S16",
        BuiltinType::S32 => "S32",
        BuiltinType::S64 => "S64",
        BuiltinType::F32 => "F32",
        BuiltinType::F64 => "F64",
    }
}
