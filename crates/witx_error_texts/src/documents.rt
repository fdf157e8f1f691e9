//! Errors of documents, of their layouts and of their pages.

ghost use Rattle.std.specs.Prelude.{◌≡◌, ◌++◌, [], Ok, Some, IfOk, OnOk, codes, string_bytes};
ghost use Rattle.witx_error_texts.specs.ErrorTexts.{IsAdaptText, IsRefusalText, IsValidationText, docs_error, document_error, layouts_error, tag_text, unknown_type_text, unlowerable_text, unlowered_text};
ghost use Rattle.witx_scope.specs.{Blame.{fault_of}, Messages.{fault_location}};
ghost use Rattle.witx_walk.specs.ErrorReports.{IsErrorReport};

use crate::error_text::ErrorText;
use crate::numbers::{definition_text, located_report, put_part, tag_text};
use crate::told::told;
use std::alloc::{AllocError, Global};
use witx_adapt::DocumentError;
use witx_base::{Id, OutOfMemory, Text};
use witx_check::ValidationError;
use witx_commands::{AdaptError, put_function_called};
use witx_docs::DocsError;
use witx_files::{Location, MockFs};
use witx_layout::{LayoutsError, TagTooNarrow};
use witx_machine::Place;
use witx_walk::WitxError;

impl ErrorText for ValidationError {
    ghost is_told = { λ e text. IsValidationText (fault_of e) text };

    /// The report, as it is where no file can be read, and below it the place.
    fn error_text(&self, alloc: Global) -> Result<Text, OutOfMemory> {
        let mut none = MockFs::new(alloc);
        let report = self.report_with(alloc, &mut none)?;
        located_report(alloc, report.as_str(), location(self))
    }
}

/// Where the fault is told.
fn location(error: &ValidationError) -> &Location
    ensures { result.now ≡ fault_location (fault_of error.now) }
{
    match error {
        ValidationError::UnknownName { location, .. }
        | ValidationError::Recursive { location, .. }
        | ValidationError::WrongKindName { location, .. }
        | ValidationError::InvalidRepr { location, .. }
        | ValidationError::Abi { location, .. }
        | ValidationError::InvalidUnionTag { location, .. }
        | ValidationError::AnonymousRecord { location }
        | ValidationError::UnionSizeMismatch { location, .. }
        | ValidationError::InvalidUnionField { location, .. }
        | ValidationError::ConstantTooLarge { location, .. } => location,
        ValidationError::NameAlreadyExists { at_location, .. } => at_location,
    }
}

impl ErrorText for WitxError {
    ghost is_told = { λ e text. IsRefusalText e text };

    /// The report, as it is where no file can be read; of the fault of a declaration also its place.
    fn error_text(&self, alloc: Global) -> Result<Text, OutOfMemory> {
        match self {
            WitxError::Validation(error) => error.error_text(alloc),
            WitxError::Io(..)
            | WitxError::Parse(_)
            | WitxError::BadPath(_)
            | WitxError::TooManyFiles(_)
            | WitxError::OutOfMemory => plain_report(alloc, self),
        }
    }
}

/// A report that is the same over all files.
fn plain_report(alloc: Global, error: &WitxError) -> Result<Text, OutOfMemory>
    ensures { IfOk result (λ text. IsErrorReport (Some []) error.now 0 0 (Ok text)) }
{
    let mut none = MockFs::new(alloc);
    error.report_with(alloc, &mut none)
}

impl ErrorText for TagTooNarrow {
    ghost is_told = { λ e text. text ≡ tag_text e };

    fn error_text(&self, alloc: Global) -> Result<Text, OutOfMemory> {
        tag_text(alloc, self)
    }
}

impl ErrorText for LayoutsError {
    ghost is_told = { λ e text. text ≡ layouts_error e };

    fn error_text(&self, alloc: Global) -> Result<Text, OutOfMemory> {
        told!(alloc, self => LayoutsError {
            TooLarge { definition } => definition_text(alloc, *definition, "size too large"),
        })
    }
}

impl ErrorText for DocumentError {
    ghost is_told = { λ e text. text ≡ document_error e };

    fn error_text(&self, alloc: Global) -> Result<Text, OutOfMemory> {
        told!(alloc, self => DocumentError {
            TagTooNarrow(tag) => tag_text(alloc, tag),
            TooLarge { definition } => definition_text(alloc, *definition, "size too large"),
            Unlowerable { module, function, place } => unlowerable_text(alloc, module, function, *place),
        })
    }
}

impl ErrorText for AdaptError {
    ghost is_told = { λ e text. IsAdaptText e text };

    fn error_text(&self, alloc: Global) -> Result<Text, OutOfMemory> {
        told!(alloc, self => AdaptError {
            Refused(error) => error.error_text(alloc),
            TagTooNarrow(tag) => tag_text(alloc, tag),
            TooLarge { definition } => definition_text(alloc, *definition, "size too large"),
            Unlowerable { module, function, place } => unlowerable_text(alloc, module, function, *place),
        })
    }
}

/// A part of a function of a module that can't be lowered.
fn unlowerable_text(
    alloc: Global,
    owner: &Id,
    function: &Id,
    place: Place,
) -> Result<Text, OutOfMemory>
    ensures { IfOk result (λ text. text ≡ unlowerable_text owner.now function.now place) }
{
    let mut text = String::new(alloc);
    put_function_called(&mut text, owner.as_str(), function.as_str())?;
    put_unlowered(&mut text, place)?;
    Ok(Text::from_string(text))
}

fn put_unlowered(text: &mut String, place: Place) -> Result<(), AllocError>
    ensures { OnOk result (string_bytes text.new ≡ string_bytes text.old ++ unlowered_text place) }
{
    put_part(text, place)?;
    text.push_str(" cannot be lowered")
}

impl ErrorText for DocsError {
    ghost is_told = { λ e text. text ≡ docs_error e };

    fn error_text(&self, alloc: Global) -> Result<Text, OutOfMemory> {
        told!(alloc, self => DocsError {
            UnknownConstantType { name } => unknown_type(alloc, name.as_str()),
            TooLarge => Text::new(alloc, "size too large"),
        })
    }
}

fn unknown_type(alloc: Global, name: &str) -> Result<Text, OutOfMemory>
    ensures { IfOk result (λ text. text ≡ unknown_type_text name.now) }
{
    Ok(Text::from_string(format!(in alloc; "constant of unknown type `{name}`")?))
}
