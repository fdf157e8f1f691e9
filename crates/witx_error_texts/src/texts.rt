//! Errors of texts, files and bundles.

ghost use Rattle.std.specs.{Prelude.{◌≡◌, ◌++◌, IfOk, codes}, Fmt.{decimal}};
ghost use Rattle.witx_error_texts.specs.ErrorTexts.{bundle_error, io_error, lex_error, lex_fault, parse_fault, syntax_error};

use crate::error_text::ErrorText;
use crate::numbers::placed_message;
use crate::told::told;
use std::alloc::Global;
use witx_base::{OutOfMemory, Text};
use witx_bundle::BundleError;
use witx_files::IoError;
use witx_language::lexical_message;
use witx_lex::{LexError, LexFault};
use witx_syntax::{ParseFault, SyntaxError};

impl ErrorText for LexFault {
    ghost is_told = { λ e text. text ≡ lex_fault e };

    fn error_text(&self, alloc: Global) -> Result<Text, OutOfMemory> {
        lexical_text(alloc, lexical_message(self.kind), self.at)
    }
}

fn lexical_text(alloc: Global, message: &str, at: usize) -> Result<Text, OutOfMemory>
    ensures { IfOk result (λ text. text ≡ message.now ++ (codes " at byte " ++ decimal at)) }
{
    Ok(Text::from_string(format!(in alloc; "{message} at byte {at}")?))
}

impl ErrorText for LexError {
    ghost is_told = { λ e text. text ≡ lex_error e };

    fn error_text(&self, alloc: Global) -> Result<Text, OutOfMemory> {
        told!(alloc, self => LexError { Bad(fault) => fault.error_text(alloc) })
    }
}

impl ErrorText for ParseFault {
    ghost is_told = { λ e text. text ≡ parse_fault e };

    /// The message, and below it the line and the column.
    fn error_text(&self, alloc: Global) -> Result<Text, OutOfMemory> {
        placed_message(alloc, self.message, self.line, self.column)
    }
}

impl ErrorText for SyntaxError {
    ghost is_told = { λ e text. text ≡ syntax_error e };

    fn error_text(&self, alloc: Global) -> Result<Text, OutOfMemory> {
        told!(alloc, self => SyntaxError { Parse(fault) => fault.error_text(alloc) })
    }
}

impl ErrorText for IoError {
    ghost is_told = { λ e text. text ≡ io_error e };

    fn error_text(&self, alloc: Global) -> Result<Text, OutOfMemory> {
        told!(alloc, self => IoError { Fault(fault) => fault.error_text(alloc) })
    }
}

impl ErrorText for BundleError {
    ghost is_told = { λ e text. text ≡ bundle_error e };

    fn error_text(&self, alloc: Global) -> Result<Text, OutOfMemory> {
        told!(alloc, self => BundleError {
            TooLong => Text::new(alloc, "bundle has more than 4194304 bytes"),
            NotUtf8 { at } => not_utf8(alloc, *at),
            BeforeFirst { at } => before_first(alloc, *at),
        })
    }
}

fn not_utf8(alloc: Global, at: usize) -> Result<Text, OutOfMemory>
    ensures { IfOk result (λ text. text ≡ codes "bundle is not UTF-8 at byte " ++ decimal at) }
{
    Ok(Text::from_string(format!(in alloc; "bundle is not UTF-8 at byte {at}")?))
}

fn before_first(alloc: Global, at: usize) -> Result<Text, OutOfMemory>
    ensures { IfOk result (λ text. text ≡ codes "text before the first file at byte " ++ decimal at) }
{
    Ok(Text::from_string(format!(in alloc; "text before the first file at byte {at}")?))
}
