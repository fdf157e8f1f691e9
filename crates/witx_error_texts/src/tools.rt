//! Errors of what the tools read and run: values, traces, imports, memories of bytes, input.

ghost use Rattle.std.specs.{Prelude.{◌≡◌, ◌++◌, IfOk, codes}, Fmt.{decimal}};
ghost use Rattle.witx_error_texts.specs.ErrorTexts.{imports_error, input_error, traces_error, unexpected_line, values_error};

use crate::error_text::ErrorText;
use crate::told::told;
use std::alloc::Global;
use witx_base::{OutOfMemory, Text};
use witx_commands::InputError;
use witx_imports::ImportsError;
use witx_invoke::ValuesError;
use witx_traces::TracesError;

impl ErrorText for ValuesError {
    ghost is_told = { λ e text. text ≡ values_error e };

    fn error_text(&self, alloc: Global) -> Result<Text, OutOfMemory> {
        told!(alloc, self => ValuesError { Line { line } => unexpected_line(alloc, *line) })
    }
}

impl ErrorText for TracesError {
    ghost is_told = { λ e text. text ≡ traces_error e };

    fn error_text(&self, alloc: Global) -> Result<Text, OutOfMemory> {
        told!(alloc, self => TracesError { Line { line } => unexpected_line(alloc, *line) })
    }
}

fn unexpected_line(alloc: Global, line: usize) -> Result<Text, OutOfMemory>
    ensures { IfOk result (λ text. text ≡ unexpected_line line) }
{
    Ok(Text::from_string(format!(in alloc; "unexpected line {line}")?))
}

impl ErrorText for ImportsError {
    ghost is_told = { λ e text. text ≡ imports_error e };

    fn error_text(&self, alloc: Global) -> Result<Text, OutOfMemory> {
        told!(alloc, self => ImportsError {
            Bad { line, column } => not_an_import(alloc, *line, *column),
        })
    }
}

fn not_an_import(alloc: Global, line: usize, column: usize) -> Result<Text, OutOfMemory>
    ensures { IfOk result (λ text. text ≡ decimal line ++ (codes ":" ++ (decimal column ++ codes ": not an import"))) }
{
    Ok(Text::from_string(format!(in alloc; "{line}:{column}: not an import")?))
}

impl ErrorText for InputError {
    ghost is_told = { λ e text. text ≡ input_error e };

    fn error_text(&self, alloc: Global) -> Result<Text, OutOfMemory> {
        told!(alloc, self => InputError {
            Source => Text::new(alloc, "cannot read input"),
            Bundle(error) => error.error_text(alloc),
        })
    }
}
