//! Texts with a place or a number, which several errors have.

ghost use Rattle.std.specs.{Prelude.{◌≡◌, ◌++◌, IfOk, OnOk, codes, string_bytes}, Fmt.{decimal}};
ghost use Rattle.witx_error_texts.specs.ErrorTexts.{at_place, definition_text, in_file, place_shown, tag_text, unlowered_text};

use std::alloc::{AllocError, Global};
use std::fmt::Write;
use witx_base::{OutOfMemory, Text};
use witx_files::Location;
use witx_layout::TagTooNarrow;
use witx_machine::Place;

/// A message, and the place of what it is about.
pub fn placed_message(
    alloc: Global,
    message: &str,
    line: usize,
    column: usize,
) -> Result<Text, OutOfMemory>
    ensures { IfOk result (λ text. text ≡ message.now ++ at_place line column) }
{
    let mut text = String::new(alloc);
    text.push_str(message)?;
    put_place(&mut text, line, column)?;
    Ok(Text::from_string(text))
}

fn put_place(text: &mut String, line: usize, column: usize) -> Result<(), AllocError>
    ensures { OnOk result (string_bytes text.new ≡ string_bytes text.old ++ at_place line column) }
{
    write!(text, "\n     --> {line}:{column}")
}

/// A report, and the place of the fault in its file.
pub fn located_report(alloc: Global, report: &str, at: &Location) -> Result<Text, OutOfMemory>
    ensures { IfOk result (λ text. text ≡ report.now ++ in_file at.now) }
{
    let mut text = String::new(alloc);
    text.push_str(report)?;
    put_file(&mut text, at.path.as_str())?;
    put_line(&mut text, at.line, at.column)?;
    Ok(Text::from_string(text))
}

fn put_file(text: &mut String, path: &str) -> Result<(), AllocError>
    ensures { OnOk result (string_bytes text.new ≡ string_bytes text.old ++ (codes "\n     --> " ++ path.now)) }
{
    write!(text, "\n     --> {path}")
}

fn put_line(text: &mut String, line: usize, column: usize) -> Result<(), AllocError>
    ensures { OnOk result (string_bytes text.new
        ≡ string_bytes text.old ++ (codes ":" ++ (decimal line ++ (codes ":" ++ decimal column)))) }
{
    write!(text, ":{line}:{column}")
}

/// What is said of a definition, by its number.
pub fn definition_text(alloc: Global, definition: usize, said: &str) -> Result<Text, OutOfMemory>
    ensures { IfOk result (λ text. text ≡ definition_text definition said.now) }
{
    Ok(Text::from_string(format!(in alloc; "definition {definition}: {said}")?))
}

/// A type that doesn't fit its tag, by the number of its definition.
pub fn tag_text(alloc: Global, tag: &TagTooNarrow) -> Result<Text, OutOfMemory>
    ensures { IfOk result (λ text. text ≡ tag_text tag.now) }
{
    Ok(Text::from_string(format!(in alloc;
        "definition {}: {} flags or cases, at most {}",
        tag.definition, tag.count, tag.most
    )?))
}

/// A part of a function that can't be lowered.
pub fn unlowered_text(alloc: Global, place: Place) -> Result<Text, OutOfMemory>
    ensures { IfOk result (λ text. text ≡ unlowered_text place) }
{
    let mut text = String::new(alloc);
    put_part(&mut text, place)?;
    text.push_str(" cannot be lowered")?;
    Ok(Text::from_string(text))
}

/// A part of a function, by its number.
pub fn put_part(text: &mut String, place: Place) -> Result<(), AllocError>
    ensures { OnOk result (string_bytes text.new ≡ string_bytes text.old ++ place_shown place) }
{
    match place {
        Place::Param(i) => write!(text, "parameter {i}"),
        Place::Result(i) => write!(text, "result {i}"),
    }
}
