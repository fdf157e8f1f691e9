//! The report of files that can't be adapted, byte for byte.

ghost use Rattle.std.specs.Prelude.{◌≡◌, ◌++◌, IfOk, OnOk, map, slice_get, string_bytes};
ghost use Rattle.witx_ast.specs.{Definitions.{definition_tree}, Functions.{func_tree, param_field}};
ghost use Rattle.witx_commands.specs.Reports.{IsDocumentReport, IsUnadaptedReport, counts_text, definition_name, field_at, field_name, function_called, definition_name_at, named_before, part_name, part_text, part_word, size_report, tag_report, unlowerable_report};

use crate::error::Unadapted;
use crate::parsing::text_report;
use std::alloc::{AllocError, Global};
use std::fmt::Write;
use witx_adapt::DocumentError;
use witx_ast::{Definition, Document, InterfaceFunc, InterfaceFuncParam};
use witx_base::{Id, OutOfMemory, Text};
use witx_files::MockFs;
use witx_layout::TagTooNarrow;
use witx_machine::Place;

/// What a user reads of the files of a bundle that can't be adapted. There is none of want of memory.
#[tactic(auto, unfolding(crate::specs::Reports::IsUnadaptedReport))]
pub fn adapt_report(
    alloc: Global,
    files: &mut MockFs,
    unadapted: &Unadapted,
) -> Result<Text, OutOfMemory>
    ensures { IfOk result (λ report. IsUnadaptedReport files.old unadapted.now report) }
{
    match unadapted {
        Unadapted::Texts(error) => text_report(alloc, files, error),
        Unadapted::Document(refused) => document_report(alloc, &refused.document, &refused.error),
    }
}

/// The report of a document that is refused, with the names that it has there.
fn document_report(
    alloc: Global,
    document: &Document,
    error: &DocumentError,
) -> Result<Text, OutOfMemory>
    ensures { IfOk result (λ report. IsDocumentReport (map definition_tree document.now.definitions) error.now report) }
{
    match error {
        DocumentError::TagTooNarrow(tag) => {
            tag_report(alloc, name_at(document, tag.definition), tag)
        }
        DocumentError::TooLarge { definition } => {
            size_report(alloc, name_at(document, *definition))
        }
        DocumentError::Unlowerable {
            module,
            function,
            place,
        } => {
            let part = part_name(document, module, function, *place);
            unlowerable_report(alloc, module, function, *place, part)
        }
        DocumentError::OutOfMemory => Err(OutOfMemory),
    }
}

/// The name of the definition of a number.
fn name_at(document: &Document, number: usize) -> &str
    ensures { result.now ≡ definition_name_at (map definition_tree document.now.definitions) number }
{
    match document.definitions().as_slice().get(number) {
        Some(definition) => definition_name(definition),
        None => "",
    }
}

fn definition_name(definition: &Definition) -> &str
    ensures { result.now ≡ definition_name (definition_tree definition.now) }
{
    match definition {
        Definition::Typename(named) => named.name.as_str(),
        Definition::Module(owner) => owner.name.as_str(),
        Definition::Constant(constant) => constant.name.as_str(),
    }
}

fn tag_report(alloc: Global, name: &str, tag: &TagTooNarrow) -> Result<Text, OutOfMemory>
    ensures { IfOk result (λ text. text ≡ tag_report name.now tag.now) }
{
    let mut report = String::new(alloc);
    put_name(&mut report, name)?;
    put_counts(&mut report, tag.count, tag.most)?;
    Ok(Text::from_string(report))
}

fn size_report(alloc: Global, name: &str) -> Result<Text, OutOfMemory>
    ensures { IfOk result (λ text. text ≡ size_report name.now) }
{
    let mut report = String::new(alloc);
    put_name(&mut report, name)?;
    report.push_str("size too large")?;
    Ok(Text::from_string(report))
}

fn put_name(text: &mut String, name: &str) -> Result<(), AllocError>
    ensures { OnOk result (string_bytes text.new ≡ string_bytes text.old ++ named_before name.now) }
{
    text.push_str("`")?;
    text.push_str(name)?;
    text.push_str("`: ")
}

#[tactic(auto, using(crate::proofs::Refusing::text_rules))]
fn put_counts(text: &mut String, count: usize, most: u64) -> Result<(), AllocError>
    ensures { OnOk result (string_bytes text.new ≡ string_bytes text.old ++ counts_text count most) }
{
    write!(text, "{count} flags or cases, at most {most}")
}

/// The name of the parameter or the result at the place of a function of a module.
fn part_name<'a>(document: &'a Document, owner: &Id, function: &Id, place: Place) -> &'a str
    ensures { result.now ≡ part_name (map definition_tree document.now.definitions) owner.now function.now place }
{
    match document.module(owner) {
        Some(owner) => match owner.func(function) {
            Some(func) => field_name(func, place),
            None => "",
        },
        None => "",
    }
}

fn field_name(func: &InterfaceFunc, place: Place) -> &str
    ensures { result.now ≡ field_name (field_at (func_tree func.now) place) }
{
    match place {
        Place::Param(i) => nth_name(func.params.as_slice(), i),
        Place::Result(i) => nth_name(func.results.as_slice(), i),
    }
}

fn nth_name(params: &[InterfaceFuncParam], i: usize) -> &str
    ensures { result.now ≡ field_name (slice_get (map param_field params.now) i) }
{
    match params.get(i) {
        Some(param) => param.name.as_str(),
        None => "",
    }
}

fn part_word(place: Place) -> &'static str
    ensures { result.now ≡ part_word place }
{
    match place {
        Place::Param(_) => "parameter",
        Place::Result(_) => "result",
    }
}

fn unlowerable_report(
    alloc: Global,
    owner: &Id,
    function: &Id,
    place: Place,
    part: &str,
) -> Result<Text, OutOfMemory>
    ensures { IfOk result (λ text. text ≡ unlowerable_report owner.now function.now place part.now) }
{
    let mut report = String::new(alloc);
    put_function_called(&mut report, owner.as_str(), function.as_str())?;
    put_part(&mut report, part_word(place), part)?;
    Ok(Text::from_string(report))
}

/// Appends which function of which module something is told of.
pub fn put_function_called(text: &mut String, owner: &str, function: &str) -> Result<(), AllocError>
    ensures { OnOk result (string_bytes text.new ≡ string_bytes text.old ++ function_called owner.now function.now) }
{
    write!(text, "function `{function}` of module `{owner}`: ")
}

fn put_part(text: &mut String, word: &str, part: &str) -> Result<(), AllocError>
    ensures { OnOk result (string_bytes text.new ≡ string_bytes text.old ++ part_text word.now part.now) }
{
    write!(text, "{word} `{part}` cannot be lowered")
}
