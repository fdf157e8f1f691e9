//! Reads modules that are written as bytes in hexadecimal or stand in files, and writes what each imports or
//! what is wrong with it.
//!
//! On standard input stands a row a line: a name, a colon, and the bytes, with blanks where one likes, or the
//! word `file` and a path; other lines are passed over. For each row a line is written, with the name, and
//! `module`, or the fault and its offset; behind `module` the lines of the list of its function imports.
#![tactic(auto)]

use std::alloc::{AllocError, Global};
use std::fs;
use std::io::{Read, Write as _};
use std::process::ExitCode;
use witx_base::{MemoryRefused, OutOfMemory};
use witx_import_list::{ListError, function_imports, import_list_text};
use witx_wasm::{FaultKind, ModuleError, WasmModule, read_module};

/// Why a row isn't answered.
#[derive(Clone, Copy)]
pub enum Stop {
    /// Its file can't be read.
    NoFile,
    OutOfMemory,
}

impl<E: MemoryRefused> From<E> for Stop {
    fn from(_refused: E) -> Stop {
        Stop::OutOfMemory
    }
}

/// Status 0 where each row was answered, 3 and 4 where standard input or a file can't be read or the answers
/// can't be written, 5 without memory.
fn main(rt: HostRuntime) -> ExitCode {
    let alloc = rt.alloc();
    let mut input = Vec::new(alloc);
    if rt.stdin().read_to_end(&mut input).is_err() {
        return ExitCode::from(3);
    }
    let Ok(text) = std::str::from_utf8(input.as_slice()) else {
        return ExitCode::from(3);
    };
    let mut answers = String::new(alloc);
    match put_answers(&rt, alloc, text, &mut answers) {
        Ok(()) => {}
        Err(Stop::NoFile) => return ExitCode::from(3),
        Err(Stop::OutOfMemory) => return ExitCode::from(5),
    }
    match rt.stdout().write_all(answers.as_bytes()) {
        Ok(()) => ExitCode::from(0),
        Err(_) => ExitCode::from(4),
    }
}

/// Appends what each row gives.
fn put_answers(
    rt: &HostRuntime,
    alloc: Global,
    text: &str,
    answers: &mut String,
) -> Result<(), Stop> {
    for line in text.lines() {
        if let Some((name, row)) = line.split_once(':') {
            let bytes = bytes_of(rt, alloc, row)?;
            put_answer(alloc, name, bytes.as_slice(), answers)?;
        }
    }
    Ok(())
}

/// Appends what a row gives.
fn put_answer(
    alloc: Global,
    name: &str,
    bytes: &[u8],
    answers: &mut String,
) -> Result<(), OutOfMemory> {
    answers.push_str(name)?;
    match read_module(alloc, bytes) {
        Ok(module) => put_module(alloc, &module, answers),
        Err(ModuleError::Fault(fault)) => {
            let kind = kind_name(fault.kind);
            write!(answers, ": {kind} at {}\n", fault.at)?;
            Ok(())
        }
        Err(ModuleError::OutOfMemory) => Err(OutOfMemory),
    }
}

/// Appends the list of a module's function imports.
fn put_module(alloc: Global, module: &WasmModule, answers: &mut String) -> Result<(), OutOfMemory> {
    match function_imports(alloc, module) {
        Ok(imports) => {
            answers.push_str(": module\n")?;
            answers.push_str(import_list_text(alloc, &imports)?.as_str())?;
            Ok(())
        }
        Err(ListError::NoWords { import }) => {
            write!(answers, ": no words of import {import}\n")?;
            Ok(())
        }
        Err(ListError::TooManyWords) => {
            answers.push_str(": too many words\n")?;
            Ok(())
        }
        Err(ListError::OutOfMemory) => Err(OutOfMemory),
    }
}

/// The bytes of a row: those of the file behind the word `file`, or those that are written.
fn bytes_of(rt: &HostRuntime, alloc: Global, row: &str) -> Result<Vec<u8>, Stop> {
    let Some(path) = row.strip_prefix(" file ") else {
        return Ok(written(alloc, row)?);
    };
    match fs::read(rt, path) {
        Ok(bytes) => Ok(bytes),
        Err(_) => Err(Stop::NoFile),
    }
}

/// The bytes that are written in hexadecimal, with capitals; other characters are passed over.
fn written(alloc: Global, digits: &str) -> Result<Vec<u8>, AllocError> {
    let mut bytes = Vec::new(alloc);
    let mut high = None;
    for digit in digits.as_bytes() {
        if let Some(value) = value_of(*digit) {
            match high {
                None => high = Some(value),
                Some(front) => {
                    bytes.push(front.wrapping_mul(16).wrapping_add(value))?;
                    high = None;
                }
            }
        }
    }
    Ok(bytes)
}

/// The number of a hexadecimal digit.
fn value_of(digit: u8) -> Option<u8> {
    match digit {
        b'0'..=b'9' => Some(digit - b'0'),
        b'A'..=b'F' => Some(digit - b'A' + 10),
        _ => None,
    }
}

/// The name of a kind.
fn kind_name(kind: FaultKind) -> &'static str {
    match kind {
        FaultKind::Magic => "Magic",
        FaultKind::Version => "Version",
        FaultKind::End => "End",
        FaultKind::Excess => "Excess",
        FaultKind::Number => "Number",
        FaultKind::SectionId => "SectionId",
        FaultKind::SectionOrder => "SectionOrder",
        FaultKind::NotUtf8 => "NotUtf8",
        FaultKind::FunctionForm => "FunctionForm",
        FaultKind::CompositeType => "CompositeType",
        FaultKind::ValueType => "ValueType",
        FaultKind::Vector => "Vector",
        FaultKind::ReferenceType => "ReferenceType",
        FaultKind::HeapType => "HeapType",
        FaultKind::ImportKind => "ImportKind",
        FaultKind::Tag => "Tag",
        FaultKind::Limits => "Limits",
        FaultKind::Shared => "Shared",
        FaultKind::Wide => "Wide",
        FaultKind::PageSize => "PageSize",
        FaultKind::Mutability => "Mutability",
        FaultKind::UnknownType => "UnknownType",
    }
}
