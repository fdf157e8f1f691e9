//! Sections in their order, and modules.

ghost use Rattle.std.specs.Prelude.{◌≡◌, ◌<◌, ◌-◌, IfOk, IfErr, length};
ghost use Rattle.witx_wasm.specs.{Modules.{IsModule, section_place}, Readers.{ReadsBytes, all_of, vector_at}};
ghost use Rattle.witx_wasm.specs.Reading.{section_number_at, frame_at, contents_at, section_at, placed, preamble_at, Sections, nothing_known, told, Tells, HoldsOfAnswer, TellsByteFault, IsAnswerFor};
ghost use Rattle.witx_wasm.specs.declared.module.WasmModule.{WasmModule};

use crate::fault::{Fault, FaultKind, ModuleError, ReadError};
use crate::imports::Imports;
use crate::module::{FunctionType, Import, WasmModule};
use crate::numbers::{byte, expected, sized, stopped, text};
use crate::reader::{Reader, vector};
use crate::types::FunctionTypes;
use std::alloc::Global;
use witx_base::Items;

/// What the sections so far say; `last` is the place in the order of the last that isn't custom.
#[derive(Drop)]
pub struct Progress {
    pub last: u8,
    pub types: Items<FunctionType>,
    pub imports: Items<Import>,
}

/// The place of a section in the order.
fn place(number: u8) -> u8
    ensures { result ≡ section_place number }
{
    match number {
        10 => 11,
        11 => 12,
        12 => 10,
        _ => number,
    }
}

/// The number of a section that may stand behind one with the place `last`.
#[tactic(auto, unfolding(crate::specs::Reading::section_number_at))]
fn section_number(last: u8, bytes: &[u8]) -> Result<(u8, &[u8]), ReadError>
    ensures { ReadsBytes (λ x. (x.0, x.1.now)) result (section_number_at last bytes.now) }
{
    let (number, rest) = byte(bytes)?;
    if number == 0 {
        Ok((number, rest))
    } else if number == 13 {
        Err(stopped(FaultKind::Tag, bytes))
    } else if number > 13 {
        Err(stopped(FaultKind::SectionId, bytes))
    } else if last < place(number) {
        Ok((number, rest))
    } else {
        Err(stopped(FaultKind::SectionOrder, bytes))
    }
}

/// A section's number and contents, and what stands behind it.
#[tactic(auto, unfolding(crate::specs::Reading::frame_at))]
fn frame(last: u8, bytes: &[u8]) -> Result<(u8, &[u8], &[u8]), ReadError>
    ensures { ReadsBytes (λ x. ((x.0, x.1.now), x.2.now)) result (frame_at last bytes.now) }
{
    let (number, rest) = section_number(last, bytes)?;
    let (contents, rest) = sized(rest)?;
    Ok((number, contents, rest))
}

/// A vector that is all of the bytes.
#[tactic(auto, unfolding(crate::specs::Readers::all_of))]
fn whole<R: Reader>(alloc: Global, reader: &R, bytes: &[u8]) -> Result<Items<R::Value>, ReadError>
    ensures { ReadsBytes (λ x. x) result (all_of (vector_at (R.value_at reader.now) bytes.now)) }
{
    let (values, rest) = vector(alloc, reader, bytes)?;
    if rest.is_empty() {
        Ok(values)
    } else {
        drop(values);
        Err(stopped(FaultKind::Excess, rest))
    }
}

/// What is known behind the contents of a section.
#[tactic(auto, unfolding(crate::specs::Reading::contents_at))]
fn contents(alloc: Global, known: Progress, number: u8, bytes: &[u8]) -> Result<Progress, ReadError>
    ensures { ReadsBytes (λ x. x) result (contents_at known number bytes.now) }
{
    match number {
        0 => {
            let (_name, _rest) = text(bytes)?;
            Ok(known)
        }
        1 => {
            let types = whole(alloc, &FunctionTypes { alloc }, bytes)?;
            Ok(Progress {
                last: 1,
                types,
                imports: known.imports,
            })
        }
        2 => {
            let count = known.types.len();
            let imports = whole(alloc, &Imports { alloc, count }, bytes)?;
            Ok(Progress {
                last: 2,
                types: known.types,
                imports,
            })
        }
        _ => Ok(Progress {
            last: place(number),
            types: known.types,
            imports: known.imports,
        }),
    }
}

/// The fault where reading stops, in bytes whose end is so far from the beginning.
fn fault_before(end: usize, error: ReadError) -> ModuleError
    ensures { result ≡ told end error }
{
    match error {
        ReadError::Stop(stop) => ModuleError::Fault(Fault {
            kind: stop.kind,
            at: end.saturating_sub(stop.left),
        }),
        ReadError::OutOfMemory => ModuleError::OutOfMemory,
    }
}

/// A section's number and contents, and what stands behind it, in a module of so many bytes.
fn placed_frame(total: usize, last: u8, bytes: &[u8]) -> Result<(u8, &[u8], &[u8]), ModuleError>
    ensures { Tells (λ x. ((x.0, x.1.now), x.2.now)) result (placed total (frame_at last bytes.now)) }
{
    match frame(last, bytes) {
        Ok(read) => Ok(read),
        Err(error) => Err(fault_before(total, error)),
    }
}

/// What is known behind the contents of a section, which end so far from the beginning.
fn placed_contents(
    alloc: Global,
    end: usize,
    known: Progress,
    number: u8,
    bytes: &[u8],
) -> Result<Progress, ModuleError>
    ensures { Tells (λ x. x) result (placed end (contents_at known number bytes.now)) }
{
    match contents(alloc, known, number, bytes) {
        Ok(after) => Ok(after),
        Err(error) => Err(fault_before(end, error)),
    }
}

/// What is known behind a section of a module of so many bytes, and what stands there.
#[tactic(auto, unfolding(crate::specs::Reading::section_at))]
fn section(
    alloc: Global,
    total: usize,
    known: Progress,
    bytes: &[u8],
) -> Result<(Progress, &[u8]), ModuleError>
    ensures { Tells (λ x. (x.0, x.1.now)) result (section_at total known bytes.now) }
{
    let (number, contents, rest) = placed_frame(total, known.last, bytes)?;
    let end = total.saturating_sub(rest.len());
    let after = placed_contents(alloc, end, known, number, contents)?;
    Ok((after, rest))
}

/// What all sections say, in a module of so many bytes.
fn sections(alloc: Global, total: usize, bytes: &[u8]) -> Result<Progress, ModuleError>
    ensures { HoldsOfAnswer result (λ end. Sections total nothing_known bytes.now end) }
{
    let mut known = Progress {
        last: 0,
        types: Items::new(alloc),
        imports: Items::new(alloc),
    };
    let mut rest = bytes;
    while !rest.is_empty() {
        let (after, behind) = section(alloc, total, known, rest)?;
        known = after;
        rest = behind;
    }
    Ok(known)
}

/// What stands behind the bytes with which each module begins.
fn preamble(bytes: &[u8]) -> Result<&[u8], ModuleError>
    ensures { Tells (λ x. x.now) result (placed (length bytes.now) (preamble_at bytes.now)) }
{
    match behind_version(bytes) {
        Ok(rest) => Ok(rest),
        Err(error) => Err(fault_before(bytes.len(), error)),
    }
}

/// What stands behind `\0asm` and the version.
fn behind_version(bytes: &[u8]) -> Result<&[u8], ReadError>
    ensures { ReadsBytes (λ x. x.now) result (preamble_at bytes.now) }
{
    let rest = expected(FaultKind::Magic, 0, bytes)?;
    let rest = expected(FaultKind::Magic, b'a', rest)?;
    let rest = expected(FaultKind::Magic, b's', rest)?;
    let rest = expected(FaultKind::Magic, b'm', rest)?;
    let rest = expected(FaultKind::Version, 1, rest)?;
    let rest = expected(FaultKind::Version, 0, rest)?;
    let rest = expected(FaultKind::Version, 0, rest)?;
    expected(FaultKind::Version, 0, rest)
}

/// What a module in binary form declares and imports: its function types, and its imports.
///
/// Read are the core specification's version 1 with multiple values, reference types, bulk memory,
/// sign extension and mutable globals. Of other sections than those of types and imports nothing but
/// number and size is read, of custom ones the name too. What later versions brought is refused by name:
/// vectors, tags, further types of references, types of garbage collection, and memories and tables that
/// are shared, have addresses of 64 bits or pages of another size.
///
/// A refusal tells the first fault from left to right, part by part. A section or a name that is longer
/// than what it stands in ends too soon, whatever is in it.
pub fn read_module(alloc: Global, bytes: &[u8]) -> Result<WasmModule, ModuleError>
    ensures read { IfOk result (λ m. IsModule m bytes.now) }
    ensures only { (m : WasmModule) → IsModule m bytes.now → IsAnswerFor m result }
    ensures fault { IfErr result (λ e. TellsByteFault e bytes.now) }
{
    module(alloc, bytes)
}

/// The module, or its fault.
fn module(alloc: Global, bytes: &[u8]) -> Result<WasmModule, ModuleError>
    ensures read { IfOk result (λ m. IsModule m bytes.now) }
    ensures fault { IfErr result (λ e. TellsByteFault e bytes.now) }
{
    let rest = preamble(bytes)?;
    let known = sections(alloc, bytes.len(), rest)?;
    Ok(WasmModule {
        types: known.types,
        imports: known.imports,
    })
}
