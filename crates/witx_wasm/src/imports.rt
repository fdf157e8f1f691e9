//! Imports: two names, and what is wanted.
#![tactic(auto, unfolding(crate::specs::Reading::type_number_at, crate::specs::Reading::description_at, crate::specs::Reading::import_at))]

ghost use Rattle.std.specs.Prelude.{◌≡◌};
ghost use Rattle.witx_wasm.specs.Readers.{ReadsBytes};
ghost use Rattle.witx_wasm.specs.Reading.{kind_fault, type_number_at, description_at, import_at};

use crate::fault::{FaultKind, ReadError};
use crate::module::{Import, ImportDescription};
use crate::numbers::{byte, name, number, stopped};
use crate::reader::Reader;
use crate::types::{global, limits, table};
use std::alloc::Global;

/// The number of one of so many types.
fn type_number(count: usize, bytes: &[u8]) -> Result<(u32, &[u8]), ReadError>
    ensures { ReadsBytes (λ x. (x.0, x.1.now)) result (type_number_at count bytes.now) }
{
    let (number, rest) = number(bytes)?;
    if (number as usize) < count {
        Ok((number, rest))
    } else {
        Err(stopped(FaultKind::UnknownType, bytes))
    }
}

/// What is wrong with a byte that stands for nothing that can be imported.
fn kind_fault(byte: u8) -> FaultKind
    ensures { result ≡ kind_fault byte }
{
    match byte {
        4 => FaultKind::Tag,
        _ => FaultKind::ImportKind,
    }
}

/// What is wanted, in a module of so many types.
fn description(count: usize, bytes: &[u8]) -> Result<(ImportDescription, &[u8]), ReadError>
    ensures { ReadsBytes (λ x. (x.0, x.1.now)) result (description_at count bytes.now) }
{
    let (kind, rest) = byte(bytes)?;
    match kind {
        0 => {
            let (number, rest) = type_number(count, rest)?;
            Ok((ImportDescription::Function(number), rest))
        }
        1 => {
            let (table, rest) = table(rest)?;
            Ok((ImportDescription::Table(table), rest))
        }
        2 => {
            let (limits, rest) = limits(rest)?;
            Ok((ImportDescription::Memory(limits), rest))
        }
        3 => {
            let (global, rest) = global(rest)?;
            Ok((ImportDescription::Global(global), rest))
        }
        _ => Err(stopped(kind_fault(kind), bytes)),
    }
}

/// An import of a module of so many types.
fn import(alloc: Global, count: usize, bytes: &[u8]) -> Result<(Import, &[u8]), ReadError>
    ensures { ReadsBytes (λ x. (x.0, x.1.now)) result (import_at count bytes.now) }
{
    let (module, rest) = name(alloc, bytes)?;
    let (name, rest) = name(alloc, rest)?;
    let (description, rest) = description(count, rest)?;
    let import = Import {
        module,
        name,
        description,
    };
    Ok((import, rest))
}

/// Reads imports of a module of so many types.
#[derive(Clone, Copy)]
pub struct Imports {
    pub alloc: Global,
    pub count: usize,
}

impl Reader for Imports {
    type Value = Import;

    ghost value_at = { λ reader bytes. import_at reader.count bytes };

    fn read<'a>(&self, bytes: &'a [u8]) -> Result<(Import, &'a [u8]), ReadError> {
        import(self.alloc, self.count, bytes)
    }
}
