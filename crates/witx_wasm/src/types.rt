//! Types of values, of functions, of tables and of globals, and limits.

ghost use Rattle.std.specs.Prelude.{◌≡◌, ◌<◌};
ghost use Rattle.witx_wasm.specs.Readers.{ReadsBytes};
ghost use Rattle.witx_wasm.specs.Reading.{reference_of, value_type_of, reference_fault, value_fault, type_form_fault, limits_fault, reference_at, value_at, function_type_at, limits_at, table_at, mutability_at, global_at};

use crate::fault::{FaultKind, ReadError};
use crate::module::{FunctionType, GlobalType, Limits, ReferenceType, TableType, ValueType};
use crate::numbers::{byte, number, stopped};
use crate::reader::{Reader, vector};
use std::alloc::Global;

/// The type of references that a byte stands for.
fn reference_of(byte: u8) -> Option<ReferenceType>
    ensures { result ≡ reference_of byte }
{
    match byte {
        0x70 => Some(ReferenceType::Func),
        0x6F => Some(ReferenceType::Extern),
        _ => None,
    }
}

/// The type of values that a byte stands for.
fn value_of(byte: u8) -> Option<ValueType>
    ensures { result ≡ value_type_of byte }
{
    match byte {
        0x7F => Some(ValueType::I32),
        0x7E => Some(ValueType::I64),
        0x7D => Some(ValueType::F32),
        0x7C => Some(ValueType::F64),
        _ => reference_of(byte).map(ValueType::Reference),
    }
}

/// What is wrong with a byte that stands for no type of references: the other fault, unless it is one
/// that isn't read.
fn reference_fault(other: FaultKind, byte: u8) -> FaultKind
    ensures { result ≡ reference_fault other byte }
{
    match byte {
        0x63..=0x64 | 0x69..=0x74 => FaultKind::HeapType,
        _ => other,
    }
}

/// What is wrong with a byte that stands for no type of values.
fn value_fault(byte: u8) -> FaultKind
    ensures { result ≡ value_fault byte }
{
    match byte {
        0x7B => FaultKind::Vector,
        _ => reference_fault(FaultKind::ValueType, byte),
    }
}

/// What is wrong with a byte that begins no type of functions.
fn form_fault(byte: u8) -> FaultKind
    ensures { result ≡ type_form_fault byte }
{
    match byte {
        0x4E..=0x50 | 0x5E..=0x5F => FaultKind::CompositeType,
        _ => FaultKind::FunctionForm,
    }
}

/// A type of references.
#[tactic(auto, unfolding(crate::specs::Reading::reference_at))]
fn reference(bytes: &[u8]) -> Result<(ReferenceType, &[u8]), ReadError>
    ensures { ReadsBytes (λ x. (x.0, x.1.now)) result (reference_at bytes.now) }
{
    let (code, rest) = byte(bytes)?;
    match reference_of(code) {
        Some(reference) => Ok((reference, rest)),
        None => {
            let kind = reference_fault(FaultKind::ReferenceType, code);
            Err(stopped(kind, bytes))
        }
    }
}

/// A type of values.
#[tactic(auto, unfolding(crate::specs::Reading::value_at))]
fn value(bytes: &[u8]) -> Result<(ValueType, &[u8]), ReadError>
    ensures { ReadsBytes (λ x. (x.0, x.1.now)) result (value_at bytes.now) }
{
    let (code, rest) = byte(bytes)?;
    match value_of(code) {
        Some(value) => Ok((value, rest)),
        None => Err(stopped(value_fault(code), bytes)),
    }
}

/// Reads types of values.
#[derive(Clone, Copy)]
struct Values;

impl Reader for Values {
    type Value = ValueType;

    ghost value_at = { λ _ bytes. value_at bytes };

    fn read<'a>(&self, bytes: &'a [u8]) -> Result<(ValueType, &'a [u8]), ReadError> {
        value(bytes)
    }
}

/// Reads types of functions.
#[derive(Clone, Copy)]
pub struct FunctionTypes {
    pub alloc: Global,
}

impl Reader for FunctionTypes {
    type Value = FunctionType;

    ghost value_at = { λ _ bytes. function_type_at bytes };

    fn read<'a>(&self, bytes: &'a [u8]) -> Result<(FunctionType, &'a [u8]), ReadError> {
        function_type(self.alloc, bytes)
    }
}

/// A type of functions.
#[tactic(auto, unfolding(crate::specs::Reading::function_type_at))]
fn function_type(alloc: Global, bytes: &[u8]) -> Result<(FunctionType, &[u8]), ReadError>
    ensures { ReadsBytes (λ x. (x.0, x.1.now)) result (function_type_at bytes.now) }
{
    let (form, rest) = byte(bytes)?;
    if form != 0x60 {
        return Err(stopped(form_fault(form), bytes));
    }
    let (params, rest) = vector(alloc, &Values, rest)?;
    let (results, rest) = vector(alloc, &Values, rest)?;
    Ok((FunctionType { params, results }, rest))
}

/// What is wrong with flags of limits that are neither 0 nor 1.
fn limits_fault(flag: u8) -> FaultKind
    ensures { result ≡ limits_fault flag }
{
    match flag {
        0..=3 => FaultKind::Shared,
        4..=7 => FaultKind::Wide,
        8..=15 => FaultKind::PageSize,
        _ => FaultKind::Limits,
    }
}

/// Limits.
#[tactic(auto, unfolding(crate::specs::Reading::limits_at))]
pub fn limits(bytes: &[u8]) -> Result<(Limits, &[u8]), ReadError>
    ensures { ReadsBytes (λ x. (x.0, x.1.now)) result (limits_at bytes.now) }
{
    let (flag, rest) = byte(bytes)?;
    if flag > 1 {
        return Err(stopped(limits_fault(flag), bytes));
    }
    let (least, rest) = number(rest)?;
    if flag == 0 {
        return Ok((Limits { least, most: None }, rest));
    }
    let (most, rest) = number(rest)?;
    let most = Some(most);
    Ok((Limits { least, most }, rest))
}

/// A type of tables.
#[tactic(auto, unfolding(crate::specs::Reading::table_at))]
pub fn table(bytes: &[u8]) -> Result<(TableType, &[u8]), ReadError>
    ensures { ReadsBytes (λ x. (x.0, x.1.now)) result (table_at bytes.now) }
{
    let (element, rest) = reference(bytes)?;
    let (limits, rest) = limits(rest)?;
    Ok((TableType { element, limits }, rest))
}

/// Whether a global may be changed.
#[tactic(auto, unfolding(crate::specs::Reading::mutability_at))]
fn mutability(bytes: &[u8]) -> Result<(bool, &[u8]), ReadError>
    ensures { ReadsBytes (λ x. (x.0, x.1.now)) result (mutability_at bytes.now) }
{
    let (code, rest) = byte(bytes)?;
    if code > 1 {
        return Err(stopped(FaultKind::Mutability, bytes));
    }
    Ok((code == 1, rest))
}

/// A type of globals.
#[tactic(auto, unfolding(crate::specs::Reading::global_at))]
pub fn global(bytes: &[u8]) -> Result<(GlobalType, &[u8]), ReadError>
    ensures { ReadsBytes (λ x. (x.0, x.1.now)) result (global_at bytes.now) }
{
    let (value, rest) = value(bytes)?;
    let (mutable, rest) = mutability(rest)?;
    Ok((GlobalType { value, mutable }, rest))
}
