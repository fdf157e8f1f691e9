//! The value that bytes spell.
#![tactic(auto, using(crate::proofs::ReadParts::read_rules))]

ghost use Rattle.std.specs.Prelude.{◌≡◌, ◌+◌, ◌^◌, ◌<◌, ◌≤◌, true, Err, IfOk, Some, option_copied, option_map};
ghost use Rattle.witx_ast.specs.{Plain.{plain, record_of}, Tags.{fits}, Values.{Value as PlainValue}};
ghost use Rattle.witx_ast.specs.Views.{tree_of, datatype_tree, record_tree, variant_tree, members_plain};
ghost use Rattle.witx_ast.specs.declared.types.RecordKind.{RecordKind};
ghost use Rattle.witx_layout.specs.Numbers.{size_of, repr_size};
ghost use Rattle.witx_bytes.specs.{Bytes.{held}, Images.{Spells}};
ghost use Rattle.witx_bytes.specs.Laids.{IsLaid, KnownType, KnownDatatype, KnownRecord, KnownVariant, KnownMembers, KnownPayload};
ghost use Rattle.witx_bytes.specs.Payloads.{payload_at};
ghost use Rattle.witx_bytes.specs.Reading.{number_at, flags_at, value_at, members_at};
ghost use Rattle.witx_bytes.specs.Readings.{CanRead, CanReadAll, CanReadCase, ReadAs, ReadsValue, case_number};
ghost use Rattle.witx_bytes.specs.Seen.{seen, seen_in, values_seen};

use crate::laid::{Laid, lay_out};
use crate::membership::are_bare;
use crate::memory::ByteMemory;
use crate::places::{known_part, layout_of, payload_begin, rounded_up};
use crate::read_error::ReadError;
use crate::scalars::{
    read_builtin, read_const_pointer, read_handle, read_list, read_number, read_pointer,
};
use crate::value::{Bools, Value, Values, boxed};
use std::alloc::Global;
use std::boxed::Box;
use witx_ast::{
    Case, Datatype, IntRepr, RecordDatatype, RecordKind, RecordMember, TypeRef, Variant,
};
use witx_layout::{Layout, LayoutError};

/// The value that the bytes from an address on spell. There is at most one.
///
/// Bytes that aren't held spell nothing, except where the value has padding.
pub fn read_value(
    alloc: Global,
    memory: &ByteMemory,
    at: u32,
    ty: &TypeRef,
) -> Result<Value, ReadError>
    requires writable { fits (plain (tree_of ty.now)) ≡ true }
    requires sized { size_of (plain (tree_of ty.now)) < 2 ^ 64 }
    ensures value { IfOk result (λ value. Spells (held memory.now) at (plain (tree_of ty.now)) (seen value)) }
    ensures reads { ReadsValue (plain (tree_of ty.now)) memory.now at result }
    ensures no_value { result ≡ Err ReadError.NoValue → (value : PlainValue)
        → ¬ (Spells (held memory.now) at (plain (tree_of ty.now)) value) }
{
    memory.bounds();
    match lay_out(alloc, ty) {
        Ok(laid) => {
            let value = read_laid(alloc, memory, at, ty, &laid);
            drop(laid);
            value
        }
        Err(LayoutError::TooLarge) => unreachable!(),
        Err(LayoutError::OutOfMemory) => Err(ReadError::OutOfMemory),
    }
}

/// The same, with the layout of the type.
pub fn read_laid(
    alloc: Global,
    memory: &ByteMemory,
    at: u32,
    ty: &TypeRef,
    laid: &Laid,
) -> Result<Value, ReadError>
    requires writable { fits (plain (tree_of ty.now)) ≡ true }
    requires sized { size_of (plain (tree_of ty.now)) < 2 ^ 64 }
    requires laid { IsLaid (plain (tree_of ty.now)) laid.now }
    ensures { ReadsValue (plain (tree_of ty.now)) memory.now at result }
{
    read_type(alloc, memory, at as u128, ty, Some(laid))
}

#[cycle(reading)]
#[tactic(auto, using(crate::proofs::Members::write_rules))]
fn read_type(
    alloc: Global,
    memory: &ByteMemory,
    at: u128,
    ty: &TypeRef,
    known: Option<&Laid>,
) -> Result<Value, ReadError>
    requires can { CanRead at (plain (tree_of ty.now)) }
    requires known { KnownType ty.now (option_copied known) }
    ensures { ReadsValue (plain (tree_of ty.now)) memory.now at result }
{
    read_datatype(alloc, memory, at, ty.type_(), known)
}

#[cycle(reading)]
#[tactic(auto, using(crate::proofs::Members::write_rules))]
fn read_datatype(
    alloc: Global,
    memory: &ByteMemory,
    at: u128,
    datatype: &Datatype,
    known: Option<&Laid>,
) -> Result<Value, ReadError>
    requires can { CanRead at (plain (datatype_tree datatype.now)) }
    requires known { KnownDatatype datatype.now (option_copied known) }
    ensures { ReadsValue (plain (datatype_tree datatype.now)) memory.now at result }
{
    match datatype {
        Datatype::Record(record) => read_record(alloc, memory, at, record, known),
        Datatype::Variant(variant) => read_variant(alloc, memory, at, variant, known),
        Datatype::Handle(_) => read_handle(memory, at),
        Datatype::List(target) => read_list(memory, at, target),
        Datatype::Pointer(target) => read_pointer(memory, at, target),
        Datatype::ConstPointer(target) => read_const_pointer(memory, at, target),
        Datatype::Builtin(builtin) => read_builtin(memory, at, *builtin),
    }
}

#[cycle(reading)]
#[tactic(auto, using(crate::proofs::Members::write_rules))]
fn read_record(
    alloc: Global,
    memory: &ByteMemory,
    at: u128,
    record_type: &RecordDatatype,
    known: Option<&Laid>,
) -> Result<Value, ReadError>
    requires can { CanRead at (plain (record_tree record_type.now)) }
    requires known { KnownRecord record_type.now (option_copied known) }
    ensures { ReadsValue (plain (record_tree record_type.now)) memory.now at result }
{
    let members = record_type.members.as_slice();
    if let RecordKind::Bitflags(repr) = record_type.kind {
        return read_flags(alloc, memory, at, repr, members);
    }
    let values = read_members(alloc, memory, at, members, known)?;
    match record_type.kind {
        RecordKind::Tuple => Ok(Value::Tuple(values)),
        _ => Ok(Value::Rec(values)),
    }
}

/// Members, each at the next multiple of its alignment behind the one before it.
#[cycle(reading)]
fn read_members(
    alloc: Global,
    memory: &ByteMemory,
    at: u128,
    members: &[RecordMember],
    known: Option<&Laid>,
) -> Result<Values, ReadError>
    requires can { CanReadAll at (members_plain members.now) }
    requires known { KnownMembers members.now (option_copied known) }
    ensures { ReadAs values_seen (members_at 0 (members_plain members.now) (held memory.now) at) result }
{
    let mut values = Values::new(alloc);
    let mut end = 0;
    for i in 0..members.len() {
        let member = &members[i];
        let part = known_part(known, i);
        let layout = layout_of(part, &member.tref);
        let start = rounded_up(end, layout.align as u64);
        let value = read_type(alloc, memory, at + start as u128, &member.tref, part)?;
        values.push(value)?;
        end = start + layout.size as u64;
    }
    Ok(values)
}

/// The case that the tag names, with its payload if it has one.
#[cycle(reading)]
fn read_variant(
    alloc: Global,
    memory: &ByteMemory,
    at: u128,
    variant: &Variant,
    known: Option<&Laid>,
) -> Result<Value, ReadError>
    requires can { CanRead at (plain (variant_tree variant.now)) }
    requires known { KnownVariant variant.now (option_copied known) }
    ensures { ReadsValue (plain (variant_tree variant.now)) memory.now at result }
{
    let cases = variant.cases.as_slice();
    let Some(i) = case_at(memory, at, variant.tag_repr, cases.len()) else {
        return Err(ReadError::NoValue);
    };
    if are_bare(cases) {
        return Ok(Value::Enum(i));
    }
    let behind = at + payload_begin(known, variant) as u128;
    let part = known_part(known, i as usize);
    let payload = read_payload(alloc, memory, behind, &cases[i as usize], part)?;
    Ok(Value::Case(i, payload))
}

/// The payload of a case, if it has one.
#[cycle(reading)]
fn read_payload(
    alloc: Global,
    memory: &ByteMemory,
    at: u128,
    case: &Case,
    known: Option<&Laid>,
) -> Result<Option<Box<Value>>, ReadError>
    requires can { CanReadCase at case.now.tref }
    requires known { KnownPayload case.now.tref (option_copied known) }
    ensures { ReadAs (option_map seen_in) (payload_at case.now.tref (held memory.now) at) result }
{
    match &case.tref {
        Some(tref) => read_boxed(alloc, memory, at, tref, known),
        None => Ok(None),
    }
}

// Within its caller: so what recurses through variants takes little of the stack.
#[inline(always)]
#[cycle(reading)]
fn read_boxed(
    alloc: Global,
    memory: &ByteMemory,
    at: u128,
    ty: &TypeRef,
    known: Option<&Laid>,
) -> Result<Option<Box<Value>>, ReadError>
    requires can { CanRead at (plain (tree_of ty.now)) }
    requires known { KnownType ty.now (option_copied known) }
    ensures { ReadAs (option_map seen_in)
        (option_map Some (value_at (plain (tree_of ty.now)) (held memory.now) at)) result }
{
    let value = read_type(alloc, memory, at, ty, known)?;
    let boxed = boxed(alloc, value)?;
    Ok(Some(boxed))
}

/// The number of the case that a tag names, where there are so many.
fn case_at(memory: &ByteMemory, at: u128, repr: IntRepr, count: usize) -> Option<u32>
    requires few { count ≤ 2 ^ 32 }
    requires low { at < 2 ^ 66 }
    ensures { result ≡ case_number count (number_at (repr_size repr) (held memory.now) at) }
{
    let tag = read_number(memory, at, repr.mem_align() as u64)?;
    if tag >= count as u64 {
        return None;
    }
    Some(tag as u32)
}

/// Flags, one for each member: flag k is bit k, and further bits are 0.
fn read_flags(
    alloc: Global,
    memory: &ByteMemory,
    at: u128,
    repr: IntRepr,
    members: &[RecordMember],
) -> Result<Value, ReadError>
    requires { at < 2 ^ 66 }
    ensures { ReadsValue (record_of (RecordKind.Bitflags repr) (members_plain members.now)) memory.now at result }
{
    match read_number(memory, at, repr.mem_align() as u64) {
        Some(bits) => flags_of(alloc, bits, members.len()),
        None => Err(ReadError::NoValue),
    }
}

/// The lowest bits of a number, so many, where all further ones are 0.
#[tactic(auto, using(crate::proofs::ReadFlags::flag_rules))]
pub fn flags_of(alloc: Global, bits: u64, count: usize) -> Result<Value, ReadError>
    ensures { ReadAs seen (flags_at count bits) result }
{
    let mut flags = Bools::new(alloc);
    let mut rest = bits;
    for _made in 0..count {
        flags.push(rest % 2 == 1)?;
        rest /= 2;
    }
    if rest > 0 {
        return Err(ReadError::NoValue);
    }
    Ok(Value::Flags(flags))
}
