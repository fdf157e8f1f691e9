//! The value at the head of a text, under the guidance of its type.
//!
//! A number is as many digits as stand there, so that `05` is read as 5: whether the text is that of
//! the value is seen afterwards, when the value's text is compared with it.
#![tactic(auto, using(crate::proofs::ReadParts::part_rules))]

ghost use Rattle.std.specs.Prelude.{ℕ, List, true, Some, None, option_and_then};
ghost use Rattle.witx_ast.specs.Plain.{plain, builtin, handle, list_of, pointer_to, const_pointer_to, record_of, all_bare};
ghost use Rattle.witx_ast.specs.Views.{tree_of, datatype_tree, record_tree, variant_tree, members_plain, cases_plain};
ghost use Rattle.witx_ast.specs.{declared.types.IntRepr.{IntRepr}, declared.types.RecordKind.{RecordKind}};
ghost use Rattle.witx_bytes.specs.{Readings.{ReadAs}, Seen.{seen, values_seen}};
ghost use Rattle.witx_invoke.specs.Reading.{Payloads, past, case_behind, cases_at, closed, item_past, members_at, payload_at, taken, type_at};

use crate::flags::read_flags;
use crate::heads::{after, item_start, read_index, read_signed, read_word};
use std::alloc::Global;
use witx_ast::{
    BuiltinType, Case, Datatype, RecordDatatype, RecordKind, RecordMember, TypeRef, Variant,
};
use witx_bytes::{ReadError, Value, Values, are_bare, boxed};

/// What is read at the head of a text, and what follows it.
type Read<'a, T = Value> = Result<(T, &'a [u8]), ReadError>;

/// The value at the head, and what follows it, where the type has at most so many levels; else want of memory.
#[cycle(reading)]
#[tactic(auto, using(crate::proofs::ReadTypes::type_rules))]
pub(crate) fn read_type<'a>(alloc: Global, ty: &TypeRef, text: &'a [u8], deep: u32) -> Read<'a>
    ensures { ReadAs (taken seen) (type_at (plain (tree_of ty.now)) text.now) result }
{
    if deep == 0 {
        return Err(ReadError::OutOfMemory);
    }
    read_datatype(alloc, ty.type_(), text, deep - 1)
}

#[cycle(reading)]
#[tactic(auto, using(crate::proofs::ReadTypes::type_rules))]
fn read_datatype<'a>(alloc: Global, datatype: &Datatype, text: &'a [u8], deep: u32) -> Read<'a>
    ensures { ReadAs (taken seen) (type_at (plain (datatype_tree datatype.now)) text.now) result }
{
    match datatype {
        Datatype::Record(record) => read_record(alloc, record, text, deep),
        Datatype::Variant(variant) => read_variant(alloc, variant, text, deep),
        Datatype::Handle(_) => read_handle(text),
        Datatype::List(target) => read_list(target, text),
        Datatype::Pointer(target) => read_pointer(target, text),
        Datatype::ConstPointer(target) => read_const_pointer(target, text),
        Datatype::Builtin(builtin) => read_builtin(*builtin, text),
    }
}

#[cycle(reading)]
#[tactic(auto, using(crate::proofs::ReadTypes::type_rules))]
fn read_record<'a>(
    alloc: Global,
    record_type: &RecordDatatype,
    text: &'a [u8],
    deep: u32,
) -> Read<'a>
    ensures { ReadAs (taken seen) (type_at (plain (record_tree record_type.now)) text.now) result }
{
    let members = record_type.members.as_slice();
    if let RecordKind::Bitflags(_) = record_type.kind {
        return read_bits(alloc, members, text);
    }
    let (values, rest) = read_enclosed(alloc, members, text, deep)?;
    match record_type.kind {
        RecordKind::Tuple => Ok((Value::Tuple(values), rest)),
        _ => Ok((Value::Rec(values), rest)),
    }
}

fn read_bits<'a>(alloc: Global, members: &[RecordMember], text: &'a [u8]) -> Read<'a>
    ensures { (r : IntRepr) → ReadAs (taken seen)
        (type_at (record_of (RecordKind.Bitflags r) (members_plain members.now)) text.now) result }
{
    let (flags, rest) = read_flags(alloc, members.len(), text)?;
    Ok((Value::Flags(flags), rest))
}

/// A value for each member, in parentheses.
#[cycle(reading)]
fn read_enclosed<'a>(
    alloc: Global,
    members: &[RecordMember],
    text: &'a [u8],
    deep: u32,
) -> Read<'a, Values>
    ensures { ReadAs (taken values_seen) (option_and_then (closed 41)
        (option_and_then (members_at 0 (members_plain members.now)) (past 40 text.now))) result }
{
    let Some(inside) = after(b'(', text) else {
        return Err(ReadError::NoValue);
    };
    let (values, rest) = read_members(alloc, members, inside, deep)?;
    let Some(rest) = after(b')', rest) else {
        drop(values);
        return Err(ReadError::NoValue);
    };
    Ok((values, rest))
}

/// A value for each member, one space between.
#[cycle(reading)]
fn read_members<'a>(
    alloc: Global,
    members: &[RecordMember],
    text: &'a [u8],
    deep: u32,
) -> Read<'a, Values>
    ensures { ReadAs (taken values_seen) (members_at 0 (members_plain members.now) text.now) result }
{
    let mut values = Values::new(alloc);
    let mut rest = text;
    for i in 0..members.len() {
        let (value, more) = read_member(alloc, i, &members[i].tref, rest, deep)?;
        values.push(value)?;
        rest = more;
    }
    Ok((values, rest))
}

/// The value of a member, behind the space before it.
#[cycle(reading)]
fn read_member<'a>(alloc: Global, item: usize, ty: &TypeRef, text: &'a [u8], deep: u32) -> Read<'a>
    ensures { ReadAs (taken seen) (option_and_then (type_at (plain (tree_of ty.now))) (item_past item text.now)) result }
{
    let Some(start) = item_start(item, text) else {
        return Err(ReadError::NoValue);
    };
    read_type(alloc, ty, start, deep)
}

#[cycle(reading)]
#[tactic(auto, using(crate::proofs::ReadTypes::type_rules))]
fn read_variant<'a>(alloc: Global, variant: &Variant, text: &'a [u8], deep: u32) -> Read<'a>
    ensures { ReadAs (taken seen) (type_at (plain (variant_tree variant.now)) text.now) result }
{
    read_cases(alloc, variant.cases.as_slice(), text, deep)
}

/// A case: `#` and its number, and in parentheses with its payload if it has one.
#[cycle(reading)]
fn read_cases<'a>(alloc: Global, cases: &[Case], text: &'a [u8], deep: u32) -> Read<'a>
    ensures { ReadAs (taken seen)
        (cases_at (all_bare (cases_plain cases.now)) (payload_at (cases_plain cases.now)) text.now) result }
{
    if are_bare(cases) {
        return read_enum(text);
    }
    match after(b'(', text) {
        Some(inside) => read_carrying(alloc, cases, inside, deep),
        None => read_bare(text),
    }
}

/// A case with its payload, behind the parenthesis.
#[cycle(reading)]
fn read_carrying<'a>(alloc: Global, cases: &[Case], text: &'a [u8], deep: u32) -> Read<'a>
    ensures { (s : List ℕ)
        → ReadAs (taken seen) (case_behind (Some text.now) (payload_at (cases_plain cases.now)) s) result }
{
    let Some((case, behind)) = read_index(text) else {
        return Err(ReadError::NoValue);
    };
    let Some(start) = after(b' ', behind) else {
        return Err(ReadError::NoValue);
    };
    let (payload, rest) = read_payload(alloc, cases, case, start, deep)?;
    let boxed = boxed(alloc, payload)?;
    let Some(rest) = after(b')', rest) else {
        drop(boxed);
        return Err(ReadError::NoValue);
    };
    Ok((Value::Case(case, Some(boxed)), rest))
}

/// The payload of the case of this number, if it has one.
#[cycle(reading)]
fn read_payload<'a>(alloc: Global, cases: &[Case], case: u32, text: &'a [u8], deep: u32) -> Read<'a>
    ensures { ReadAs (taken seen) (payload_at (cases_plain cases.now) case text.now) result }
{
    if case as usize >= cases.len() {
        return Err(ReadError::NoValue);
    }
    match &cases[case as usize].tref {
        Some(ty) => read_type(alloc, ty, text, deep),
        None => Err(ReadError::NoValue),
    }
}

#[tactic(auto, using(crate::proofs::ReadParts::scalar_rules))]
fn read_builtin<'a>(ty: BuiltinType, text: &'a [u8]) -> Read<'a>
    ensures { ReadAs (taken seen) (type_at (builtin ty) text.now) result }
{
    let (number, rest) = read_signed(text);
    Ok((Value::Num(ty, number), rest))
}

#[tactic(auto, using(crate::proofs::ReadParts::scalar_rules))]
fn read_handle<'a>(text: &'a [u8]) -> Read<'a>
    ensures { ReadAs (taken seen) (type_at handle text.now) result }
{
    let (number, rest) = read_word(text);
    Ok((Value::Handle(number), rest))
}

#[tactic(auto, using(crate::proofs::ReadParts::scalar_rules))]
fn read_pointer<'a>(target: &TypeRef, text: &'a [u8]) -> Read<'a>
    ensures { ReadAs (taken seen) (type_at (pointer_to (plain (tree_of target.now))) text.now) result }
{
    let (address, rest) = read_word(text);
    Ok((Value::Pointer(address), rest))
}

#[tactic(auto, using(crate::proofs::ReadParts::scalar_rules))]
fn read_const_pointer<'a>(target: &TypeRef, text: &'a [u8]) -> Read<'a>
    ensures { ReadAs (taken seen) (type_at (const_pointer_to (plain (tree_of target.now))) text.now) result }
{
    let (address, rest) = read_word(text);
    Ok((Value::ConstPointer(address), rest))
}

/// A list: `@`, its address, `+` and its length.
#[tactic(auto, using(crate::proofs::ReadParts::scalar_rules))]
fn read_list<'a>(target: &TypeRef, text: &'a [u8]) -> Read<'a>
    ensures { ReadAs (taken seen) (type_at (list_of (plain (tree_of target.now))) text.now) result }
{
    let Some(start) = after(b'@', text) else {
        return Err(ReadError::NoValue);
    };
    let (address, rest) = read_word(start);
    let Some(behind) = after(b'+', rest) else {
        return Err(ReadError::NoValue);
    };
    let (length, rest) = read_word(behind);
    Ok((Value::List { address, length }, rest))
}

/// A case of a variant without payloads.
#[tactic(auto, using(crate::proofs::ReadParts::scalar_rules))]
fn read_enum<'a>(text: &'a [u8]) -> Read<'a>
    ensures { (payload : Payloads) → ReadAs (taken seen) (cases_at true payload text.now) result }
{
    let Some((case, rest)) = read_index(text) else {
        return Err(ReadError::NoValue);
    };
    Ok((Value::Enum(case), rest))
}

/// A case without a payload, of a variant that has payloads.
#[tactic(auto, using(crate::proofs::ReadParts::scalar_rules))]
fn read_bare<'a>(text: &'a [u8]) -> Read<'a>
    ensures { (payload : Payloads) → ReadAs (taken seen) (case_behind None payload text.now) result }
{
    let Some((case, rest)) = read_index(text) else {
        return Err(ReadError::NoValue);
    };
    Ok((Value::Case(case, None), rest))
}
