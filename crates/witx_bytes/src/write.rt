//! A value's image, written into a memory of bytes.
#![tactic(auto, using(crate::proofs::Parts::scalar_rules))]

ghost use Rattle.std.specs.Prelude.{◌≡◌, ℕ, true, map, option_copied, option_map};
ghost use Rattle.witx_ast.specs.Plain.{plain, record_of};
ghost use Rattle.witx_ast.specs.Views.{tree_of, datatype_tree, record_tree, variant_tree, members_plain, cases_plain};
ghost use Rattle.witx_ast.specs.{ValueTests.{is_value as is_of}, Tags.{fits}};
ghost use Rattle.witx_ast.specs.declared.types.RecordKind.{RecordKind};
ghost use Rattle.witx_layout.specs.Numbers.{members_end, payloads_size, repr_size};
ghost use Rattle.witx_machine.specs.Cells.{values_of};
ghost use Rattle.witx_bytes.specs.{Bytes.{held, image_written}, Images.{image, members_image}};
ghost use Rattle.witx_bytes.specs.ByteMachine.{has_room};
ghost use Rattle.witx_bytes.specs.Laids.{IsLaid, KnownType, KnownDatatype, KnownRecord, KnownVariant, KnownMembers, KnownCases};
ghost use Rattle.witx_bytes.specs.{Payloads.{case_image}, Seen.{seen, seen_in}};
ghost use Rattle.witx_bytes.specs.Writes.{CanWriteValue, CanWriteAll, CanWritePayload, HasRange, HasRoom, HasNoParts, Writes, WritesDatatype, WritesValue};

use crate::laid::Laid;
use crate::memory::ByteMemory;
use crate::numbers::{flag_bits, number_bits, write_number};
use crate::places::{known_part, layout_of, payload_begin, rounded_up};
use crate::value::Value;
use std::boxed::Box;
use witx_ast::{
    Case, Datatype, IntRepr, RecordDatatype, RecordKind, RecordMember, TypeRef, Variant,
};
use witx_layout::Layout;

/// Sets exactly the bytes of the value's image; takes no memory.
pub fn write_value(memory: &mut ByteMemory, at: u32, ty: &TypeRef, value: &Value)
    requires value { is_of (plain (tree_of ty.now)) (seen value.now) ≡ true }
    requires writable { fits (plain (tree_of ty.now)) ≡ true }
    requires room { has_room (plain (tree_of ty.now)) at (held memory.old) ≡ true }
    ensures { (x : ℕ) → held memory.new x
        ≡ image_written at (image (plain (tree_of ty.now)) (seen value.now)) (held memory.old) x }
{
    write_type(memory, at as u64, ty, None, value);
}

/// The same, with the layout of the type.
pub fn write_laid(memory: &mut ByteMemory, at: u32, ty: &TypeRef, laid: &Laid, value: &Value)
    requires value { is_of (plain (tree_of ty.now)) (seen value.now) ≡ true }
    requires writable { fits (plain (tree_of ty.now)) ≡ true }
    requires room { has_room (plain (tree_of ty.now)) at (held memory.old) ≡ true }
    requires laid { IsLaid (plain (tree_of ty.now)) laid.now }
    ensures { (x : ℕ) → held memory.new x
        ≡ image_written at (image (plain (tree_of ty.now)) (seen value.now)) (held memory.old) x }
{
    write_type(memory, at as u64, ty, Some(laid), value);
}

#[cycle(writing)]
#[tactic(auto, using(crate::proofs::Members::write_rules))]
fn write_type(memory: &mut ByteMemory, at: u64, ty: &TypeRef, known: Option<&Laid>, value: &Value)
    requires value { CanWriteValue (plain (tree_of ty.now)) value.now }
    requires room { HasRoom at (plain (tree_of ty.now)) memory.old }
    requires known { KnownType ty.now (option_copied known) }
    ensures { WritesValue at (plain (tree_of ty.now)) value.now memory.old memory.new }
{
    write_datatype(memory, at, ty.type_(), known, value);
}

#[cycle(writing)]
#[tactic(auto, using(crate::proofs::Members::write_rules))]
fn write_datatype(
    memory: &mut ByteMemory,
    at: u64,
    datatype: &Datatype,
    known: Option<&Laid>,
    value: &Value,
)
    requires value { CanWriteValue (plain (datatype_tree datatype.now)) value.now }
    requires room { HasRoom at (plain (datatype_tree datatype.now)) memory.old }
    requires known { KnownDatatype datatype.now (option_copied known) }
    ensures { WritesDatatype at datatype.now value.now memory.old memory.new }
{
    match datatype {
        Datatype::Record(record) => write_record(memory, at, record, known, value),
        Datatype::Variant(variant) => write_variant(memory, at, variant, known, value),
        Datatype::Handle(_)
        | Datatype::List(_)
        | Datatype::Pointer(_)
        | Datatype::ConstPointer(_)
        | Datatype::Builtin(_) => write_scalar(memory, at, datatype, value),
    }
}

#[cycle(writing)]
#[tactic(auto, using(crate::proofs::Members::write_rules))]
fn write_record(
    memory: &mut ByteMemory,
    at: u64,
    record_type: &RecordDatatype,
    known: Option<&Laid>,
    value: &Value,
)
    requires value { CanWriteValue (plain (record_tree record_type.now)) value.now }
    requires room { HasRoom at (plain (record_tree record_type.now)) memory.old }
    requires known { KnownRecord record_type.now (option_copied known) }
    ensures { WritesValue at (plain (record_tree record_type.now)) value.now memory.old memory.new }
{
    let members = record_type.members.as_slice();
    if let RecordKind::Bitflags(repr) = record_type.kind {
        return write_flags(memory, at, repr, members, value);
    }
    match value {
        Value::Tuple(values) | Value::Rec(values) => {
            write_members(memory, at, members, known, values.as_slice())
        }
        _ => unreachable!(),
    }
}

/// Members, each at the next multiple of its alignment behind the one before it.
#[cycle(writing)]
fn write_members(
    memory: &mut ByteMemory,
    at: u64,
    members: &[RecordMember],
    known: Option<&Laid>,
    values: &[Value],
)
    requires values { CanWriteAll (members_plain members.now) (values_of (map seen values.now)) }
    requires room { HasRange at (members_end 0 (members_plain members.now)) (held memory.old) }
    requires known { KnownMembers members.now (option_copied known) }
    ensures { Writes at (members_image 0 (members_plain members.now) (values_of (map seen values.now)))
        (held memory.old) (held memory.new) }
{
    let mut end = 0;
    for i in 0..members.len() {
        let member = &members[i];
        let value = &values[i];
        let part = known_part(known, i);
        let layout = layout_of(part, &member.tref);
        let start = rounded_up(end, layout.align as u64);
        write_type(memory, at + start, &member.tref, part, value);
        end = start + layout.size as u64;
    }
}

// Apart, as what has no parts is below: so what recurses through records takes little of the stack.
#[inline(never)]
#[cycle(writing)]
#[tactic(auto, using(crate::proofs::Members::write_rules))]
fn write_variant(
    memory: &mut ByteMemory,
    at: u64,
    variant: &Variant,
    known: Option<&Laid>,
    value: &Value,
)
    requires value { CanWriteValue (plain (variant_tree variant.now)) value.now }
    requires room { HasRoom at (plain (variant_tree variant.now)) memory.old }
    requires known { KnownVariant variant.now (option_copied known) }
    ensures { WritesValue at (plain (variant_tree variant.now)) value.now memory.old memory.new }
{
    let width = variant.tag_repr.mem_align() as u64;
    match value {
        Value::Enum(i) => write_number(memory, at, width, *i as u64),
        Value::Case(i, payload) => {
            write_number(memory, at, width, *i as u64);
            let behind = at + payload_begin(known, variant);
            write_payload(memory, behind, variant.cases.as_slice(), known, *i, payload);
        }
        _ => unreachable!(),
    }
}

/// The payload of case i, if it has one.
#[cycle(writing)]
fn write_payload(
    memory: &mut ByteMemory,
    at: u64,
    cases: &[Case],
    known: Option<&Laid>,
    i: u32,
    payload: &Option<Box<Value>>,
)
    requires value { CanWritePayload (cases_plain cases.now) i (option_map seen_in payload.now) }
    requires room { HasRange at (payloads_size (cases_plain cases.now)) (held memory.old) }
    requires known { KnownCases cases.now (option_copied known) }
    ensures { Writes at (case_image (cases_plain cases.now) i (option_map seen_in payload.now))
        (held memory.old) (held memory.new) }
{
    if let Some(value) = payload {
        let part = known_part(known, i as usize);
        if let Some(tref) = &cases[i as usize].tref {
            write_type(memory, at, tref, part, value);
        }
    }
}

/// Flags, as one number.
#[inline(never)]
fn write_flags(
    memory: &mut ByteMemory,
    at: u64,
    repr: IntRepr,
    members: &[RecordMember],
    value: &Value,
)
    requires value { CanWriteValue (record_of (RecordKind.Bitflags repr) (members_plain members.now)) value.now }
    requires room { HasRange at (repr_size repr) (held memory.old) }
    ensures { WritesValue at (record_of (RecordKind.Bitflags repr) (members_plain members.now))
        value.now memory.old memory.new }
{
    match value {
        Value::Flags(flags) => write_number(
            memory,
            at,
            repr.mem_align() as u64,
            flag_bits(flags.as_slice()),
        ),
        _ => unreachable!(),
    }
}

/// What has no parts: a number, a handle, an address, or a list's address with its length behind it.
#[inline(never)]
fn write_scalar(memory: &mut ByteMemory, at: u64, datatype: &Datatype, value: &Value)
    requires value { CanWriteValue (plain (datatype_tree datatype.now)) value.now }
    requires scalar { HasNoParts (plain (datatype_tree datatype.now)) }
    requires room { HasRoom at (plain (datatype_tree datatype.now)) memory.old }
    ensures { WritesDatatype at datatype.now value.now memory.old memory.new }
{
    match value {
        Value::Num(ty, number) => write_number(
            memory,
            at,
            ty.mem_align() as u64,
            number_bits(*ty, *number),
        ),
        Value::Handle(number) | Value::Pointer(number) | Value::ConstPointer(number) => {
            write_number(memory, at, 4, *number as u64)
        }
        Value::List { address, length } => {
            write_number(memory, at, 4, *address as u64);
            write_number(memory, at + 4, 4, *length as u64);
        }
        _ => unreachable!(),
    }
}
