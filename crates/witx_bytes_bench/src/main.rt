//! Writes a record of eight fields into a memory of bytes and reads it back, a hundred thousand times;
//! the status is 0 where each time the same record comes back.
#![tactic(auto)]

ghost use Rattle.std.specs.Prelude.{◌≡◌, ◌<◌, true};
ghost use Rattle.witx_ast.specs.{Plain.{plain}, Tags.{fits}, ValueTests.{is_value as is_of}, Views.{tree_of}};
ghost use Rattle.witx_bytes.specs.Seen.{seen};
ghost use Rattle.witx_layout.specs.Numbers.{size_of};

use std::alloc::Global;
use std::process::ExitCode;
use std::rc::Rc;
use witx_ast::{BuiltinType, Datatype, Members, RecordDatatype, RecordKind, RecordMember, TypeRef};
use witx_base::{Id, OutOfMemory, Text};
use witx_bytes::{ByteMemory, Value, Values, is_value, read_value, writable, write_value};
use witx_layout::Layout;

/// How often the record is written and read.
const ROUNDS: u32 = 100_000;

/// Where it lies.
const AT: u32 = 16;

/// The names of its fields.
static NAMES: &[&str] = &["a", "b", "c", "d", "e", "f", "g", "h"];

fn main(rt: HostRuntime) -> ExitCode {
    match rounds(rt.alloc()) {
        Ok(true) => ExitCode::from(0),
        Ok(false) => ExitCode::from(1),
        Err(OutOfMemory) => ExitCode::from(5),
    }
}

/// Whether the record came back in each round.
fn rounds(alloc: Global) -> Result<bool, OutOfMemory> {
    let ty = record_type(alloc)?;
    let value = record_value(alloc)?;
    let mut memory = ByteMemory::new(alloc);
    if memory.place(AT, 256).is_err() {
        return Err(OutOfMemory);
    }
    Ok(come_back(alloc, &mut memory, &ty, &value))
}

fn come_back(alloc: Global, memory: &mut ByteMemory, ty: &TypeRef, value: &Value) -> bool {
    let Ok(size) = ty.mem_size() else {
        return false;
    };
    if !is_value(ty, value) || !writable(ty) {
        return false;
    }
    for _round in 0..ROUNDS {
        if !comes_back(alloc, memory, ty, size, value) {
            return false;
        }
    }
    true
}

/// Whether the value is read once it is written.
fn comes_back(
    alloc: Global,
    memory: &mut ByteMemory,
    ty: &TypeRef,
    size: usize,
    value: &Value,
) -> bool
    requires value { is_of (plain (tree_of ty.now)) (seen value.now) ≡ true }
    requires writable { fits (plain (tree_of ty.now)) ≡ true }
    requires size { size ≡ size_of (plain (tree_of ty.now)) }
{
    if !memory.holds(AT, size as u64) {
        return false;
    }
    write_value(memory, AT, ty, value);
    match read_value(alloc, memory, AT, ty) {
        Ok(read) => is_same(read, value),
        Err(_) => false,
    }
}

fn is_same(read: Value, value: &Value) -> bool {
    let same = read == *value;
    drop(read);
    same
}

fn record_type(alloc: Global) -> Result<TypeRef, OutOfMemory> {
    let mut members = Members::new(alloc);
    for name in NAMES {
        let field = field_type(members.len());
        members.push(member(alloc, name, field)?)?;
    }
    let record = Rc::new(
        alloc,
        Datatype::Record(RecordDatatype {
            kind: RecordKind::Other,
            members,
        }),
    )?;
    Ok(TypeRef::Value(record))
}

fn member(alloc: Global, name: &str, field: BuiltinType) -> Result<RecordMember, OutOfMemory> {
    let name = Id::new(alloc, name)?;
    let docs = Text::new(alloc, "")?;
    let field = Rc::new(alloc, Datatype::Builtin(field))?;
    Ok(RecordMember {
        name,
        tref: TypeRef::Value(field),
        docs,
    })
}

fn record_value(alloc: Global) -> Result<Value, OutOfMemory> {
    let mut values = Values::new(alloc);
    for i in 0..NAMES.len() {
        values.push(Value::Num(field_type(i), 100 + i as i128))?;
    }
    Ok(Value::Rec(values))
}

/// Each second field is padded.
fn field_type(i: usize) -> BuiltinType {
    match i % 4 {
        0 => BuiltinType::U8 { lang_c_char: false },
        1 => BuiltinType::U64,
        2 => BuiltinType::S16,
        _ => BuiltinType::U32 {
            lang_ptr_size: false,
        },
    }
}
