//! Values that are loaded from an address.
#![tactic(auto, using(crate::proofs::LoadLemmas::load_rules))]

ghost use Rattle.std.specs.Prelude.{◌≡◌, IfOk, option_map, true};
ghost use Rattle.witx_ast.specs.{Plain.{plain}, Views.{tree_of, named_tree}};
ghost use Rattle.witx_bytes.specs.{Bytes.{held}, Reading.{value_at}, Seen.{seen}};
ghost use Rattle.witx_invoke.specs.Placing.{is_readable as can_be_read, placing};
ghost use Rattle.witx_call.specs.{PlacementViews.{room_of}, WordViews.{word_view}};

use crate::word_parts::i32_number;
use std::alloc::Global;
use witx_ast::{NamedType, TypeRef};
use witx_base::OutOfMemory;
use witx_bytes::{ByteMemory, ReadError, Value, read_value, writable};
use witx_call::{Placement, Word};
use witx_layout::Layout;

/// The value that stands at an address, of a type that fits its tags and whose size is a machine's number.
pub(crate) fn load(
    placement: &Placement,
    alloc: Global,
    ty: &NamedType,
    word: Word,
) -> Result<Option<Value>, OutOfMemory>
    ensures { IfOk result (λ value. option_map seen value
        ≡ placing.get (named_tree ty.now) (word_view word) (room_of placement.now)) }
{
    let Some(at) = i32_number(word) else {
        return Ok(None);
    };
    if !is_readable(&ty.tref) {
        return Ok(None);
    }
    value_there(alloc, &placement.bytes, at, &ty.tref)
}

/// Whether the type fits its tags and its size is a machine's number.
fn is_readable(ty: &TypeRef) -> bool
    ensures { result ≡ can_be_read (plain (tree_of ty.now)) }
{
    match ty.mem_size() {
        Ok(_size) => writable(ty),
        Err(_) => false,
    }
}

/// The value that the bytes there spell.
fn value_there(
    alloc: Global,
    memory: &ByteMemory,
    at: u32,
    ty: &TypeRef,
) -> Result<Option<Value>, OutOfMemory>
    requires { can_be_read (plain (tree_of ty.now)) ≡ true }
    ensures { IfOk result (λ value. option_map seen value ≡ value_at (plain (tree_of ty.now)) (held memory.now) at) }
{
    match read_value(alloc, memory, at, ty) {
        Ok(value) => Ok(Some(value)),
        Err(ReadError::NoValue) => Ok(None),
        Err(ReadError::OutOfMemory) => Err(OutOfMemory),
    }
}
