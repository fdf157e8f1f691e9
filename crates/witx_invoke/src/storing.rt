//! Values that are stored at an address.

ghost use Rattle.std.specs.Prelude.{◌≡◌, IfOk, Some, option_map};
ghost use Rattle.witx_ast.specs.{Plain.{plain}, Views.{tree_of, named_tree}};
ghost use Rattle.witx_machine.specs.Words.{i32 as word_i32, when};
ghost use Rattle.witx_bytes.specs.{ByteMachine.{has_room as is_room}, Bytes.{held}, Laids.{IsLaid}};
ghost use Rattle.witx_bytes.specs.Seen.{seen};
ghost use Rattle.witx_invoke.specs.Placing.{is_writable as fits_there, placing};
ghost use Rattle.witx_call.specs.{PlacementViews.{room_of}, WordViews.{word_view}};

use crate::kinds::is_by_address;
use crate::word_parts::i32_number;
use std::alloc::Global;
use std::rc::Rc;
use witx_ast::{NamedType, TypeRef};
use witx_base::OutOfMemory;
use witx_bytes::{ByteMemory, Laid, Value, is_value, lay_out, writable, write_laid};
use witx_call::{Placement, Word};
use witx_layout::Layout;

/// Puts a value of a type at an address where there is room for it, and answers whether it did.
#[tactic(auto, using(crate::proofs::StoreLemmas::storing_rules))]
pub(crate) fn store(
    placement: &mut Placement,
    alloc: Global,
    ty: &NamedType,
    word: Word,
    value: &Value,
) -> Result<bool, OutOfMemory>
    ensures { IfOk result (λ stored. when stored (Some (room_of placement.new))
        ≡ placing.set (named_tree ty.now) (word_view word) (seen value.now) (room_of placement.old)) }
{
    let Some(at) = i32_number(word) else {
        return Ok(false);
    };
    if !has_room(&placement.bytes, at, &ty.tref) {
        return Ok(false);
    }
    if !is_writable(&ty.tref, value) {
        return Ok(false);
    }
    let laid = layout_of(alloc, &ty.tref)?;
    write_laid(&mut placement.bytes, at, &ty.tref, &laid, value);
    drop(laid);
    Ok(true)
}

/// The layout of a type that has room, which isn't too large then, with those of its parts.
fn layout_of(alloc: Global, ty: &TypeRef) -> Result<Laid, OutOfMemory>
    ensures { IfOk result (λ laid. IsLaid (plain (tree_of ty.now)) laid) }
{
    match lay_out(alloc, ty) {
        Ok(laid) => Ok(laid),
        Err(_) => Err(OutOfMemory),
    }
}

/// Whether it is a value of the type, which fits its tags.
fn is_writable(ty: &TypeRef, value: &Value) -> bool
    ensures { result ≡ fits_there (plain (tree_of ty.now)) (seen value.now) }
{
    is_value(ty, value) && writable(ty)
}

/// Whether a range of the type's size is held there, or none is needed.
#[tactic(auto, using(crate::proofs::StoreLemmas::store_rules))]
fn has_room(memory: &ByteMemory, at: u32, ty: &TypeRef) -> bool
    ensures { result ≡ is_room (plain (tree_of ty.now)) at (held memory.now) }
{
    match ty.mem_size() {
        Ok(size) => size == 0 || memory.holds(at, size as u64),
        Err(_) => false,
    }
}

/// Puts a value at the next range, given for its type; none where the type isn't passed by address, where
/// it isn't a value of the type, and where there is no room.
pub(crate) fn put(
    placement: &mut Placement,
    alloc: Global,
    ty: &Rc<NamedType>,
    value: &Value,
) -> Result<Option<u32>, OutOfMemory>
    ensures { IfOk result (λ at. option_map (λ a. (word_i32 a, room_of placement.new)) at
        ≡ placing.put (named_tree ty.now.value) (seen value.now) (room_of placement.old)) }
{
    if !is_by_address(&ty.tref) {
        return Ok(None);
    }
    if !is_writable(&ty.tref, value) {
        return Ok(None);
    }
    match placement.give(ty)? {
        Some(at) => {
            let tref = &ty.tref;
            let laid = layout_of(alloc, tref)?;
            write_laid(&mut placement.bytes, at, tref, &laid, value);
            drop(laid);
            Ok(Some(at))
        }
        None => Ok(None),
    }
}
