//! Assertions on the layout of a typename.
#![tactic(auto, using(crate::proofs::Numbered::number_rules))]

ghost use Rattle.std.specs.Prelude.{◌≡◌, ◌≤◌, ◌<◌, ◌^◌, ◌++◌, All, Any, OnOk, codes, string_bytes};
ghost use Rattle.std.specs.Fmt.{decimal};
ghost use Rattle.witx_ast.specs.Plain.{plain_fields};
ghost use Rattle.witx_ast.specs.Views.{datatype_tree, record_tree, tree_of, variant_tree};
ghost use Rattle.witx_layout.specs.Numbers.{offsets};
ghost use Rattle.witx_header.specs.{CNames.{member_name}, CTypes.{typedef_name}};
ghost use Rattle.witx_header.specs.Typedefs.{align_line, c_layout_lines, offset_line, offset_numbers, c_part_offsets, placed_lines, record_fields, record_offsets, size_line, typename_numbers};

use crate::names::{put_member_name, put_typedef_name};
use std::alloc::{AllocError, Global};
use std::fmt::Write;
use witx_ast::{Datatype, RecordDatatype, RecordKind, TypeRef, Variant};
use witx_base::OutOfMemory;
use witx_layout::{Layout, LayoutError, RecordMemberLayout, RecordMembers, VariantOffset};

/// Appends assertions on the size and the alignment of a typename and on where its parts begin. Too large exactly where
/// one of these numbers is.
pub fn put_layout(text: &mut String, name: &str, tref: &TypeRef) -> Result<(), LayoutError>
    ensures lines { OnOk result (string_bytes text.new
        ≡ string_bytes text.old ++ c_layout_lines name.now (tree_of tref.now)) }
    ensures fits { OnOk result (All (λ n. n < 2 ^ 64) (typename_numbers (tree_of tref.now))) }
    ensures too_large { result ≡ Err LayoutError.TooLarge → Any (λ n. 2 ^ 64 ≤ n) (typename_numbers (tree_of tref.now)) }
{
    let layout = tref.mem_size_align()?;
    put_size(text, name, layout.size)?;
    put_align(text, name, layout.align)?;
    put_offsets(text, name, tref)?;
    Ok(())
}

fn put_size(text: &mut String, name: &str, size: usize) -> Result<(), OutOfMemory>
    ensures { OnOk result (string_bytes text.new ≡ string_bytes text.old ++ size_line name.now size) }
{
    text.push_str("_Static_assert(sizeof(")?;
    put_typedef_name(text, name)?;
    write!(text, ") == {size}, \"size\");\n")?;
    Ok(())
}

fn put_align(text: &mut String, name: &str, align: usize) -> Result<(), OutOfMemory>
    ensures { OnOk result (string_bytes text.new ≡ string_bytes text.old ++ align_line name.now align) }
{
    text.push_str("_Static_assert(_Alignof(")?;
    put_typedef_name(text, name)?;
    write!(text, ") == {align}, \"alignment\");\n")?;
    Ok(())
}

/// Appends an assertion for each member of a record, and for the payload of a variant.
fn put_offsets(text: &mut String, name: &str, tref: &TypeRef) -> Result<(), LayoutError>
    ensures lines { OnOk result (string_bytes text.new
        ≡ string_bytes text.old ++ c_part_offsets name.now (tree_of tref.now)) }
    ensures fits { OnOk result (All (λ n. n < 2 ^ 64) (offset_numbers (tree_of tref.now))) }
    ensures too_large { result ≡ Err LayoutError.TooLarge → Any (λ n. 2 ^ 64 ≤ n) (offset_numbers (tree_of tref.now)) }
{
    match tref {
        TypeRef::Name(_) => Ok(()),
        TypeRef::Value(datatype) => put_offsets_of(text, name, datatype),
    }
}

fn put_offsets_of(text: &mut String, name: &str, datatype: &Datatype) -> Result<(), LayoutError>
    ensures lines { OnOk result (string_bytes text.new
        ≡ string_bytes text.old ++ c_part_offsets name.now (datatype_tree datatype.now)) }
    ensures fits { OnOk result (All (λ n. n < 2 ^ 64) (offset_numbers (datatype_tree datatype.now))) }
    ensures too_large { result ≡ Err LayoutError.TooLarge
        → Any (λ n. 2 ^ 64 ≤ n) (offset_numbers (datatype_tree datatype.now)) }
{
    match datatype {
        Datatype::Record(record) => put_record_offsets(text, name, record),
        Datatype::Variant(variant) => Ok(put_variant_offset(text, name, variant)?),
        _ => Ok(()),
    }
}

fn put_record_offsets(
    text: &mut String,
    name: &str,
    record_type: &RecordDatatype,
) -> Result<(), LayoutError>
    ensures lines { OnOk result (string_bytes text.new
        ≡ string_bytes text.old ++ c_part_offsets name.now (record_tree record_type.now)) }
    ensures fits { OnOk result (All (λ n. n < 2 ^ 64) (offset_numbers (record_tree record_type.now))) }
    ensures too_large { result ≡ Err LayoutError.TooLarge
        → Any (λ n. 2 ^ 64 ≤ n) (offset_numbers (record_tree record_type.now)) }
{
    match record_type.kind {
        RecordKind::Bitflags(_) => Ok(()),
        RecordKind::Tuple | RecordKind::Other => put_members(text, name, record_type),
    }
}

fn put_members(
    text: &mut String,
    name: &str,
    record_type: &RecordDatatype,
) -> Result<(), LayoutError>
    ensures lines { OnOk result (string_bytes text.new
        ≡ string_bytes text.old ++ record_offsets name.now (record_fields record_type.now)) }
    ensures fits { OnOk result (All (λ n. n < 2 ^ 64) (offsets 0 (plain_fields (record_fields record_type.now)))) }
    ensures too_large { result ≡ Err LayoutError.TooLarge
        → Any (λ n. 2 ^ 64 ≤ n) (offsets 0 (plain_fields (record_fields record_type.now))) }
{
    let alloc = *text.allocator();
    let layouts = record_type.member_layout(alloc)?;
    Ok(put_each_offset(text, name, layouts.as_slice())?)
}

fn put_each_offset(
    text: &mut String,
    name: &str,
    layouts: &[RecordMemberLayout],
) -> Result<(), OutOfMemory>
    ensures { OnOk result (string_bytes text.new ≡ string_bytes text.old ++ placed_lines name.now layouts.now) }
{
    for layout in layouts {
        put_member_offset(text, name, layout.member.name.as_str(), layout.offset)?;
    }
    Ok(())
}

fn put_member_offset(
    text: &mut String,
    name: &str,
    member: &str,
    offset: usize,
) -> Result<(), OutOfMemory>
    ensures { OnOk result (string_bytes text.new
        ≡ string_bytes text.old ++ offset_line name.now (member_name member.now) offset) }
{
    put_offset_begin(text, name)?;
    put_member_name(text, member)?;
    put_offset_end(text, offset)
}

fn put_variant_offset(text: &mut String, name: &str, variant: &Variant) -> Result<(), OutOfMemory>
    ensures { OnOk result (string_bytes text.new
        ≡ string_bytes text.old ++ c_part_offsets name.now (variant_tree variant.now)) }
{
    if variant.is_enum() {
        return Ok(());
    }
    put_union_offset(text, name, variant.payload_offset())?;
    Ok(())
}

fn put_union_offset(text: &mut String, name: &str, offset: usize) -> Result<(), OutOfMemory>
    ensures { OnOk result (string_bytes text.new ≡ string_bytes text.old ++ offset_line name.now (codes "u") offset) }
{
    put_offset_begin(text, name)?;
    text.push_str("u")?;
    put_offset_end(text, offset)?;
    Ok(())
}

fn put_offset_begin(text: &mut String, name: &str) -> Result<(), AllocError>
    ensures { OnOk result (string_bytes text.new ≡ string_bytes text.old
        ++ (codes "_Static_assert(offsetof(" ++ typedef_name name.now ++ codes ", ")) }
{
    text.push_str("_Static_assert(offsetof(")?;
    put_typedef_name(text, name)?;
    text.push_str(", ")
}

fn put_offset_end(text: &mut String, offset: usize) -> Result<(), OutOfMemory>
    ensures { OnOk result (string_bytes text.new
        ≡ string_bytes text.old ++ (codes ") == " ++ decimal offset ++ codes ", \"offset\");\n")) }
{
    write!(text, ") == {offset}, \"offset\");\n")?;
    Ok(())
}
