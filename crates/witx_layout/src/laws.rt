//! Laws of sizes, alignments and offsets, as functions without work.
#![tactic(auto, using(crate::proofs::LawProofs::law_rules))]

ghost use Rattle.std.specs.Prelude.{◌≡◌, ◌≤◌, ◌<◌, ◌%◌};
ghost use Rattle.witx_layout.specs.Numbers.{align_to, size_of, align_of, repr_size, offsets, part_offsets, payload_offset};
ghost use Rattle.witx_layout.specs.Laws.{IsPowerOfTwo, IsRoundedUp, IsUnflagged, LieApart, AreMultiples, LieInside, members_of};
ghost use Rattle.witx_ast.specs.{Plain.{plain}, Views.{record_tree, variant_tree, cases_plain}};
ghost use Rattle.witx_ast.specs.declared.types.RecordDatatype.{out-RecordDatatype};
ghost use Rattle.witx_ast.specs.declared.types.Variant.{out-Variant};

use crate::layout::Layout;
use witx_ast::{RecordDatatype, Variant};

/// An offset is rounded up to the least multiple of an alignment that isn't below it.
pub fn rounding_is_least(offset: usize, alignment: usize)
    requires { 0 < alignment }
    ensures { IsRoundedUp offset alignment (align_to offset alignment) }
{}

/// An alignment is at least 1, at most 8, and a power of two.
pub fn alignment_is_power_of_two<L: Layout>(part: &L)
    ensures at_least_one { 1 ≤ align_of (L.plain_tree part.now) }
    ensures at_most_eight { align_of (L.plain_tree part.now) ≤ 8 }
    ensures power { IsPowerOfTwo (align_of (L.plain_tree part.now)) }
{}

/// A size is a multiple of its alignment.
pub fn size_is_multiple<L: Layout>(part: &L)
    ensures { size_of (L.plain_tree part.now) % align_of (L.plain_tree part.now) ≡ 0 }
{}

/// The members of a record that isn't flags follow each other without overlap, each at a multiple of
/// its alignment, and the last ends within the record.
pub fn members_lie_apart(record_type: &RecordDatatype)
    requires { IsUnflagged (out-RecordDatatype record_type.now).kind }
    ensures { let members = members_of record_type.now in
        LieApart (size_of (plain (record_tree record_type.now))) 0 (offsets 0 members) members }
{}

/// Each offset of a member is a multiple of the member's alignment, also for flags, which are placed as
/// if they were a plain record.
pub fn offsets_are_multiples(record_type: &RecordDatatype)
    ensures { let members = members_of record_type.now in
        AreMultiples (offsets 0 members) members }
{}

/// The payload of each case lies behind the tag, at a multiple of its alignment, and ends within the
/// variant.
pub fn payloads_lie_inside(variant: &Variant)
    ensures behind_tag { let tag = (out-Variant variant.now).tag_repr in
        repr_size tag ≤ payload_offset tag (cases_plain (out-Variant variant.now).cases) }
    ensures inside { let cases = cases_plain (out-Variant variant.now).cases in
        LieInside (size_of (plain (variant_tree variant.now))) (payload_offset (out-Variant variant.now).tag_repr cases) cases }
{}

/// Alike types, whose plain trees are equal, have equal sizes, alignments and offsets.
pub fn alike_layouts<A: Layout, B: Layout>(a: &A, b: &B)
    requires { A.plain_tree a.now ≡ B.plain_tree b.now }
    ensures size { size_of (A.plain_tree a.now) ≡ size_of (B.plain_tree b.now) }
    ensures align { align_of (A.plain_tree a.now) ≡ align_of (B.plain_tree b.now) }
    ensures offsets { part_offsets (A.plain_tree a.now) ≡ part_offsets (B.plain_tree b.now) }
{}
