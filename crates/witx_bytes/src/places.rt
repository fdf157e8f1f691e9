//! Where a value's parts stand in its layout.
#![tactic(auto, using(crate::proofs::KnownParts::known_rules))]

ghost use Rattle.std.specs.Prelude.{◌≡◌, ◌^◌, ◌<◌, ◌≤◌, option_copied};
ghost use Rattle.witx_ast.specs.{Plain.{plain}, Views.{tree_of, cases_plain}};
ghost use Rattle.witx_ast.specs.declared.types.Variant.{out-Variant};
ghost use Rattle.witx_layout.specs.Numbers.{size_of, align_of, align_to as rounded, payload_offset as begin_of_payload};
ghost use Rattle.witx_bytes.specs.Laids.{KnownType, KnownVariant, part_known};

use crate::laid::Laid;
use witx_ast::{TypeRef, Variant};
use witx_layout::{Layout, SizeAlign, TooLarge, VariantOffset};

/// The offset, rounded up to a multiple of the alignment.
pub(crate) fn rounded_up(offset: u64, alignment: u64) -> u64
    requires some { 0 < alignment }
    requires few { alignment ≤ 8 }
    requires small { rounded offset alignment < 2 ^ 64 }
    ensures { result ≡ rounded offset alignment }
{
    offset + (alignment - offset % alignment) % alignment
}

/// The layout of a type that isn't too large, as it is known or else asked.
pub(crate) fn layout_of(known: Option<&Laid>, ty: &TypeRef) -> SizeAlign
    requires size { size_of (plain (tree_of ty.now)) < 2 ^ 64 }
    requires known { KnownType ty.now (option_copied known) }
    ensures size { result.size ≡ size_of (plain (tree_of ty.now)) }
    ensures align { result.align ≡ align_of (plain (tree_of ty.now)) }
{
    match known {
        Some(laid) => laid.layout,
        None => asked_layout(ty),
    }
}

fn asked_layout(ty: &TypeRef) -> SizeAlign
    requires { size_of (plain (tree_of ty.now)) < 2 ^ 64 }
    ensures size { result.size ≡ size_of (plain (tree_of ty.now)) }
    ensures align { result.align ≡ align_of (plain (tree_of ty.now)) }
{
    match ty.mem_size_align() {
        Ok(layout) => layout,
        Err(TooLarge) => unreachable!(),
    }
}

/// What is known of a part, if the whole is known: of a member, or of the payload of a case.
pub(crate) fn known_part<'a>(known: Option<&'a Laid>, i: usize) -> Option<&'a Laid>
    ensures { option_copied result ≡ part_known (option_copied known.entry) i }
{
    known?.parts.get(i)
}

/// Where the payload of a variant begins, behind its tag: at the variant's own alignment, where that is known.
pub(crate) fn payload_begin(known: Option<&Laid>, variant: &Variant) -> u64
    requires { KnownVariant variant.now (option_copied known) }
    ensures { result ≡ begin_of_payload (out-Variant variant.now).tag_repr (cases_plain (out-Variant variant.now).cases) }
{
    match known {
        Some(laid) => laid.layout.align as u64,
        None => variant.payload_offset() as u64,
    }
}
