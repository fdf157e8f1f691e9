//! The layout of a type with those of all its parts, asked once, so that no layout is asked once a level.
#![tactic(auto, using(crate::proofs::Laying::lay_rules))]

ghost use Rattle.std.specs.Prelude.{◌≡◌, ◌+◌, ◌^◌, ◌<◌, ◌≤◌, [], true, max, IfOk, MatchResult, Ok, Err};
ghost use Rattle.witx_ast.specs.Plain.{Plain, plain};
ghost use Rattle.witx_ast.specs.Views.{tree_of, datatype_tree, record_tree, variant_tree, members_plain, cases_plain};
ghost use Rattle.witx_ast.specs.declared.types.RecordKind.{RecordKind};
ghost use Rattle.witx_layout.specs.Numbers.{size_of, repr_size, align_to as rounded};
ghost use Rattle.witx_layout.specs.declared.members.LayoutError.{LayoutError};
ghost use Rattle.witx_bytes.specs.Laids.{Numbers, IsLaid, Lays, LaysMembers, LaysCase, LaysCases, MemberAdded, CaseAdded};
ghost use Rattle.witx_bytes.specs.declared.laid.Laid.{out-Laid};

use crate::fitting::{bits, count_fits};
use std::alloc::Global;
use witx_ast::{
    BuiltinType, Case, Datatype, IntRepr, RecordDatatype, RecordKind, RecordMember, TypeRef,
    Variant,
};
use witx_base::{Items, OutOfMemory};
use witx_layout::{Layout, LayoutError, SizeAlign, TooLarge, behind, greater, padded};

/// How many types may lie one in the other where their values are read or written: what goes through the values recurses
/// once for each type, and takes up to 580 bytes of the stack, where they are read from bytes.
pub const DEEPEST: u32 = 13_333;

/// How many types a layout may have in all, each counted as often as it is reached.
pub const MOST_TYPES: u32 = 1 << 20;

/// The layout of a type, whether all of it fits its tags, and the same of its parts.
#[cycle(laid)]
#[derive(Drop)]
pub struct Laid {
    /// The size and the alignment.
    pub layout: SizeAlign,
    /// Whether each type that is reached fits its tag.
    pub fits: bool,
    /// One for each member of a record that isn't flags, and one for each case of a variant.
    pub parts: Items<Laid>,
}

/// The layout of a type, with those of its parts; the names are looked through.
///
/// Too large only where the size is from 2^64 on. Want of memory also beyond `DEEPEST` levels, and beyond `MOST_TYPES` types.
pub fn lay_out(alloc: Global, ty: &TypeRef) -> Result<Laid, LayoutError>
    ensures laid { IfOk result (λ l. IsLaid (plain (tree_of ty.now)) l) }
    ensures too_large { result ≡ Err LayoutError.TooLarge → 2 ^ 64 ≤ size_of (plain (tree_of ty.now)) }
{
    let mut types = MOST_TYPES;
    lay(alloc, ty, DEEPEST, &mut types)
}

#[cycle(laying)]
fn lay(alloc: Global, ty: &TypeRef, left: u32, types: &mut u32) -> Result<Laid, LayoutError>
    ensures { Lays (plain (tree_of ty.now)) result }
{
    if left == 0 || *types == 0 {
        return Err(LayoutError::OutOfMemory);
    }
    *types -= 1;
    lay_datatype(alloc, ty.type_(), left - 1, types)
}

#[cycle(laying)]
fn lay_datatype(
    alloc: Global,
    datatype: &Datatype,
    left: u32,
    types: &mut u32,
) -> Result<Laid, LayoutError>
    ensures { Lays (plain (datatype_tree datatype.now)) result }
{
    match datatype {
        Datatype::Record(record) => lay_record(alloc, record, left, types),
        Datatype::Variant(variant) => lay_variant(alloc, variant, left, types),
        Datatype::Handle(_) => Ok(leaf(alloc, 4, 4)),
        Datatype::List(_) => Ok(leaf(alloc, 8, 4)),
        Datatype::Pointer(_) => Ok(leaf(alloc, 4, 4)),
        Datatype::ConstPointer(_) => Ok(leaf(alloc, 4, 4)),
        Datatype::Builtin(builtin) => Ok(lay_builtin(alloc, *builtin)),
    }
}

fn lay_builtin(alloc: Global, builtin: BuiltinType) -> Laid
    ensures { IsLaid (Plain.builtin builtin) result }
{
    let width = builtin.mem_align();
    leaf(alloc, width, width)
}

#[cycle(laying)]
fn lay_record(
    alloc: Global,
    record_type: &RecordDatatype,
    left: u32,
    types: &mut u32,
) -> Result<Laid, LayoutError>
    ensures { Lays (plain (record_tree record_type.now)) result }
{
    let members = record_type.members.as_slice();
    let laid = lay_members(alloc, members, left, types);
    match record_type.kind {
        RecordKind::Bitflags(repr) => lay_flags(alloc, repr, members, laid),
        RecordKind::Tuple => lay_whole(members, laid?),
        RecordKind::Other => lay_whole(members, laid?),
    }
}

/// Flags, whose members are laid out to see whether they fit.
fn lay_flags(
    alloc: Global,
    repr: IntRepr,
    members: &[RecordMember],
    laid: Result<Laid, LayoutError>,
) -> Result<Laid, LayoutError>
    requires { LaysMembers (members_plain members.now) laid }
    ensures { Lays (Plain.record_of (RecordKind.Bitflags repr) (members_plain members.now)) result }
{
    let Ok(laid) = laid else {
        return Err(LayoutError::OutOfMemory);
    };
    let fits = laid.fits;
    drop(laid);
    let width = repr.mem_align();
    Ok(Laid {
        layout: square(width),
        fits: members.len() <= bits(repr) && fits,
        parts: Items::new(alloc),
    })
}

/// A tuple or another record, whose size is a multiple of its alignment.
fn lay_whole(members: &[RecordMember], laid: Laid) -> Result<Laid, LayoutError>
    requires { LaysMembers (members_plain members.now) (Ok laid) }
    ensures tuple { Lays (Plain.record_of RecordKind.Tuple (members_plain members.now)) result }
    ensures other { Lays (Plain.record_of RecordKind.Other (members_plain members.now)) result }
{
    let Laid {
        layout,
        fits,
        parts,
    } = laid;
    match padded(layout) {
        Ok(layout) => Ok(Laid {
            layout,
            fits,
            parts,
        }),
        Err(_) => {
            drop(parts);
            Err(LayoutError::TooLarge)
        }
    }
}

/// The members, one after the other from 0 on.
#[cycle(laying)]
fn lay_members(
    alloc: Global,
    members: &[RecordMember],
    left: u32,
    types: &mut u32,
) -> Result<Laid, LayoutError>
    ensures { LaysMembers (members_plain members.now) result }
{
    let mut whole = leaf(alloc, 0, 1);
    for i in 0..members.len() {
        let member = &members[i];
        let part = lay(alloc, &member.tref, left, types)?;
        whole = with_member(whole, part)?;
    }
    Ok(whole)
}

/// Members with one more behind them.
fn with_member(whole: Laid, part: Laid) -> Result<Laid, LayoutError>
    requires { 0 < (out-Laid part).layout.align }
    ensures { MemberAdded whole part result }
{
    let Laid {
        layout,
        fits,
        mut parts,
    } = whole;
    let Ok(placed) = behind(layout, part.layout) else {
        drop(parts);
        drop(part);
        return Err(LayoutError::TooLarge);
    };
    let fits = fits && part.fits;
    parts.push(part)?;
    Ok(Laid {
        layout: placed.reached,
        fits,
        parts,
    })
}

#[cycle(laying)]
fn lay_variant(
    alloc: Global,
    variant: &Variant,
    left: u32,
    types: &mut u32,
) -> Result<Laid, LayoutError>
    ensures { Lays (plain (variant_tree variant.now)) result }
{
    let cases = variant.cases.as_slice();
    let laid = lay_cases(alloc, cases, left, types)?;
    with_tag(variant.tag_repr, cases, laid)
}

/// Payloads behind their tag.
fn with_tag(repr: IntRepr, cases: &[Case], laid: Laid) -> Result<Laid, LayoutError>
    requires { LaysCases (cases_plain cases.now) (Ok laid) }
    ensures { Lays (Plain.variant_of repr (cases_plain cases.now)) result }
{
    let Laid {
        layout,
        fits,
        parts,
    } = laid;
    match tagged(repr, layout) {
        Ok(layout) => Ok(Laid {
            layout,
            fits: count_fits(cases.len(), repr) && fits,
            parts,
        }),
        Err(_) => {
            drop(parts);
            Err(LayoutError::TooLarge)
        }
    }
}

/// A tag, and behind it the payload of the greatest size and alignment.
fn tagged(repr: IntRepr, payload: SizeAlign) -> Result<SizeAlign, TooLarge>
    requires { 0 < payload.align }
    ensures { MatchResult result
        (λ v. (v.size ≡ rounded (rounded (repr_size repr) payload.align + payload.size) (max (repr_size repr) payload.align))
        × (v.align ≡ max (repr_size repr) payload.align))
        (λ _. 2 ^ 64 ≤ rounded (rounded (repr_size repr) payload.align + payload.size) (max (repr_size repr) payload.align)) }
{
    let tag = square(repr.mem_align());
    padded(behind(tag, payload)?.reached)
}

/// The payloads, one entry for each case; in all the greatest size and alignment.
#[cycle(laying)]
fn lay_cases(alloc: Global, cases: &[Case], left: u32, types: &mut u32) -> Result<Laid, LayoutError>
    ensures { LaysCases (cases_plain cases.now) result }
{
    let mut whole = leaf(alloc, 0, 1);
    for i in 0..cases.len() {
        let part = lay_case(alloc, &cases[i], left, types)?;
        whole = with_case(whole, part)?;
    }
    Ok(whole)
}

#[cycle(laying)]
fn lay_case(alloc: Global, case: &Case, left: u32, types: &mut u32) -> Result<Laid, LayoutError>
    ensures { LaysCase case.now.tref result }
{
    match &case.tref {
        Some(tref) => lay(alloc, tref, left, types),
        None => Ok(leaf(alloc, 0, 1)),
    }
}

/// Payloads with one more beside them.
fn with_case(whole: Laid, part: Laid) -> Result<Laid, OutOfMemory>
    ensures { IfOk result (CaseAdded whole part) }
{
    let Laid {
        layout,
        fits,
        mut parts,
    } = whole;
    let fits = fits && part.fits;
    let layout = SizeAlign {
        size: greater(layout.size, part.layout.size),
        align: greater(layout.align, part.layout.align),
    };
    parts.push(part)?;
    Ok(Laid {
        layout,
        fits,
        parts,
    })
}

/// What has no parts, and fits.
fn leaf(alloc: Global, size: usize, align: usize) -> Laid
    ensures numbers { Numbers result size align true }
    ensures parts { (out-Laid result).parts ≡ [] }
{
    Laid {
        layout: SizeAlign { size, align },
        fits: true,
        parts: Items::new(alloc),
    }
}

/// What is as wide as it is aligned.
fn square(width: usize) -> SizeAlign
    ensures size { result.size ≡ width }
    ensures align { result.align ≡ width }
{
    SizeAlign {
        size: width,
        align: width,
    }
}
