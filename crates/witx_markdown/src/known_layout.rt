//! The layouts of types, the names in which are known.
#![tactic(auto, using(crate::proofs::NameSteps::layout_steps))]

ghost use Rattle.std.specs.Prelude.{◌≡◌, ◌≤◌, ◌<◌, ◌^◌, IfOk, OnOk, map};
ghost use Rattle.witx_ast.specs.Tree.{fields_of, arms_of};
ghost use Rattle.witx_ast.specs.Views.{tree_of, datatype_tree, named_tree, record_tree, variant_tree, member_field, case_arm, members_plain, cases_plain};
ghost use Rattle.witx_layout.specs.Layouts.{Measures, MeasuresType};
ghost use Rattle.witx_layout.specs.Numbers.{align_to, members_end, members_align, payloads_size, payloads_align, offsets};
ghost use Rattle.witx_layout.specs.Laws.{ArePlaced};
ghost use Rattle.witx_markdown.specs.NamesKnown.{NamesKnown, FieldNamesKnown, ArmNamesKnown};

use crate::named_layouts::NamedLayouts;
use std::alloc::Global;
use witx_ast::{
    Case, Datatype, NamedType, RecordDatatype, RecordKind, RecordMember, TypeRef, Variant,
};
use witx_layout::{
    Layout, LayoutError, MemberLayouts, RecordMemberLayout, SizeAlign, TooLarge, behind, greater,
    known_layout, padded,
};

/// The layout of a type.
#[cycle(layouts)]
pub fn type_layout(names: NamedLayouts, tref: &TypeRef) -> Result<SizeAlign, TooLarge>
    requires { NamesKnown names (tree_of tref.now) }
    ensures { MeasuresType (tree_of tref.now) result }
{
    match tref {
        TypeRef::Name(named) => named_layout(names, named),
        TypeRef::Value(datatype) => datatype_layout(names, datatype),
    }
}

/// The layout of a name.
fn named_layout(names: NamedLayouts, named: &NamedType) -> Result<SizeAlign, TooLarge>
    requires { NamesKnown names (named_tree named.now) }
    ensures { MeasuresType (named_tree named.now) result }
{
    match names {
        NamedLayouts::Kept(table) => Ok(known_layout(table, named)),
        NamedLayouts::LookedThrough => named.mem_size_align(),
    }
}

/// The layout of a type that is written out.
#[cycle(layouts)]
fn datatype_layout(names: NamedLayouts, datatype: &Datatype) -> Result<SizeAlign, TooLarge>
    requires { NamesKnown names (datatype_tree datatype.now) }
    ensures { MeasuresType (datatype_tree datatype.now) result }
{
    match datatype {
        Datatype::Record(record) => record_layout(names, record),
        Datatype::Variant(variant) => variant_layout(names, variant),
        Datatype::Handle(_)
        | Datatype::List(_)
        | Datatype::Pointer(_)
        | Datatype::ConstPointer(_)
        | Datatype::Builtin(_) => datatype.mem_size_align(),
    }
}

#[cycle(layouts)]
fn record_layout(names: NamedLayouts, record_type: &RecordDatatype) -> Result<SizeAlign, TooLarge>
    requires { NamesKnown names (record_tree record_type.now) }
    ensures { MeasuresType (record_tree record_type.now) result }
{
    if let RecordKind::Bitflags(_) = record_type.kind {
        return record_type.mem_size_align();
    }
    let members = members_layout(names, record_type.members.as_slice())?;
    padded(members)
}

/// The layout of a variant.
#[cycle(layouts)]
pub fn variant_layout(names: NamedLayouts, variant: &Variant) -> Result<SizeAlign, TooLarge>
    requires { NamesKnown names (variant_tree variant.now) }
    ensures { MeasuresType (variant_tree variant.now) result }
{
    let width = variant.tag_repr.mem_align();
    let tag = SizeAlign {
        size: width,
        align: width,
    };
    let payload = greatest_payload(names, variant.cases.as_slice())?;
    padded(behind(tag, payload)?.reached)
}

/// Where the members end, one after the other from 0 on, and their greatest alignment.
#[cycle(layouts)]
fn members_layout(names: NamedLayouts, members: &[RecordMember]) -> Result<SizeAlign, TooLarge>
    requires { FieldNamesKnown names (fields_of (map member_field members.now)) }
    ensures { Measures (members_end 0 (members_plain members.now)) (members_align (members_plain members.now)) result }
{
    let mut reached = SizeAlign { size: 0, align: 1 };
    for member in members {
        let part = type_layout(names, &member.tref)?;
        reached = behind(reached, part)?.reached;
    }
    Ok(reached)
}

/// The greatest size and the greatest alignment of a payload.
#[cycle(layouts)]
fn greatest_payload(names: NamedLayouts, cases: &[Case]) -> Result<SizeAlign, TooLarge>
    requires { ArmNamesKnown names (arms_of (map case_arm cases.now)) }
    ensures { Measures (payloads_size (cases_plain cases.now)) (payloads_align (cases_plain cases.now)) result }
{
    let mut greatest = SizeAlign { size: 0, align: 1 };
    for case in cases {
        let Some(tref) = &case.tref else {
            continue;
        };
        let payload = type_layout(names, tref)?;
        greatest = SizeAlign {
            size: greater(greatest.size, payload.size),
            align: greater(greatest.align, payload.align),
        };
    }
    Ok(greatest)
}

/// The members of a record that isn't flags, each behind the one before it; too large exactly where the
/// record is.
pub fn placed<'a>(
    alloc: Global,
    names: NamedLayouts,
    members: &'a [RecordMember],
) -> Result<MemberLayouts<'a>, LayoutError>
    requires { FieldNamesKnown names (fields_of (map member_field members.now)) }
    ensures members { IfOk result (ArePlaced members.now) }
    ensures begins { IfOk result (λ layouts. map (λ m. m.offset) layouts ≡ offsets 0 (members_plain members.now)) }
    ensures fits { OnOk result (align_to (members_end 0 (members_plain members.now))
        (members_align (members_plain members.now)) < 2 ^ 64) }
    ensures too_large { result ≡ Err LayoutError.TooLarge
        → 2 ^ 64 ≤ align_to (members_end 0 (members_plain members.now)) (members_align (members_plain members.now)) }
{
    let mut layouts = MemberLayouts::new(alloc);
    let mut reached = SizeAlign { size: 0, align: 1 };
    for member in members {
        let part = type_layout(names, &member.tref)?;
        let next = behind(reached, part)?;
        layouts.push(RecordMemberLayout {
            member,
            offset: next.begin,
        })?;
        reached = next.reached;
    }
    padded(reached)?;
    Ok(layouts)
}
