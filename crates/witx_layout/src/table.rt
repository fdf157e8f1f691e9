//! The layouts of an ordered document's typenames in one pass: a name is looked up and not looked through.
#![tactic(auto, using(crate::proofs::Nodes::node_rules))]

ghost use Rattle.std.specs.Prelude.{◌≡◌, ◌≤◌, ◌<◌, ◌+◌, ◌++◌, true, None, IfErr, IfOk, OnErr, OnOk, map};
ghost use Rattle.witx_ast.specs.{Tree.{fields_of, arms_of}, Plain.{plain}};
ghost use Rattle.witx_ast.specs.Views.{tree_of, datatype_tree, named_tree, record_tree, variant_tree, member_field, case_arm};
ghost use Rattle.witx_ast.specs.{Definitions.{definition_tree, typename_of}, Ordered.{IsOrdered}};
ghost use Rattle.witx_layout.specs.Numbers.{size_of, align_of};
ghost use Rattle.witx_layout.specs.Nodes.{type_nodes, field_nodes, arm_nodes, definition_nodes, one_typename, typename_node_count, typename_count};
ghost use Rattle.witx_layout.specs.Known.{is_flat, Knows, KnowsFields, KnowsArms, KnowsDefinition, HaveDistinctNames, Enters, IsEntered};
ghost use Rattle.witx_layout.specs.Layouts.{MeasuresType, MeasuresMembers, MeasuresPayloads, AreLayouts, NoneTooLarge, TellsFirstLarge, TooLargeAt, large_at, layout_of, layouts_in};
ghost use Rattle.witx_layout.specs.declared.table.LayoutsError.{LayoutsError};

use crate::flat::{flat_layout, written_flat};
use crate::layout::{Layout, SizeAlign, TooLarge};
use crate::rounding::{followed_by, greater, padded, tagged};
use crate::steps::Steps;
use std::alloc::Global;
use std::marker::Brand;
use std::sync::ledger::{Blank, Ledger};
use witx_ast::{
    Case, Datatype, Definition, Document, NamedType, RecordDatatype, RecordKind, RecordMember,
    TypeRef, Variant, names_are_distinct,
};
use witx_base::{Duplicate, Items, NameMap, OutOfMemory};

/// Layouts, in order.
pub type SizeAligns = Items<SizeAlign>;

/// The layouts of the typenames so far, by name; those whose type is written out flat need no entry.
pub type Table = NameMap<SizeAlign>;

/// Why a document's layouts aren't given.
#[derive(Clone, Copy, PartialEq, Eq)]
pub enum LayoutsError {
    /// The size of the typename with that number among all definitions, from 0, exceeds
    /// `usize::MAX`.
    TooLarge { definition: usize },
    OutOfMemory,
}

impl From<OutOfMemory> for LayoutsError {
    ghost from_gives = { λ _ error. error ≡ LayoutsError.OutOfMemory };

    fn from(_error: OutOfMemory) -> LayoutsError {
        LayoutsError::OutOfMemory
    }
}

/// The layouts of the typenames of an ordered document, in order; refused for the first that is too
/// large.
///
/// One pass: the layout of each typename is kept by its name, so each type node is visited at most
/// once, and a name is looked up and not looked through.
pub fn layouts<L: Ledger>(
    alloc: Global,
    document: &Document,
    steps: &mut Steps<L>,
) -> Result<SizeAligns, LayoutsError>
    requires ordered { IsOrdered (map definition_tree document.now.definitions) }
    ensures layouts { IfOk result (AreLayouts document.now.definitions) }
    ensures sizes { OnOk result (NoneTooLarge document.now.definitions) }
    ensures too_large { IfErr result (TellsFirstLarge document.now.definitions) }
    ensures most { steps.new ≤ steps.old + typename_node_count (map definition_tree document.now.definitions) }
    ensures least { OnOk result (steps.old + typename_count (map definition_tree document.now.definitions) ≤ steps.new) }
{
    names_are_distinct(document);
    typename_layouts(alloc, document.definitions().as_slice(), steps)
}

/// The same for a caller that doesn't count.
pub fn uncounted_layouts(alloc: Global, document: &Document) -> Result<SizeAligns, LayoutsError>
    requires ordered { IsOrdered (map definition_tree document.now.definitions) }
    ensures layouts { IfOk result (AreLayouts document.now.definitions) }
    ensures sizes { OnOk result (NoneTooLarge document.now.definitions) }
    ensures too_large { IfErr result (TellsFirstLarge document.now.definitions) }
{
    layouts_from::<Brand>(alloc, document, Blank::new(1))
}

/// The same, counted by a new ledger.
fn layouts_from<L: Ledger>(
    alloc: Global,
    document: &Document,
    blank: Blank,
) -> Result<SizeAligns, LayoutsError>
    requires ordered { IsOrdered (map definition_tree document.now.definitions) }
    requires name { blank.name ≡ L.name }
    requires parts { blank.parts ≡ L.parts }
    requires some { 0 < blank.parts }
    ensures layouts { IfOk result (AreLayouts document.now.definitions) }
    ensures sizes { OnOk result (NoneTooLarge document.now.definitions) }
    ensures too_large { IfErr result (TellsFirstLarge document.now.definitions) }
{
    let mut steps = Steps::<L>::new(blank);
    layouts(alloc, document, &mut steps)
}

/// The same of definitions, whose names are distinct.
#[tactic(auto, using(crate::proofs::Tabled::table_rules))]
fn typename_layouts<L: Ledger>(
    alloc: Global,
    definitions: &[Definition],
    steps: &mut Steps<L>,
) -> Result<SizeAligns, LayoutsError>
    requires ordered { IsOrdered (map definition_tree definitions.now) }
    requires distinct { HaveDistinctNames definitions.now }
    ensures layouts { IfOk result (AreLayouts definitions.now) }
    ensures sizes { OnOk result (NoneTooLarge definitions.now) }
    ensures too_large { IfErr result (TellsFirstLarge definitions.now) }
    ensures most { steps.new ≤ steps.old + typename_node_count (map definition_tree definitions.now) }
    ensures least { OnOk result (steps.old + typename_count (map definition_tree definitions.now) ≤ steps.new) }
{
    let mut table = NameMap::new(alloc);
    let mut layouts = Items::new(alloc);
    for (number, definition) in definitions.iter().enumerate() {
        push_layout(&mut table, &mut layouts, number, definition, steps)?;
    }
    Ok(layouts)
}

/// Appends the layout of a typename, and enters it under its name; other definitions have none.
fn push_layout<L: Ledger>(
    table: &mut Table,
    layouts: &mut SizeAligns,
    number: usize,
    definition: &Definition,
    steps: &mut Steps<L>,
) -> Result<(), LayoutsError>
    requires known { KnowsDefinition table.old (definition_tree definition.now) }
    ensures table { OnOk result (Enters definition.now table.old table.new) }
    ensures layouts { OnOk result (layouts.new ≡ layouts.old ++ layouts_in (definition_tree definition.now)) }
    ensures sizes { OnOk result (large_at number (definition_tree definition.now) ≡ None) }
    ensures too_large { IfErr result (TooLargeAt (large_at number (definition_tree definition.now))) }
    ensures most { steps.new ≤ steps.old + definition_nodes (definition_tree definition.now) }
    ensures least { steps.old + one_typename (definition_tree definition.now) ≤ steps.new }
{
    let Definition::Typename(named) = definition else {
        return Ok(());
    };
    let Ok(layout) = type_layout(table, &named.tref, steps) else {
        return Err(LayoutsError::TooLarge { definition: number });
    };
    enter_layout(table, named, layout)?;
    Ok(layouts.push(layout)?)
}

/// Enters the layout of a typename under its name, unless its type is written out flat: that one is known without a
/// table.
pub fn enter_layout(
    table: &mut Table,
    named: &NamedType,
    layout: SizeAlign,
) -> Result<(), OutOfMemory>
    requires size { layout.size ≡ size_of (plain (tree_of named.now.tref)) }
    requires align { layout.align ≡ align_of (plain (tree_of named.now.tref)) }
    ensures entered { OnOk result (IsEntered table.old
        (typename_of named.now.name (tree_of named.now.tref) named.now.docs) table.new) }
    ensures unchanged { OnErr result (table.new ≡ table.old) }
{
    if written_flat(&named.tref).is_some() {
        return Ok(());
    }
    table.insert(named.name.copy()?, layout)
}

/// The layout of a type, whose names the table knows.
#[cycle(tabled)]
pub fn type_layout<L: Ledger>(
    table: &Table,
    tref: &TypeRef,
    steps: &mut Steps<L>,
) -> Result<SizeAlign, TooLarge>
    requires { Knows table.now (tree_of tref.now) }
    ensures layout { MeasuresType (tree_of tref.now) result }
    ensures most { steps.new ≤ steps.old + type_nodes (tree_of tref.now) }
    ensures least { steps.old + 1 ≤ steps.new }
{
    steps.tick();
    match tref {
        TypeRef::Name(named) => Ok(known_layout(table, named)),
        TypeRef::Value(datatype) => datatype_layout(table, datatype, steps),
    }
}

/// The layout of a name that the table knows.
///
/// In a document made by hand a name may be written through further names while its typename's type is written out
/// flat: only then are those looked through.
pub fn known_layout(table: &Table, named: &NamedType) -> SizeAlign
    requires { Knows table.now (named_tree named.now) }
    ensures size { result.size ≡ size_of (plain (named_tree named.now)) }
    ensures align { result.align ≡ align_of (plain (named_tree named.now)) }
{
    if let Some(layout) = written_flat(&named.tref) {
        return layout;
    }
    match table.get(&named.name) {
        Some(layout) => *layout,
        None => layout_behind(named),
    }
}

/// The layout of a name for a flat type.
fn layout_behind(named: &NamedType) -> SizeAlign
    requires { is_flat (plain (named_tree named.now)) ≡ true }
    ensures { result ≡ layout_of (named_tree named.now) }
{
    let Some(layout) = flat_layout(named.type_()) else {
        unreachable!();
    };
    layout
}

/// The layout of a type that is written out, whose own visit is counted already.
#[cycle(tabled)]
fn datatype_layout<L: Ledger>(
    table: &Table,
    datatype: &Datatype,
    steps: &mut Steps<L>,
) -> Result<SizeAlign, TooLarge>
    requires { Knows table.now (datatype_tree datatype.now) }
    ensures layout { MeasuresType (datatype_tree datatype.now) result }
    ensures most { steps.new + 1 ≤ steps.old + type_nodes (datatype_tree datatype.now) }
    ensures least { steps.old ≤ steps.new }
{
    match datatype {
        Datatype::Record(record) => record_layout(table, record, steps),
        Datatype::Variant(variant) => variant_layout(table, variant, steps),
        Datatype::Handle(_)
        | Datatype::List(_)
        | Datatype::Pointer(_)
        | Datatype::ConstPointer(_)
        | Datatype::Builtin(_) => datatype.mem_size_align(),
    }
}

/// The layout of a record, whose own visit is counted already.
#[cycle(tabled)]
fn record_layout<L: Ledger>(
    table: &Table,
    record_type: &RecordDatatype,
    steps: &mut Steps<L>,
) -> Result<SizeAlign, TooLarge>
    requires { Knows table.now (record_tree record_type.now) }
    ensures layout { MeasuresType (record_tree record_type.now) result }
    ensures most { steps.new + 1 ≤ steps.old + type_nodes (record_tree record_type.now) }
    ensures least { steps.old ≤ steps.new }
{
    if let RecordKind::Bitflags(repr) = record_type.kind {
        return repr.mem_size_align();
    }
    let members = members_layout(table, record_type.members.as_slice(), steps)?;
    padded(members)
}

/// The layout of a variant, whose own visit is counted already.
#[cycle(tabled)]
fn variant_layout<L: Ledger>(
    table: &Table,
    variant: &Variant,
    steps: &mut Steps<L>,
) -> Result<SizeAlign, TooLarge>
    requires { Knows table.now (variant_tree variant.now) }
    ensures layout { MeasuresType (variant_tree variant.now) result }
    ensures most { steps.new + 1 ≤ steps.old + type_nodes (variant_tree variant.now) }
    ensures least { steps.old ≤ steps.new }
{
    let width = variant.tag_repr.mem_align();
    let tag = SizeAlign {
        size: width,
        align: width,
    };
    let payload = greatest_payload(table, variant.cases.as_slice(), steps)?;
    tagged(tag, payload)
}

/// Where the members end, one after the other from 0 on, and their greatest alignment.
#[cycle(tabled)]
fn members_layout<L: Ledger>(
    table: &Table,
    members: &[RecordMember],
    steps: &mut Steps<L>,
) -> Result<SizeAlign, TooLarge>
    requires { KnowsFields table.now (fields_of (map member_field members.now)) }
    ensures layout { MeasuresMembers members.now result }
    ensures most { steps.new ≤ steps.old + field_nodes (fields_of (map member_field members.now)) }
    ensures least { steps.old ≤ steps.new }
{
    let mut reached = SizeAlign { size: 0, align: 1 };
    for member in members {
        let part = type_layout(table, &member.tref, steps)?;
        reached = followed_by(reached, part)?;
    }
    Ok(reached)
}

/// The greatest size and the greatest alignment of a payload.
#[cycle(tabled)]
pub fn greatest_payload<L: Ledger>(
    table: &Table,
    cases: &[Case],
    steps: &mut Steps<L>,
) -> Result<SizeAlign, TooLarge>
    requires { KnowsArms table.now (arms_of (map case_arm cases.now)) }
    ensures layout { MeasuresPayloads cases.now result }
    ensures most { steps.new ≤ steps.old + arm_nodes (arms_of (map case_arm cases.now)) }
    ensures least { steps.old ≤ steps.new }
{
    let mut greatest = SizeAlign { size: 0, align: 1 };
    for case in cases {
        let Some(tref) = &case.tref else {
            continue;
        };
        let payload = type_layout(table, tref, steps)?;
        greatest = SizeAlign {
            size: greater(greatest.size, payload.size),
            align: greater(greatest.align, payload.align),
        };
    }
    Ok(greatest)
}
