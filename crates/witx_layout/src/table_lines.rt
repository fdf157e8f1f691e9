//! The text of the layouts in one pass over an ordered document.
#![tactic(auto, using(crate::proofs::TableLines::line_rules))]

ghost use Rattle.std.specs.Prelude.{◌≡◌, ◌≤◌, ◌<◌, ◌+◌, ◌++◌, ◌^◌, map, IfOk, OnOk, string_bytes};
ghost use Rattle.witx_ast.specs.{Tree.{fields_of}, Plain.{plain}};
ghost use Rattle.witx_ast.specs.Views.{tree_of, datatype_tree, named_tree, variant_tree, member_field, members_plain, cases_plain};
ghost use Rattle.witx_ast.specs.{Definitions.{definition_tree}, Ordered.{IsOrdered}};
ghost use Rattle.witx_ast.specs.declared.types.Variant.{out-Variant};
ghost use Rattle.witx_layout.specs.Numbers.{align_to as rounded, size_of, align_of, members_end, offsets};
ghost use Rattle.witx_layout.specs.LayoutsText.{layouts_text as text_of_layouts, ShowsLayouts, TypenamesFit, TypenameFits, definition_lines, typename_line, field_line, field_lines, tag_line, part_lines};
ghost use Rattle.witx_layout.specs.Known.{Knows, KnowsFields, KnowsDefinition, HasLines, DefinitionHasLines, HaveDistinctNames, Enters, IsLined};
ghost use Rattle.witx_layout.specs.Refusals.{TooLargeBySize, TooLargeByTypename, TooLargeByTypenames};

use crate::layout::{Layout, SizeAlign};
use crate::lines::{put_field, put_flags, put_numbers, put_tag_numbers};
use crate::members::LayoutError;
use crate::rounding::align_to;
use crate::steps::Steps;
use crate::table::{Table, enter_layout, greatest_payload, type_layout};
use std::alloc::Global;
use std::marker::Brand;
use std::sync::ledger::{Blank, Ledger};
use witx_ast::{
    Datatype, Definition, Document, NamedType, RecordKind, RecordMember, TypeRef, Variant,
    names_are_distinct,
};
use witx_base::{Duplicate, NameMap, OutOfMemory, Text};

/// The lines of the typenames' parts so far, by name.
type Lines = NameMap<Text>;

/// The text of `layouts_text` for an ordered document.
///
/// One pass: the layout and the lines of each typename are kept by its name, so a name is looked up
/// and not looked through.
pub fn ordered_layouts_text(alloc: Global, document: &Document) -> Result<Text, LayoutError>
    requires ordered { IsOrdered (map definition_tree document.now.definitions) }
    ensures text { IfOk result (ShowsLayouts document.now.definitions) }
    ensures fits { OnOk result (TypenamesFit document.now.definitions) }
    ensures too_large { TooLargeByTypenames document.now.definitions result }
{
    text_from::<Brand>(alloc, document, Blank::new(1))
}

/// The same, with its steps counted by a new ledger.
fn text_from<L: Ledger>(
    alloc: Global,
    document: &Document,
    blank: Blank,
) -> Result<Text, LayoutError>
    requires ordered { IsOrdered (map definition_tree document.now.definitions) }
    requires name { blank.name ≡ L.name }
    requires parts { blank.parts ≡ L.parts }
    requires some { 0 < blank.parts }
    ensures text { IfOk result (ShowsLayouts document.now.definitions) }
    ensures fits { OnOk result (TypenamesFit document.now.definitions) }
    ensures too_large { TooLargeByTypenames document.now.definitions result }
{
    names_are_distinct(document);
    let mut steps = Steps::<L>::new(blank);
    let mut out = String::new(alloc);
    put_all(
        alloc,
        &mut out,
        document.definitions().as_slice(),
        &mut steps,
    )?;
    Ok(Text::from_string(out))
}

/// The lines of each typename among definitions, whose names are distinct.
#[tactic(auto, using(crate::proofs::Typenames::typename_rules, crate::proofs::Tabled::table_rules))]
fn put_all<L: Ledger>(
    alloc: Global,
    out: &mut String,
    definitions: &[Definition],
    steps: &mut Steps<L>,
) -> Result<(), LayoutError>
    requires ordered { IsOrdered (map definition_tree definitions.now) }
    requires distinct { HaveDistinctNames definitions.now }
    ensures text { OnOk result (string_bytes out.new
        ≡ string_bytes out.old ++ text_of_layouts (map definition_tree definitions.now)) }
    ensures fits { OnOk result (TypenamesFit definitions.now) }
    ensures too_large { TooLargeByTypenames definitions.now result }
{
    let mut table = NameMap::new(alloc);
    let mut lines = NameMap::new(alloc);
    for definition in definitions {
        put_known(alloc, &mut table, &mut lines, out, definition, steps)?;
    }
    Ok(())
}

/// The lines of a typename, which are entered with its layout under its name; other definitions have
/// none.
#[tactic(auto, using(crate::proofs::Typenames::definition_rules))]
fn put_known<L: Ledger>(
    alloc: Global,
    table: &mut Table,
    lines: &mut Lines,
    out: &mut String,
    definition: &Definition,
    steps: &mut Steps<L>,
) -> Result<(), LayoutError>
    requires known { KnowsDefinition table.old (definition_tree definition.now) }
    requires lined { DefinitionHasLines lines.old (definition_tree definition.now) }
    ensures table { OnOk result (Enters definition.now table.old table.new) }
    ensures kept { OnOk result (IsLined lines.old (definition_tree definition.now) lines.new) }
    ensures lines { OnOk result (string_bytes out.new
        ≡ string_bytes out.old ++ definition_lines (definition_tree definition.now)) }
    ensures fits { OnOk result (TypenameFits definition.now) }
    ensures too_large { TooLargeByTypename definition.now result }
{
    let Definition::Typename(named) = definition else {
        return Ok(());
    };
    let numbers = type_layout(table, &named.tref, steps)?;
    let parts = lines_of(alloc, table, lines, &named.tref, steps)?;
    put_lines(out, named.name.as_str(), numbers, &parts)?;
    enter_layout(table, named, numbers)?;
    lines.insert(named.name.copy()?, parts)?;
    Ok(())
}

/// The line of a typename, and below it those of its parts.
fn put_lines(
    out: &mut String,
    name: &str,
    numbers: SizeAlign,
    parts: &Text,
) -> Result<(), OutOfMemory>
    ensures { OnOk result (string_bytes out.new
        ≡ string_bytes out.old ++ (typename_line name.now numbers.size numbers.align ++ parts.now)) }
{
    put_numbers(out, name, numbers)?;
    out.push_str(parts.as_str())?;
    Ok(())
}

/// The lines of a type's parts; those of a name are kept.
#[tactic(auto, using(crate::proofs::Nodes::node_rules))]
fn lines_of<L: Ledger>(
    alloc: Global,
    table: &Table,
    lines: &Lines,
    tref: &TypeRef,
    steps: &mut Steps<L>,
) -> Result<Text, LayoutError>
    requires known { Knows table.now (tree_of tref.now) }
    requires lined { HasLines lines.now (tree_of tref.now) }
    ensures lines { IfOk result (λ text. text ≡ part_lines (plain (tree_of tref.now))) }
    ensures too_large { TooLargeBySize (tree_of tref.now) result }
{
    match tref {
        TypeRef::Name(named) => Ok(known_lines(lines, named).copy()?),
        TypeRef::Value(datatype) => {
            let mut out = String::new(alloc);
            put_known_parts(&mut out, table, datatype, steps)?;
            Ok(Text::from_string(out))
        }
    }
}

/// The lines of a name, which are kept.
fn known_lines<'a>(lines: &'a Lines, named: &NamedType) -> &'a Text
    requires { HasLines lines.now (named_tree named.now) }
    ensures { result.now ≡ part_lines (plain (named_tree named.now)) }
{
    match lines.get(&named.name) {
        Some(text) => text,
        None => unreachable!(),
    }
}

/// The lines of a type's parts, whose names the table knows.
fn put_known_parts<L: Ledger>(
    out: &mut String,
    table: &Table,
    datatype: &Datatype,
    steps: &mut Steps<L>,
) -> Result<(), LayoutError>
    requires { Knows table.now (datatype_tree datatype.now) }
    ensures lines { OnOk result (string_bytes out.new
        ≡ string_bytes out.old ++ part_lines (plain (datatype_tree datatype.now))) }
    ensures too_large { TooLargeBySize (datatype_tree datatype.now) result }
{
    match datatype {
        Datatype::Record(record) => match record.kind {
            RecordKind::Bitflags(repr) => Ok(put_flags(out, repr)?),
            RecordKind::Tuple | RecordKind::Other => put_known_members(
                out,
                table,
                record.members.as_slice(),
                steps,
            ),
        },
        Datatype::Variant(variant) => put_known_tag(out, table, variant, steps),
        Datatype::Handle(_)
        | Datatype::List(_)
        | Datatype::Pointer(_)
        | Datatype::ConstPointer(_)
        | Datatype::Builtin(_) => Ok(()),
    }
}

/// A line for each member, whose names the table knows.
fn put_known_members<L: Ledger>(
    out: &mut String,
    table: &Table,
    members: &[RecordMember],
    steps: &mut Steps<L>,
) -> Result<(), LayoutError>
    requires { KnowsFields table.now (fields_of (map member_field members.now)) }
    ensures lines { OnOk result (string_bytes out.new ≡ string_bytes out.old
        ++ field_lines (members_plain members.now) (offsets 0 (members_plain members.now))) }
    ensures too_large { result ≡ Err LayoutError.TooLarge → 2 ^ 64 ≤ members_end 0 (members_plain members.now) }
{
    let mut end = 0;
    for member in members {
        end = put_known_member(out, table, end, member, steps)?;
    }
    Ok(())
}

/// The line of a member behind an end, and where it ends itself.
fn put_known_member<L: Ledger>(
    out: &mut String,
    table: &Table,
    reached: usize,
    member: &RecordMember,
    steps: &mut Steps<L>,
) -> Result<usize, LayoutError>
    requires { Knows table.now (tree_of member.now.tref) }
    ensures line { OnOk result (string_bytes out.new ≡ string_bytes out.old
        ++ field_line member.now.name (rounded reached (align_of (plain (tree_of member.now.tref))))) }
    ensures end { IfOk result (λ end. end ≡ rounded reached
        (align_of (plain (tree_of member.now.tref))) + size_of (plain (tree_of member.now.tref))) }
    ensures too_large { result ≡ Err LayoutError.TooLarge
        → 2 ^ 64 ≤ rounded reached (align_of (plain (tree_of member.now.tref))) + size_of (plain (tree_of member.now.tref)) }
{
    let part = type_layout(table, &member.tref, steps)?;
    let Some(begin) = align_to(reached, part.align) else {
        return Err(LayoutError::TooLarge);
    };
    let Some(end) = begin.checked_add(part.size) else {
        return Err(LayoutError::TooLarge);
    };
    put_field(out, member.name.as_str(), begin)?;
    Ok(end)
}

/// The line of a variant's tag and payload, whose names the table knows.
fn put_known_tag<L: Ledger>(
    out: &mut String,
    table: &Table,
    variant: &Variant,
    steps: &mut Steps<L>,
) -> Result<(), LayoutError>
    requires { Knows table.now (variant_tree variant.now) }
    ensures lines { OnOk result (string_bytes out.new ≡ string_bytes out.old
        ++ tag_line (out-Variant variant.now).tag_repr (cases_plain (out-Variant variant.now).cases)) }
    ensures too_large { TooLargeBySize (variant_tree variant.now) result }
{
    let tag = variant.tag_repr.mem_align();
    let payload = greatest_payload(table, variant.cases.as_slice(), steps)?;
    let Some(begin) = align_to(tag, payload.align) else {
        return Err(LayoutError::TooLarge);
    };
    Ok(put_tag_numbers(out, tag, begin)?)
}
