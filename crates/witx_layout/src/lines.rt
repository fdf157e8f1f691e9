//! The layouts of a document's typenames as text.
#![tactic(auto, using(crate::proofs::Written::line_rules))]

ghost use Rattle.std.specs.Prelude.{◌≡◌, ◌≤◌, ◌<◌, ◌++◌, ◌^◌, map, IfOk, OnOk, string_bytes};
ghost use Rattle.witx_layout.specs.Numbers.{size_of, members_end, offsets};
ghost use Rattle.witx_layout.specs.LayoutsText.{layouts_text as text_of_layouts, ShowsLayouts, TypenamesFit, TypenameFits, definition_lines, typename_line, typename_lines, field_line, field_lines, flags_line, tag_line, tag_numbers_line, part_lines};
ghost use Rattle.witx_layout.specs.Laws.{members_of};
ghost use Rattle.witx_layout.specs.Refusals.{TooLargeBySize, TooLargeByTypename, TooLargeByTypenames};
ghost use Rattle.witx_ast.specs.Plain.{plain};
ghost use Rattle.witx_ast.specs.Views.{named_tree, datatype_tree, members_plain, cases_plain};
ghost use Rattle.witx_ast.specs.{Definitions.{definition_tree}, declared.types.Variant.{out-Variant}};

use crate::layout::{Layout, SizeAlign, VariantOffset};
use crate::members::{LayoutError, RecordMemberLayout, RecordMembers};
use std::alloc::Global;
use witx_ast::{
    Datatype, Definition, Document, IntRepr, NamedType, RecordDatatype, RecordKind, Variant,
};
use witx_base::{OutOfMemory, Text};

/// The layouts of the typenames of a document, as text, in order.
///
/// For each a line `typename NAME size S align A`, and below it for a record a line
/// `  field NAME offset O` per member, for flags `  flags REPR`, for a variant `  tag S payload O`,
/// where names are looked through. It is too large exactly where the size of a typename is.
pub fn layouts_text(alloc: Global, document: &Document) -> Result<Text, LayoutError>
    ensures text { IfOk result (ShowsLayouts document.now.definitions) }
    ensures fits { OnOk result (TypenamesFit document.now.definitions) }
    ensures too_large { TooLargeByTypenames document.now.definitions result }
{
    let mut out = String::new(alloc);
    put_typenames(alloc, &mut out, document.definitions().as_slice())?;
    Ok(Text::from_string(out))
}

/// The lines of each typename among definitions.
#[tactic(auto, using(crate::proofs::Typenames::typename_rules))]
fn put_typenames(
    alloc: Global,
    out: &mut String,
    definitions: &[Definition],
) -> Result<(), LayoutError>
    ensures text { OnOk result (string_bytes out.new
        ≡ string_bytes out.old ++ text_of_layouts (map definition_tree definitions.now)) }
    ensures fits { OnOk result (TypenamesFit definitions.now) }
    ensures too_large { TooLargeByTypenames definitions.now result }
{
    for definition in definitions {
        put_definition(alloc, out, definition)?;
    }
    Ok(())
}

#[tactic(auto, using(crate::proofs::Typenames::definition_rules))]
fn put_definition(
    alloc: Global,
    out: &mut String,
    definition: &Definition,
) -> Result<(), LayoutError>
    ensures lines { OnOk result (string_bytes out.new
        ≡ string_bytes out.old ++ definition_lines (definition_tree definition.now)) }
    ensures fits { OnOk result (TypenameFits definition.now) }
    ensures too_large { TooLargeByTypename definition.now result }
{
    match definition {
        Definition::Typename(named) => put_typename(alloc, out, named),
        Definition::Module(_) | Definition::Constant(_) => Ok(()),
    }
}

/// The line of a typename, and below it the lines of its parts.
fn put_typename(alloc: Global, out: &mut String, named: &NamedType) -> Result<(), LayoutError>
    ensures lines { OnOk result (string_bytes out.new
        ≡ string_bytes out.old ++ typename_lines named.now.name (plain (named_tree named.now))) }
    ensures fits { OnOk result (size_of (plain (named_tree named.now)) < 2 ^ 64) }
    ensures too_large { TooLargeBySize (named_tree named.now) result }
{
    let numbers = named.mem_size_align()?;
    put_numbers(out, named.name.as_str(), numbers)?;
    put_parts(alloc, out, named.tref.type_())
}

/// The lines of a type's parts: a record's members, flags' representation, a variant's tag and payload.
fn put_parts(alloc: Global, out: &mut String, datatype: &Datatype) -> Result<(), LayoutError>
    ensures lines { OnOk result (string_bytes out.new
        ≡ string_bytes out.old ++ part_lines (plain (datatype_tree datatype.now))) }
    ensures too_large { TooLargeBySize (datatype_tree datatype.now) result }
{
    match datatype {
        Datatype::Record(record) => match record.kind {
            RecordKind::Bitflags(repr) => Ok(put_flags(out, repr)?),
            RecordKind::Tuple | RecordKind::Other => put_members(alloc, out, record),
        },
        Datatype::Variant(variant) => Ok(put_tag(out, variant)?),
        Datatype::Handle(_)
        | Datatype::List(_)
        | Datatype::Pointer(_)
        | Datatype::ConstPointer(_)
        | Datatype::Builtin(_) => Ok(()),
    }
}

/// A line for each member of a record.
fn put_members(
    alloc: Global,
    out: &mut String,
    record_type: &RecordDatatype,
) -> Result<(), LayoutError>
    ensures lines { OnOk result (string_bytes out.new ≡ string_bytes out.old
        ++ field_lines (members_of record_type.now) (offsets 0 (members_of record_type.now))) }
    ensures too_large { result ≡ Err LayoutError.TooLarge
        → 2 ^ 64 ≤ members_end 0 (members_of record_type.now) }
{
    let layouts = record_type.member_layout(alloc)?;
    put_fields(out, layouts.as_slice())?;
    Ok(())
}

#[tactic(auto, using(crate::proofs::Written::field_rules))]
fn put_fields(out: &mut String, layouts: &[RecordMemberLayout]) -> Result<(), OutOfMemory>
    ensures { OnOk result (string_bytes out.new ≡ string_bytes out.old
        ++ field_lines (members_plain (map (λ m. m.member.now) layouts.now)) (map (λ m. m.offset) layouts.now)) }
{
    for layout in layouts {
        put_field(out, layout.member.name.as_str(), layout.offset)?;
    }
    Ok(())
}

/// Appends `typename NAME size S align A`.
pub fn put_numbers(out: &mut String, name: &str, numbers: SizeAlign) -> Result<(), OutOfMemory>
    ensures { OnOk result (string_bytes out.new
        ≡ string_bytes out.old ++ typename_line name.now numbers.size numbers.align) }
{
    let size = numbers.size;
    let align = numbers.align;
    writeln!(out, "typename {name} size {size} align {align}")?;
    Ok(())
}

/// Appends `  field NAME offset O`.
pub fn put_field(out: &mut String, name: &str, offset: usize) -> Result<(), OutOfMemory>
    ensures { OnOk result (string_bytes out.new ≡ string_bytes out.old ++ field_line name.now offset) }
{
    writeln!(out, "  field {name} offset {offset}")?;
    Ok(())
}

/// Appends `  flags REPR`.
pub fn put_flags(out: &mut String, repr: IntRepr) -> Result<(), OutOfMemory>
    ensures { OnOk result (string_bytes out.new ≡ string_bytes out.old ++ flags_line repr) }
{
    let word = repr.to_builtin().type_name();
    writeln!(out, "  flags {word}")?;
    Ok(())
}

fn put_tag(out: &mut String, variant: &Variant) -> Result<(), OutOfMemory>
    ensures { OnOk result (string_bytes out.new ≡ string_bytes out.old
        ++ tag_line (out-Variant variant.now).tag_repr (cases_plain (out-Variant variant.now).cases)) }
{
    put_tag_numbers(out, variant.tag_repr.mem_align(), variant.payload_offset())
}

/// Appends `  tag S payload O`.
pub fn put_tag_numbers(out: &mut String, tag: usize, payload: usize) -> Result<(), OutOfMemory>
    ensures { OnOk result (string_bytes out.new ≡ string_bytes out.old ++ tag_numbers_line tag payload) }
{
    writeln!(out, "  tag {tag} payload {payload}")?;
    Ok(())
}
