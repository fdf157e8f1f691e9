//! What a type adds below a node.
#![tactic(auto, using(crate::proofs::PartSteps::part_rules))]

ghost use Rattle.std.specs.Prelude.{◌≡◌, ◌∷◌, ◌++◌, [], IfOk, OnOk, Some, None, codes, map, option_map};
ghost use Rattle.std.specs.{Prelude.{false}, Fmt.{decimal}};
ghost use Rattle.witx_ast.specs.declared.types.RecordDatatype.{out-RecordDatatype};
ghost use Rattle.witx_ast.specs.{declared.types.Variant.{out-Variant}, Plain.{plain}};
ghost use Rattle.witx_ast.specs.Tree.{fields_of, arms_of};
ghost use Rattle.witx_ast.specs.Views.{tree_of, datatype_tree, record_tree, variant_tree, member_field, case_arm, members_plain};
ghost use Rattle.witx_layout.specs.Numbers.{align_of, offsets, size_of};
ghost use Rattle.witx_markdown.specs.Forests.{lone_node, next_number, sprouted};
ghost use Rattle.witx_markdown.specs.NamesKnown.{NamesKnown, FieldNamesKnown, ArmNamesKnown, PayloadKnown};
ghost use Rattle.witx_docs.specs.Parts.{section as section_of, item, inner_id, type_shown, type_parts, typed_node, placed_fields, placed_nodes, member_docs, number_section, layout_nodes, variant_layout, case_nodes, member_node, case_node};
ghost use Rattle.witx_docs.specs.LaidOut.{Judged, too_large, laid_out, record_numbers, payload_numbers, members_laid_out, cases_laid_out, case_laid_out};

use crate::place::Place;
use std::alloc::Global;
use witx_ast::{Case, Datatype, RecordDatatype, RecordKind, RecordMember, TypeRef, Variant};
use witx_base::{OutOfMemory, Text};
use witx_layout::{
    Layout, LayoutError, MemberLayouts, RecordMemberLayout, RecordMembers, SizeAlign, TooLarge,
};
use witx_markdown::{
    Branch, MdContent, MdHeading, MdNamedType, MdSection, NamedLayouts, placed, put, variant_layout,
};

/// Adds the parts of a type: a name has none, since it leads to its typename.
#[cycle(parts)]
pub fn put_type(
    branch: &mut Branch,
    at: &Place,
    names: NamedLayouts,
    tref: &TypeRef,
) -> Result<(), LayoutError>
    requires { NamesKnown names (tree_of tref.now) }
    ensures nodes { OnOk result (branch.new ≡ sprouted branch.old at.now.node
        (type_parts at.now.heading (option_map (λ id. id.now) at.now.id) (tree_of tref.now))) }
    ensures refusal { Judged (too_large (laid_out (tree_of tref.now))) result }
{
    match tref {
        TypeRef::Name(_) => Ok(()),
        TypeRef::Value(datatype) => put_datatype(branch, at, names, datatype),
    }
}

/// Adds the parts of a type that is written out; targets of lists and pointers aren't entered.
#[cycle(parts)]
pub fn put_datatype(
    branch: &mut Branch,
    at: &Place,
    names: NamedLayouts,
    datatype: &Datatype,
) -> Result<(), LayoutError>
    requires { NamesKnown names (datatype_tree datatype.now) }
    ensures nodes { OnOk result (branch.new ≡ sprouted branch.old at.now.node
        (type_parts at.now.heading (option_map (λ id. id.now) at.now.id) (datatype_tree datatype.now))) }
    ensures refusal { Judged (too_large (laid_out (datatype_tree datatype.now))) result }
{
    match datatype {
        Datatype::Record(record) => put_record(branch, at, names, record),
        Datatype::Variant(variant) => put_variant(branch, at, names, variant),
        Datatype::Handle(_) => put_handle(branch, at),
        Datatype::List(_)
        | Datatype::Pointer(_)
        | Datatype::ConstPointer(_)
        | Datatype::Builtin(_) => Ok(()),
    }
}

/// Adds the section of a handle, under which nothing stands.
pub fn put_handle(branch: &mut Branch, at: &Place) -> Result<(), LayoutError>
    ensures nodes { OnOk result (branch.new
        ≡ sprouted branch.old at.now.node (lone_node (section_of at.now.heading (codes "Supertypes")))) }
    ensures refusal { Judged false result }
{
    Ok(put_section(branch, at, "Supertypes")?)
}

/// Adds the members of a record, each with its offset.
#[cycle(parts)]
pub fn put_record(
    branch: &mut Branch,
    at: &Place,
    names: NamedLayouts,
    record_type: &RecordDatatype,
) -> Result<(), LayoutError>
    requires { NamesKnown names (record_tree record_type.now) }
    ensures nodes { OnOk result (branch.new ≡ sprouted branch.old at.now.node
        (type_parts at.now.heading (option_map (λ id. id.now) at.now.id) (record_tree record_type.now))) }
    ensures refusal { Judged (too_large (laid_out (record_tree record_type.now))) result }
{
    let layouts = begins(branch.allocator(), names, record_type)?;
    put_section(branch, at, "Record members")?;
    put_members(branch, at, names, record_type.kind, layouts.as_slice())
}

/// The offsets of a record's members, where all that is shown of them fits: the size of a record, and
/// of flags the offsets of their members as a plain record.
#[tactic(auto, using(crate::proofs::Judging::judging_rules))]
fn begins<'a>(
    alloc: Global,
    names: NamedLayouts,
    record_type: &'a RecordDatatype,
) -> Result<MemberLayouts<'a>, LayoutError>
    requires { NamesKnown names (record_tree record_type.now) }
    ensures members { IfOk result (λ layouts. map (λ m. m.member.now) layouts
        ≡ (out-RecordDatatype record_type.now).members) }
    ensures begins { IfOk result (λ layouts. map (λ m. m.offset) layouts
        ≡ offsets 0 (members_plain (out-RecordDatatype record_type.now).members)) }
    ensures refusal { Judged (too_large (record_numbers (out-RecordDatatype record_type.now).kind
        (fields_of (map member_field (out-RecordDatatype record_type.now).members)))) result }
{
    match record_type.kind {
        RecordKind::Bitflags(_) => record_type.member_layout(alloc),
        RecordKind::Tuple | RecordKind::Other => {
            placed(alloc, names, record_type.members.as_slice())
        }
    }
}

#[cycle(parts)]
fn put_members(
    branch: &mut Branch,
    at: &Place,
    names: NamedLayouts,
    kind: RecordKind,
    layouts: &[RecordMemberLayout],
) -> Result<(), LayoutError>
    requires { FieldNamesKnown names (placed_fields layouts.now) }
    ensures nodes { OnOk result (branch.new ≡ sprouted branch.old at.now.node
        (placed_nodes at.now.heading (option_map (λ id. id.now) at.now.id) kind layouts.now)) }
    ensures refusal { Judged (too_large (members_laid_out (placed_fields layouts.now))) result }
{
    for layout in layouts {
        put_member(branch, at, names, kind, layout.member, layout.offset)?;
    }
    Ok(())
}

/// Adds a member with its offset, or as a flag with its bit, and the parts of its type.
#[cycle(parts)]
fn put_member(
    branch: &mut Branch,
    at: &Place,
    names: NamedLayouts,
    kind: RecordKind,
    member: &RecordMember,
    offset: usize,
) -> Result<(), LayoutError>
    requires { NamesKnown names (tree_of member.now.tref) }
    ensures nodes { OnOk result (branch.new ≡ sprouted branch.old at.now.node
        (member_node at.now.heading (option_map (λ id. id.now) at.now.id) kind (member_field member.now) offset)) }
    ensures refusal { Judged (too_large (laid_out (tree_of member.now.tref))) result }
{
    let docs = member_text(branch.allocator(), kind, member.docs.as_str(), offset)?;
    put_typed(
        branch,
        at,
        names,
        member.name.as_str(),
        docs.as_str(),
        &member.tref,
    )
}

/// A member's documentation, and below it where the member stands.
fn member_text(
    alloc: Global,
    kind: RecordKind,
    docs: &str,
    offset: usize,
) -> Result<Text, OutOfMemory>
    ensures { IfOk result (λ text. text ≡ member_docs kind docs.now offset) }
{
    match kind {
        RecordKind::Bitflags(_) => with_number(alloc, docs, "Bit", offset / 4),
        RecordKind::Tuple | RecordKind::Other => with_number(alloc, docs, "Offset", offset),
    }
}

/// A line of its own that shows a number, below documentation.
fn with_number(alloc: Global, docs: &str, word: &str, number: usize) -> Result<Text, OutOfMemory>
    ensures { IfOk result (λ text. text
        ≡ docs.now ++ (codes "\n" ++ word.now ++ codes ": " ++ decimal number ++ codes "\n")) }
{
    let mut out = String::new(alloc);
    put(&mut out, docs)?;
    write!(out, "\n{word}: {number}\n")?;
    Ok(Text::from_string(out))
}

/// Adds a bullet with a type, and the parts of that type.
#[cycle(parts)]
pub fn put_typed(
    branch: &mut Branch,
    at: &Place,
    names: NamedLayouts,
    name: &str,
    docs: &str,
    tref: &TypeRef,
) -> Result<(), LayoutError>
    requires { NamesKnown names (tree_of tref.now) }
    ensures nodes { OnOk result (branch.new ≡ sprouted branch.old at.now.node
        (typed_node at.now.heading (option_map (λ id. id.now) at.now.id) name.now docs.now (tree_of tref.now))) }
    ensures refusal { Judged (too_large (laid_out (tree_of tref.now))) result }
{
    let id = at.inner_id(branch.allocator(), name)?;
    let ty = shown(branch.allocator(), tref)?;
    let content = bullet(branch.allocator(), id.as_str(), name, docs, Some(ty))?;
    let node = branch.push(at.node, content)?;
    let inner = Place {
        node,
        heading: at.heading.new_level_down(),
        id: Some(id.as_str()),
    };
    put_type(branch, &inner, names, tref)
}

/// A bullet with an id, a name, documentation and perhaps a type.
pub fn bullet(
    alloc: Global,
    id: &str,
    name: &str,
    docs: &str,
    ty: Option<Text>,
) -> Result<MdContent, OutOfMemory>
    ensures { IfOk result (λ content. content ≡ item id.now name.now docs.now ty) }
{
    let mut named = MdNamedType::new(alloc, MdHeading::Bullet, id, name, docs)?;
    named.ty = ty;
    Ok(MdContent::Named(named))
}

/// A type as it is shown: a name leads to its typename.
pub fn shown(alloc: Global, tref: &TypeRef) -> Result<Text, OutOfMemory>
    ensures { IfOk result (λ text. text ≡ type_shown (tree_of tref.now)) }
{
    let name = tref.type_name(alloc)?;
    if tref.named() {
        link(alloc, name.as_str())
    } else {
        quoted(alloc, name.as_str())
    }
}

fn link(alloc: Global, name: &str) -> Result<Text, OutOfMemory>
    ensures { IfOk result (λ text. text ≡ codes "[`" ++ name.now ++ codes "`](#" ++ name.now ++ codes ")") }
{
    Ok(Text::from_string(format!(in alloc; "[`{name}`](#{name})")?))
}

/// A name in backquotes.
pub fn quoted(alloc: Global, name: &str) -> Result<Text, OutOfMemory>
    ensures { IfOk result (λ text. text ≡ codes "`" ++ name.now ++ codes "`") }
{
    Ok(Text::from_string(format!(in alloc; "`{name}`")?))
}

/// Adds a section under which nothing stands.
pub fn put_section(branch: &mut Branch, at: &Place, title: &str) -> Result<(), OutOfMemory>
    ensures { OnOk result (branch.new ≡ sprouted branch.old at.now.node (lone_node (section_of at.now.heading title.now))) }
{
    put_group(branch, at.node, at.heading, title)?;
    Ok(())
}

/// Adds a section below the node numbered `parent`; the answer is its number.
pub fn put_group(
    branch: &mut Branch,
    parent: usize,
    heading: MdHeading,
    title: &str,
) -> Result<usize, OutOfMemory>
    ensures number { IfOk result (λ number. number ≡ next_number branch.old) }
    ensures node { OnOk result (branch.new ≡ sprouted branch.old parent (lone_node (section_of heading title.now))) }
{
    let section = MdSection::new(branch.allocator(), heading, title)?;
    branch.push(parent, MdContent::Section(section))
}

/// Adds the layout of a variant, where some case has a payload, and its cases; a bool-like one adds
/// nothing.
#[cycle(parts)]
pub fn put_variant(
    branch: &mut Branch,
    at: &Place,
    names: NamedLayouts,
    variant: &Variant,
) -> Result<(), LayoutError>
    requires { NamesKnown names (variant_tree variant.now) }
    ensures nodes { OnOk result (branch.new ≡ sprouted branch.old at.now.node
        (type_parts at.now.heading (option_map (λ id. id.now) at.now.id) (variant_tree variant.now))) }
    ensures refusal { Judged (too_large (laid_out (variant_tree variant.now))) result }
{
    if variant.is_bool() {
        return Ok(());
    }
    put_layout_if(branch, at, names, variant)?;
    put_section(branch, at, "Variant cases")?;
    put_cases(branch, at, names, variant.cases.as_slice())
}

/// Adds the layout of a variant, where some case has a payload.
#[tactic(auto, using(crate::proofs::Judging::judging_rules))]
fn put_layout_if(
    branch: &mut Branch,
    at: &Place,
    names: NamedLayouts,
    variant: &Variant,
) -> Result<(), LayoutError>
    requires { NamesKnown names (variant_tree variant.now) }
    ensures nodes { OnOk result (branch.new ≡ sprouted branch.old at.now.node
        (variant_layout at.now.heading (out-Variant variant.now).tag_repr (arms_of (map case_arm (out-Variant variant.now).cases)))) }
    ensures refusal { Judged (too_large (payload_numbers (out-Variant variant.now).tag_repr
        (arms_of (map case_arm (out-Variant variant.now).cases)))) result }
{
    if variant.is_enum() {
        return Ok(());
    }
    let whole = whole_layout(names, variant)?;
    put_layout(branch, at, whole, variant.tag_repr.mem_align())?;
    Ok(())
}

/// The layout of a variant.
fn whole_layout(names: NamedLayouts, variant: &Variant) -> Result<SizeAlign, LayoutError>
    requires { NamesKnown names (variant_tree variant.now) }
    ensures exact { IfOk result (λ v. (v.size ≡ size_of (plain (variant_tree variant.now)))
        × (v.align ≡ align_of (plain (variant_tree variant.now)))) }
    ensures refusal { Judged (too_large (size_of (plain (variant_tree variant.now)) ∷ [])) result }
{
    match variant_layout(names, variant) {
        Ok(whole) => Ok(whole),
        Err(TooLarge) => Err(LayoutError::TooLarge),
    }
}

/// Adds the lines of a layout.
#[tactic(auto, using(crate::proofs::Grown::grown_rules))]
fn put_layout(
    branch: &mut Branch,
    at: &Place,
    whole: SizeAlign,
    tag: usize,
) -> Result<(), OutOfMemory>
    ensures { OnOk result (branch.new
        ≡ sprouted branch.old at.now.node (layout_nodes at.now.heading whole.size whole.align tag)) }
{
    put_section(branch, at, "Variant Layout")?;
    put_number(branch, at.node, "size", whole.size)?;
    put_number(branch, at.node, "align", whole.align)?;
    put_number(branch, at.node, "tag_size", tag)?;
    Ok(())
}

/// Adds a bullet that shows a number.
fn put_number(
    branch: &mut Branch,
    node: usize,
    word: &str,
    number: usize,
) -> Result<(), OutOfMemory>
    ensures { OnOk result (branch.new ≡ sprouted branch.old node (lone_node (number_section word.now number))) }
{
    let title = format!(in branch.allocator(); "{word}: {number}")?;
    put_group(branch, node, MdHeading::Bullet, &title)?;
    Ok(())
}

#[cycle(parts)]
fn put_cases(
    branch: &mut Branch,
    at: &Place,
    names: NamedLayouts,
    cases: &[Case],
) -> Result<(), LayoutError>
    requires { ArmNamesKnown names (arms_of (map case_arm cases.now)) }
    ensures nodes { OnOk result (branch.new ≡ sprouted branch.old at.now.node
        (case_nodes at.now.heading (option_map (λ id. id.now) at.now.id) (arms_of (map case_arm cases.now)))) }
    ensures refusal { Judged (too_large (cases_laid_out (arms_of (map case_arm cases.now)))) result }
{
    for case in cases {
        put_case(branch, at, names, case)?;
    }
    Ok(())
}

/// Adds a case, and the parts of its payload's type.
#[cycle(parts)]
fn put_case(
    branch: &mut Branch,
    at: &Place,
    names: NamedLayouts,
    case: &Case,
) -> Result<(), LayoutError>
    requires { PayloadKnown names (case_arm case.now).payload }
    ensures nodes { OnOk result (branch.new ≡ sprouted branch.old at.now.node
        (case_node at.now.heading (option_map (λ id. id.now) at.now.id) (case_arm case.now))) }
    ensures refusal { Judged (too_large (case_laid_out (case_arm case.now))) result }
{
    match &case.tref {
        Some(tref) => put_typed(
            branch,
            at,
            names,
            case.name.as_str(),
            case.docs.as_str(),
            tref,
        ),
        None => Ok(put_untyped(branch, at, case.name.as_str(), case.docs.as_str())?),
    }
}

/// Adds a bullet without a type.
pub fn put_untyped(
    branch: &mut Branch,
    at: &Place,
    name: &str,
    docs: &str,
) -> Result<(), OutOfMemory>
    ensures { OnOk result (branch.new ≡ sprouted branch.old at.now.node
        (lone_node (item (inner_id (option_map (λ id. id.now) at.now.id) name.now) name.now docs.now None))) }
{
    let id = at.inner_id(branch.allocator(), name)?;
    let content = bullet(branch.allocator(), id.as_str(), name, docs, None)?;
    branch.push(at.node, content)?;
    Ok(())
}
