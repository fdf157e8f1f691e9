//! The typedef of a typename.
#![tactic(auto, using(crate::proofs::Typing::typing_rules))]

ghost use Rattle.std.specs.Prelude.{◌≡◌, ◌++◌, OnOk, map, option_map, string_bytes};
ghost use Rattle.witx_ast.specs.Tree.{arms_of, fields_of};
ghost use Rattle.witx_ast.specs.Views.{case_arm, datatype_tree, member_field, record_tree, tree_of, variant_tree};
ghost use Rattle.witx_header.specs.CTypes.{type_text};
ghost use Rattle.witx_header.specs.Typedefs.{body_text, case_payload, member_lines, c_part_lines, payload_lines, struct_begin, struct_body, tagged_body, typedef_lines};

use crate::comments::put_comment;
use crate::names::{put_member_name, put_typedef_name};
use crate::types::{put_datatype, put_type, repr_word};
use std::alloc::AllocError;
use witx_ast::{Case, Datatype, RecordDatatype, RecordKind, RecordMember, TypeRef, Variant};
use witx_base::{Id, Text};

/// Appends the typedef of a typename. A record that isn't flags and a variant with a payload are written part by part,
/// each below its documentation.
pub fn put_typedef(text: &mut String, name: &str, tref: &TypeRef) -> Result<(), AllocError>
    ensures { OnOk result (string_bytes text.new ≡ string_bytes text.old ++ typedef_lines name.now (tree_of tref.now)) }
{
    text.push_str("typedef ")?;
    put_body(text, name, tref)?;
    text.push(' ')?;
    put_typedef_name(text, name)?;
    text.push_str(";\n")
}

fn put_body(text: &mut String, name: &str, tref: &TypeRef) -> Result<(), AllocError>
    ensures { OnOk result (string_bytes text.new ≡ string_bytes text.old ++ body_text name.now (tree_of tref.now)) }
{
    match tref {
        TypeRef::Name(_) => put_type(text, tref),
        TypeRef::Value(datatype) => put_value(text, name, datatype),
    }
}

fn put_value(text: &mut String, name: &str, datatype: &Datatype) -> Result<(), AllocError>
    ensures { OnOk result (string_bytes text.new
        ≡ string_bytes text.old ++ body_text name.now (datatype_tree datatype.now)) }
{
    match datatype {
        Datatype::Record(record) => put_record_body(text, name, record),
        Datatype::Variant(variant) => put_variant_body(text, name, variant),
        _ => put_datatype(text, datatype),
    }
}

fn put_record_body(
    text: &mut String,
    name: &str,
    record_type: &RecordDatatype,
) -> Result<(), AllocError>
    ensures { OnOk result (string_bytes text.new
        ≡ string_bytes text.old ++ body_text name.now (record_tree record_type.now)) }
{
    match record_type.kind {
        RecordKind::Bitflags(repr) => text.push_str(repr_word(repr)),
        RecordKind::Tuple | RecordKind::Other => put_struct_body(
            text,
            name,
            record_type.members.as_slice(),
        ),
    }
}

fn put_struct_body(
    text: &mut String,
    name: &str,
    members: &[RecordMember],
) -> Result<(), AllocError>
    ensures { OnOk result (string_bytes text.new
        ≡ string_bytes text.old ++ struct_body name.now (fields_of (map member_field members.now))) }
{
    put_struct_begin(text, name)?;
    put_member_lines(text, members)?;
    text.push_str("}")
}

fn put_struct_begin(text: &mut String, name: &str) -> Result<(), AllocError>
    ensures { OnOk result (string_bytes text.new ≡ string_bytes text.old ++ struct_begin name.now) }
{
    text.push_str("struct ")?;
    put_typedef_name(text, name)?;
    text.push_str(" {\n")
}

fn put_member_lines(text: &mut String, members: &[RecordMember]) -> Result<(), AllocError>
    ensures { OnOk result (string_bytes text.new
        ≡ string_bytes text.old ++ member_lines (fields_of (map member_field members.now))) }
{
    for member in members {
        put_part_lines(text, "    ", &member.tref, &member.name, &member.docs)?;
    }
    Ok(())
}

/// Appends a part of a struct or a union on a line of its own, below its documentation.
fn put_part_lines(
    text: &mut String,
    margin: &str,
    tref: &TypeRef,
    name: &Id,
    docs: &Text,
) -> Result<(), AllocError>
    ensures { OnOk result (string_bytes text.new ≡ string_bytes text.old
        ++ c_part_lines margin.now (type_text (tree_of tref.now)) name.now docs.now) }
{
    put_comment(text, margin, docs.as_str())?;
    text.push_str(margin)?;
    put_type(text, tref)?;
    text.push(' ')?;
    put_member_name(text, name.as_str())?;
    text.push_str(";\n")
}

fn put_variant_body(text: &mut String, name: &str, variant: &Variant) -> Result<(), AllocError>
    ensures { OnOk result (string_bytes text.new ≡ string_bytes text.old ++ body_text name.now (variant_tree variant.now)) }
{
    if variant.is_enum() {
        text.push_str(repr_word(variant.tag_repr))
    } else {
        put_tagged_body(
            text,
            name,
            repr_word(variant.tag_repr),
            variant.cases.as_slice(),
        )
    }
}

fn put_tagged_body(
    text: &mut String,
    name: &str,
    tag: &str,
    cases: &[Case],
) -> Result<(), AllocError>
    ensures { OnOk result (string_bytes text.new
        ≡ string_bytes text.old ++ tagged_body name.now tag.now (arms_of (map case_arm cases.now))) }
{
    put_struct_begin(text, name)?;
    write!(text, "    {tag} tag;\n    union {{\n")?;
    put_payload_lines(text, cases)?;
    text.push_str("    } u;\n}")
}

fn put_payload_lines(text: &mut String, cases: &[Case]) -> Result<(), AllocError>
    ensures { OnOk result (string_bytes text.new
        ≡ string_bytes text.old ++ payload_lines (arms_of (map case_arm cases.now))) }
{
    for case in cases {
        put_case_payload(text, case)?;
    }
    Ok(())
}

fn put_case_payload(text: &mut String, case: &Case) -> Result<(), AllocError>
    ensures { OnOk result (string_bytes text.new ≡ string_bytes text.old
        ++ case_payload case.now.name (option_map tree_of case.now.tref) case.now.docs) }
{
    match &case.tref {
        Some(tref) => put_part_lines(text, "        ", tref, &case.name, &case.docs),
        None => Ok(()),
    }
}
