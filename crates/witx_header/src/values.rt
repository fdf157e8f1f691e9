//! The values of a typename's flags or cases, as macros.
#![tactic(auto, using(crate::proofs::Typing::typing_rules))]

ghost use Rattle.std.specs.Prelude.{◌≡◌, ◌++◌, OnOk, map, string_bytes};
ghost use Rattle.witx_ast.specs.Tree.{fields_of};
ghost use Rattle.witx_ast.specs.Views.{case_arm, datatype_tree, member_field, record_tree, tree_of, variant_tree};
ghost use Rattle.witx_header.specs.Typedefs.{bit, case_line, case_lines, constant_macro, define, flag_line, flag_lines, value_lines};

use crate::comments::put_comment;
use crate::names::put_upper;
use std::alloc::AllocError;
use std::fmt::Write;
use witx_ast::{
    Case, Datatype, IntRepr, RecordDatatype, RecordKind, RecordMember, TypeRef, Variant,
};

/// Appends a macro for each flag or case of a typename's type, below its documentation; other types, and names, have
/// none.
pub fn put_values(text: &mut String, name: &str, tref: &TypeRef) -> Result<(), AllocError>
    ensures { OnOk result (string_bytes text.new ≡ string_bytes text.old ++ value_lines name.now (tree_of tref.now)) }
{
    match tref {
        TypeRef::Name(_) => Ok(()),
        TypeRef::Value(datatype) => put_values_of(text, name, datatype),
    }
}

fn put_values_of(text: &mut String, name: &str, datatype: &Datatype) -> Result<(), AllocError>
    ensures { OnOk result (string_bytes text.new
        ≡ string_bytes text.old ++ value_lines name.now (datatype_tree datatype.now)) }
{
    match datatype {
        Datatype::Record(record) => put_flags_of(text, name, record),
        Datatype::Variant(variant) => put_cases_of(text, name, variant),
        _ => Ok(()),
    }
}

fn put_flags_of(
    text: &mut String,
    name: &str,
    record_type: &RecordDatatype,
) -> Result<(), AllocError>
    ensures { OnOk result (string_bytes text.new
        ≡ string_bytes text.old ++ value_lines name.now (record_tree record_type.now)) }
{
    match record_type.kind {
        RecordKind::Bitflags(repr) => put_flags(text, name, repr, record_type.members.as_slice()),
        RecordKind::Tuple | RecordKind::Other => Ok(()),
    }
}

fn put_flags(
    text: &mut String,
    name: &str,
    repr: IntRepr,
    members: &[RecordMember],
) -> Result<(), AllocError>
    ensures { OnOk result (string_bytes text.new
        ≡ string_bytes text.old ++ flag_lines name.now repr 0 (fields_of (map member_field members.now))) }
{
    for (place, member) in members.iter().enumerate() {
        put_flag(text, name, repr, place, member)?;
    }
    Ok(())
}

fn put_flag(
    text: &mut String,
    name: &str,
    repr: IntRepr,
    place: usize,
    member: &RecordMember,
) -> Result<(), AllocError>
    ensures { OnOk result (string_bytes text.new
        ≡ string_bytes text.old ++ flag_line name.now repr place member.now.name member.now.docs) }
{
    put_comment(text, "", member.docs.as_str())?;
    put_define(text, name, member.name.as_str())?;
    put_bit(text, repr, place)?;
    Ok(())
}

fn put_bit(text: &mut String, repr: IntRepr, place: usize) -> Result<(), AllocError>
    ensures { OnOk result (string_bytes text.new ≡ string_bytes text.old ++ bit repr place) }
{
    let literal = constant_macro(repr);
    write!(text, "({literal}1) << {place})\n")
}

fn put_cases_of(text: &mut String, name: &str, variant: &Variant) -> Result<(), AllocError>
    ensures { OnOk result (string_bytes text.new
        ≡ string_bytes text.old ++ value_lines name.now (variant_tree variant.now)) }
{
    put_cases(text, name, variant.tag_repr, variant.cases.as_slice())
}

fn put_cases(text: &mut String, name: &str, repr: IntRepr, cases: &[Case]) -> Result<(), AllocError>
    ensures { OnOk result (string_bytes text.new
        ≡ string_bytes text.old ++ case_lines name.now repr 0 (map case_arm cases.now)) }
{
    for (place, case) in cases.iter().enumerate() {
        put_case(text, name, repr, place, case)?;
    }
    Ok(())
}

fn put_case(
    text: &mut String,
    name: &str,
    repr: IntRepr,
    place: usize,
    case: &Case,
) -> Result<(), AllocError>
    ensures { OnOk result (string_bytes text.new
        ≡ string_bytes text.old ++ case_line name.now repr place case.now.name case.now.docs) }
{
    put_comment(text, "", case.docs.as_str())?;
    put_define(text, name, case.name.as_str())?;
    let literal = constant_macro(repr);
    write!(text, "{literal}{place})\n")
}

/// Appends the begin of a macro's definition, named after a type and a part of it.
pub fn put_define(text: &mut String, name: &str, part: &str) -> Result<(), AllocError>
    ensures { OnOk result (string_bytes text.new ≡ string_bytes text.old ++ define name.now part.now) }
{
    text.push_str("#define __WASI_")?;
    put_upper(text, name)?;
    text.push_str("_")?;
    put_upper(text, part)?;
    text.push_str(" ")
}

fn constant_macro(repr: IntRepr) -> &'static str
    ensures { result.now ≡ constant_macro repr }
{
    match repr {
        IntRepr::U8 => "UINT8_C(",
        IntRepr::U16 => "UINT16_C(",
        IntRepr::U32 => "UINT32_C(",
        IntRepr::U64 => "UINT64_C(",
    }
}
