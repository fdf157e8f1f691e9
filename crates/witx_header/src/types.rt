//! The type of C for a type.
#![tactic(auto, using(crate::proofs::Typing::typing_rules))]

ghost use Rattle.std.specs.Prelude.{◌≡◌, ◌++◌, OnOk, map, option_map, string_bytes};
ghost use Rattle.witx_ast.specs.{Tree.{arms_of, fields_of, list_of}, TypeNames.{is_char}, Tree.{behind}};
ghost use Rattle.witx_ast.specs.Views.{case_arm, datatype_tree, member_field, named_tree, record_tree, tree_of, variant_tree};
ghost use Rattle.witx_header.specs.CTypes.{builtin_word, members_text, member_text, c_payload_text, payloads_text, c_repr_word, struct_text, tagged_text, type_text, c_word};

use crate::names::{put_member_name, put_typedef_name};
use std::alloc::AllocError;
use witx_ast::{
    BuiltinType, Case, Datatype, IntRepr, NamedType, RecordDatatype, RecordKind, RecordMember,
    TypeRef, Variant,
};
use witx_machine::WasmType;

/// Appends the type of C for a type, on one line.
#[cycle(typing)]
pub fn put_type(text: &mut String, tref: &TypeRef) -> Result<(), AllocError>
    ensures { OnOk result (string_bytes text.new ≡ string_bytes text.old ++ type_text (tree_of tref.now)) }
{
    match tref {
        TypeRef::Name(named) => put_typedef_name(text, named.name.as_str()),
        TypeRef::Value(datatype) => put_datatype(text, datatype),
    }
}

/// Appends the type of C for a typename.
pub fn put_typename(text: &mut String, named: &NamedType) -> Result<(), AllocError>
    ensures { OnOk result (string_bytes text.new ≡ string_bytes text.old ++ type_text (named_tree named.now)) }
{
    put_typedef_name(text, named.name.as_str())
}

/// Appends the type of C for a type that is written out, on one line.
#[cycle(typing)]
pub fn put_datatype(text: &mut String, datatype: &Datatype) -> Result<(), AllocError>
    ensures { OnOk result (string_bytes text.new ≡ string_bytes text.old ++ type_text (datatype_tree datatype.now)) }
{
    match datatype {
        Datatype::Record(record) => put_record(text, record),
        Datatype::Variant(variant) => put_variant(text, variant),
        Datatype::Handle(_) => text.push_str("int"),
        Datatype::List(tref) => put_list(text, tref),
        Datatype::Pointer(tref) => put_pointer(text, tref, " *"),
        Datatype::ConstPointer(tref) => put_pointer(text, tref, " const *"),
        Datatype::Builtin(builtin) => text.push_str(builtin_word(*builtin)),
    }
}

#[cycle(typing)]
fn put_list(text: &mut String, tref: &TypeRef) -> Result<(), AllocError>
    ensures { OnOk result (string_bytes text.new ≡ string_bytes text.old ++ type_text (list_of (tree_of tref.now))) }
{
    text.push_str("struct { ")?;
    if is_char(tref) {
        text.push_str("char")?;
    } else {
        put_type(text, tref)?;
    }
    text.push_str(" const *ptr; size_t len; }")
}

fn is_char(tref: &TypeRef) -> bool
    ensures { result ≡ is_char (behind (tree_of tref.now)) }
{
    matches!(&**tref.type_(), Datatype::Builtin(BuiltinType::Char))
}

#[cycle(typing)]
fn put_pointer(text: &mut String, tref: &TypeRef, star: &str) -> Result<(), AllocError>
    ensures { OnOk result (string_bytes text.new ≡ string_bytes text.old ++ (type_text (tree_of tref.now) ++ star.now)) }
{
    put_type(text, tref)?;
    text.push_str(star)
}

#[cycle(typing)]
fn put_record(text: &mut String, record_type: &RecordDatatype) -> Result<(), AllocError>
    ensures { OnOk result (string_bytes text.new ≡ string_bytes text.old ++ type_text (record_tree record_type.now)) }
{
    match record_type.kind {
        RecordKind::Bitflags(repr) => text.push_str(repr_word(repr)),
        RecordKind::Tuple | RecordKind::Other => put_struct(text, record_type.members.as_slice()),
    }
}

#[cycle(typing)]
fn put_struct(text: &mut String, members: &[RecordMember]) -> Result<(), AllocError>
    ensures { OnOk result (string_bytes text.new
        ≡ string_bytes text.old ++ struct_text (members_text (fields_of (map member_field members.now)))) }
{
    text.push_str("struct { ")?;
    put_members(text, members)?;
    text.push_str("}")
}

#[cycle(typing)]
fn put_members(text: &mut String, members: &[RecordMember]) -> Result<(), AllocError>
    ensures { OnOk result (string_bytes text.new
        ≡ string_bytes text.old ++ members_text (fields_of (map member_field members.now))) }
{
    for member in members {
        put_part(text, &member.tref, member.name.as_str())?;
    }
    Ok(())
}

#[cycle(typing)]
fn put_part(text: &mut String, tref: &TypeRef, name: &str) -> Result<(), AllocError>
    ensures { OnOk result (string_bytes text.new
        ≡ string_bytes text.old ++ member_text (type_text (tree_of tref.now)) name.now) }
{
    put_type(text, tref)?;
    text.push(' ')?;
    put_member_name(text, name)?;
    text.push_str("; ")
}

#[cycle(typing)]
fn put_variant(text: &mut String, variant: &Variant) -> Result<(), AllocError>
    ensures { OnOk result (string_bytes text.new ≡ string_bytes text.old ++ type_text (variant_tree variant.now)) }
{
    if variant.is_enum() {
        text.push_str(repr_word(variant.tag_repr))
    } else {
        put_tagged(text, repr_word(variant.tag_repr), variant.cases.as_slice())
    }
}

#[cycle(typing)]
fn put_tagged(text: &mut String, tag: &str, cases: &[Case]) -> Result<(), AllocError>
    ensures { OnOk result (string_bytes text.new
        ≡ string_bytes text.old ++ tagged_text tag.now (payloads_text (arms_of (map case_arm cases.now)))) }
{
    text.push_str("struct { ")?;
    text.push_str(tag)?;
    text.push_str(" tag; union { ")?;
    put_payloads(text, cases)?;
    text.push_str("} u; }")
}

#[cycle(typing)]
fn put_payloads(text: &mut String, cases: &[Case]) -> Result<(), AllocError>
    ensures { OnOk result (string_bytes text.new
        ≡ string_bytes text.old ++ payloads_text (arms_of (map case_arm cases.now))) }
{
    for case in cases {
        put_payload(text, case)?;
    }
    Ok(())
}

#[cycle(typing)]
fn put_payload(text: &mut String, case: &Case) -> Result<(), AllocError>
    ensures { OnOk result (string_bytes text.new
        ≡ string_bytes text.old ++ c_payload_text case.now.name (option_map tree_of case.now.tref)) }
{
    match &case.tref {
        Some(tref) => put_part(text, tref, case.name.as_str()),
        None => Ok(()),
    }
}

/// The unsigned integer of C that flags and tags are kept in.
pub fn repr_word(repr: IntRepr) -> &'static str
    ensures { result.now ≡ c_repr_word repr }
{
    builtin_word(repr.to_builtin())
}

fn builtin_word(builtin: BuiltinType) -> &'static str
    ensures { result.now ≡ builtin_word builtin }
{
    match builtin {
        BuiltinType::Char => "uint32_t",
        BuiltinType::U8 { lang_c_char } => { if lang_c_char { "char" } else { "uint8_t" } }
        BuiltinType::U16 => "uint16_t",
        BuiltinType::U32 { lang_ptr_size } => { if lang_ptr_size { "size_t" } else { "uint32_t" } }
        BuiltinType::U64 => "uint64_t",
        BuiltinType::S8 => "int8_t",
        BuiltinType::S16 => "int16_t",
        BuiltinType::S32 => "int32_t",
        BuiltinType::S64 => "int64_t",
        BuiltinType::F32 => "float",
        BuiltinType::F64 => "double",
    }
}

/// The type of C for a word: that of the builtin of its size.
pub fn wasm_word(word: WasmType) -> &'static str
    ensures { result.now ≡ c_word word }
{
    builtin_word(match word {
        WasmType::I32 => BuiltinType::S32,
        WasmType::I64 => BuiltinType::S64,
        WasmType::F32 => BuiltinType::F32,
        WasmType::F64 => BuiltinType::F64,
    })
}
