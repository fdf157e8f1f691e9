//! The names under which types are shown.
#![tactic(auto, using(crate::proofs::Naming::name_rules))]

ghost use Rattle.std.specs.Prelude.{◌≡◌, ◌++◌, IfOk, map, option_map, string_bytes, codes};
ghost use Rattle.witx_ast.specs.Tree.{list_of, fields_of, arms_of, behind};
ghost use Rattle.witx_ast.specs.Views.{tree_of, datatype_tree, record_tree, variant_tree, member_field, case_arm};
ghost use Rattle.witx_ast.specs.Words.{repr_builtin};
ghost use Rattle.witx_ast.specs.TypeNames.{type_text, tuple_text, result_text, separator, comma_joined, member_texts, payload_texts, payload_text, builtin_text, is_char};

use crate::types::{
    BuiltinType, Case, Datatype, IntRepr, RecordDatatype, RecordKind, RecordMember, TypeRef,
    Variant,
};
use std::alloc::Global;
use witx_base::{OutOfMemory, Text};

impl BuiltinType {
    /// The word of the builtin.
    pub fn type_name(&self) -> &'static str
        ensures { result.now ≡ builtin_text self.now }
    {
        match self {
            BuiltinType::Char => "char",
            BuiltinType::U8 { lang_c_char: _ } => "u8",
            BuiltinType::U16 => "u16",
            BuiltinType::U32 { lang_ptr_size } => { if *lang_ptr_size { "usize" } else { "u32" } }
            BuiltinType::U64 => "u64",
            BuiltinType::S8 => "s8",
            BuiltinType::S16 => "s16",
            BuiltinType::S32 => "s32",
            BuiltinType::S64 => "s64",
            BuiltinType::F32 => "f32",
            BuiltinType::F64 => "f64",
        }
    }
}

impl IntRepr {
    /// The plain unsigned builtin of the same width.
    pub fn to_builtin(&self) -> BuiltinType
        ensures { result ≡ repr_builtin self.now }
    {
        match self {
            IntRepr::U8 => BuiltinType::U8 { lang_c_char: false },
            IntRepr::U16 => BuiltinType::U16,
            IntRepr::U32 => BuiltinType::U32 {
                lang_ptr_size: false,
            },
            IntRepr::U64 => BuiltinType::U64,
        }
    }
}

/// So many bytes have room at once, which most names take.
const ROOM: usize = 32;

impl TypeRef {
    /// The name under which the type is shown.
    pub fn type_name(&self, alloc: Global) -> Result<Text, OutOfMemory>
        ensures { IfOk result (λ t. t ≡ type_text (tree_of self.now)) }
    {
        let mut out = String::with_capacity(alloc, ROOM)?;
        put_type(&mut out, self)?;
        Ok(Text::from_string(out))
    }

    fn is_char(&self) -> bool
        ensures { result ≡ is_char (behind (tree_of self.now)) }
    {
        matches!(&**self.type_(), Datatype::Builtin(BuiltinType::Char))
    }
}

fn put(out: &mut String, text: &str) -> Result<(), OutOfMemory>
    ensures { IfOk result (λ _. string_bytes out.new ≡ string_bytes out.old ++ text.now) }
{
    out.push_str(text)?;
    Ok(())
}

#[cycle(naming)]
fn put_type(out: &mut String, tref: &TypeRef) -> Result<(), OutOfMemory>
    ensures { IfOk result (λ _. string_bytes out.new ≡ string_bytes out.old ++ type_text (tree_of tref.now)) }
{
    match tref {
        TypeRef::Name(named) => put(out, named.name.as_str()),
        TypeRef::Value(datatype) => put_datatype(out, datatype),
    }
}

#[cycle(naming)]
fn put_datatype(out: &mut String, datatype: &Datatype) -> Result<(), OutOfMemory>
    ensures { IfOk result (λ _. string_bytes out.new ≡ string_bytes out.old ++ type_text (datatype_tree datatype.now)) }
{
    match datatype {
        Datatype::Record(record) => put_record(out, record),
        Datatype::Variant(variant) => put_variant(out, variant),
        Datatype::Handle(_) => put(out, "Handle"),
        Datatype::List(tref) => put_list(out, tref),
        Datatype::Pointer(tref) => put_around(out, "Pointer<", tref),
        Datatype::ConstPointer(tref) => put_around(out, "ConstPointer<", tref),
        Datatype::Builtin(builtin) => put(out, builtin.type_name()),
    }
}

#[cycle(naming)]
fn put_list(out: &mut String, tref: &TypeRef) -> Result<(), OutOfMemory>
    ensures { IfOk result (λ _. string_bytes out.new ≡ string_bytes out.old ++ type_text (list_of (tree_of tref.now))) }
{
    if tref.is_char() {
        put(out, "string")
    } else {
        put_around(out, "List<", tref)
    }
}

#[cycle(naming)]
fn put_around(out: &mut String, opening: &str, tref: &TypeRef) -> Result<(), OutOfMemory>
    ensures { IfOk result (λ _. string_bytes out.new
        ≡ string_bytes out.old ++ (opening.now ++ type_text (tree_of tref.now) ++ codes ">")) }
{
    put(out, opening)?;
    put_type(out, tref)?;
    put(out, ">")
}

#[cycle(naming)]
fn put_record(out: &mut String, record_type: &RecordDatatype) -> Result<(), OutOfMemory>
    ensures { IfOk result (λ _. string_bytes out.new ≡ string_bytes out.old ++ type_text (record_tree record_type.now)) }
{
    match record_type.kind {
        RecordKind::Tuple => put_tuple(out, record_type.members.as_slice()),
        RecordKind::Bitflags(_) | RecordKind::Other => put(out, "Record"),
    }
}

#[cycle(naming)]
fn put_tuple(out: &mut String, members: &[RecordMember]) -> Result<(), OutOfMemory>
    ensures { IfOk result (λ _. string_bytes out.new
        ≡ string_bytes out.old ++ tuple_text (member_texts (fields_of (map member_field members.now)))) }
{
    put(out, "(")?;
    put_members(out, members)?;
    put(out, ")")
}

#[cycle(naming)]
fn put_members(out: &mut String, members: &[RecordMember]) -> Result<(), OutOfMemory>
    ensures { IfOk result (λ _. string_bytes out.new
        ≡ string_bytes out.old ++ comma_joined (member_texts (fields_of (map member_field members.now)))) }
{
    let mut first = true;
    for member in members {
        put_member(out, first, member)?;
        first = false;
    }
    Ok(())
}

#[cycle(naming)]
fn put_member(out: &mut String, first: bool, member: &RecordMember) -> Result<(), OutOfMemory>
    ensures { IfOk result (λ _. string_bytes out.new
        ≡ string_bytes out.old ++ (separator first ++ type_text (tree_of member.now.tref))) }
{
    if !first {
        put(out, ", ")?;
    }
    put_type(out, &member.tref)
}

#[cycle(naming)]
fn put_variant(out: &mut String, variant: &Variant) -> Result<(), OutOfMemory>
    ensures { IfOk result (λ _. string_bytes out.new ≡ string_bytes out.old ++ type_text (variant_tree variant.now)) }
{
    if variant.as_expected().is_some() {
        put_result(out, variant.cases.as_slice())
    } else if variant.is_bool() {
        put(out, "bool")
    } else {
        put(out, "Variant")
    }
}

#[cycle(naming)]
fn put_result(out: &mut String, cases: &[Case]) -> Result<(), OutOfMemory>
    ensures { IfOk result (λ _. string_bytes out.new
        ≡ string_bytes out.old ++ result_text (payload_texts (arms_of (map case_arm cases.now)))) }
{
    put(out, "Result<")?;
    put_payloads(out, cases)?;
    put(out, ">")
}

#[cycle(naming)]
fn put_payloads(out: &mut String, cases: &[Case]) -> Result<(), OutOfMemory>
    ensures { IfOk result (λ _. string_bytes out.new
        ≡ string_bytes out.old ++ comma_joined (payload_texts (arms_of (map case_arm cases.now)))) }
{
    let mut first = true;
    for case in cases {
        put_payload(out, first, case)?;
        first = false;
    }
    Ok(())
}

#[cycle(naming)]
fn put_payload(out: &mut String, first: bool, case: &Case) -> Result<(), OutOfMemory>
    ensures { IfOk result (λ _. string_bytes out.new
        ≡ string_bytes out.old ++ (separator first ++ payload_text (option_map tree_of case.now.tref))) }
{
    if !first {
        put(out, ", ")?;
    }
    match &case.tref {
        Some(tref) => put_type(out, tref),
        None => put(out, "()"),
    }
}
