//! Which conversions between values and words a type has.
#![tactic(auto, using(crate::proofs::KindLemmas::kind_rules))]

ghost use Rattle.std.specs.Prelude.{◌≡◌};
ghost use Rattle.witx_ast.specs.{Plain.{Plain, plain}, Views.{tree_of, datatype_tree, record_tree}};
ghost use Rattle.witx_ast.specs.Alike.{same_plain};
ghost use Rattle.witx_machine.specs.Functions.{by_address};
ghost use Rattle.witx_run.specs.Views.{scalar_of};
ghost use Rattle.witx_symbols.specs.{Symbolic.{has_kind, converts}, SymbolViews.{symbol_of}};
ghost use Rattle.witx_symbols.specs.Typing.{has_one_word, is_listed_type, is_pointer_type, is_const_pointer_type, is_handle_type, is_flags_type, is_enum_type};

use crate::symbol::Symbol;
use crate::types::alike;
use witx_ast::{BuiltinType, Datatype, NamedType, RecordDatatype, RecordKind, TypeRef};
use witx_machine::WasmType;
use witx_run::{Conversion, builtin_word_type, same_type};

/// Whether a type has the conversion: it is the builtin, a pointer, or alike to the named type, which
/// is of the kind.
pub fn fits(conversion: &Conversion<'_>, ty: &TypeRef) -> bool
    ensures { result ≡ has_kind (scalar_of conversion.now) (plain (tree_of ty.now)) }
{
    match conversion {
        Conversion::Number(builtin) => is_builtin(*builtin, ty.type_()),
        Conversion::Pointer => is_pointer(ty.type_()),
        Conversion::ConstPointer => is_const_pointer(ty.type_()),
        Conversion::Handle(named) => is_handle(named.tref.type_()) && alike(ty, &named.tref),
        Conversion::Flags(word, named) => {
            is_flags(*word, named.tref.type_()) && alike(ty, &named.tref)
        }
        Conversion::Enum(named) => is_enum(named.tref.type_()) && alike(ty, &named.tref),
    }
}

/// Whether a symbol is of a type that has the conversion.
pub fn converts(conversion: &Conversion<'_>, symbol: &Symbol) -> bool
    ensures { result ≡ converts (scalar_of conversion.now) (symbol_of symbol.now) }
{
    match symbol {
        Symbol::Atom { source: _, ty } => fits(conversion, ty),
        Symbol::Tuple(_)
        | Symbol::Made {
            case: _,
            payload: _,
        }
        | Symbol::BareMade { case: _ } => false,
    }
}

fn is_builtin(builtin: BuiltinType, datatype: &Datatype) -> bool
    ensures { result ≡ same_plain (plain (datatype_tree datatype.now)) (Plain.builtin builtin) }
{
    match datatype {
        Datatype::Builtin(own) => *own == builtin,
        _ => false,
    }
}

fn is_pointer(datatype: &Datatype) -> bool
    ensures { result ≡ is_pointer_type (plain (datatype_tree datatype.now)) }
{
    matches!(datatype, Datatype::Pointer(_))
}

fn is_const_pointer(datatype: &Datatype) -> bool
    ensures { result ≡ is_const_pointer_type (plain (datatype_tree datatype.now)) }
{
    matches!(datatype, Datatype::ConstPointer(_))
}

fn is_handle(datatype: &Datatype) -> bool
    ensures { result ≡ is_handle_type (plain (datatype_tree datatype.now)) }
{
    matches!(datatype, Datatype::Handle(_))
}

/// Whether a value of the type has one word, of this type.
pub(crate) fn has_one_word(word: WasmType, ty: &TypeRef) -> bool
    ensures { result ≡ has_one_word word (plain (tree_of ty.now)) }
{
    is_one_word(word, ty.type_())
}

fn is_one_word(word: WasmType, datatype: &Datatype) -> bool
    ensures { result ≡ has_one_word word (plain (datatype_tree datatype.now)) }
{
    match datatype {
        Datatype::List(_) => false,
        Datatype::Builtin(builtin) => same_type(word, builtin_word_type(*builtin)),
        Datatype::Record(record) => is_word_of_record(word, record),
        Datatype::Variant(_)
        | Datatype::Handle(_)
        | Datatype::Pointer(_)
        | Datatype::ConstPointer(_) => same_type(word, WasmType::I32),
    }
}

fn is_word_of_record(word: WasmType, members: &RecordDatatype) -> bool
    ensures { result ≡ has_one_word word (plain (record_tree members.now)) }
{
    match members.kind {
        RecordKind::Bitflags(repr) => same_type(word, WasmType::from(repr)),
        RecordKind::Tuple | RecordKind::Other => same_type(word, WasmType::I32),
    }
}

/// Whether a type is a list, names looked through.
pub(crate) fn is_list(ty: &TypeRef) -> bool
    ensures { result ≡ is_listed_type (plain (tree_of ty.now)) }
{
    is_list_datatype(ty.type_())
}

fn is_list_datatype(datatype: &Datatype) -> bool
    ensures { result ≡ is_listed_type (plain (datatype_tree datatype.now)) }
{
    matches!(datatype, Datatype::List(_))
}

fn is_flags(word: WasmType, datatype: &Datatype) -> bool
    ensures { result ≡ is_flags_type word (plain (datatype_tree datatype.now)) }
{
    match datatype {
        Datatype::Record(record) => is_flags_record(word, record),
        _ => false,
    }
}

fn is_flags_record(word: WasmType, members: &RecordDatatype) -> bool
    ensures { result ≡ is_flags_type word (plain (record_tree members.now)) }
{
    match members.kind {
        RecordKind::Bitflags(repr) => same_type(word, WasmType::from(repr)),
        RecordKind::Tuple | RecordKind::Other => false,
    }
}

fn is_enum(datatype: &Datatype) -> bool
    ensures { result ≡ is_enum_type (plain (datatype_tree datatype.now)) }
{
    match datatype {
        Datatype::Variant(variant) => variant.is_enum(),
        _ => false,
    }
}

/// Whether a value of the type is passed by address: a record that isn't flags, or a variant with a payload.
pub(crate) fn is_by_address(ty: &TypeRef) -> bool
    ensures { result ≡ by_address (plain (tree_of ty.now)) }
{
    is_datatype_by_address(ty.type_())
}

#[tactic(auto, using(crate::proofs::AddressLemmas::address_rules))]
fn is_datatype_by_address(datatype: &Datatype) -> bool
    ensures { result ≡ by_address (plain (datatype_tree datatype.now)) }
{
    match datatype {
        Datatype::Record(record) => is_record_by_address(record),
        Datatype::Variant(variant) => !variant.is_enum(),
        _ => false,
    }
}

fn is_record_by_address(members: &RecordDatatype) -> bool
    ensures { result ≡ by_address (plain (record_tree members.now)) }
{
    match members.kind {
        RecordKind::Bitflags(_) => false,
        RecordKind::Tuple | RecordKind::Other => true,
    }
}
