//! The layouts of types that don't depend on those of their parts.
#![tactic(auto, using(crate::proofs::FlatLayouts::flat_rules))]

ghost use Rattle.std.specs.Prelude.{◌≡◌, true, Some, None, IfSome, if◌then◌else◌};
ghost use Rattle.witx_ast.specs.{Plain.{plain}, Views.{tree_of, datatype_tree, record_tree}};
ghost use Rattle.witx_layout.specs.{Known.{is_flat}, Layouts.{layout_of}};

use crate::layout::{Layout, SizeAlign};
use witx_ast::{Datatype, RecordDatatype, RecordKind, TypeRef};

/// The layout of a type that is written out flat: a scalar, a handle, a list, a pointer or flags.
pub fn written_flat(tref: &TypeRef) -> Option<SizeAlign>
    ensures { IfSome result (λ layout.
        (layout ≡ layout_of (tree_of tref.now)) × (is_flat (plain (tree_of tref.now)) ≡ true)) }
{
    match tref {
        TypeRef::Name(_) => None,
        TypeRef::Value(datatype) => flat_layout(datatype),
    }
}

/// The layout of a type that is flat; none for a variant, and for a record that isn't flags.
pub fn flat_layout(datatype: &Datatype) -> Option<SizeAlign>
    ensures { result ≡ (if is_flat (plain (datatype_tree datatype.now))
        then Some (layout_of (datatype_tree datatype.now)) else None) }
{
    match datatype {
        Datatype::Record(record) => flags_layout(record),
        Datatype::Variant(_) => None,
        Datatype::Handle(_)
        | Datatype::List(_)
        | Datatype::Pointer(_)
        | Datatype::ConstPointer(_)
        | Datatype::Builtin(_) => datatype.mem_size_align().ok(),
    }
}

fn flags_layout(record_type: &RecordDatatype) -> Option<SizeAlign>
    ensures { result ≡ (if is_flat (plain (record_tree record_type.now))
        then Some (layout_of (record_tree record_type.now)) else None) }
{
    match record_type.kind {
        RecordKind::Bitflags(_) => record_type.mem_size_align().ok(),
        RecordKind::Tuple | RecordKind::Other => None,
    }
}
