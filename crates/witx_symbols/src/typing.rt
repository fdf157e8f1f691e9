//! Which symbols are of a type.
#![tactic(auto, using(crate::proofs::TypingLemmas::typing_rules))]

ghost use Rattle.std.specs.Prelude.{◌≡◌, option_map};
ghost use Rattle.witx_ast.specs.{Plain.{plain}, Views.{tree_of, datatype_tree, members_plain}};
ghost use Rattle.witx_symbols.specs.{Symbols.{is_of, are_of, tuple}, SymbolViews.{symbol_of, symbols_read}};
ghost use Rattle.witx_symbols.specs.Typing.{is_tuple_type, tuple_fields};

use crate::symbol::Symbol;
use crate::wholes::same_whole;
use std::rc::Rc;
use witx_ast::{Datatype, RecordMember, TypeRef};

/// Whether a symbol is of a type; a tuple by its parts, whatever the names of the type's members.
#[cycle(typing)]
pub fn is_of(symbol: &Symbol, ty: &TypeRef) -> bool
    ensures { result ≡ is_of (plain (tree_of ty.now)) (symbol_of symbol.now) }
{
    match symbol {
        Symbol::Atom { source: _, ty: own } => same_whole(own, ty),
        Symbol::Tuple(parts) => parts_are(parts.as_slice(), ty.type_()),
        Symbol::Made {
            case: _,
            payload: _,
        } => false,
        Symbol::BareMade { case: _ } => false,
    }
}

/// The members of a tuple type; none of another type.
pub(crate) fn tuple_members(datatype: &Datatype) -> Option<&[RecordMember]>
    ensures { option_map (λ ms. members_plain ms.now) result ≡ tuple_fields (plain (datatype_tree datatype.now)) }
{
    match datatype {
        Datatype::Record(record) if record.is_tuple() => Some(record.members.as_slice()),
        _ => None,
    }
}

/// Whether a type is a tuple.
pub(crate) fn is_tuple(datatype: &Datatype) -> bool
    ensures { result ≡ is_tuple_type (plain (datatype_tree datatype.now)) }
{
    tuple_members(datatype).is_some()
}

#[cycle(typing)]
fn parts_are(parts: &[Rc<Symbol>], datatype: &Datatype) -> bool
    ensures { result ≡ is_of (plain (datatype_tree datatype.now)) (tuple (symbols_read parts.now)) }
{
    match tuple_members(datatype) {
        Some(members) => all_are(parts, members),
        None => false,
    }
}

#[cycle(typing)]
fn all_are(parts: &[Rc<Symbol>], members: &[RecordMember]) -> bool
    ensures { result ≡ are_of (members_plain members.now) (symbols_read parts.now) }
{
    if parts.len() != members.len() {
        return false;
    }
    for i in 0..parts.len() {
        if !is_of(&parts[i], &members[i].tref) {
            return false;
        }
    }
    true
}
