//! Symbols that stand for all their parts without these being made: which types have the same ones, and where a symbol
//! comes from as a whole.
#![tactic(auto, using(crate::proofs::WholeLemmas::whole_rules))]

ghost use Rattle.std.specs.Prelude.{◌≡◌, ◌&&◌, not};
ghost use Rattle.witx_ast.specs.{Alike.{same_plain}, Plain.{Plain, plain}};
ghost use Rattle.witx_ast.specs.Views.{tree_of, datatype_tree, members_plain};
ghost use Rattle.witx_ast.specs.declared.types.RecordKind.{RecordKind};
ghost use Rattle.witx_symbols.specs.Symbols as symbols;
ghost use Rattle.witx_symbols.specs.Symbols.{tuple, same_symbol, same_members, same_source, symbol_from, parts_from};
ghost use Rattle.witx_symbols.specs.SymbolViews.{source_of, symbol_of, symbols_read};
ghost use Rattle.witx_symbols.specs.Wholes.{same_whole, same_wholes, has_no_atom, have_no_atom, comes_from};
ghost use Rattle.witx_symbols.specs.Typing.{is_tuple_type};

use crate::symbol::{Source, Symbol, same_source};
use crate::types::datatypes_alike;
use crate::typing::{is_tuple, tuple_members};
use std::rc::Rc;
use witx_ast::{Datatype, RecordMember, TypeRef};

/// Whether two types have the same symbols: tuples by their members' types, whatever the members' names, all others
/// where they are alike.
#[cycle(whole)]
pub(crate) fn same_whole(own: &TypeRef, other: &TypeRef) -> bool
    ensures { result ≡ same_whole (plain (tree_of own.now)) (plain (tree_of other.now)) }
{
    let mut tref = own;
    loop {
        match tref {
            TypeRef::Name(named) => tref = &named.tref,
            TypeRef::Value(datatype) => return same_written(datatype, other.type_()),
        }
    }
}

#[cycle(whole)]
fn same_written(own: &Datatype, other: &Datatype) -> bool
    ensures { result ≡ same_whole (plain (datatype_tree own.now)) (plain (datatype_tree other.now)) }
{
    match own {
        Datatype::Record(record) if record.is_tuple() => {
            same_tuple(record.members.as_slice(), other)
        }
        _ => same_atom(own, other),
    }
}

fn same_atom(own: &Datatype, other: &Datatype) -> bool
    ensures { result ≡ not (is_tuple_type (plain (datatype_tree other.now)))
        && same_plain (plain (datatype_tree own.now)) (plain (datatype_tree other.now)) }
{
    !is_tuple(other) && datatypes_alike(own, other)
}

#[cycle(whole)]
fn same_tuple(members: &[RecordMember], other: &Datatype) -> bool
    ensures { result ≡ same_whole (Plain.record_of RecordKind.Tuple (members_plain members.now))
        (plain (datatype_tree other.now)) }
{
    match tuple_members(other) {
        Some(others) => members_same(members, others),
        None => false,
    }
}

#[cycle(whole)]
fn members_same(members: &[RecordMember], others: &[RecordMember]) -> bool
    ensures { result ≡ same_wholes (members_plain members.now) (members_plain others.now) }
{
    if members.len() != others.len() {
        return false;
    }
    for i in 0..members.len() {
        if !same_whole(&members[i].tref, &others[i].tref) {
            return false;
        }
    }
    true
}

/// Whether the symbols of a type have no atom.
#[cycle(bare)]
pub(crate) fn has_no_atom(ty: &TypeRef) -> bool
    ensures { result ≡ has_no_atom (plain (tree_of ty.now)) }
{
    let mut tref = ty;
    loop {
        match tref {
            TypeRef::Name(named) => tref = &named.tref,
            TypeRef::Value(datatype) => return written_has_none(datatype),
        }
    }
}

#[cycle(bare)]
fn written_has_none(datatype: &Datatype) -> bool
    ensures { result ≡ has_no_atom (plain (datatype_tree datatype.now)) }
{
    match datatype {
        Datatype::Record(record) if record.is_tuple() => have_no_atom(record.members.as_slice()),
        _ => false,
    }
}

#[cycle(bare)]
fn have_no_atom(members: &[RecordMember]) -> bool
    ensures { result ≡ have_no_atom (members_plain members.now) }
{
    for i in 0..members.len() {
        if !has_no_atom(&members[i].tref) {
            return false;
        }
    }
    true
}

/// Where a symbol comes from, if it is the one of a type from there.
#[derive(Clone, Copy)]
pub(crate) enum Origin<'a> {
    /// It isn't the symbol of that type from any place.
    Nowhere,
    /// It is that from each: it has no atom.
    Anywhere,
    /// From this source alone.
    At(&'a Source),
}

impl Origin<'_> {
    /// Whether it is this source.
    pub(crate) fn is(&self, source: &Source) -> bool
        ensures { result ≡ comes_from self.now (source_of source.now) }
    {
        match self {
            Origin::Nowhere => false,
            Origin::Anywhere => true,
            Origin::At(own) => same_source(own, source),
        }
    }
}

/// Where a symbol comes from as one of this type.
#[cycle(origin)]
#[tactic(auto, using(crate::proofs::OriginLemmas::origin_rules))]
pub(crate) fn origin_of<'a>(symbol: &'a Symbol, ty: &TypeRef) -> Origin<'a>
    ensures { (z : symbols.Source)
        → same_symbol (symbol_of symbol.now) (symbol_from (plain (tree_of ty.now)) z) ≡ comes_from result z }
{
    match symbol {
        Symbol::Atom { source, ty: own } => origin_of_whole(source, own, ty),
        Symbol::Tuple(parts) => origin_of_tuple(parts.as_slice(), ty.type_()),
        Symbol::Made {
            case: _,
            payload: _,
        } => Origin::Nowhere,
        Symbol::BareMade { case: _ } => Origin::Nowhere,
    }
}

#[tactic(auto, using(crate::proofs::OriginLemmas::origin_rules))]
fn origin_of_whole<'a>(source: &'a Source, own: &TypeRef, ty: &TypeRef) -> Origin<'a>
    ensures { (z : symbols.Source) → same_symbol (symbol_from (plain (tree_of own.now))
        (source_of source.now)) (symbol_from (plain (tree_of ty.now)) z)
        ≡ comes_from result z }
{
    if !same_whole(own, ty) {
        return Origin::Nowhere;
    }
    if has_no_atom(own) {
        Origin::Anywhere
    } else {
        Origin::At(source)
    }
}

#[cycle(origin)]
#[tactic(auto, using(crate::proofs::OriginLemmas::origin_rules))]
fn origin_of_tuple<'a>(parts: &'a [Rc<Symbol>], datatype: &Datatype) -> Origin<'a>
    ensures { (z : symbols.Source) → same_symbol (tuple (symbols_read parts.now))
        (symbol_from (plain (datatype_tree datatype.now)) z) ≡ comes_from result z }
{
    match tuple_members(datatype) {
        Some(members) => origin_of_parts(parts, members),
        None => Origin::Nowhere,
    }
}

#[cycle(origin)]
#[tactic(auto, using(crate::proofs::OriginLemmas::origin_rules))]
fn origin_of_parts<'a>(parts: &'a [Rc<Symbol>], members: &[RecordMember]) -> Origin<'a>
    ensures { (z : symbols.Source) → same_members (symbols_read parts.now)
        (parts_from (members_plain members.now) z 0) ≡ comes_from result z }
{
    if parts.len() != members.len() {
        return Origin::Nowhere;
    }
    let mut common = Origin::Anywhere;
    for i in 0..parts.len() {
        common = both(
            common,
            whole_behind(origin_of(&parts[i], &members[i].tref), i),
        );
    }
    common
}

/// What a part at this place comes from, where it comes from a member there.
#[tactic(auto, using(crate::proofs::OriginLemmas::origin_rules))]
fn whole_behind(part: Origin<'_>, place: usize) -> Origin<'_>
    ensures { (z : symbols.Source) → comes_from result z ≡ comes_from part.entry (symbols.part z place) }
{
    match part {
        Origin::Nowhere => Origin::Nowhere,
        Origin::Anywhere => Origin::Anywhere,
        Origin::At(source) => source_behind(source, place),
    }
}

#[tactic(auto, using(crate::proofs::OriginLemmas::origin_rules))]
fn source_behind(source: &Source, place: usize) -> Origin<'_>
    ensures { (z : symbols.Source) → comes_from result z ≡ same_source (source_of source.now) (symbols.part z place) }
{
    match source {
        Source::Part { whole, place: own } => {
            if *own == place {
                Origin::At(whole)
            } else {
                Origin::Nowhere
            }
        }
        Source::Argument(_) => Origin::Nowhere,
        Source::Payload => Origin::Nowhere,
        Source::Reply => Origin::Nowhere,
    }
}

/// Where both come from.
#[tactic(auto, using(crate::proofs::OriginLemmas::origin_rules))]
fn both<'a>(one: Origin<'a>, other: Origin<'a>) -> Origin<'a>
    ensures { (z : symbols.Source) → comes_from result z ≡ comes_from one.entry z && comes_from other.entry z }
{
    match one {
        Origin::Nowhere => Origin::Nowhere,
        Origin::Anywhere => other,
        Origin::At(own) => match other {
            Origin::Nowhere => Origin::Nowhere,
            Origin::Anywhere => one,
            Origin::At(more) => {
                if same_source(own, more) {
                    one
                } else {
                    Origin::Nowhere
                }
            }
        },
    }
}
