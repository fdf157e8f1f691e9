//! What stands for a word, and the conversions between symbols and words.
#![tactic(auto, using(crate::proofs::WordLemmas::word_rules))]

ghost use Rattle.std.specs.Prelude.{◌≡◌, IfOk, option_map};
ghost use Rattle.witx_symbols.specs.Symbolic.{lower_symbol, lift_word, symbol_list_words, list_of_words, symbol_parts, word_has_type};
ghost use Rattle.witx_symbols.specs.Symbols.{tuple, symbol_from, parts_from};
ghost use Rattle.witx_symbols.specs.SymbolViews.{source_of, symbol_of, symbols_read};
ghost use Rattle.witx_symbols.specs.Typing.{is_list_symbol};
ghost use Rattle.witx_symbols.specs.WordViews.{word_seen, shared_of, option_of, shared_symbols};
ghost use Rattle.witx_ast.specs.{Plain.{plain}, Views.{datatype_tree, members_plain}};
ghost use Rattle.witx_run.specs.Views.{scalar_of};

use crate::from::parts_from;
use crate::kinds::{converts, is_list};
use crate::symbol::{Source, Symbol, same};
use crate::typing::tuple_members;
use std::alloc::Global;
use std::rc::Rc;
use witx_ast::{Datatype, RecordMember};
use witx_base::OutOfMemory;
use witx_machine::WasmType;
use witx_run::{Conversion, same_type};

/// What stands for a word.
#[derive(Drop)]
pub enum Word {
    /// The one word of a value, of this type.
    Of { symbol: Rc<Symbol>, ty: WasmType },
    /// A list's address.
    Address(Rc<Symbol>),
    /// A list's length.
    Length(Rc<Symbol>),
    /// The address that was given with this number, from 0.
    Given(usize),
    /// The word of a result's first case.
    Zero,
    /// The word of its second case, where that carries nothing.
    One,
}

impl Word {
    /// Whether the word is of a type.
    pub fn has_type(&self, ty: WasmType) -> bool
        ensures { result ≡ word_has_type ty (word_seen self.now) }
    {
        match self {
            Word::Of { symbol: _, ty: own } => same_type(*own, ty),
            Word::Address(_) | Word::Length(_) | Word::Given(_) | Word::Zero | Word::One => {
                same_type(WasmType::I32, ty)
            }
        }
    }

    /// The word once more.
    pub(crate) fn again(&self) -> Result<Word, OutOfMemory>
        ensures { IfOk result (λ w. word_seen w ≡ word_seen self.now) }
    {
        match self {
            Word::Of { symbol, ty } => Ok(Word::Of {
                symbol: Rc::clone(symbol)?,
                ty: *ty,
            }),
            Word::Address(symbol) => Ok(Word::Address(Rc::clone(symbol)?)),
            Word::Length(symbol) => Ok(Word::Length(Rc::clone(symbol)?)),
            Word::Given(k) => Ok(Word::Given(*k)),
            Word::Zero => Ok(Word::Zero),
            Word::One => Ok(Word::One),
        }
    }
}

/// The one word of a symbol by a conversion; none where its type doesn't have it.
pub fn lower(conversion: &Conversion<'_>, symbol: &Rc<Symbol>) -> Result<Option<Word>, OutOfMemory>
    ensures { IfOk result (λ word. option_map word_seen word
        ≡ lower_symbol (scalar_of conversion.now) (shared_of symbol.now)) }
{
    if converts(conversion, symbol) {
        Ok(Some(Word::Of {
            symbol: Rc::clone(symbol)?,
            ty: conversion.word_type(),
        }))
    } else {
        Ok(None)
    }
}

/// The symbol whose word it is, by a conversion that its type has; else none.
pub fn lift(conversion: &Conversion<'_>, word: &Word) -> Result<Option<Rc<Symbol>>, OutOfMemory>
    ensures { IfOk result (λ symbol. option_of symbol ≡ lift_word (scalar_of conversion.now) (word_seen word.now)) }
{
    match word {
        Word::Of { symbol, ty } => {
            if same_type(*ty, conversion.word_type()) && converts(conversion, symbol) {
                Ok(Some(Rc::clone(symbol)?))
            } else {
                Ok(None)
            }
        }
        Word::Address(_) | Word::Length(_) | Word::Given(_) | Word::Zero | Word::One => Ok(None),
    }
}

/// The address and the length of a symbol of a list type; none of another symbol.
pub fn list_words(symbol: &Rc<Symbol>) -> Result<Option<(Word, Word)>, OutOfMemory>
    ensures { IfOk result (λ words. option_map (λ p. (word_seen p.0, word_seen p.1)) words
        ≡ symbol_list_words (shared_of symbol.now)) }
{
    if is_a_list(symbol) {
        let address = Word::Address(Rc::clone(symbol)?);
        Ok(Some((address, Word::Length(Rc::clone(symbol)?))))
    } else {
        Ok(None)
    }
}

fn is_a_list(symbol: &Symbol) -> bool
    ensures { result ≡ is_list_symbol (symbol_of symbol.now) }
{
    match symbol {
        Symbol::Atom { source: _, ty } => is_list(ty),
        Symbol::Tuple(_)
        | Symbol::Made {
            case: _,
            payload: _,
        }
        | Symbol::BareMade { case: _ } => false,
    }
}

/// The list of this address and this length, where they are its own; else none.
pub fn list_of_words(address: &Word, length: &Word) -> Result<Option<Rc<Symbol>>, OutOfMemory>
    ensures { IfOk result (λ symbol. option_of symbol ≡ list_of_words (word_seen address.now) (word_seen length.now)) }
{
    match (address, length) {
        (Word::Address(list), Word::Length(other)) => {
            if same(list, other) {
                Ok(Some(Rc::clone(list)?))
            } else {
                Ok(None)
            }
        }
        _ => Ok(None),
    }
}

/// The members of a tuple of so many; none of another symbol.
#[tactic(auto, using(crate::proofs::FromLemmas::from_rules))]
pub fn parts_of(
    alloc: Global,
    count: usize,
    symbol: &Symbol,
) -> Result<Option<Vec<Rc<Symbol>>>, OutOfMemory>
    ensures { IfOk result (λ parts. option_map (λ vs. shared_symbols vs.items) parts
        ≡ symbol_parts count (symbol_of symbol.now)) }
{
    match symbol {
        Symbol::Tuple(parts) => copied_parts(alloc, count, parts.as_slice()),
        Symbol::Atom { source, ty } => whole_parts(alloc, count, source, ty.type_()),
        Symbol::Made {
            case: _,
            payload: _,
        } => Ok(None),
        Symbol::BareMade { case: _ } => Ok(None),
    }
}

#[tactic(auto, using(crate::proofs::FromLemmas::from_rules))]
fn copied_parts(
    alloc: Global,
    count: usize,
    parts: &[Rc<Symbol>],
) -> Result<Option<Vec<Rc<Symbol>>>, OutOfMemory>
    ensures { IfOk result (λ copied. option_map (λ vs. shared_symbols vs.items) copied
        ≡ symbol_parts count (tuple (symbols_read parts.now))) }
{
    if parts.len() == count {
        Ok(Some(copies(alloc, parts)?))
    } else {
        Ok(None)
    }
}

/// Symbols once more.
fn copies(alloc: Global, symbols: &[Rc<Symbol>]) -> Result<Vec<Rc<Symbol>>, OutOfMemory>
    ensures { IfOk result (λ made. shared_symbols made.items ≡ shared_symbols symbols.now) }
{
    let mut made = Vec::new(alloc);
    for symbol in symbols {
        made.push(Rc::clone(symbol)?)?;
    }
    Ok(made)
}

#[tactic(auto, using(crate::proofs::FromLemmas::from_rules))]
fn whole_parts(
    alloc: Global,
    count: usize,
    source: &Rc<Source>,
    datatype: &Datatype,
) -> Result<Option<Vec<Rc<Symbol>>>, OutOfMemory>
    ensures { IfOk result (λ parts. option_map (λ vs. shared_symbols vs.items) parts
        ≡ symbol_parts count (symbol_from (plain (datatype_tree datatype.now)) (source_of source.now.value))) }
{
    match tuple_members(datatype) {
        Some(members) => member_parts(alloc, count, source, members),
        None => Ok(None),
    }
}

#[tactic(auto, using(crate::proofs::FromLemmas::from_rules))]
fn member_parts(
    alloc: Global,
    count: usize,
    source: &Rc<Source>,
    members: &[RecordMember],
) -> Result<Option<Vec<Rc<Symbol>>>, OutOfMemory>
    ensures { IfOk result (λ parts. option_map (λ vs. shared_symbols vs.items) parts
        ≡ symbol_parts count (tuple (parts_from (members_plain members.now) (source_of source.now.value) 0))) }
{
    if members.len() == count {
        Ok(Some(parts_from(alloc, members, source)?))
    } else {
        Ok(None)
    }
}
