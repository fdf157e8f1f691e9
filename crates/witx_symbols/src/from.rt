//! Symbols from where they come: an argument, the reply, its payload, and the parts of each.
#![tactic(auto, using(crate::proofs::FromLemmas::from_rules))]

ghost use Rattle.std.specs.Prelude.{◌≡◌, IfOk, map};
ghost use Rattle.witx_ast.specs.{Plain.{plain}, Views.{tree_of, members_plain}};
ghost use Rattle.witx_symbols.specs.Symbols.{argument, part, symbol_from, parts_from};
ghost use Rattle.witx_symbols.specs.{Verdicts.{arguments_from}, SymbolViews.{source_of, symbols_read}};
ghost use Rattle.witx_symbols.specs.WordViews.{shared_of, shared_symbols};

use crate::symbol::{Source, Symbol};
use std::alloc::Global;
use std::rc::Rc;
use witx_ast::{InterfaceFuncParam, RecordMember, TypeRef};
use witx_base::OutOfMemory;

/// The symbol of a type that comes from there. Where that is a tuple type it stands for all parts, which are made as they
/// are asked for.
pub fn symbol_from(
    alloc: Global,
    ty: &TypeRef,
    source: &Rc<Source>,
) -> Result<Rc<Symbol>, OutOfMemory>
    ensures { IfOk result (λ made. shared_of made ≡ symbol_from (plain (tree_of ty.now)) (source_of source.now.value)) }
{
    let ty = ty.clone()?;
    let source = Rc::clone(source)?;
    Ok(Rc::new(alloc, Symbol::Atom { source, ty })?)
}

/// The parts of a tuple of these members that comes from there.
pub(crate) fn parts_from(
    alloc: Global,
    members: &[RecordMember],
    source: &Rc<Source>,
) -> Result<Vec<Rc<Symbol>>, OutOfMemory>
    ensures { IfOk result (λ parts. symbols_read parts.items
        ≡ parts_from (members_plain members.now) (source_of source.now.value) 0) }
{
    let mut parts = Vec::new(alloc);
    for i in 0..members.len() {
        parts.push(part_from(alloc, &members[i], source, i)?)?;
    }
    Ok(parts)
}

fn part_from(
    alloc: Global,
    member: &RecordMember,
    whole: &Rc<Source>,
    place: usize,
) -> Result<Rc<Symbol>, OutOfMemory>
    ensures { IfOk result (λ made. shared_of made
        ≡ symbol_from (plain (tree_of member.now.tref)) (part (source_of whole.now.value) place)) }
{
    let whole = Rc::clone(whole)?;
    let source = Rc::new(alloc, Source::Part { whole, place })?;
    symbol_from(alloc, &member.tref, &source)
}

/// The symbols of the arguments of these parameters.
pub fn arguments_from(
    alloc: Global,
    params: &[InterfaceFuncParam],
) -> Result<Vec<Rc<Symbol>>, OutOfMemory>
    ensures { IfOk result (λ made. shared_symbols made.items ≡ arguments_from 0 (map (λ p. tree_of p.tref) params.now)) }
{
    let mut arguments = Vec::new(alloc);
    for i in 0..params.len() {
        arguments.push(argument_from(alloc, &params[i], i)?)?;
    }
    Ok(arguments)
}

fn argument_from(
    alloc: Global,
    param: &InterfaceFuncParam,
    number: usize,
) -> Result<Rc<Symbol>, OutOfMemory>
    ensures { IfOk result (λ made. shared_of made ≡ symbol_from (plain (tree_of param.now.tref)) (argument number)) }
{
    let source = Rc::new(alloc, Source::Argument(number))?;
    symbol_from(alloc, &param.tref, &source)
}
