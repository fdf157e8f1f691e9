//! The fault of a list of tokens that has no derivation.

ghost use Rattle.std.specs.Prelude.{◌≡◌, ◌≤◌, [], ◌∷◌, ◌++◌, drop, length, if◌then◌else◌, IfOk, Some, option_map};
ghost use Rattle.std.specs.List.{list_any};
ghost use Rattle.witx_grammar.specs.{Grammar.{grammar}, Prediction.{HasOneRuleEach}};
ghost use Rattle.witx_grammar.specs.Search.{all_wants, found_view, ways, all_ways, may_come, not_ruled_out, firsts, all_firsts, is_nothing, search_fault};
ghost use Rattle.witx_grammar.specs.declared.table.Symbol.TheVariants.{Nonterminal};

use crate::engine::productions_of;
use crate::kind::Kind;
use crate::table::{DEPTH, Symbol, Table};
use std::alloc::{AllocError, Global};

/// The place of the first token that can't stand there, or the number of tokens where more are
/// wanted; and the kinds of tokens that can stand there, in no particular order.
#[derive(Drop)]
pub struct Fault<T> {
    pub at: usize,
    pub expected: Vec<T>,
}

/// A token that is read: its kind, and that of the token behind it where that one is looked at.
#[derive(Clone, Copy)]
struct Reading<T> {
    kind: T,
    next: Option<T>,
}

/// The symbols, and then the others.
fn joined<T: Kind, N: Kind>(
    alloc: Global,
    front: &[Symbol<T, N>],
    back: &[Symbol<T, N>],
) -> Result<Vec<Symbol<T, N>>, AllocError>
    ensures { IfOk result (λ v. v.items ≡ front.now ++ back.now) }
{
    let mut all = Vec::with_capacity(alloc, front.len().saturating_add(back.len()))?;
    all.extend_from_slice(front)?;
    all.extend_from_slice(back)?;
    Ok(all)
}

/// Whether a token of the kind can come where the symbol is wanted, as far as the symbol tells.
fn may_begin<T: Kind, N: Kind>(symbol: Symbol<T, N>, kind: T) -> bool
    ensures { result ≡ may_come T.eq (Some kind) (symbol ∷ []) }
{
    match symbol {
        Symbol::Terminal(first) => first == kind,
        Symbol::Nonterminal(_) => true,
    }
}

/// Whether a token of the kind, if one is named, can come where these are wanted, as far as the first of them tells.
fn may_follow<T: Kind, N: Kind>(
    next: Option<T>,
    front: &[Symbol<T, N>],
    back: &[Symbol<T, N>],
) -> bool
    ensures { result ≡ may_come T.eq next (front.now ++ back.now) }
{
    let Some(kind) = next else {
        return true;
    };
    if !front.is_empty() {
        return may_begin(front[0], kind);
    }
    if !back.is_empty() {
        return may_begin(back[0], kind);
    }
    false
}

/// Appends what stands behind the first kind, if that is the one that is read and the next token doesn't rule it out.
fn push_rest<T: Kind, N: Kind>(
    alloc: Global,
    first: T,
    read: Reading<T>,
    front: &[Symbol<T, N>],
    back: &[Symbol<T, N>],
    out: &mut Vec<Vec<Symbol<T, N>>>,
) -> Result<(), AllocError>
    ensures { IfOk result (λ _. all_wants out.new.items ≡ all_wants out.old.items
        ++ not_ruled_out T.eq read.next (if T.eq first read.kind then (front.now ++ back.now) ∷ [] else [])) }
{
    if first == read.kind && may_follow(read.next, front, back) {
        let rest = joined(alloc, front, back)?;
        out.push(rest)?;
    }
    Ok(())
}

/// Appends what can be wanted behind the token that is read, where `want` is wanted before it, but for what the
/// next token rules out.
///
/// A production that begins with a token is copied only where that token is the one that is read. The recursion goes
/// `depth` deep at most.
#[cycle(ways)]
fn push_ways<T: Kind, N: Kind, P: Kind>(
    alloc: Global,
    table: &Table<T, N, P>,
    depth: u8,
    want: &[Symbol<T, N>],
    read: Reading<T>,
    out: &mut Vec<Vec<Symbol<T, N>>>,
) -> Result<(), AllocError>
    requires { HasOneRuleEach N.eq table.now.rules.now }
    ensures { IfOk result (λ _. all_wants out.new.items ≡ all_wants out.old.items
        ++ not_ruled_out T.eq read.next (ways T.eq N.eq (grammar table.now) depth read.kind want.now)) }
{
    if want.is_empty() {
        return Ok(());
    }
    let rest = &want[1..];
    match want[0] {
        Symbol::Terminal(first) => {
            push_rest(alloc, first, read, rest, &want[..0], out)?;
        }
        Symbol::Nonterminal(nonterminal) => {
            if depth > 0 {
                let productions = productions_of(table.rules, nonterminal);
                for production in productions {
                    push_production(alloc, table, depth - 1, production.symbols, rest, read, out)?;
                }
            }
        }
    }
    Ok(())
}

/// The same where a production is wanted, and then the others.
#[cycle(ways)]
fn push_production<T: Kind, N: Kind, P: Kind>(
    alloc: Global,
    table: &Table<T, N, P>,
    depth: u8,
    production: &[Symbol<T, N>],
    others: &[Symbol<T, N>],
    read: Reading<T>,
    out: &mut Vec<Vec<Symbol<T, N>>>,
) -> Result<(), AllocError>
    requires { HasOneRuleEach N.eq table.now.rules.now }
    ensures { IfOk result (λ _. all_wants out.new.items ≡ all_wants out.old.items
        ++ not_ruled_out T.eq read.next (ways T.eq N.eq (grammar table.now) depth read.kind (production.now ++ others.now))) }
{
    if !production.is_empty() {
        if let Symbol::Terminal(first) = production[0] {
            push_rest(alloc, first, read, &production[1..], others, out)?;
            return Ok(());
        }
    }
    let all = joined(alloc, production, others)?;
    push_ways(alloc, table, depth, all.as_slice(), read, out)
}

/// What can be wanted behind the token that is read, where one of several is wanted before it, but for what the
/// next token rules out.
fn all_after<T: Kind, N: Kind, P: Kind>(
    alloc: Global,
    table: &Table<T, N, P>,
    read: Reading<T>,
    wants: &[Vec<Symbol<T, N>>],
) -> Result<Vec<Vec<Symbol<T, N>>>, AllocError>
    requires { HasOneRuleEach N.eq table.now.rules.now }
    ensures { IfOk result (λ v. all_wants v.items
        ≡ not_ruled_out T.eq read.next (all_ways T.eq N.eq (grammar table.now) DEPTH read.kind (all_wants wants.now))) }
{
    let mut out = Vec::new(alloc);
    for want in wants {
        push_ways(alloc, table, DEPTH, want.as_slice(), read, &mut out)?;
    }
    Ok(out)
}

/// Appends the kinds of tokens that can come first where `want` is wanted.
fn push_firsts<T: Kind, N: Kind, P: Kind>(
    alloc: Global,
    table: &Table<T, N, P>,
    depth: u8,
    want: &[Symbol<T, N>],
    out: &mut Vec<T>,
) -> Result<(), AllocError>
    requires { HasOneRuleEach N.eq table.now.rules.now }
    ensures { IfOk result (λ _. out.new.items ≡ out.old.items ++ firsts N.eq (grammar table.now) depth want.now) }
{
    if want.is_empty() {
        return Ok(());
    }
    let rest = &want[1..];
    match want[0] {
        Symbol::Terminal(kind) => {
            out.push(kind)?;
        }
        Symbol::Nonterminal(nonterminal) => {
            if depth > 0 {
                let productions = productions_of(table.rules, nonterminal);
                for production in productions {
                    let one = joined(alloc, production.symbols, rest)?;
                    push_firsts(alloc, table, depth - 1, one.as_slice(), out)?;
                }
            }
        }
    }
    Ok(())
}

/// The kinds of tokens that can come first where one of several is wanted.
fn expected_kinds<T: Kind, N: Kind, P: Kind>(
    alloc: Global,
    table: &Table<T, N, P>,
    wants: &[Vec<Symbol<T, N>>],
) -> Result<Vec<T>, AllocError>
    requires { HasOneRuleEach N.eq table.now.rules.now }
    ensures { IfOk result (λ v. v.items ≡ all_firsts N.eq (grammar table.now) DEPTH (all_wants wants.now)) }
{
    let mut out = Vec::new(alloc);
    for want in wants {
        push_firsts(alloc, table, DEPTH, want.as_slice(), &mut out)?;
    }
    Ok(out)
}

/// Whether one of them wants nothing more.
fn any_done<T: Kind, N: Kind>(wants: &[Vec<Symbol<T, N>>]) -> bool
    ensures { result ≡ list_any is_nothing (all_wants wants.now) }
{
    for want in wants {
        if want.is_empty() {
            return true;
        }
    }
    false
}

/// Lists that are wanted before a token, and its number: from there the search finds what it finds from the start.
///
/// Of what each token leaves only what the next one doesn't rule out is followed, so mostly one list is copied a
/// token. It stops where none is left, at most two tokens before the fault.
fn near_fault<T: Kind, N: Kind, P: Kind>(
    alloc: Global,
    table: &Table<T, N, P>,
    start: N,
    tokens: &[T],
) -> Result<(Vec<Vec<Symbol<T, N>>>, usize), AllocError>
    requires { HasOneRuleEach N.eq table.now.rules.now }
    ensures within { IfOk result (λ near. near.1 ≤ length tokens.now) }
    ensures search { IfOk result (λ near.
        search_fault T.eq N.eq (grammar table.now) DEPTH (all_wants near.0.items) near.1 (drop near.1 tokens.now)
        ≡ search_fault T.eq N.eq (grammar table.now) DEPTH ((Nonterminal start ∷ []) ∷ []) 0 tokens.now) }
{
    let mut wants = Vec::new(alloc);
    let mut first = Vec::new(alloc);
    first.push(Symbol::Nonterminal(start))?;
    wants.push(first)?;
    let mut at = 0;
    if tokens.len() < 2 {
        return Ok((wants, at));
    }
    let read = Reading {
        kind: tokens[0],
        next: Some(tokens[1]),
    };
    let mut after = all_after(alloc, table, read, wants.as_slice())?;
    'each: while at < tokens.len() - 2 {
        let read = Reading {
            kind: tokens[at + 1],
            next: Some(tokens[at + 2]),
        };
        let more = all_after(alloc, table, read, after.as_slice())?;
        if more.is_empty() {
            return Ok((wants, at));
        }
        wants = after;
        after = more;
        at += 1;
    }
    Ok((wants, at))
}

/// The fault of the tokens where the nonterminal is wanted, or `None` where there is none.
///
/// Near the fault it walks over the tokens with every list of what can still be wanted; each step takes time in
/// the number of productions and in the length of these lists.
pub fn find_fault<T: Kind, N: Kind, P: Kind>(
    alloc: Global,
    table: &Table<T, N, P>,
    start: N,
    tokens: &[T],
) -> Result<Option<Fault<T>>, AllocError>
    requires { HasOneRuleEach N.eq table.now.rules.now }
    ensures { IfOk result (λ o. option_map found_view o
        ≡ search_fault T.eq N.eq (grammar table.now) DEPTH ((Nonterminal start ∷ []) ∷ []) 0 tokens.now) }
{
    let (mut wants, mut at) = near_fault(alloc, table, start, tokens)?;
    'each: while at < tokens.len() {
        let read = Reading {
            kind: tokens[at],
            next: None,
        };
        let after = all_after(alloc, table, read, wants.as_slice())?;
        if after.is_empty() {
            let expected = expected_kinds(alloc, table, wants.as_slice())?;
            return Ok(Some(Fault { at, expected }));
        }
        wants = after;
        at += 1;
    }
    if any_done(wants.as_slice()) {
        return Ok(None);
    }
    let expected = expected_kinds(alloc, table, wants.as_slice())?;
    Ok(Some(Fault { at, expected }))
}
