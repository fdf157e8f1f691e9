//! The choice of a production. What two kinds of tokens have ruled out once is not looked at again.

ghost use Rattle.std.specs.Prelude.{◌≡◌, length, option_map, take, true, IfOk, IfSome, if◌then◌else◌, Some, None};
ghost use Rattle.witx_grammar.specs.Choices.{AreKnown, AlikeBehind, ComesNext, IsRest, MayFit, first_of, lookahead_length};
ghost use Rattle.witx_grammar.specs.Grammar.{grammar, rewrite_view};
ghost use Rattle.witx_grammar.specs.Prediction.{HasOneRuleEach, begins_with, choose as choose_of, lookahead};

use crate::engine::productions_of;
use crate::kind::Kind;
use crate::known::Known;
use crate::table::{Production, Symbol, Table};
use std::alloc::{AllocError, Global};

/// So many choices are kept.
const PLACES: usize = 256;

/// Where the choice is kept. The one that had the place before is forgotten.
fn place_of<T: Kind, N: Kind>(wanted: N, first: T, second: T) -> usize {
    let row = usize::from(wanted.number()) * 29;
    let column = usize::from(first.number()) * 7 + usize::from(second.number());
    (row + column) % PLACES
}

/// Places for choices, none of which is known yet.
pub fn nothing_known<'a, T: Kind, N: Kind, P: Kind>(
    alloc: Global,
    table: &Table<'a, T, N, P>,
) -> Result<Vec<Option<Known<'a, T, N, P>>>, AllocError>
    ensures { IfOk result (λ v. AreKnown T.eq N.eq (grammar table.now) v.items) }
{
    let _rules = table.rules;
    let mut known = Vec::with_capacity(alloc, PLACES)?;
    for _place in 0..PLACES {
        known.push(None)?;
    }
    Ok(known)
}

/// How many tokens the lookahead of the symbols takes, where the tokens begin with it.
fn fits<T: Kind, N: Kind>(symbols: &[Symbol<T, N>], tokens: &[T]) -> Option<usize>
    ensures { result ≡ (if begins_with T.eq (lookahead symbols.now) tokens.now then Some
        (length (lookahead symbols.now)) else None) }
{
    for (i, symbol) in symbols.iter().enumerate() {
        match symbol {
            Symbol::Nonterminal(_nonterminal) => return Some(i),
            Symbol::Terminal(kind) => {
                if i >= tokens.len() || *kind != tokens[i] {
                    return None;
                }
            }
        }
    }
    Some(symbols.len())
}

/// How many tokens the lookahead of the symbols takes.
fn front_of<T: Kind, N: Kind>(symbols: &[Symbol<T, N>]) -> usize
    ensures { result ≡ length (lookahead symbols.now) }
{
    for (i, symbol) in symbols.iter().enumerate() {
        match symbol {
            Symbol::Nonterminal(_nonterminal) => return i,
            Symbol::Terminal(_kind) => {}
        }
    }
    symbols.len()
}

/// The productions from the first one on that may fit where these tokens come next, and how many tokens
/// the lookahead of that one takes.
fn from_first<'a, T: Kind, N: Kind, P: Kind>(
    productions: &'a [Production<'a, T, N, P>],
    next: &[T],
) -> (&'a [Production<'a, T, N, P>], usize)
    requires two { length next.now ≡ 2 }
    ensures alike { AlikeBehind T.eq next.now result.0.now productions.now }
    ensures front { MayFit T.eq next.now result.1 result.0.now }
{
    for (i, production) in productions.iter().enumerate() {
        let front = production.symbols.len().min(next.len());
        if fits(&production.symbols[..front], next).is_some() {
            return (&productions[i..], front_of(production.symbols));
        }
    }
    (&[], 0)
}

/// What is known of the choice, if that is what the place has.
fn looked_up<'a, T: Kind, N: Kind, P: Kind>(
    table: &Table<'a, T, N, P>,
    known: &[Option<Known<'a, T, N, P>>],
    place: usize,
    wanted: N,
    tokens: &[T],
) -> Option<(&'a [Production<'a, T, N, P>], usize)>
    requires { AreKnown T.eq N.eq (grammar table.now) known.now }
    ensures rest { IfSome result (λ k. IsRest T.eq N.eq (grammar table.now) wanted tokens.now k.0.now) }
    ensures front { IfSome result (λ k. MayFit T.eq tokens.now k.1 k.0.now) }
{
    let _rules = table.rules;
    if place >= known.len() || tokens.len() < 2 {
        return None;
    }
    match &known[place] {
        Some(kept)
            if kept.wanted == wanted && kept.first == tokens[0] && kept.second == tokens[1] => {
            Some((kept.rest, kept.front))
        }
        _ => None,
    }
}

/// The productions of the nonterminal without those in front that don't fit, and how many tokens the
/// lookahead of the first of them takes where two tokens show that it may fit.
fn remaining<'a, T: Kind, N: Kind, P: Kind>(
    table: &Table<'a, T, N, P>,
    known: &mut Vec<Option<Known<'a, T, N, P>>>,
    wanted: N,
    tokens: &[T],
) -> (&'a [Production<'a, T, N, P>], Option<usize>)
    requires one_rule_each { HasOneRuleEach N.eq table.now.rules.now }
    requires known { AreKnown T.eq N.eq (grammar table.now) known.old.items }
    ensures known { AreKnown T.eq N.eq (grammar table.now) known.new.items }
    ensures rest { IsRest T.eq N.eq (grammar table.now) wanted tokens.now result.0.now }
    ensures front { IfSome result.1 (λ n. MayFit T.eq tokens.now n result.0.now) }
{
    if tokens.len() < 2 {
        return (productions_of(table.rules, wanted), None);
    }
    let (first, second) = (tokens[0], tokens[1]);
    let place = place_of(wanted, first, second);
    if let Some((rest, front)) = looked_up(table, known.as_slice(), place, wanted, tokens) {
        return (rest, Some(front));
    }
    let found = from_first(productions_of(table.rules, wanted), &tokens[..2]);
    if place < known.len() {
        known[place] = Some(Known {
            wanted,
            first,
            second,
            rest: found.0,
            front: found.1,
        });
        return (found.0, Some(found.1));
    }
    (found.0, Some(found.1))
}

/// Whether the lookahead of the symbols comes next, which takes so many tokens, where that of the first
/// two symbols does.
fn goes_on<T: Kind, N: Kind>(symbols: &[Symbol<T, N>], front: usize, tokens: &[T]) -> bool
    requires front { front ≡ length (lookahead symbols.now) }
    requires begins { begins_with T.eq (lookahead (take 2 symbols.now)) tokens.now ≡ true }
    ensures { result ≡ begins_with T.eq (lookahead symbols.now) tokens.now }
{
    if front <= 2 {
        return true;
    }
    fits(&symbols[2..], &tokens[2..]).is_some()
}

/// The first of the productions, if it is known to begin as the tokens do and fits.
fn first_if_fit<'a, T: Kind, N: Kind, P: Kind>(
    productions: &'a [Production<'a, T, N, P>],
    front: Option<usize>,
    tokens: &[T],
) -> Option<(&'a Production<'a, T, N, P>, usize)>
    requires { IfSome front (λ n. MayFit T.eq tokens.now n productions.now) }
    ensures choice { IfSome result (λ c. (f : N) → first_of T.eq f productions.now tokens.now
        ≡ Some (rewrite_view f c.0.now)) }
    ensures comes_next { IfSome result (λ c. ComesNext T.eq tokens.now c.0.now) }
    ensures front { IfSome result (λ c. c.1 ≡ lookahead_length c.0.now) }
{
    let Some(front) = front else {
        return None;
    };
    if productions.is_empty() {
        return None;
    }
    let first = &productions[0];
    if goes_on(first.symbols, front, tokens) {
        Some((first, front))
    } else {
        None
    }
}

/// The first production of the nonterminal that fits, and how many tokens its lookahead takes.
pub fn choose<'a, T: Kind, N: Kind, P: Kind>(
    table: &Table<'a, T, N, P>,
    known: &mut Vec<Option<Known<'a, T, N, P>>>,
    wanted: N,
    tokens: &[T],
) -> Option<(&'a Production<'a, T, N, P>, usize)>
    requires one_rule_each { HasOneRuleEach N.eq table.now.rules.now }
    requires known { AreKnown T.eq N.eq (grammar table.now) known.old.items }
    ensures known { AreKnown T.eq N.eq (grammar table.now) known.new.items }
    ensures choice { option_map (λ c. rewrite_view wanted c.0.now) result
        ≡ choose_of T.eq N.eq (grammar table.now) wanted tokens.now }
    ensures comes_next { IfSome result (λ c. ComesNext T.eq tokens.now c.0.now) }
    ensures front { IfSome result (λ c. c.1 ≡ lookahead_length c.0.now) }
{
    let (productions, front) = remaining(table, known, wanted, tokens);
    if let Some(choice) = first_if_fit(productions, front, tokens) {
        return Some(choice);
    }
    for production in productions {
        if let Some(front) = fits(production.symbols, tokens) {
            return Some((production, front));
        }
    }
    None
}
