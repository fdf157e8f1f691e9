//! The derivation of a list of tokens.

ghost use Rattle.std.specs.Prelude.{◌≡◌, List, [], ◌∷◌, ◌++◌, ◌≤◌, ◌+◌, length, drop, replicate, map, IfOk, MatchOption};
ghost use Rattle.std.specs.List.{flat_map};
ghost use Rattle.witx_grammar.specs.Grammar.{Derives, grammar, rewrite_view, rewrites_of, rule_view};
ghost use Rattle.witx_grammar.specs.Choices.{all_wanted, still_wanted};
ghost use Rattle.witx_grammar.specs.Prediction.{HasOneRuleEach, IsPredictive};
ghost use Rattle.witx_grammar.specs.declared.table.Symbol.TheVariants.{Nonterminal};
ghost use Rattle.witx_grammar.specs.{declared.table.Step.{Step}, declared.table.Step.TheVariants.{Leaf}};

use crate::choice::{choose, nothing_known};
use crate::kind::Kind;
use crate::table::{Production, Rule, Step, Symbol, Table};
use std::alloc::{AllocError, Global};

/// The productions of a nonterminal.
pub fn productions_of<'a, T: Kind, N: Kind, P: Kind>(
    rules: &'a [Rule<'a, T, N, P>],
    nonterminal: N,
) -> &'a [Production<'a, T, N, P>]
    requires { HasOneRuleEach N.eq rules.now }
    ensures { map (rewrite_view nonterminal) result.now ≡ rewrites_of N.eq (flat_map rule_view rules.now) nonterminal }
{
    for rule in rules {
        if rule.nonterminal == nonterminal {
            return rule.productions;
        }
    }
    &[]
}

/// The symbol that is wanted next, and what is wanted behind it before the lists on the stack, of which the
/// last comes first.
#[tactic(auto, using(crate::proofs::Stack::stack_rules))]
fn next_wanted<'a, T: Kind, N: Kind>(
    next: &'a [Symbol<T, N>],
    stack: &mut Vec<&'a [Symbol<T, N>]>,
) -> Option<(Symbol<T, N>, &'a [Symbol<T, N>])>
    ensures { still_wanted next.now stack.old.items ≡ all_wanted result stack.new.items }
{
    if let Some((symbol, rest)) = next.split_first() {
        return Some((*symbol, rest));
    }
    'each: while let Some(list) = stack.pop() {
        if let Some((symbol, rest)) = list.split_first() {
            return Some((*symbol, rest));
        }
    }
    None
}

/// The nonterminal, with nothing behind it.
fn first_wanted<'a, T: Kind, N: Kind, P: Kind>(
    table: &Table<'a, T, N, P>,
    start: N,
) -> Option<(Symbol<T, N>, &'a [Symbol<T, N>])>
    ensures { all_wanted result [] ≡ Nonterminal start ∷ [] }
{
    let _rules = table.rules;
    Some((Symbol::Nonterminal(start), &[]))
}

/// Puts symbols onto the stack that are wanted before all that is there.
#[tactic(auto, using(crate::proofs::Stack::stack_rules))]
fn push_list<'a, T: Kind, N: Kind>(
    stack: &mut Vec<&'a [Symbol<T, N>]>,
    list: &'a [Symbol<T, N>],
) -> Result<(), AllocError>
    ensures { IfOk result (λ _. still_wanted [] stack.new.items ≡ still_wanted list.now stack.old.items) }
{
    if !list.is_empty() {
        stack.push(list)?;
    }
    Ok(())
}

/// The symbols from the one numbered `first` on.
fn behind<'a, T: Kind, N: Kind>(symbols: &'a [Symbol<T, N>], first: usize) -> &'a [Symbol<T, N>]
    requires { first ≤ length symbols.now }
    ensures { result.now ≡ drop first symbols.now }
{
    &symbols[first..]
}

/// Reads so many tokens, a step each. The answer is the place behind them.
fn read_tokens<T: Kind, P: Kind>(
    tokens: &[T],
    at: usize,
    count: usize,
    steps: &mut Vec<Step<P>>,
) -> Result<usize, AllocError>
    requires { at + count ≤ length tokens.now }
    ensures place { IfOk result (λ place. place ≡ at + count) }
    ensures steps { IfOk result (λ _. steps.new.items ≡ steps.old.items ++ replicate count Leaf) }
{
    for _token in 0..count {
        steps.push(Step::Leaf)?;
    }
    let _tokens = tokens.len();
    Ok(at + count)
}

/// The derivation of the tokens from the nonterminal, or `None` where there is none.
///
/// What is left of each production that is begun lies on a stack of its own, so neither nesting nor
/// length costs the program's stack.
pub fn derive<'a, T: Kind, N: Kind, P: Kind>(
    alloc: Global,
    table: &Table<'a, T, N, P>,
    start: N,
    tokens: &[T],
) -> Result<Option<Vec<Step<P>>>, AllocError>
    requires { IsPredictive T.eq N.eq P.eq table.now }
    ensures { IfOk result (λ o. MatchOption o
        ((ms : List (Step P)) → Derives (grammar table.now) ms (Nonterminal start ∷ []) tokens.now → ⊥)
        (λ ms. Derives (grammar table.now) ms.items (Nonterminal start ∷ []) tokens.now)) }
{
    let mut known = nothing_known(alloc, table)?;
    let mut stack = Vec::new(alloc);
    let mut next = first_wanted(table, start);
    let mut steps = Vec::with_capacity(alloc, tokens.len().saturating_mul(2))?;
    let mut at = 0;
    'each: while let Some((symbol, rest)) = next {
        match symbol {
            Symbol::Terminal(kind) => {
                if at >= tokens.len() || tokens[at] != kind {
                    return Ok(None);
                }
                steps.push(Step::Leaf)?;
                at += 1;
                next = next_wanted(rest, &mut stack);
            }
            Symbol::Nonterminal(wanted) => {
                let Some((production, front)) = choose(table, &mut known, wanted, &tokens[at..])
                else {
                    return Ok(None);
                };
                push_list(&mut stack, rest)?;
                steps.push(Step::Node(production.name))?;
                at = read_tokens(tokens, at, front, &mut steps)?;
                let left = behind(production.symbols, front);
                next = next_wanted(left, &mut stack);
            }
        }
    }
    if at == tokens.len() {
        Ok(Some(steps))
    } else {
        Ok(None)
    }
}
