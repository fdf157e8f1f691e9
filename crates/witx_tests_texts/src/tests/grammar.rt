//! Derivations and faults of a small grammar: words, pairs and lists.

ghost use Rattle.witx_grammar.specs.{Kinds.{enum_exact}, Prediction.{IsPredictive}};
ghost use Rattle.witx_tests_texts.specs.contracts.tests.grammar.TokenKind.{the_type as token_kinds};
ghost use Rattle.witx_tests_texts.specs.contracts.tests.grammar.Phrase.{the_type as phrases};
ghost use Rattle.witx_tests_texts.specs.contracts.tests.grammar.Form.{the_type as forms};

use std::alloc::Global;
use witx_grammar::Step::{Leaf, Node};
use witx_grammar::Symbol::{Nonterminal as N, Terminal as T};
use witx_grammar::{Kind, Parsed, Production, Rule, Step, Table, parse};

#[derive(Clone, Copy, PartialEq, Eq)]
enum TokenKind {
    Open,
    Close,
    Word,
    Pair,
    End,
}

impl Kind for TokenKind {
    fn number(&self) -> u8 {
        *self as u8
    }

    ghost exact = { enum_exact token_kinds tt };
}

#[derive(Clone, Copy, PartialEq, Eq)]
enum Phrase {
    Text,
    Item,
    Items,
}

impl Kind for Phrase {
    fn number(&self) -> u8 {
        *self as u8
    }

    ghost exact = { enum_exact phrases tt };
}

#[derive(Clone, Copy, PartialEq, Eq)]
enum Form {
    NoText,
    MoreText,
    Word,
    Pair,
    List,
    NoItems,
    MoreItems,
}

impl Kind for Form {
    fn number(&self) -> u8 {
        *self as u8
    }

    ghost exact = { enum_exact forms tt };
}

use Form::{List, MoreItems, MoreText, NoItems, NoText};
use Phrase::{Item, Items, Text};
use TokenKind::{Close, End, Open, Pair, Word};

/// Words, `( PAIR item item )` and `( items )`, any number of them.
static RULES: [Rule<'static, TokenKind, Phrase, Form>; 3] = [
    Rule {
        nonterminal: Text,
        productions: &[
            Production {
                name: NoText,
                symbols: &[T(End)],
            },
            Production {
                name: MoreText,
                symbols: &[N(Item), N(Text)],
            },
        ],
    },
    Rule {
        nonterminal: Item,
        productions: &[
            Production {
                name: Form::Word,
                symbols: &[T(Word)],
            },
            Production {
                name: Form::Pair,
                symbols: &[T(Open), T(Pair), N(Item), N(Item), T(Close)],
            },
            Production {
                name: List,
                symbols: &[T(Open), N(Items)],
            },
        ],
    },
    Rule {
        nonterminal: Items,
        productions: &[
            Production {
                name: NoItems,
                symbols: &[T(Close)],
            },
            Production {
                name: MoreItems,
                symbols: &[N(Item), N(Items)],
            },
        ],
    },
];

fn table() -> Table<'static, TokenKind, Phrase, Form>
    ensures { IsPredictive ⟦<TokenKind as PartialEq>⟧.eq ⟦<Phrase as PartialEq>⟧.eq ⟦<Form as PartialEq>⟧.eq result }
{
    Table { rules: &RULES }
}

/// Tokens, and the steps of their derivation.
const DERIVED: &[(&[TokenKind], &[Step<Form>])] = &[
    (&[End], &[Node(NoText), Leaf]),
    (
        &[Word, End],
        &[Node(MoreText), Node(Form::Word), Leaf, Node(NoText), Leaf],
    ),
    (
        &[Open, Open, Pair, Word, Word, Close, Close, End],
        &[
            Node(MoreText),
            Node(List),
            Leaf,
            Node(MoreItems),
            Node(Form::Pair),
            Leaf,
            Leaf,
            Node(Form::Word),
            Leaf,
            Node(Form::Word),
            Leaf,
            Leaf,
            Node(NoItems),
            Leaf,
            Node(NoText),
            Leaf,
        ],
    ),
];

fn is_derived(alloc: Global, &(tokens, steps): &(&[TokenKind], &[Step<Form>])) -> bool {
    match parse(alloc, &table(), Text, tokens) {
        Ok(Parsed::Derivation(found)) => found.as_slice() == steps,
        _ => false,
    }
}

#[test]
fn derivations(rt: HostRuntime) {
    let alloc = rt.alloc();
    assert!(rt; DERIVED.iter().all(|row| is_derived(alloc, row)));
}

/// Tokens without a derivation, the first that can't stand at its place, and what could.
const FAULTS: &[(&[TokenKind], usize, &[TokenKind])] = &[
    (&[], 0, &[Open, Word, End]),
    (&[Close], 0, &[Open, Word, End]),
    (&[Open, End], 1, &[Open, Close, Word, Pair]),
    (&[Open, Pair, Close, End], 2, &[Open, Word]),
    (&[Open, Pair, Word, Word, Word, Close, End], 4, &[Close]),
    (&[Word, End, Word], 2, &[]),
    (&[Word, Word], 2, &[Open, Word, End]),
];

/// Whether the lists have the same kinds, in any order.
fn are_same(left: &[TokenKind], right: &[TokenKind]) -> bool {
    for kind in [Open, Close, Word, Pair, End] {
        if left.contains(&kind) != right.contains(&kind) {
            return false;
        }
    }
    true
}

fn is_fault(alloc: Global, &(tokens, at, expected): &(&[TokenKind], usize, &[TokenKind])) -> bool {
    match parse(alloc, &table(), Text, tokens) {
        Ok(Parsed::Fault(fault)) => fault.at == at && are_same(fault.expected.as_slice(), expected),
        _ => false,
    }
}

#[test]
fn faults(rt: HostRuntime) {
    let alloc = rt.alloc();
    assert!(rt; FAULTS.iter().all(|row| is_fault(alloc, row)));
}
