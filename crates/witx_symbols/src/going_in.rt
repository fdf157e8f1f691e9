//! Whether words are those of one value.
#![tactic(auto, using(crate::proofs::PassLemmas::pass_rules))]

ghost use Rattle.std.specs.Prelude.{◌≡◌, ◌∷◌, [], length, option_map};
ghost use Rattle.witx_ast.specs.{Plain.{plain}, Views.{tree_of}};
ghost use Rattle.witx_machine.specs.Signature.{param_words};
ghost use Rattle.witx_symbols.specs.Verdicts.{param_are, direct_are, hold_all, is_word_of};
ghost use Rattle.witx_symbols.specs.{PassageParts.{words_behind, list_are, one_is}, OutcomeViews.{words_of}};
ghost use Rattle.witx_symbols.specs.{SymbolViews.{symbol_of}, WordViews.{memory_of, word_seen}};

use crate::cells::Cells;
use crate::kinds::{has_one_word, is_by_address, is_list};
use crate::symbol::{Symbol, same};
use crate::words::Word;
use witx_ast::TypeRef;

/// The words behind those of one argument, where it is passed by the first ones.
pub fn words_behind<'a>(
    cells: &Cells,
    ty: &TypeRef,
    argument: &Symbol,
    words: &'a [Word],
) -> Option<&'a [Word]>
    ensures { option_map (λ rest. words_of rest.now) result
        ≡ words_behind (memory_of cells.now) (plain (tree_of ty.now)) (symbol_of argument.now) (words_of words.now) }
{
    let count = word_count(ty);
    if words.len() < count {
        return None;
    }
    let (own, rest) = words.split_at(count);
    if param_are(cells, ty, argument, own) {
        Some(rest)
    } else {
        None
    }
}

fn word_count(ty: &TypeRef) -> usize
    ensures { result ≡ length (param_words (plain (tree_of ty.now))) }
{
    if is_list(ty) { 2 } else { 1 }
}

/// Whether these words are those of a value of a type: its address, or its own words.
pub(crate) fn param_are(cells: &Cells, ty: &TypeRef, symbol: &Symbol, words: &[Word]) -> bool
    ensures { result ≡ param_are (memory_of cells.now) (plain (tree_of ty.now)) (symbol_of symbol.now)
        (words_of words.now) }
{
    if is_by_address(ty) {
        holds_one(cells, symbol, words)
    } else {
        direct_are(ty, symbol, words)
    }
}

/// Whether they are one word, an address at which the symbol stands.
pub(crate) fn holds_one(cells: &Cells, symbol: &Symbol, words: &[Word]) -> bool
    ensures { result ≡ hold_all (memory_of cells.now) (words_of words.now) (symbol_of symbol.now ∷ []) }
{
    match words {
        [word] => cells.holds(word, symbol),
        _ => false,
    }
}

/// Whether they are the words of a value that isn't passed by address.
pub(crate) fn direct_are(ty: &TypeRef, symbol: &Symbol, words: &[Word]) -> bool
    ensures { result ≡ direct_are (plain (tree_of ty.now)) (symbol_of symbol.now) (words_of words.now) }
{
    if is_list(ty) {
        list_are(symbol, words)
    } else {
        one_is(ty, symbol, words)
    }
}

fn list_are(list: &Symbol, words: &[Word]) -> bool
    ensures { result ≡ list_are (symbol_of list.now) (words_of words.now) }
{
    match words {
        [address, length] => are_of_list(list, address, length),
        _ => false,
    }
}

fn are_of_list(list: &Symbol, address: &Word, length: &Word) -> bool
    ensures { result ≡ list_are (symbol_of list.now) (word_seen address.now ∷ word_seen length.now ∷ []) }
{
    match (address, length) {
        (Word::Address(one), Word::Length(other)) => same(list, one) && same(list, other),
        _ => false,
    }
}

fn one_is(ty: &TypeRef, symbol: &Symbol, words: &[Word]) -> bool
    ensures { result ≡ one_is (param_words (plain (tree_of ty.now))) (symbol_of symbol.now) (words_of words.now) }
{
    match words {
        [word] => is_word_of(ty, symbol, word),
        _ => false,
    }
}

fn is_word_of(ty: &TypeRef, symbol: &Symbol, word: &Word) -> bool
    ensures { result ≡ is_word_of (param_words (plain (tree_of ty.now))) (symbol_of symbol.now) (word_seen word.now) }
{
    match word {
        Word::Of {
            symbol: own,
            ty: word,
        } => has_one_word(*word, ty) && same(symbol, own),
        Word::Address(_) | Word::Length(_) | Word::Given(_) | Word::Zero | Word::One => false,
    }
}
