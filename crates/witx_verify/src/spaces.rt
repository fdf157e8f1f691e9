//! Whether an address was made for a type.
#![tactic(auto, using(witx_symbols::proofs::CellLemmas::cell_rules))]

ghost use Rattle.std.specs.Prelude.{◌≡◌};
ghost use Rattle.witx_ast.specs.{Same.{same_tree}, Views.{named_tree}};
ghost use Rattle.witx_symbols.specs.{Verdicts.{is_made_for}, WordViews.{memory_of, word_seen}};

use witx_ast::NamedType;
use witx_symbols::{Cell, Cells, Word, cell_at};

/// Whether the word is an address that was made for the type as it is written.
pub(crate) fn is_made_for(cells: &Cells, word: &Word, ty: &NamedType) -> bool
    ensures { result ≡ is_made_for (memory_of cells.now) (word_seen word.now) (named_tree ty.now) }
{
    match word {
        Word::Given(k) => match cell_at(cells, *k) {
            Some(cell) => is_for(cell, ty),
            None => false,
        },
        _ => false,
    }
}

fn is_for(cell: &Cell, ty: &NamedType) -> bool
    ensures { result ≡ same_tree (named_tree cell.now.made_for.value) (named_tree ty.now) }
{
    *cell.made_for == *ty
}
