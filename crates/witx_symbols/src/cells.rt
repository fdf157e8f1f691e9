//! What stands at the addresses that were given.
#![tactic(auto, using(crate::proofs::CellLemmas::cell_rules))]

ghost use Rattle.std.specs.Prelude.{◌≡◌, [], Some, IfOk, option_map, false, slice_get};
ghost use Rattle.witx_ast.specs.Views.{named_tree};
ghost use Rattle.witx_machine.specs.Words.{when};
ghost use Rattle.witx_symbols.specs.{Putting.{address_given, put_symbol}, Symbols.{given}};
ghost use Rattle.witx_symbols.specs.Symbolic.{give_symbol, symbol_at, get_symbol, put_in, set_symbol};
ghost use Rattle.witx_symbols.specs.{Verdicts.{holds_symbol}, SymbolViews.{symbol_of}};
ghost use Rattle.witx_symbols.specs.WordViews.{takes_symbol, word_seen, shared_of, option_of, cell_of, memory_of};

use crate::kinds::is_by_address;
use crate::symbol::Symbol;
use crate::types::alike;
use crate::typing::is_of;
use crate::words::Word;
use crate::world::is_symbol;
use std::alloc::Global;
use std::rc::Rc;
use witx_ast::NamedType;
use witx_base::OutOfMemory;

/// What stands at one address: the type that it was made for, and a symbol or none.
#[derive(Drop)]
pub struct Cell {
    pub made_for: Rc<NamedType>,
    pub content: Option<Rc<Symbol>>,
}

/// What stands at the addresses that were given, by their numbers, and how many are left to give.
#[derive(Drop)]
pub struct Cells {
    cells: Vec<Cell>,
    left: usize,
}

impl Cell {
    /// The cell once more.
    fn again(&self) -> Result<Cell, OutOfMemory>
        ensures { IfOk result (λ cell. cell_of cell ≡ cell_of self.now) }
    {
        let content = match &self.content {
            Some(symbol) => Some(Rc::clone(symbol)?),
            None => None,
        };
        let made_for = Rc::clone(&self.made_for)?;
        Ok(Cell { made_for, content })
    }
}

impl Cells {
    /// No address was given yet; takes no memory.
    pub fn new(alloc: Global, left: usize) -> Cells
        ensures { memory_of result ≡ record { made = []; left = left } }
    {
        Cells {
            cells: Vec::new(alloc),
            left,
        }
    }

    /// Gives the next address, made for a type, with this symbol there or with none; no address where
    /// none is left.
    pub fn give(
        &mut self,
        ty: &Rc<NamedType>,
        content: Option<Rc<Symbol>>,
    ) -> Result<Option<Word>, OutOfMemory>
        ensures { IfOk result (λ word. address_given self.new word ≡
            give_symbol (named_tree ty.now.value) (option_of content) (memory_of self.old).made (memory_of self.old).left) }
    {
        match self.give_number(ty, content)? {
            Some(number) => Ok(Some(Word::Given(number))),
            None => Ok(None),
        }
    }

    /// The same, by the number of the address.
    pub(crate) fn give_number(
        &mut self,
        ty: &Rc<NamedType>,
        content: Option<Rc<Symbol>>,
    ) -> Result<Option<usize>, OutOfMemory>
        ensures { IfOk result (λ number. option_map (λ k. (given k, memory_of self.new)) number ≡
            give_symbol (named_tree ty.now.value) (option_of content) (memory_of self.old).made (memory_of self.old).left) }
    {
        if self.left == 0 {
            return Ok(None);
        }
        let number = self.cells.len();
        let made_for = Rc::clone(ty)?;
        self.cells.push(Cell { made_for, content })?;
        self.left -= 1;
        Ok(Some(number))
    }

    /// Puts a symbol at the next address, made for a type that is passed by address; none where it isn't,
    /// or where no address is left.
    pub fn put(
        &mut self,
        ty: &Rc<NamedType>,
        symbol: Rc<Symbol>,
    ) -> Result<Option<Word>, OutOfMemory>
        ensures { IfOk result (λ word. address_given self.new word ≡
            put_symbol (named_tree ty.now.value) (shared_of symbol) (memory_of self.old)) }
    {
        if is_by_address(&ty.tref) {
            self.give(ty, Some(symbol))
        } else {
            Ok(None)
        }
    }

    /// The cells once more.
    pub(crate) fn again(&self, alloc: Global) -> Result<Cells, OutOfMemory>
        ensures { IfOk result (λ cells. memory_of cells ≡ memory_of self.now) }
    {
        let mut cells = Vec::new(alloc);
        for cell in &self.cells {
            cells.push(cell.again()?)?;
        }
        Ok(Cells {
            cells,
            left: self.left,
        })
    }

    /// What stands at an address that was made for a type alike to this one; none where the word is no such
    /// address, or nothing stands there.
    pub fn get(&self, ty: &NamedType, word: &Word) -> Result<Option<Rc<Symbol>>, OutOfMemory>
        ensures { IfOk result (λ symbol. option_of symbol
            ≡ get_symbol (named_tree ty.now) (word_seen word.now) (memory_of self.now)) }
    {
        match word {
            Word::Given(k) => match self.cells.get(*k) {
                Some(cell) => content_of(cell, ty),
                None => Ok(None),
            },
            Word::Of { symbol: _, ty: _ }
            | Word::Address(_)
            | Word::Length(_)
            | Word::Zero
            | Word::One => Ok(None),
        }
    }

    /// Puts a symbol of the type at an address that was made for a type alike to it, and answers whether
    /// it did; else nothing changes.
    pub fn set(&mut self, ty: &NamedType, word: &Word, symbol: Rc<Symbol>) -> bool
        ensures stored { when result (Some (memory_of self.new))
            ≡ set_symbol (named_tree ty.now) (word_seen word.now) (shared_of symbol) (memory_of self.old) }
        ensures kept { result ≡ false → self.new ≡ self.old }
    {
        match word {
            Word::Given(k) => self.set_at(*k, ty, symbol),
            Word::Of { symbol: _, ty: _ }
            | Word::Address(_)
            | Word::Length(_)
            | Word::Zero
            | Word::One => false,
        }
    }

    /// Whether the word is an address that was given, at which the symbol stands.
    pub(crate) fn holds(&self, word: &Word, symbol: &Symbol) -> bool
        ensures { result ≡ holds_symbol (memory_of self.now) (word_seen word.now) (symbol_of symbol.now) }
    {
        match word {
            Word::Given(k) => match self.cells.get(*k) {
                Some(cell) => is_symbol(&cell.content, symbol),
                None => false,
            },
            Word::Of { symbol: _, ty: _ }
            | Word::Address(_)
            | Word::Length(_)
            | Word::Zero
            | Word::One => false,
        }
    }

    fn set_at(&mut self, k: usize, ty: &NamedType, symbol: Rc<Symbol>) -> bool
        ensures stored { when result (Some (memory_of self.new)) ≡
            put_in (named_tree ty.now) (shared_of symbol) k (memory_of self.old) (slice_get (memory_of self.old).made k) }
        ensures kept { result ≡ false → self.new ≡ self.old }
    {
        if k >= self.cells.len() {
            return false;
        }
        if !takes(&self.cells[k], ty, &symbol) {
            return false;
        }
        self.cells[k].content = Some(symbol);
        true
    }
}

/// What stands at the address with this number, where it was given.
pub fn cell_at(cells: &Cells, k: usize) -> Option<&Cell>
    ensures { option_map (λ cell. cell.now) result ≡ slice_get cells.now.cells.items k }
{
    cells.cells.get(k)
}

fn content_of(cell: &Cell, ty: &NamedType) -> Result<Option<Rc<Symbol>>, OutOfMemory>
    ensures { IfOk result (λ symbol. option_of symbol ≡ symbol_at (named_tree ty.now) (Some (cell_of cell.now))) }
{
    if alike(&cell.made_for.tref, &ty.tref) {
        match &cell.content {
            Some(symbol) => Ok(Some(Rc::clone(symbol)?)),
            None => Ok(None),
        }
    } else {
        Ok(None)
    }
}

// Whether the cell was made for a type alike to this one, and the symbol is of it.
fn takes(cell: &Cell, ty: &NamedType, symbol: &Symbol) -> bool
    ensures { result ≡ takes_symbol (named_tree ty.now) (symbol_of symbol.now) (cell_of cell.now) }
{
    alike(&cell.made_for.tref, &ty.tref) && is_of(symbol, &ty.tref)
}
