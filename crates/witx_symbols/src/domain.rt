//! The machine over symbols, in one world.

ghost use Rattle.std.specs.Prelude.{◌≡◌, IfOk};
ghost use Rattle.witx_symbols.specs.Symbolic.{SymbolMemory, symbols, result_in};
ghost use Rattle.witx_symbols.specs.Symbols.{SymbolWord, tuple, symbols_of};
ghost use Rattle.witx_symbols.specs.WordViews.{shared_of, option_of, shared_symbols, word_seen, memory_of, world_of};
ghost use Rattle.witx_symbols.specs.Symbols as symbol_words;

use crate::cells::Cells;
use crate::symbol::Symbol;
use crate::words::{Word, lift, list_of_words, list_words, lower, parts_of};
use crate::world::World;
use std::alloc::Global;
use std::rc::Rc;
use witx_ast::{NamedType, TypeRef};
use witx_base::{Items, OutOfMemory};
use witx_machine::WasmType;
use witx_run::{Conversion, Domain, Picked};

/// Symbols, their words and the cells, as the machine has them in one world; `alloc` gives what they need.
#[derive(Clone, Copy)]
pub(crate) struct Symbolic<'a> {
    pub(crate) alloc: Global,
    pub(crate) world: &'a World,
}

impl Domain for Symbolic<'_> {
    type Value = Rc<Symbol>;

    type Word = Word;

    type Memory = Cells;

    ghost V = { symbol_words.Symbol };

    ghost W = { SymbolWord };

    ghost M = { SymbolMemory };

    ghost value_of = { shared_of };

    ghost word_of = { word_seen };

    ghost memory_of = { memory_of };

    ghost domain = { λ d. symbols (world_of d.world.now) };

    fn copy_value(&self, value: &Rc<Symbol>) -> Result<Rc<Symbol>, OutOfMemory> {
        Ok(Rc::clone(value)?)
    }

    fn copy_word(&self, word: &Word) -> Result<Word, OutOfMemory> {
        word.again()
    }

    fn copy_memory(&self, memory: &Cells) -> Result<Cells, OutOfMemory> {
        memory.again(self.alloc)
    }

    fn lower(
        &self,
        conversion: Conversion<'_>,
        value: &Rc<Symbol>,
    ) -> Result<Option<Word>, OutOfMemory> {
        lower(&conversion, value)
    }

    fn lift(
        &self,
        conversion: Conversion<'_>,
        word: &Word,
    ) -> Result<Option<Rc<Symbol>>, OutOfMemory> {
        lift(&conversion, word)
    }

    fn list_words(&self, value: &Rc<Symbol>) -> Result<Option<(Word, Word)>, OutOfMemory> {
        list_words(value)
    }

    fn list_value(&self, address: &Word, length: &Word) -> Result<Option<Rc<Symbol>>, OutOfMemory> {
        list_of_words(address, length)
    }

    #[tactic(auto, using(crate::proofs::WordLemmas::word_rules))]
    fn tuple(&self, values: Vec<Rc<Symbol>>) -> Result<Rc<Symbol>, OutOfMemory>
        ensures { IfOk result (λ made. shared_of made ≡ tuple (symbols_of (shared_symbols values.items))) }
    {
        Ok(Rc::new(self.alloc, Symbol::Tuple(Items::from_vec(values)))?)
    }

    fn parts(
        &self,
        count: usize,
        value: Rc<Symbol>,
    ) -> Result<Option<Vec<Rc<Symbol>>>, OutOfMemory> {
        parts_of(self.alloc, count, &value)
    }

    fn give(&self, memory: &mut Cells, ty: &Rc<NamedType>) -> Result<Option<Word>, OutOfMemory> {
        memory.give(ty, None)
    }

    fn put(
        &self,
        memory: &mut Cells,
        ty: &Rc<NamedType>,
        value: Rc<Symbol>,
    ) -> Result<Option<Word>, OutOfMemory> {
        memory.put(ty, value)
    }

    fn get(
        &self,
        memory: &Cells,
        ty: &Rc<NamedType>,
        word: &Word,
    ) -> Result<Option<Rc<Symbol>>, OutOfMemory> {
        memory.get(ty, word)
    }

    fn set(
        &self,
        memory: &mut Cells,
        ty: &Rc<NamedType>,
        word: &Word,
        value: Rc<Symbol>,
    ) -> Result<bool, OutOfMemory> {
        Ok(memory.set(ty, word, value))
    }

    fn picks(
        &self,
        ok: Option<&TypeRef>,
        err: Option<&TypeRef>,
        value: Rc<Symbol>,
    ) -> Result<Option<Picked<Rc<Symbol>>>, OutOfMemory> {
        self.world.picks(ok, err, &value)
    }

    fn case_word(&self, error: bool) -> Word {
        if error { Word::One } else { Word::Zero }
    }

    fn chooses(&self, word: &Word) -> Option<bool> {
        self.world.chooses(word)
    }

    fn result(&self, error: bool, payload: Option<Rc<Symbol>>) -> Result<Rc<Symbol>, OutOfMemory>
        ensures { IfOk result (λ made. shared_of made ≡ result_in (world_of self.now.world.now)
            error (option_of payload) (option_of self.now.world.now.whole) self.now.world.now.error) }
    {
        self.world.result(self.alloc, error, payload)
    }

    fn has_type(&self, ty: WasmType, word: &Word) -> bool {
        word.has_type(ty)
    }
}
