//! What values, words and memories are, to the machine.

ghost use Rattle.std.specs.Prelude.{◌≡◌, Some, IfOk, option_map, map};
ghost use Rattle.witx_ast.specs.Views.{named_tree};
ghost use Rattle.witx_machine.specs.Machine as machine;
ghost use Rattle.witx_machine.specs.Words.{when};
ghost use Rattle.witx_run.specs.Views.{given_in, picked_of, scalar_of, type_tree};

use crate::conversion::Conversion;
use std::rc::Rc;
use witx_ast::{NamedType, TypeRef};
use witx_base::OutOfMemory;
use witx_machine::WasmType;

/// Which case a result has, and what it carries, with the type's name if that type has one.
#[derive(Drop)]
pub struct Picked<V> {
    /// Whether it is the second case, the error.
    pub error: bool,
    /// What the case carries.
    pub payload: Option<(V, Option<Rc<NamedType>>)>,
}

/// What values, words and memories are, and what the machine does with them. Each operation is that of
/// the domain in the definitions; `None`, and `false` of `set`, say that a row has no rule. Want of memory
/// alone is free.
pub trait Domain {
    /// What stands for a value.
    type Value: Drop;
    /// What stands for a word.
    type Word: Drop;
    /// What stands at the addresses that were given.
    type Memory: Drop;

    ghost V: { Type 0 };

    ghost W: { Type 0 };

    ghost M: { Type 0 };

    ghost value_of: { Self.Value → V };

    ghost word_of: { Self.Word → W };

    ghost memory_of: { Self.Memory → M };

    ghost domain: { Self → machine.Domain V W M };

    /// The value once more.
    fn copy_value(&self, value: &Self::Value) -> Result<Self::Value, OutOfMemory>
        ensures { IfOk result (λ made. value_of made ≡ value_of value.now) };

    /// The word once more.
    fn copy_word(&self, word: &Self::Word) -> Result<Self::Word, OutOfMemory>
        ensures { IfOk result (λ made. word_of made ≡ word_of word.now) };

    /// What stands at the addresses once more.
    fn copy_memory(&self, memory: &Self::Memory) -> Result<Self::Memory, OutOfMemory>
        ensures { IfOk result (λ made. memory_of made ≡ memory_of memory.now) };

    /// The one word of a value by a conversion.
    fn lower(
        &self,
        conversion: Conversion<'_>,
        value: &Self::Value,
    ) -> Result<Option<Self::Word>, OutOfMemory>
        ensures { IfOk result (λ word. option_map word_of word
            ≡ (domain self.now).lower (scalar_of conversion.entry) (value_of value.now)) };

    /// The value whose word it is, by a conversion.
    fn lift(
        &self,
        conversion: Conversion<'_>,
        word: &Self::Word,
    ) -> Result<Option<Self::Value>, OutOfMemory>
        ensures { IfOk result (λ value. option_map value_of value
            ≡ (domain self.now).lift (scalar_of conversion.entry) (word_of word.now)) };

    /// The address and the length of a list.
    fn list_words(
        &self,
        value: &Self::Value,
    ) -> Result<Option<(Self::Word, Self::Word)>, OutOfMemory>
        ensures { IfOk result (λ words. option_map (λ p. (word_of p.0, word_of p.1)) words
            ≡ (domain self.now).list_words (value_of value.now)) };

    /// The list of this address and this length.
    fn list_value(
        &self,
        address: &Self::Word,
        length: &Self::Word,
    ) -> Result<Option<Self::Value>, OutOfMemory>
        ensures { IfOk result (λ value. option_map value_of value
            ≡ (domain self.now).list_value (word_of address.now) (word_of length.now)) };

    /// The tuple of these.
    fn tuple(&self, values: Vec<Self::Value>) -> Result<Self::Value, OutOfMemory>
        ensures { IfOk result (λ made. value_of made ≡ (domain self.now).tuple (map value_of values.items)) };

    /// The members of a tuple of so many.
    fn parts(
        &self,
        count: usize,
        value: Self::Value,
    ) -> Result<Option<Vec<Self::Value>>, OutOfMemory>
        ensures { IfOk result (λ values. option_map (λ vs. map value_of vs.items) values
            ≡ (domain self.now).parts count (value_of value)) };

    /// The next address, made for a type, with nothing there.
    fn give(
        &self,
        memory: &mut Self::Memory,
        ty: &Rc<NamedType>,
    ) -> Result<Option<Self::Word>, OutOfMemory>
        ensures { IfOk result (λ word. given_in word_of memory_of memory.new word
            ≡ (domain self.now).give (named_tree ty.now.value) (memory_of memory.old)) };

    /// The next address, made for a type that is passed by address, with a value there.
    fn put(
        &self,
        memory: &mut Self::Memory,
        ty: &Rc<NamedType>,
        value: Self::Value,
    ) -> Result<Option<Self::Word>, OutOfMemory>
        ensures { IfOk result (λ word. given_in word_of memory_of memory.new word
            ≡ (domain self.now).put (named_tree ty.now.value) (value_of value) (memory_of memory.old)) };

    /// What stands at an address, under a type.
    fn get(
        &self,
        memory: &Self::Memory,
        ty: &Rc<NamedType>,
        word: &Self::Word,
    ) -> Result<Option<Self::Value>, OutOfMemory>
        ensures { IfOk result (λ value. option_map value_of value
            ≡ (domain self.now).get (named_tree ty.now.value) (word_of word.now) (memory_of memory.now)) };

    /// Puts a value of a type at an address, and answers whether it did.
    fn set(
        &self,
        memory: &mut Self::Memory,
        ty: &Rc<NamedType>,
        word: &Self::Word,
        value: Self::Value,
    ) -> Result<bool, OutOfMemory>
        ensures { IfOk result (λ stored. when stored (Some (memory_of memory.new))
            ≡ (domain self.now).set (named_tree ty.now.value) (word_of word.now) (value_of value) (memory_of memory.old)) };

    /// Which case a result has, whose cases carry these types.
    fn picks(
        &self,
        ok: Option<&TypeRef>,
        err: Option<&TypeRef>,
        value: Self::Value,
    ) -> Result<Option<Picked<Self::Value>>, OutOfMemory>
        ensures { IfOk result (λ picked. option_map (picked_of value_of) picked
            ≡ (domain self.now).picks (type_tree ok.entry) (type_tree err.entry) (value_of value)) };

    /// The word of a case that carries nothing.
    fn case_word(&self, error: bool) -> Self::Word
        ensures { word_of result ≡ (domain self.now).case_word error };

    /// Which case a word stands for.
    fn chooses(&self, word: &Self::Word) -> Option<bool>
        ensures { result ≡ (domain self.now).chooses (word_of word.now) };

    /// The result with this case and payload.
    fn result(&self, error: bool, payload: Option<Self::Value>) -> Result<Self::Value, OutOfMemory>
        ensures { IfOk result (λ made. value_of made ≡ (domain self.now).result error (option_map value_of payload)) };

    /// Whether the word is of a type.
    fn has_type(&self, ty: WasmType, word: &Self::Word) -> bool
        ensures { result ≡ (domain self.now).has_type ty (word_of word.now) };
}
