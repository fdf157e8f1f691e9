//! The domain of a call: values, words with their bits, and bytes at the stated addresses.

ghost use Rattle.std.specs.Prelude.{◌≡◌, IfOk, map, option_map};
ghost use Rattle.witx_ast.specs.Values as plain;
ghost use Rattle.witx_machine.specs.Words as machine;
ghost use Rattle.witx_bytes.specs.Seen.{seen};
ghost use Rattle.witx_call.specs.{PlacementViews.{room_of}, Room.{Room}, WordViews.{word_view}};
ghost use Rattle.witx_invoke.specs.Placing.{placing};

use crate::copies::copy_value;
use crate::lifting::{
    lift_const_pointer, lift_enum, lift_flags, lift_handle, lift_number, lift_pointer,
};
use crate::loading::load;
use crate::lowering::{
    lower_const_pointer, lower_enum, lower_flags, lower_handle, lower_number, lower_pointer,
};
use crate::picking::picks;
use crate::shapes::{list_value, list_words, parts, result, tuple};
use crate::storing::{put, store};
use crate::word_parts::{case_word, chooses, has_type, i32_word};
use std::alloc::Global;
use std::rc::Rc;
use witx_ast::{NamedType, TypeRef};
use witx_base::OutOfMemory;
use witx_bytes::Value;
use witx_call::{Placement, Word};
use witx_machine::WasmType;
use witx_run::{Conversion, Domain, Picked};

/// Values, words and bytes of a call; `alloc` gives what they need.
#[derive(Clone, Copy, Drop)]
pub(crate) struct ByteDomain {
    pub(crate) alloc: Global,
}

impl Domain for ByteDomain {
    type Value = Value;

    type Word = Word;

    type Memory = Placement;

    ghost V = { plain.Value };

    ghost W = { machine.Word };

    ghost M = { Room };

    ghost value_of = { seen };

    ghost word_of = { word_view };

    ghost memory_of = { room_of };

    ghost domain = { λ _. placing };

    fn copy_value(&self, value: &Value) -> Result<Value, OutOfMemory> {
        copy_value(self.alloc, value)
    }

    fn copy_word(&self, word: &Word) -> Result<Word, OutOfMemory> {
        Ok(*word)
    }

    fn copy_memory(&self, memory: &Placement) -> Result<Placement, OutOfMemory> {
        memory.copy(self.alloc)
    }

    fn lower(
        &self,
        conversion: Conversion<'_>,
        value: &Value,
    ) -> Result<Option<Word>, OutOfMemory> {
        match conversion {
            Conversion::Number(builtin) => Ok(lower_number(builtin, value)),
            Conversion::Pointer => Ok(lower_pointer(value)),
            Conversion::ConstPointer => Ok(lower_const_pointer(value)),
            Conversion::Handle(named) => Ok(lower_handle(named, value)),
            Conversion::Flags(ty, named) => lower_flags(ty, named, value),
            Conversion::Enum(named) => Ok(lower_enum(named, value)),
        }
    }

    fn lift(&self, conversion: Conversion<'_>, word: &Word) -> Result<Option<Value>, OutOfMemory> {
        match conversion {
            Conversion::Number(builtin) => Ok(lift_number(builtin, *word)),
            Conversion::Pointer => Ok(lift_pointer(*word)),
            Conversion::ConstPointer => Ok(lift_const_pointer(*word)),
            Conversion::Handle(named) => Ok(lift_handle(named, *word)),
            Conversion::Flags(ty, named) => lift_flags(self.alloc, ty, named, *word),
            Conversion::Enum(named) => lift_enum(named, *word),
        }
    }

    fn list_words(&self, value: &Value) -> Result<Option<(Word, Word)>, OutOfMemory> {
        Ok(list_words(value))
    }

    fn list_value(&self, address: &Word, length: &Word) -> Result<Option<Value>, OutOfMemory> {
        Ok(list_value(*address, *length))
    }

    fn tuple(&self, values: Vec<Value>) -> Result<Value, OutOfMemory>
        ensures { IfOk result (λ made. seen made ≡ placing.tuple (map seen values.items)) }
    {
        Ok(tuple(values))
    }

    fn parts(&self, count: usize, value: Value) -> Result<Option<Vec<Value>>, OutOfMemory> {
        Ok(parts(count, value))
    }

    fn give(
        &self,
        memory: &mut Placement,
        ty: &Rc<NamedType>,
    ) -> Result<Option<Word>, OutOfMemory> {
        match memory.give(ty)? {
            Some(at) => Ok(Some(i32_word(at))),
            None => Ok(None),
        }
    }

    fn put(
        &self,
        memory: &mut Placement,
        ty: &Rc<NamedType>,
        value: Value,
    ) -> Result<Option<Word>, OutOfMemory> {
        let given = put(memory, self.alloc, ty, &value);
        drop(value);
        match given? {
            Some(at) => Ok(Some(i32_word(at))),
            None => Ok(None),
        }
    }

    fn get(
        &self,
        memory: &Placement,
        ty: &Rc<NamedType>,
        word: &Word,
    ) -> Result<Option<Value>, OutOfMemory> {
        load(memory, self.alloc, ty, *word)
    }

    fn set(
        &self,
        memory: &mut Placement,
        ty: &Rc<NamedType>,
        word: &Word,
        value: Value,
    ) -> Result<bool, OutOfMemory> {
        let stored = store(memory, self.alloc, ty, *word, &value);
        drop(value);
        stored
    }

    fn picks(
        &self,
        ok: Option<&TypeRef>,
        err: Option<&TypeRef>,
        value: Value,
    ) -> Result<Option<Picked<Value>>, OutOfMemory> {
        picks(ok, err, value)
    }

    fn case_word(&self, error: bool) -> Word {
        case_word(error)
    }

    fn chooses(&self, word: &Word) -> Option<bool> {
        chooses(*word)
    }

    fn result(&self, error: bool, payload: Option<Value>) -> Result<Value, OutOfMemory>
        ensures { IfOk result (λ made. seen made ≡ placing.result error (option_map seen payload)) }
    {
        result(self.alloc, error, payload)
    }

    fn has_type(&self, ty: WasmType, word: &Word) -> bool {
        has_type(*word, ty)
    }
}
