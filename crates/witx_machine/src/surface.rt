//! The types of words, and the places of parameters and results.

ghost use Rattle.std.specs.Prelude.{◌≡◌};

use witx_ast::IntRepr;
use witx_base::{Duplicate, OutOfMemory};

/// The type of a word of WebAssembly.
#[derive(Clone, Copy, PartialEq, Eq, Debug)]
pub enum WasmType {
    I32,
    I64,
    F32,
    F64,
}

impl Duplicate for WasmType {
    ghost is_copy = { λ word made. made ≡ word };

    fn copy(&self) -> Result<WasmType, OutOfMemory> {
        Ok(*self)
    }
}

/// The word in which flags or a tag of this width are kept.
impl From<IntRepr> for WasmType {
    ghost use Rattle.witx_machine.specs.Words.{repr_word_type};

    ghost from_gives = { λ repr word. word ≡ repr_word_type repr };

    fn from(repr: IntRepr) -> WasmType {
        match repr {
            IntRepr::U8 | IntRepr::U16 | IntRepr::U32 => WasmType::I32,
            IntRepr::U64 => WasmType::I64,
        }
    }
}

/// A parameter or a result of a function, numbered from 0.
#[derive(Clone, Copy, PartialEq, Eq, Debug)]
pub enum Place {
    Param(usize),
    Result(usize),
}
