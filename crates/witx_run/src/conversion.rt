//! Conversions between a value and its one word.

ghost use Rattle.std.specs.Prelude.{◌≡◌};
ghost use Rattle.witx_machine.specs.Words.{builtin_word_type as type_of_word, same_type as is_same_type, word_type};
ghost use Rattle.witx_run.specs.Views.{scalar_of};

use witx_ast::{BuiltinType, NamedType};
use witx_machine::WasmType;

/// A conversion between a value and its one word; of a handle, of flags and of a variant without payloads
/// under the named type.
#[derive(Clone, Copy)]
pub enum Conversion<'a> {
    /// A number, or a character.
    Number(BuiltinType),
    /// A pointer to any type.
    Pointer,
    /// A const pointer to any type.
    ConstPointer,
    /// A handle of this type.
    Handle(&'a NamedType),
    /// Flags of this type, which a word of that one holds.
    Flags(WasmType, &'a NamedType),
    /// A case of this variant without payloads.
    Enum(&'a NamedType),
}

impl Conversion<'_> {
    /// The type of the word.
    pub fn word_type(&self) -> WasmType
        ensures { result ≡ word_type (scalar_of self.now) }
    {
        match self {
            Conversion::Number(builtin) => builtin_word_type(*builtin),
            Conversion::Flags(word, _) => *word,
            Conversion::Pointer
            | Conversion::ConstPointer
            | Conversion::Handle(_)
            | Conversion::Enum(_) => WasmType::I32,
        }
    }
}

/// The type of the word of a builtin.
pub fn builtin_word_type(builtin: BuiltinType) -> WasmType
    ensures { result ≡ type_of_word builtin }
{
    match builtin {
        BuiltinType::U64 | BuiltinType::S64 => WasmType::I64,
        BuiltinType::F32 => WasmType::F32,
        BuiltinType::F64 => WasmType::F64,
        BuiltinType::Char
        | BuiltinType::U8 { .. }
        | BuiltinType::U16
        | BuiltinType::U32 { .. }
        | BuiltinType::S8
        | BuiltinType::S16
        | BuiltinType::S32 => WasmType::I32,
    }
}

/// Whether two words are of one type.
pub fn same_type(a: WasmType, b: WasmType) -> bool
    ensures { result ≡ is_same_type a b }
{
    match (a, b) {
        (WasmType::I32, WasmType::I32)
        | (WasmType::I64, WasmType::I64)
        | (WasmType::F32, WasmType::F32)
        | (WasmType::F64, WasmType::F64) => true,
        _ => false,
    }
}
