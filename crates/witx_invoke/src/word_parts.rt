//! Words of numbers and of cases, and what a word says.

ghost use Rattle.std.specs.Prelude.{◌≡◌};
ghost use Rattle.witx_machine.specs.{Words.{i32 as word_i32}, Cells.{cells}};
ghost use Rattle.witx_call.specs.WordViews.{u32_in, word_view};

use witx_call::Word;
use witx_machine::WasmType;
use witx_run::same_type;

/// A number of 32 bits, an address among them.
pub(crate) fn i32_word(number: u32) -> Word
    ensures { word_view result ≡ word_i32 number }
{
    Word {
        ty: WasmType::I32,
        bits: number as u64,
    }
}

/// The word of a case that carries nothing.
pub(crate) fn case_word(error: bool) -> Word
    ensures { word_view result ≡ cells.case_word error }
{
    if error { i32_word(1) } else { i32_word(0) }
}

/// Whether the word is of a type.
pub(crate) fn has_type(word: Word, ty: WasmType) -> bool
    ensures { result ≡ cells.has_type ty (word_view word) }
{
    same_type(word.ty, ty)
}

/// Which case it stands for, true for the error; a word of 32 bits alone does.
pub(crate) fn chooses(word: Word) -> Option<bool>
    ensures { result ≡ cells.chooses (word_view word) }
{
    if same_type(word.ty, WasmType::I32) {
        Some(word.bits != 0)
    } else {
        None
    }
}

/// The number of 32 bits that it is.
pub(crate) fn i32_number(word: Word) -> Option<u32>
    ensures { result ≡ u32_in (word_view word) }
{
    if same_type(word.ty, WasmType::I32) && word.bits < 1 << 32 {
        Some(word.bits as u32)
    } else {
        None
    }
}
