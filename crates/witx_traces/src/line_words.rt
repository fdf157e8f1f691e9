//! The words with which the lines of events begin.

ghost use Rattle.std.specs.Prelude.{◌≡◌, map};
ghost use Rattle.witx_ast.specs.Views.{tree_of, named_tree};
ghost use Rattle.witx_instructions.specs.Views.{event_of, kept_step};
ghost use Rattle.witx_traces.specs.LineParts.{named_word_step, number_step, plain_event, shown_step, spelled_word, the_line_words, word_spelled};

use std::rc::Rc;
use witx_abi::{Event, Step};
use witx_ast::{NamedType, TypeRef};

/// A word that is the whole line.
#[derive(Clone, Copy)]
pub(crate) enum PlainWord {
    AddrOf,
    I32FromChar,
    I64FromU64,
    I64FromS64,
    I32FromU32,
    I32FromS32,
    I32FromUsize,
    I32FromU16,
    I32FromS16,
    I32FromU8,
    I32FromS8,
    I32FromChar8,
    I32FromPointer,
    I32FromConstPointer,
    F32FromIf32,
    F64FromIf64,
    ListPointerLength,
    S8FromI32,
    U8FromI32,
    S16FromI32,
    U16FromI32,
    S32FromI32,
    U32FromI32,
    S64FromI64,
    U64FromI64,
    CharFromI32,
    Char8FromI32,
    UsizeFromI32,
    If32FromF32,
    If64FromF64,
    VariantPayload,
    ReuseReturn,
    ResultLift,
    PushBlock,
}

/// A word with a number behind it.
#[derive(Clone, Copy)]
pub(crate) enum NumberWord {
    GetArg,
    ReturnPointerGet,
    TupleLift,
    TupleLower,
    Return,
}

/// A word with a typename behind it.
#[derive(Clone, Copy)]
pub(crate) enum NamedWord {
    I32FromHandle,
    I32FromBitflags,
    I64FromBitflags,
    HandleFromI32,
    BitflagsFromI32,
    BitflagsFromI64,
    Load,
    Store,
    EnumLift,
    EnumLower,
}

/// A word with any type behind it.
#[derive(Clone, Copy)]
pub(crate) enum ShownWord {
    ListFromPointerLength,
    PointerFromI32,
    ConstPointerFromI32,
}

/// The first word of an event's line.
#[derive(Clone, Copy)]
pub(crate) enum LineWord {
    Plain(PlainWord),
    Number(NumberWord),
    Named(NamedWord),
    Shown(ShownWord),
    CallWasm,
    CallInterface,
    ResultLower,
    Space,
    FinishBlock,
}

/// A word and its spelling.
#[derive(Clone, Copy)]
pub(crate) struct Spelled {
    word: LineWord,
    text: &'static str,
}

macro_rules! spelled {
    ($word:ident, $text:literal) => {
        Spelled {
            word: LineWord::$word,
            text: $text,
        }
    };
    (Plain $word:ident, $text:literal) => {
        spelled!(in Plain PlainWord $word, $text)
    };
    (Number $word:ident, $text:literal) => {
        spelled!(in Number NumberWord $word, $text)
    };
    (Named $word:ident, $text:literal) => {
        spelled!(in Named NamedWord $word, $text)
    };
    (Shown $word:ident, $text:literal) => {
        spelled!(in Shown ShownWord $word, $text)
    };
    (in $kind:ident $words:ident $word:ident, $text:literal) => {
        Spelled {
            word: LineWord::$kind($words::$word),
            text: $text,
        }
    };
}

static WORDS: [Spelled; 57] = [
    spelled!(Number GetArg, "get_arg"),
    spelled!(Plain AddrOf, "addr_of"),
    spelled!(Plain I32FromChar, "i32_from_char"),
    spelled!(Plain I64FromU64, "i64_from_u64"),
    spelled!(Plain I64FromS64, "i64_from_s64"),
    spelled!(Plain I32FromU32, "i32_from_u32"),
    spelled!(Plain I32FromS32, "i32_from_s32"),
    spelled!(Plain I32FromUsize, "i32_from_usize"),
    spelled!(Plain I32FromU16, "i32_from_u16"),
    spelled!(Plain I32FromS16, "i32_from_s16"),
    spelled!(Plain I32FromU8, "i32_from_u8"),
    spelled!(Plain I32FromS8, "i32_from_s8"),
    spelled!(Plain I32FromChar8, "i32_from_char8"),
    spelled!(Plain I32FromPointer, "i32_from_pointer"),
    spelled!(Plain I32FromConstPointer, "i32_from_const_pointer"),
    spelled!(Named I32FromHandle, "i32_from_handle"),
    spelled!(Named I32FromBitflags, "i32_from_bitflags"),
    spelled!(Named I64FromBitflags, "i64_from_bitflags"),
    spelled!(Plain F32FromIf32, "f32_from_if32"),
    spelled!(Plain F64FromIf64, "f64_from_if64"),
    spelled!(Plain ListPointerLength, "list_pointer_length"),
    spelled!(Shown ListFromPointerLength, "list_from_pointer_length"),
    spelled!(CallWasm, "call_wasm"),
    spelled!(CallInterface, "call_interface"),
    spelled!(Plain S8FromI32, "s8_from_i32"),
    spelled!(Plain U8FromI32, "u8_from_i32"),
    spelled!(Plain S16FromI32, "s16_from_i32"),
    spelled!(Plain U16FromI32, "u16_from_i32"),
    spelled!(Plain S32FromI32, "s32_from_i32"),
    spelled!(Plain U32FromI32, "u32_from_i32"),
    spelled!(Plain S64FromI64, "s64_from_i64"),
    spelled!(Plain U64FromI64, "u64_from_i64"),
    spelled!(Plain CharFromI32, "char_from_i32"),
    spelled!(Plain Char8FromI32, "char8_from_i32"),
    spelled!(Plain UsizeFromI32, "usize_from_i32"),
    spelled!(Plain If32FromF32, "if32_from_f32"),
    spelled!(Plain If64FromF64, "if64_from_f64"),
    spelled!(Named HandleFromI32, "handle_from_i32"),
    spelled!(Shown PointerFromI32, "pointer_from_i32"),
    spelled!(Shown ConstPointerFromI32, "const_pointer_from_i32"),
    spelled!(Named BitflagsFromI32, "bitflags_from_i32"),
    spelled!(Named BitflagsFromI64, "bitflags_from_i64"),
    spelled!(Number ReturnPointerGet, "return_pointer_get"),
    spelled!(Named Load, "load"),
    spelled!(Named Store, "store"),
    spelled!(Number TupleLift, "tuple_lift"),
    spelled!(Number TupleLower, "tuple_lower"),
    spelled!(Named EnumLift, "enum_lift"),
    spelled!(Named EnumLower, "enum_lower"),
    spelled!(Plain VariantPayload, "variant_payload"),
    spelled!(Plain ReuseReturn, "reuse_return"),
    spelled!(ResultLower, "result_lower"),
    spelled!(Plain ResultLift, "result_lift"),
    spelled!(Number Return, "return"),
    spelled!(Space, "space"),
    spelled!(Plain PushBlock, "push_block"),
    spelled!(FinishBlock, "finish_block"),
];

/// The words of the lines of events.
fn words() -> &'static [Spelled]
    ensures { map spelled_word result.now ≡ the_line_words }
{
    &WORDS
}

/// The word that is spelled so.
pub(crate) fn line_word(text: &str) -> Option<LineWord>
    ensures { result ≡ word_spelled the_line_words text.now }
{
    word_among(words(), text)
}

/// The first of these words that is spelled so.
#[tactic(auto, unfolding(witx_base::specs::Texts::same_text))]
fn word_among(words: &[Spelled], text: &str) -> Option<LineWord>
    ensures { result ≡ word_spelled (map spelled_word words.now) text.now }
{
    for spelled in words {
        if spelled.text == text {
            return Some(spelled.word);
        }
    }
    None
}

/// The event of a word that is the whole line.
pub(crate) fn plain_event(word: PlainWord) -> Event
    ensures { event_of result ≡ plain_event word }
{
    match word {
        PlainWord::AddrOf => Event::Emit(Step::AddrOf),
        PlainWord::I32FromChar => Event::Emit(Step::I32FromChar),
        PlainWord::I64FromU64 => Event::Emit(Step::I64FromU64),
        PlainWord::I64FromS64 => Event::Emit(Step::I64FromS64),
        PlainWord::I32FromU32 => Event::Emit(Step::I32FromU32),
        PlainWord::I32FromS32 => Event::Emit(Step::I32FromS32),
        PlainWord::I32FromUsize => Event::Emit(Step::I32FromUsize),
        PlainWord::I32FromU16 => Event::Emit(Step::I32FromU16),
        PlainWord::I32FromS16 => Event::Emit(Step::I32FromS16),
        PlainWord::I32FromU8 => Event::Emit(Step::I32FromU8),
        PlainWord::I32FromS8 => Event::Emit(Step::I32FromS8),
        PlainWord::I32FromChar8 => Event::Emit(Step::I32FromChar8),
        PlainWord::I32FromPointer => Event::Emit(Step::I32FromPointer),
        PlainWord::I32FromConstPointer => Event::Emit(Step::I32FromConstPointer),
        PlainWord::F32FromIf32 => Event::Emit(Step::F32FromIf32),
        PlainWord::F64FromIf64 => Event::Emit(Step::F64FromIf64),
        PlainWord::ListPointerLength => Event::Emit(Step::ListPointerLength),
        PlainWord::S8FromI32 => Event::Emit(Step::S8FromI32),
        PlainWord::U8FromI32 => Event::Emit(Step::U8FromI32),
        PlainWord::S16FromI32 => Event::Emit(Step::S16FromI32),
        PlainWord::U16FromI32 => Event::Emit(Step::U16FromI32),
        PlainWord::S32FromI32 => Event::Emit(Step::S32FromI32),
        PlainWord::U32FromI32 => Event::Emit(Step::U32FromI32),
        PlainWord::S64FromI64 => Event::Emit(Step::S64FromI64),
        PlainWord::U64FromI64 => Event::Emit(Step::U64FromI64),
        PlainWord::CharFromI32 => Event::Emit(Step::CharFromI32),
        PlainWord::Char8FromI32 => Event::Emit(Step::Char8FromI32),
        PlainWord::UsizeFromI32 => Event::Emit(Step::UsizeFromI32),
        PlainWord::If32FromF32 => Event::Emit(Step::If32FromF32),
        PlainWord::If64FromF64 => Event::Emit(Step::If64FromF64),
        PlainWord::VariantPayload => Event::Emit(Step::VariantPayload),
        PlainWord::ReuseReturn => Event::Emit(Step::ReuseReturn),
        PlainWord::ResultLift => Event::Emit(Step::ResultLift),
        PlainWord::PushBlock => Event::Push,
    }
}

/// The step of a word and the number behind it.
pub(crate) fn number_step(word: NumberWord, number: usize) -> Step
    ensures { kept_step result ≡ number_step word number }
{
    match word {
        NumberWord::GetArg => Step::GetArg { nth: number },
        NumberWord::ReturnPointerGet => Step::ReturnPointerGet { n: number },
        NumberWord::TupleLift => Step::TupleLift { amt: number },
        NumberWord::TupleLower => Step::TupleLower { amt: number },
        NumberWord::Return => Step::Return { amt: number },
    }
}

/// The step of a word and the typename behind it.
pub(crate) fn named_step(word: NamedWord, ty: Rc<NamedType>) -> Step
    ensures { kept_step result ≡ named_word_step word (named_tree ty.value) }
{
    match word {
        NamedWord::I32FromHandle => Step::I32FromHandle { ty },
        NamedWord::I32FromBitflags => Step::I32FromBitflags { ty },
        NamedWord::I64FromBitflags => Step::I64FromBitflags { ty },
        NamedWord::HandleFromI32 => Step::HandleFromI32 { ty },
        NamedWord::BitflagsFromI32 => Step::BitflagsFromI32 { ty },
        NamedWord::BitflagsFromI64 => Step::BitflagsFromI64 { ty },
        NamedWord::Load => Step::Load { ty },
        NamedWord::Store => Step::Store { ty },
        NamedWord::EnumLift => Step::EnumLift { ty },
        NamedWord::EnumLower => Step::EnumLower { ty },
    }
}

/// The step of a word and the type behind it.
pub(crate) fn shown_step(word: ShownWord, ty: TypeRef) -> Step
    ensures { kept_step result ≡ shown_step word (tree_of ty) }
{
    match word {
        ShownWord::ListFromPointerLength => Step::ListFromPointerLength { ty },
        ShownWord::PointerFromI32 => Step::PointerFromI32 { ty },
        ShownWord::ConstPointerFromI32 => Step::ConstPointerFromI32 { ty },
    }
}
