//! The words and annotations of the language, each once: the kind of its tokens, its spelling, and
//! the message where it alone can stand.

ghost use Rattle.std.specs.Prelude.{◌≡◌, if◌then◌else◌, map, option_map};
ghost use Rattle.witx_lex.specs.Views.{token_view};
ghost use Rattle.witx_language.specs.declared.token_kind.TokenKind.TheVariants.{Integer, BigInteger, Other};
ghost use Rattle.witx_language.specs.Integers.{is_small};
ghost use Rattle.witx_language.specs.Messages.{expected_view, expected_message, expected_word, expected_annotation, message_in};
ghost use Rattle.witx_language.specs.TokenKinds.{the_words, the_annotations, token_kind as kind_of_token};
ghost use Rattle.witx_values.specs.Words.{kind_spelled as kind_spelled_of, spelling_view};

use crate::integer::integer;
use crate::token_kind::TokenKind;
use witx_lex::Token;
use witx_values::{kind_numbered, kind_spelled};

/// A word, or an annotation without its `@`. Its note is the message where it alone can stand.
type Word = witx_values::Word<TokenKind, &'static str>;

/// A word, with what stands before it in a text.
macro_rules! word {
    ($kind:ident, $mark:literal, $text:literal) => {
        Word {
            kind: TokenKind::$kind,
            text: $text,
            note: concat!("expected `", $mark, $text, "`"),
        }
    };
}

// The order has no meaning beside that of `NUMBERS`.
static WORDS: [Word; 43] = [
    word!(ParamWord, "", "param"),
    word!(ResultWord, "", "result"),
    word!(FuncWord, "", "func"),
    word!(ExportWord, "", "export"),
    word!(FieldWord, "", "field"),
    word!(TypenameWord, "", "typename"),
    word!(CaseWord, "", "case"),
    word!(ErrorWord, "", "error"),
    word!(ExpectedWord, "", "expected"),
    word!(StringWord, "", "string"),
    word!(U8Word, "", "u8"),
    word!(U16Word, "", "u16"),
    word!(U32Word, "", "u32"),
    word!(U64Word, "", "u64"),
    word!(S8Word, "", "s8"),
    word!(S16Word, "", "s16"),
    word!(S32Word, "", "s32"),
    word!(S64Word, "", "s64"),
    word!(F32Word, "", "f32"),
    word!(F64Word, "", "f64"),
    word!(CharWord, "", "char"),
    word!(BoolWord, "", "bool"),
    word!(ListWord, "", "list"),
    word!(PointerWord, "", "pointer"),
    word!(ConstPointerWord, "", "const_pointer"),
    word!(UsizeWord, "", "usize"),
    word!(Char8Word, "", "char8"),
    word!(HandleWord, "", "handle"),
    word!(TupleWord, "", "tuple"),
    word!(RecordWord, "", "record"),
    word!(EnumWord, "", "enum"),
    word!(FlagsWord, "", "flags"),
    word!(UnionWord, "", "union"),
    word!(VariantWord, "", "variant"),
    word!(TagWord, "", "tag"),
    word!(ReprWord, "", "repr"),
    word!(NoreturnWord, "", "noreturn"),
    word!(StoredWord, "", "stored"),
    word!(UseWord, "", "use"),
    word!(ModuleWord, "", "module"),
    word!(ImportWord, "", "import"),
    word!(MemoryWord, "", "memory"),
    word!(ConstWord, "", "const"),
];

static ANNOTATIONS: [Word; 2] = [
    word!(AtWitx, "@", "witx"),
    word!(AtInterface, "@", "interface"),
];

/// The number of the word with each sum of `kind_numbered`, or 255.
static NUMBERS: [u8; 128] = [
    36, 255, 255, 255, 255, 255, 37, 255, 255, 0, 255, 11, 35, 255, 255, 255, 255, 255, 14, 255,
    21, 26, 255, 255, 6, 255, 255, 16, 20, 255, 255, 255, 2, 255, 255, 255, 255, 24, 40, 255, 8,
    28, 255, 255, 5, 255, 255, 255, 255, 255, 10, 255, 255, 4, 1, 38, 255, 25, 39, 12, 255, 7, 255,
    255, 255, 255, 9, 17, 255, 42, 255, 255, 255, 255, 41, 18, 255, 255, 255, 34, 255, 255, 255,
    255, 22, 255, 255, 255, 30, 255, 255, 255, 255, 255, 255, 255, 255, 31, 255, 13, 255, 255, 3,
    255, 255, 255, 27, 15, 255, 32, 255, 23, 255, 255, 255, 19, 255, 255, 29, 33, 255, 255, 255,
    255, 255, 255, 255, 255,
];

/// The words.
fn words() -> &'static [Word]
    ensures spelled { map spelling_view result.now ≡ the_words }
    ensures messages { map expected_view result.now ≡ map expected_word the_words }
{
    &WORDS
}

/// The annotations.
fn annotations() -> &'static [Word]
    ensures spelled { map spelling_view result.now ≡ the_annotations }
    ensures messages { map expected_view result.now ≡ map expected_annotation the_annotations }
{
    &ANNOTATIONS
}

/// The message where tokens of the kind alone can stand, if it is one of these.
fn message_among(words: &'static [Word], kind: TokenKind) -> Option<&'static str>
    ensures { option_map (λ message. message.now) result ≡ message_in (map expected_view words.now) kind }
{
    for word in words {
        if word.kind == kind {
            return Some(word.note);
        }
    }
    None
}

/// The message where tokens of the kind alone can stand.
pub fn expected(kind: TokenKind) -> &'static str
    ensures { result.now ≡ expected_message kind }
{
    if kind == TokenKind::Id {
        return "expected an identifier";
    }
    if kind == TokenKind::Quoted {
        return "expected a string";
    }
    if kind == TokenKind::Integer {
        return "expected an integer";
    }
    if kind == TokenKind::Left {
        return "expected `(`";
    }
    if kind == TokenKind::Right {
        return "expected `)`";
    }
    if let Some(message) = message_among(words(), kind) {
        return message;
    }
    match message_among(annotations(), kind) {
        Some(message) => message,
        None => "unexpected token",
    }
}

/// The kind of an integer token.
fn kind_of_integer(digits: &str) -> TokenKind
    ensures { result ≡ (if is_small digits.now then Integer else BigInteger) }
{
    if integer(digits).is_some() {
        TokenKind::Integer
    } else {
        TokenKind::BigInteger
    }
}

/// The kind of a word.
fn kind_of_word(text: &str) -> TokenKind
    ensures { result ≡ kind_spelled_of Other the_words text.now }
{
    kind_numbered(words(), &NUMBERS, TokenKind::Other, text)
}

/// The kind of an annotation, by its word.
// Few tokens are annotations, so the search for one isn't written wherever `kind_of` is.
#[inline(never)]
fn kind_of_annotation(word: &str) -> TokenKind
    ensures { result ≡ kind_spelled_of Other the_annotations word.now }
{
    kind_spelled(annotations(), TokenKind::Other, word)
}

/// The kind of a token.
// Inlined, it doesn't ask again which token was just told from the text.
#[inline(always)]
pub fn kind_of(token: &Token) -> TokenKind
    ensures { result ≡ kind_of_token (token_view token.now) }
{
    match token {
        Token::LParen => TokenKind::Left,
        Token::RParen => TokenKind::Right,
        Token::Id(_name) => TokenKind::Id,
        Token::Quoted(_text) => TokenKind::Quoted,
        Token::Int(digits) => kind_of_integer(digits),
        Token::Word(word) => kind_of_word(word),
        Token::Annot(word) => kind_of_annotation(word),
    }
}
