//! The words of the grammar, each once, and the kinds of tokens.

ghost use Rattle.std.specs.Prelude.{◌≡◌, map};
ghost use Rattle.witx_lex.specs.Views.{token_view};
ghost use Rattle.witx_imports.specs.TokenKinds.{import_words, import_token_kind as kind_of_token};
ghost use Rattle.witx_values.specs.Words.{spelling_view};

use crate::symbols::TokenKind;
use witx_lex::Token;
use witx_values::kind_spelled;

/// A word, with nothing beside it.
type Word = witx_values::Word<TokenKind, ()>;

macro_rules! word {
    ($kind:ident, $text:literal) => {
        Word {
            kind: TokenKind::$kind,
            text: $text,
            note: (),
        }
    };
}

// The order has no meaning: words that stand often are first, since they are found sooner.
static WORDS: [Word; 8] = [
    word!(I32Word, "i32"),
    word!(I64Word, "i64"),
    word!(F32Word, "f32"),
    word!(F64Word, "f64"),
    word!(ParamWord, "param"),
    word!(ResultWord, "result"),
    word!(FuncWord, "func"),
    word!(ImportWord, "import"),
];

/// The words.
fn words() -> &'static [Word]
    ensures { map spelling_view result.now ≡ import_words }
{
    &WORDS
}

/// The kind of a token.
pub fn kind_of(token: &Token) -> TokenKind
    ensures { result ≡ kind_of_token (token_view token.now) }
{
    match token {
        Token::LParen => TokenKind::Left,
        Token::RParen => TokenKind::Right,
        Token::Id(_name) => TokenKind::Id,
        Token::Quoted(_text) => TokenKind::Quoted,
        Token::Int(_digits) => TokenKind::Other,
        Token::Word(word) => kind_spelled(words(), TokenKind::Other, word),
        Token::Annot(_word) => TokenKind::Other,
    }
}
