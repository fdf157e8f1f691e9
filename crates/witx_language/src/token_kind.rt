//! Kinds of tokens.

ghost use Rattle.witx_grammar.specs.Kinds.{enum_exact};
ghost use Rattle.witx_language.specs.contracts.token_kind.TokenKind.{the_type};

use witx_grammar::Kind;

/// What the grammar sees of a token: its kind, or that the text ends. Each word is a kind of its own.
#[derive(Clone, Copy, PartialEq, Eq)]
pub enum TokenKind {
    /// `(`.
    Left,
    /// `)`.
    Right,
    /// An identifier.
    Id,
    /// A string.
    Quoted,
    /// An integer below 2^64.
    Integer,
    /// An integer of 2^64 or more, which stands nowhere.
    BigInteger,
    /// A word or an annotation that stands nowhere.
    Other,
    /// The end of the text, which stands once, behind the last token.
    End,
    /// `@witx`.
    AtWitx,
    /// `@interface`.
    AtInterface,
    UseWord,
    TypenameWord,
    ModuleWord,
    ConstWord,
    CharWord,
    U8Word,
    U16Word,
    U32Word,
    U64Word,
    S8Word,
    S16Word,
    S32Word,
    S64Word,
    F32Word,
    F64Word,
    StringWord,
    BoolWord,
    EnumWord,
    FlagsWord,
    RecordWord,
    FieldWord,
    TupleWord,
    ListWord,
    HandleWord,
    ExpectedWord,
    ErrorWord,
    UnionWord,
    VariantWord,
    CaseWord,
    TagWord,
    ReprWord,
    PointerWord,
    ConstPointerWord,
    UsizeWord,
    Char8Word,
    ImportWord,
    MemoryWord,
    FuncWord,
    ExportWord,
    ParamWord,
    ResultWord,
    NoreturnWord,
    StoredWord,
}

impl Kind for TokenKind {
    fn number(&self) -> u8 {
        *self as u8
    }

    ghost exact = { enum_exact the_type tt };
}
