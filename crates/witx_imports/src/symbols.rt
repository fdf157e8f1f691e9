//! What the grammar speaks of: kinds of tokens, nonterminals, and names of productions.

ghost use Rattle.witx_grammar.specs.Kinds.{enum_exact};
ghost use Rattle.witx_imports.specs.contracts.symbols.Nonterminal.{the_type as nonterminals};
ghost use Rattle.witx_imports.specs.contracts.symbols.ProductionName.{the_type as productions};
ghost use Rattle.witx_imports.specs.contracts.symbols.TokenKind.{the_type as kinds};

use witx_grammar::Kind;

/// What the grammar sees of a token: its kind, or that the text ends. Each word is a kind of its own.
#[derive(Clone, Copy, PartialEq, Eq)]
pub enum TokenKind {
    /// `(`.
    Left,
    /// `)`.
    Right,
    /// An identifier.
    Id,
    /// A string.
    Quoted,
    ImportWord,
    FuncWord,
    ParamWord,
    ResultWord,
    I32Word,
    I64Word,
    F32Word,
    F64Word,
    /// Any other word, an annotation or an integer, which stands nowhere.
    Other,
    /// The end of the text, which stands once, behind the last token.
    End,
}

impl Kind for TokenKind {
    fn number(&self) -> u8 {
        *self as u8
    }

    ghost exact = { enum_exact kinds tt };
}

/// A part of a list of imports. One that is a repetition ends with the parenthesis that closes the
/// form in which it stands.
#[derive(Clone, Copy, PartialEq, Eq)]
pub enum Nonterminal {
    /// The whole text.
    Text,
    Import,
    /// What stands behind `func`, up to its `)`.
    Func,
    /// The groups of parameters, and then those of results, up to the `)` of `func`.
    Params,
    /// What stands behind `param`, up to its `)`.
    Param,
    /// The groups of results, up to the `)` of `func`.
    Results,
    /// Types of words, up to the `)` of their group.
    Types,
    Type,
}

impl Kind for Nonterminal {
    fn number(&self) -> u8 {
        *self as u8
    }

    ghost exact = { enum_exact nonterminals tt };
}

/// The name of a production. What each is stands in the table of the grammar.
#[derive(Clone, Copy, PartialEq, Eq)]
pub enum ProductionName {
    NoImports,
    MoreImports,
    Import,
    NamedFunc,
    BareFunc,
    NoParams,
    MoreParams,
    FirstResults,
    NamedParam,
    BareParams,
    NoResults,
    MoreResults,
    NoTypes,
    MoreTypes,
    I32,
    I64,
    F32,
    F64,
}

impl Kind for ProductionName {
    fn number(&self) -> u8 {
        *self as u8
    }

    ghost exact = { enum_exact productions tt };
}
