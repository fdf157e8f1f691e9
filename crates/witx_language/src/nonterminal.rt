//! What the grammar has productions for.

ghost use Rattle.witx_grammar.specs.Kinds.{enum_exact};
ghost use Rattle.witx_language.specs.contracts.nonterminal.Nonterminal.{the_type};

use witx_grammar::Kind;

/// A nonterminal of the grammar.
#[derive(Clone, Copy, PartialEq, Eq)]
pub enum Nonterminal {
    /// A whole text.
    Text,
    /// A top-level form.
    Item,
    /// A builtin word.
    Builtin,
    /// A type.
    Type,
    /// A type but those with `@witx` in the first place.
    Plain,
    /// A name of an enum or of flags.
    Name,
    /// Such names up to the closing parenthesis.
    Names,
    /// Types up to the closing parenthesis.
    Types,
    /// A field of a union.
    UnionField,
    /// The first field of a union without a tag.
    FirstUnionField,
    /// Fields of a union up to the closing parenthesis.
    UnionFields,
    /// A field of a record.
    Field,
    /// Fields of a record up to the closing parenthesis.
    Fields,
    /// The error of an expected type, behind its `error`, up to its closing parenthesis.
    ErrorRest,
    /// A case of a variant.
    Case,
    /// Cases up to the closing parenthesis.
    Cases,
    /// A declaration of a module.
    Decl,
    /// Declarations up to the closing parenthesis.
    Decls,
    /// A parameter, a result, `noreturn` or `stored`.
    Entry,
    /// Entries up to the closing parenthesis.
    Entries,
}

impl Kind for Nonterminal {
    fn number(&self) -> u8 {
        *self as u8
    }

    ghost exact = { enum_exact the_type tt };
}
