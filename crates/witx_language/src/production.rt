//! Names of the productions.

ghost use Rattle.witx_grammar.specs.Kinds.{enum_exact};
ghost use Rattle.witx_language.specs.contracts.production.ProductionName.{the_type};

use witx_grammar::Kind;

/// The name of a production. What each is stands in the table of the grammar.
#[derive(Clone, Copy, PartialEq, Eq)]
pub enum ProductionName {
    NoItems,
    MoreItems,
    Use,
    Typename,
    Module,
    Const,
    Char,
    U8,
    U16,
    U32,
    U64,
    S8,
    S16,
    S32,
    S64,
    F32,
    F64,
    Pointer,
    ConstPointer,
    Usize,
    Char8,
    PlainType,
    Ident,
    String,
    Bool,
    TaggedEnum,
    Enum,
    TaggedFlags,
    Flags,
    Record,
    Tuple,
    List,
    Handle,
    Expected,
    ExpectedType,
    TaggedUnion,
    EmptyUnion,
    Union,
    TaggedVariant,
    Variant,
    BuiltinType,
    Name,
    NoNames,
    MoreNames,
    NoTypes,
    MoreTypes,
    UnionField,
    FirstUnionField,
    NoUnionFields,
    MoreUnionFields,
    Field,
    NoFields,
    MoreFields,
    BareError,
    Error,
    BareCase,
    Case,
    NoCases,
    MoreCases,
    Import,
    Func,
    NoDecls,
    MoreDecls,
    Param,
    Result,
    Noreturn,
    Stored,
    NoEntries,
    MoreEntries,
}

impl Kind for ProductionName {
    fn number(&self) -> u8 {
        *self as u8
    }

    ghost exact = { enum_exact the_type tt };
}
