//! The grammar of the interface language as a table: one production for each way to write a
//! nonterminal.
//!
//! An optional part is two productions, and a repetition is a nonterminal that ends with its
//! closing parenthesis. Of productions that begin alike, the one with more tokens in front of its
//! first nonterminal stands first.

ghost use Rattle.std.specs.Prelude.{◌≡◌};
ghost use Rattle.witx_grammar.specs.Grammar.{grammar};
ghost use Rattle.witx_language.specs.Grammar.{IsPredictiveTable, the_grammar};

use crate::nonterminal::Nonterminal;
use crate::production::ProductionName;
use crate::token_kind::TokenKind;
use witx_grammar::{Production, Rule, Symbol, Table};
use witx_values::rule;

static RULES: [Rule<'static, TokenKind, Nonterminal, ProductionName>; 20] = [
    rule! { Text:
        NoItems = End;
        MoreItems = <Item> <Text>;
    },
    rule! { Item:
        Use = Left UseWord Quoted Right;
        Typename = Left TypenameWord Id <Type> Right;
        Module = Left ModuleWord Id <Decls>;
        Const = Left AtWitx ConstWord Id Id Integer Right;
    },
    rule! { Builtin:
        Char = CharWord;
        U8 = U8Word;
        U16 = U16Word;
        U32 = U32Word;
        U64 = U64Word;
        S8 = S8Word;
        S16 = S16Word;
        S32 = S32Word;
        S64 = S64Word;
        F32 = F32Word;
        F64 = F64Word;
    },
    rule! { Type:
        Pointer = Left AtWitx PointerWord <Type> Right;
        ConstPointer = Left AtWitx ConstPointerWord <Type> Right;
        Usize = Left AtWitx UsizeWord Right;
        Char8 = Left AtWitx Char8Word Right;
        PlainType = <Plain>;
    },
    rule! { Plain:
        Ident = Id;
        String = StringWord;
        Bool = BoolWord;
        TaggedEnum = Left EnumWord Left AtWitx TagWord <Builtin> Right <Name> <Names>;
        Enum = Left EnumWord <Name> <Names>;
        TaggedFlags = Left FlagsWord Left AtWitx ReprWord <Builtin> Right <Names>;
        Flags = Left FlagsWord <Names>;
        Record = Left RecordWord <Field> <Fields>;
        Tuple = Left TupleWord <Types>;
        List = Left ListWord <Type> Right;
        Handle = Left HandleWord Right;
        Expected = Left ExpectedWord Left ErrorWord <ErrorRest> Right;
        ExpectedType = Left ExpectedWord <Type> Left ErrorWord <ErrorRest> Right;
        TaggedUnion = Left UnionWord Left AtWitx TagWord <Type> Right <UnionFields>;
        EmptyUnion = Left UnionWord Right;
        Union = Left UnionWord <FirstUnionField> <UnionFields>;
        TaggedVariant = Left VariantWord Left AtWitx TagWord <Type> Right <Cases>;
        Variant = Left VariantWord <Cases>;
        BuiltinType = <Builtin>;
    },
    rule! { Name:
        Name = Id;
    },
    rule! { Names:
        NoNames = Right;
        MoreNames = <Name> <Names>;
    },
    rule! { Types:
        NoTypes = Right;
        MoreTypes = <Type> <Types>;
    },
    rule! { UnionField:
        UnionField = <Type>;
    },
    rule! { FirstUnionField:
        FirstUnionField = <Plain>;
    },
    rule! { UnionFields:
        NoUnionFields = Right;
        MoreUnionFields = <UnionField> <UnionFields>;
    },
    rule! { Field:
        Field = Left FieldWord Id <Type> Right;
    },
    rule! { Fields:
        NoFields = Right;
        MoreFields = <Field> <Fields>;
    },
    rule! { ErrorRest:
        BareError = Right;
        Error = <Type> Right;
    },
    rule! { Case:
        BareCase = Left CaseWord Id Right;
        Case = Left CaseWord Id <Type> Right;
    },
    rule! { Cases:
        NoCases = Right;
        MoreCases = <Case> <Cases>;
    },
    rule! { Decl:
        Import = Left ImportWord Quoted Left MemoryWord Right Right;
        Func = Left AtInterface FuncWord Left ExportWord Quoted Right <Entries>;
    },
    rule! { Decls:
        NoDecls = Right;
        MoreDecls = <Decl> <Decls>;
    },
    rule! { Entry:
        Param = Left ParamWord Id <Type> Right;
        Result = Left ResultWord Id <Type> Right;
        Noreturn = Left AtWitx NoreturnWord Right;
        Stored = Left AtWitx StoredWord Right;
    },
    rule! { Entries:
        NoEntries = Right;
        MoreEntries = <Entry> <Entries>;
    },
];

/// The grammar.
pub fn the_table() -> Table<'static, TokenKind, Nonterminal, ProductionName>
    ensures predictive { IsPredictiveTable result }
    ensures grammar { grammar result ≡ the_grammar }
{
    Table { rules: &RULES }
}
