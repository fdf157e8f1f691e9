//! The grammar of lists of imports as a table: one production for each way to write a nonterminal.
//!
//! An optional part is two productions, and a repetition is a nonterminal that ends with its
//! closing parenthesis. Of productions that begin alike, the one with more tokens in front of its
//! first nonterminal stands first.

ghost use Rattle.std.specs.Prelude.{◌≡◌};
ghost use Rattle.witx_grammar.specs.Grammar.{grammar};
ghost use Rattle.witx_imports.specs.Grammar.{IsPredictiveImportTable, import_grammar};

use crate::symbols::{Nonterminal, ProductionName, TokenKind};
use witx_grammar::{Production, Rule, Symbol, Table};
use witx_values::rule;

static RULES: [Rule<'static, TokenKind, Nonterminal, ProductionName>; 8] = [
    rule! { Text:
        NoImports = End;
        MoreImports = <Import> <Text>;
    },
    rule! { Import:
        Import = Left ImportWord Quoted Quoted Left FuncWord <Func> Right;
    },
    rule! { Func:
        NamedFunc = Id <Params>;
        BareFunc = <Params>;
    },
    rule! { Params:
        NoParams = Right;
        MoreParams = Left ParamWord <Param> <Params>;
        FirstResults = Left ResultWord <Types> <Results>;
    },
    rule! { Param:
        NamedParam = Id <Type> Right;
        BareParams = <Types>;
    },
    rule! { Results:
        NoResults = Right;
        MoreResults = Left ResultWord <Types> <Results>;
    },
    rule! { Types:
        NoTypes = Right;
        MoreTypes = <Type> <Types>;
    },
    rule! { Type:
        I32 = I32Word;
        I64 = I64Word;
        F32 = F32Word;
        F64 = F64Word;
    },
];

/// The grammar.
pub fn the_table() -> Table<'static, TokenKind, Nonterminal, ProductionName>
    ensures predictive { IsPredictiveImportTable result }
    ensures grammar { grammar result ≡ import_grammar }
{
    Table { rules: &RULES }
}
