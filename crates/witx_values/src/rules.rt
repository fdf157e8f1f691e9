//! Rows of a grammar's table.

/// A nonterminal with its productions: `NAME = ..;` each, tokens by their kinds and nonterminals in `<>`.
/// Who calls it names its kinds of tokens `TokenKind`, its nonterminals `Nonterminal` and its
/// productions `ProductionName`, and has `Production`, `Rule` and `Symbol` of `witx_grammar` in scope.
#[macro_export]
macro_rules! rule {
    ($nonterminal:ident: $($name:ident = $($first:ident)* $(<$part:ident> $($token:ident)*)*;)*) => {
        Rule {
            nonterminal: Nonterminal::$nonterminal,
            productions: &[$(
                Production {
                    name: ProductionName::$name,
                    symbols: &[
                        $(Symbol::Terminal(TokenKind::$first),)*
                        $(Symbol::Nonterminal(Nonterminal::$part), $(Symbol::Terminal(TokenKind::$token),)*)*
                    ],
                },
            )*],
        }
    };
}
