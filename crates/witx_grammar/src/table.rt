//! Grammars as tables.

/// So many nonterminals at most are opened at one place.
pub const DEPTH: u8 = 8;

/// What a production wants: a token of a kind, or whatever a nonterminal stands for.
#[derive(Clone, Copy)]
pub enum Symbol<T, N> {
    Terminal(T),
    Nonterminal(N),
}

/// One way to write a nonterminal. It is never empty: a repetition is a nonterminal of its own that
/// ends with its closing token, an optional part is two productions.
///
/// Its leading tokens, up to its first nonterminal, are its lookahead: it is taken where they all come
/// next, unless an earlier production of the nonterminal is.
pub struct Production<'a, T, N, P> {
    pub name: P,
    pub symbols: &'a [Symbol<T, N>],
}

/// A nonterminal with its productions.
pub struct Rule<'a, T, N, P> {
    pub nonterminal: N,
    pub productions: &'a [Production<'a, T, N, P>],
}

/// A grammar, with a rule for each nonterminal.
///
/// The order of the productions has no meaning, it only says which of them is tried first. A table in
/// which that could be the wrong one is refused: it is not `IsPredictive`.
#[derive(Drop)]
pub struct Table<'a, T, N, P> {
    pub rules: &'a [Rule<'a, T, N, P>],
}

/// A step of a leftmost derivation: the next token is read, or the next nonterminal is written by the
/// production.
#[derive(Clone, Copy, PartialEq, Eq)]
pub enum Step<P> {
    Leaf,
    Node(P),
}
