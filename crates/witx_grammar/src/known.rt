//! A choice of a production, as it is kept.

use crate::table::Production;

/// What was found where the nonterminal was wanted and tokens of these two kinds came next.
#[derive(Clone, Copy)]
pub struct Known<'a, T, N, P> {
    pub wanted: N,
    pub first: T,
    pub second: T,
    /// The productions of the nonterminal from the first one on that may fit there.
    pub rest: &'a [Production<'a, T, N, P>],
    /// How many tokens the lookahead of that one takes.
    pub front: usize,
}
