//! What comes of a run of two traces.

use crate::item::Item;

/// What is known of the caller's call.
#[derive(Drop)]
pub struct CallMade<V, W, M> {
    /// The words that went in, in order.
    pub words: Vec<W>,
    /// What stood at the addresses when they did.
    pub at_call: M,
    /// The values with which the callee called the interface.
    pub noted: Vec<V>,
    /// The words that came back.
    pub callee_words: Vec<W>,
    /// What stood at the addresses then.
    pub at_return: M,
}

/// What is known of a run that ended.
#[derive(Drop)]
pub struct Outcome<V, W, M> {
    /// What is known of its call.
    pub call: CallMade<V, W, M>,
    /// What the caller gave back.
    pub back: Vec<Item<V, W>>,
    /// What stood at the addresses at the end.
    pub memory: M,
}

/// What comes of a run of two traces.
#[derive(Drop)]
pub enum Run<V, W, M> {
    /// Both traces made their call and returned.
    Ended(Outcome<V, W, M>),
    /// The caller's event of this number, from 0, has no rule; one past the last where the trace doesn't
    /// return.
    StuckInCaller(usize),
    /// The same of the callee's trace.
    StuckInCallee(usize),
}
