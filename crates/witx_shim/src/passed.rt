//! A shim: the words that pass, by their numbers.

use witx_base::Items;

/// Numbers of words, in order.
pub type Places = Items<usize>;

/// How the callers of an old function are served by a new one.
#[derive(PartialEq, Eq, Debug, Drop)]
pub struct Shim {
    /// The numbers of the old function's words in the order in which the new function gets them.
    pub pass: Places,
}
