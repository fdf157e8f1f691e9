//! What the generator of bodies keeps of each call.

use witx_base::Items;
use witx_instructions::Trace;

/// What stands for a value or a word in a body: a variable of C, by its number.
#[derive(Clone, Copy)]
pub struct Variable {
    pub number: usize,
}

/// Variables, the topmost last.
pub type Variables = Items<Variable>;

/// A call of the generator: the one event that it was told, and the variables that it was handed and left.
#[derive(Drop)]
pub struct Handed {
    pub told: Trace,
    pub operands: Variables,
    pub results: Variables,
}
