//! The verdict on two traces.

use witx_machine::Place;

/// What is found of two traces.
#[derive(Clone, Copy, PartialEq, Eq, Debug)]
pub enum Verdict {
    /// The two traces are faithful to the function: for all arguments, replies, memories and free addresses; under
    /// `Preview1` for all replies but an error whose one word is 0.
    Yes,
    /// They aren't known to be; what goes wrong first.
    No(Doubt),
}

/// Why two traces aren't known to be faithful to a function.
#[derive(Clone, Copy, PartialEq, Eq, Debug)]
pub enum Doubt {
    /// The function can't be lowered, or doesn't fit its tags, for this parameter or result.
    Function(Place),
    /// The caller's event of this number, from 0, has no rule; one past the last where the trace doesn't return.
    Caller(usize),
    /// The same of the callee's trace.
    Callee(usize),
    /// The words at the call aren't those of the interface.
    Passes,
    /// What comes back isn't what the interface says.
    Returns,
    /// The interface's function wasn't called with the arguments.
    Notes,
    /// The caller doesn't give the reply back.
    Reply,
}
