//! How far a text is cut into pieces, and how many parentheses may be open there.

ghost use Rattle.std.specs.Prelude.{◌≡◌};

/// The most parentheses that may be open.
pub const MOST_OPEN: usize = 100;

/// At most 100 parentheses may be open.
pub fn most_open_parentheses()
    ensures { MOST_OPEN ≡ 100 }
{}

/// An offset between two pieces of a text, and how many parentheses are open there.
#[derive(Clone, Copy)]
pub struct Cut {
    pub at: usize,
    pub depth: usize,
}
