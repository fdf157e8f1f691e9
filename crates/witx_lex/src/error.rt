//! The lexical faults of a text.

ghost use Rattle.std.specs.Prelude.{◌≡◌};
ghost use Rattle.witx_lex.specs.declared.error.LexError.TheVariants.{OutOfMemory};

use witx_base::MemoryRefused;

/// What is wrong at a place where no piece can stand.
#[derive(Clone, Copy, PartialEq, Eq, Debug)]
pub enum LexKind {
    /// A character that begins no piece.
    UnexpectedCharacter,
    /// A block comment without its end.
    UnterminatedComment,
    /// A string without its closing quote.
    UnterminatedString,
    /// A backslash in a string that begins no escape.
    BadEscape,
    /// A control character in a string.
    BadCharacter,
    /// A string whose decoded bytes are not UTF-8.
    NotUtf8,
    /// A lone `$`.
    EmptyId,
    /// The `(` that makes the hundred-and-first open parenthesis.
    TooDeep,
}

/// The first fault of a text.
#[derive(Clone, Copy, PartialEq, Eq)]
pub struct LexFault {
    /// What is wrong.
    pub kind: LexKind,
    /// Where, in bytes from the start: the start of the string for `NotUtf8` and
    /// `UnterminatedString`, of the outermost comment for `UnterminatedComment`, the backslash for
    /// `BadEscape`, and the character itself for the others.
    pub at: usize,
}

/// Why a text has no tokens.
#[derive(PartialEq, Eq, Drop)]
pub enum LexError {
    /// The text has this fault.
    Bad(LexFault),
    /// Memory was refused.
    OutOfMemory,
}

impl<E: MemoryRefused> From<E> for LexError {
    ghost from_gives = { λ _ e. e ≡ OutOfMemory };

    fn from(_refused: E) -> LexError {
        LexError::OutOfMemory
    }
}
