//! What is told of an error.

ghost use Rattle.std.specs.Prelude.{ℕ, List, IfOk};

use std::alloc::Global;
use witx_base::{OutOfMemory, Text};

/// An error that can be told by itself.
pub trait ErrorText {
    /// The text is what is told of the error.
    ghost is_told: { Self → List ℕ → Type 0 };

    /// What is told of it, without the files, the document or the list that it is of: a typename, a parameter and an
    /// import are told by their numbers.
    fn error_text(&self, alloc: Global) -> Result<Text, OutOfMemory>
        ensures { IfOk result (is_told self.now) };
}
