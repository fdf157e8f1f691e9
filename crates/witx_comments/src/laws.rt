//! A law of documentation, as the contract of a function that does nothing.

ghost use Rattle.std.specs.{Prelude.{ℕ, List}, List.{AllByRecursion}, Str.{IsUtf8}};
ghost use Rattle.witx_comments.specs.Documentation.{doc_lines, AreCutBetweenCharacters};

/// No line of documentation that comments give is cut inside a character.
pub fn lines_are_cut_between_characters()
    ensures { (comments : List (List ℕ)) → AllByRecursion IsUtf8 comments → AreCutBetweenCharacters (doc_lines comments) }
{}
