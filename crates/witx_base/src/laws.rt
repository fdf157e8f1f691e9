//! What holds of every copy, path and name, whatever made it. Each law is the contract of a function:
//! call it to have the law.

ghost use Rattle.std.specs.Prelude.{◌≡◌, ◌↔◌, ℕ, List, Option, Some, None, IfOk, IsTrue, [], ◌∷◌, ◌++◌};
ghost use Rattle.std.specs.{List.{AllZip}, Option.{option_or}, Ordering.{is_eq, nat_cmp}};
ghost use Rattle.std.specs.Cmp.Lexicographic.{slice_cmp};
ghost use Rattle.witx_base.specs.{Copies.{IsCopyOfEntries, IsCopyOfOption}, Found.{found}};
ghost use Rattle.witx_base.specs.{Paths.{Path, file_name, join, parent}, Texts.{same_text}};

use crate::duplicate::Duplicate;
use crate::items::Items;
use crate::memory::OutOfMemory;

/// Where the copies of the parts are equal to them, a copied list, option or map is equal to its
/// original.
pub fn copies_are_equal<T: Duplicate>()
    ensures list { ((x y : T) → T.is_copy x y → y ≡ x)
        → (items made : List T) → AllZip T.is_copy items made → made ≡ items }
    ensures option { ((x y : T) → T.is_copy x y → y ≡ x)
        → (value made : Option T) → IsCopyOfOption T.is_copy value made → made ≡ value }
    ensures entries { ((x y : T) → T.is_copy x y → y ≡ x)
        → (entries made : List (List ℕ × T)) → IsCopyOfEntries T.is_copy entries made → made ≡ entries }
{}

/// A copied list of borrowed texts is equal to its original.
pub fn copied_texts<'a>(texts: &Items<&'a str>) -> Result<Items<&'a str>, OutOfMemory>
    ensures { IfOk result (λ made. made ≡ texts.now) }
{
    texts.copy()
}

/// A path with a file name is its parent joined with that name.
pub fn paths_are_parent_and_name()
    ensures { (path above : Path) (name : List ℕ)
        → parent path ≡ Some above → file_name path ≡ Some name → join above (name ∷ []) ≡ path }
{}

/// A path without parent has no file name.
pub fn paths_without_parent_are_nameless()
    ensures { (path : Path) → parent path ≡ None → file_name path ≡ None }
{}

/// The names of a map are told apart by their bytes.
pub fn names_are_told_by_bytes()
    ensures test { (a b : List ℕ) → is_eq (slice_cmp nat_cmp a b) ≡ same_text a b }
    ensures equal { (a b : List ℕ) → IsTrue (same_text a b) ↔ (a ≡ b) }
    ensures turned { (a b : List ℕ) → same_text a b ≡ same_text b a }
{}

/// What stands at a name in two lists of entries, one behind the other, is what the first has there,
/// or else what the second has.
pub fn entries_are_found_in_turn<V>()
    ensures { (first second : List (List ℕ × V)) (name : List ℕ)
        → found (first ++ second) name ≡ option_or (found first name) (found second name) }
{}
