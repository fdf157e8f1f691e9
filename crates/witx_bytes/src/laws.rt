//! The laws of images, of reading and writing, and of runs over bytes.

ghost use Rattle.std.specs.Prelude.{◌≡◌, ◌+◌, ◌<◌, ◌≤◌, ◌⊎◌, ℕ, length, Some, ◌↔◌};
ghost use Rattle.witx_ast.specs.{Plain.{Plain}, Values.{Value, IsValue}, Tags.{AllFit}};
ghost use Rattle.witx_layout.specs.Numbers.{size_of};
ghost use Rattle.witx_bytes.specs.{Bytes.{Bytes, AreBytes}, Images.{image, Spells}, Reading.{value_at}};
ghost use Rattle.witx_bytes.specs.Follow.{BytesFollowCells, TakesAreWritable, TracesOverBytes};
ghost use Rattle.witx_bytes.specs.Writes.{Writes};

use witx_layout::Layout;

/// The image of a value is as long as its type's size.
pub fn image_has_the_size()
    ensures { (t : Plain) (v : Value) → IsValue t v → length (image t v) ≡ size_of t }
{}

/// Bytes spell at most one value of a type that fits its tags.
pub fn at_most_one_value()
    ensures { (t : Plain) (memory : Bytes) (at : ℕ) (v w : Value) → AllFit t → Spells memory at t v
        → Spells memory at t w → v ≡ w }
{}

/// What is written spells its value, and no byte outside the range changes.
pub fn writing_is_spelling()
    ensures spelled { (t : Plain) (v : Value) (m k : Bytes) (at : ℕ) → IsValue t v → Writes at (image t v) m k
        → Spells k at t v }
    ensures outside { (t : Plain) (v : Value) (m k : Bytes) (at x : ℕ) → IsValue t v
        → Writes at (image t v) m k → (x < at) ⊎ (at + size_of t ≤ x) → k x ≡ m x }
{}

/// What is read of a type that fits its tags is the value that the bytes spell.
pub fn reading_is_spelling()
    ensures { (t : Plain) (m : Bytes) (at : ℕ) (v : Value) → AreBytes m → AllFit t
        → value_at t m at ≡ Some v ↔ Spells m at t v }
{}

/// Alike types, whose plain trees are equal, have the same values with the same images.
pub fn alike_images<A: Layout, B: Layout>(a: &A, b: &B)
    requires { A.plain_tree a.now ≡ B.plain_tree b.now }
    ensures values { (v : Value) → IsValue (A.plain_tree a.now) v → IsValue (B.plain_tree b.now) v }
    ensures images { (v : Value) → image (A.plain_tree a.now) v ≡ image (B.plain_tree b.now) v }
{}

/// Where a run over cells from an empty memory has an outcome, and takes addresses that are fit for a
/// memory of bytes, the run over these bytes with the same addresses has the same words, noted values
/// and returned values, and the given bytes are unchanged.
pub fn bytes_follow_cells()
    ensures { BytesFollowCells }
{}

/// What the two traces of a function take, in any run of them, is writable where its types fit their
/// tags.
pub fn traces_take_writable()
    ensures { TakesAreWritable }
{}

/// Where a function can be lowered and its types fit their tags, its two traces run over cells, from
/// an empty memory and with any distinct addresses; and over every memory of bytes for which what they
/// take is fit they run to the same outcome.
pub fn traces_run_over_bytes()
    ensures { TracesOverBytes }
{}
