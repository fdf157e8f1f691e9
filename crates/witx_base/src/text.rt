//! Owned texts, whose contracts speak of their bytes.

ghost use Rattle.std.specs.{Prelude.{◌≡◌, ◌==◌, IfOk, length, Some, refl, string_bytes}, Ordering.{nat_cmp}};
ghost use Rattle.std.specs.Cmp.{partial_equiv_from_equiv};
ghost use Rattle.std.specs.Cmp.Lexicographic.{pointwise, slice_cmp, nat_list_eq_equiv, nat_list_cmp_total, texts_ties, texts_po};
ghost use Rattle.std.specs.Cmp.Rules.{hashing};
ghost use Rattle.std.specs.Hash as fed;
ghost use Rattle.std.proofs.Common.{rules};

use crate::duplicate::Duplicate;
use crate::memory::OutOfMemory;
use crate::store::Store;
use std::alloc::Global;
use std::cmp::Ordering;
use std::fmt;
use std::hash::{Hash, Hasher};
use std::marker::Model;

/// An owned text, which contracts see as the list of its bytes. Texts are compared, ordered and
/// hashed by their bytes. The copies of a shared text lie where it lies.
#[derive(Drop)]
pub struct Text {
    store: Store,
}

impl Model for Text {
    ghost use Rattle.std.specs.Prelude.{List, ℕ};
    ghost use Rattle.witx_base.specs.Stores.{bytes_in};

    ghost Value = { List ℕ };

    ghost view = { λ t. bytes_in t.store };
}

impl Text {
    /// The text of `s`.
    pub fn new(alloc: Global, s: &str) -> Result<Text, OutOfMemory>
        ensures { IfOk result (λ t. t ≡ s.now) }
    {
        Ok(Text {
            store: Store::Own(String::from_str(alloc, s)?),
        })
    }

    /// The text of a finished `String`; takes no memory.
    pub fn from_string(string: String) -> Text
        ensures { result ≡ string_bytes string }
    {
        Text {
            store: Store::Own(string),
        }
    }

    /// The same text, to be shared: neither this nor its copies copy the bytes.
    pub fn share(self) -> Result<Text, OutOfMemory>
        ensures { IfOk result (λ t. t ≡ self) }
    {
        Ok(Text {
            store: self.store.share()?,
        })
    }

    /// Where the text takes its memory from.
    pub fn allocator(&self) -> Global {
        *self.store.string().allocator()
    }

    /// The text, borrowed.
    pub fn as_str(&self) -> &str
        ensures { result.now ≡ self.now }
    {
        self.store.string().as_str()
    }

    /// Whether there is no byte.
    pub fn is_empty(&self) -> bool
        ensures { result ≡ (length self.now == 0) }
    {
        self.store.string().is_empty()
    }

    /// The number of bytes.
    pub fn len(&self) -> usize
        ensures { result ≡ length self.now }
    {
        self.store.string().len()
    }
}

impl Duplicate for Text {
    ghost is_copy = { λ text made. made ≡ text };

    fn copy(&self) -> Result<Text, OutOfMemory> {
        Ok(Text {
            store: self.store.copy()?,
        })
    }
}

impl fmt::Debug for Text {
    fn fmt<W: fmt::Write>(&self, f: &mut fmt::Formatter<W>) -> fmt::Result {
        f.debug_struct("Text")
            .field("string", self.store.string())
            .finish()
    }
}

impl PartialEq for Text {
    ghost eq = { pointwise ◌==◌ };

    ghost laws = { partial_equiv_from_equiv nat_list_eq_equiv };

    fn eq(&self, other: &Text) -> bool {
        self.as_str() == other.as_str()
    }
}

impl Eq for Text {
    ghost laws = { nat_list_eq_equiv };
}

impl PartialOrd for Text {
    ghost partial_cmp = { λ x y. Some (slice_cmp nat_cmp x y) };

    ghost laws = { texts_po };

    fn partial_cmp(&self, other: &Text) -> Option<Ordering> {
        Some(self.cmp(other))
    }
}

impl Ord for Text {
    ghost cmp = { slice_cmp nat_cmp };

    ghost total = { nat_list_cmp_total };

    ghost matches_partial_cmp = { λ x y. refl };

    ghost matches_eq = { λ x y. texts_ties x y };

    fn cmp(&self, other: &Text) -> Ordering {
        self.as_str().cmp(other.as_str())
    }
}

impl Hash for Text {
    ghost hash_input = { λ t. fed.str t };

    ghost respects_eq = { Prim.search (hashing, rules) };

    fn hash<H: Hasher>(&self, state: &mut H) {
        self.as_str().hash(state);
    }
}
