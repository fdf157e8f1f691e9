//! Names: owned texts whose first bytes, as one number, tell most of them apart.

ghost use Rattle.std.specs.{Prelude.{◌≡◌, ◌==◌, ◌↔◌, IfOk, IsTrue, Some, length, refl}, Ordering.{nat_cmp}};
ghost use Rattle.std.specs.Cmp.{partial_equiv_from_equiv};
ghost use Rattle.std.specs.Cmp.Lexicographic.{pointwise, slice_cmp, nat_list_eq_equiv, nat_list_cmp_total, texts_ties, texts_po};
ghost use Rattle.std.specs.Cmp.Rules.{hashing};
ghost use Rattle.std.specs.Hash as fed;
ghost use Rattle.std.proofs.Common.{rules};
ghost use Rattle.witx_base.specs.Texts.{same_text};

use crate::duplicate::Duplicate;
use crate::memory::OutOfMemory;
use crate::spelling::Spelling;
use std::alloc::Global;
use std::cmp::Ordering;
use std::hash::{Hash, Hasher};
use std::marker::Model;

/// A name, compared, ordered and hashed by its bytes. The number of its first eight bytes, in which
/// most names differ, is compared before the text is read.
#[derive(Debug, Drop)]
pub struct Id {
    front: u64,
    text: Spelling,
}

impl Model for Id {
    ghost use Rattle.std.specs.Prelude.{◌≡◌, List, ℕ};
    ghost use Rattle.witx_base.specs.{Fronts.{AreBytes, front_of}, Spellings.{spelled}};

    ghost Value = { List ℕ };

    ghost view = { λ n. spelled n.text };

    ghost invariant = { λ n. (n.front ≡ front_of (spelled n.text)) × AreBytes (spelled n.text) };
}

impl Id {
    /// The name spelled `s`.
    pub fn new(alloc: Global, s: &str) -> Result<Id, OutOfMemory>
        ensures { IfOk result (λ id. id ≡ s.now) }
    {
        let text = Spelling::new(alloc, s)?;
        Ok(Id {
            front: text.front(),
            text,
        })
    }

    /// The text of the name.
    pub fn as_str(&self) -> &str
        ensures { result.now ≡ self.now }
    {
        self.text.as_str()
    }

    /// The number of bytes.
    pub fn len(&self) -> usize
        ensures { result ≡ length self.now }
    {
        self.text.as_bytes().len()
    }

    /// Whether the name is spelled `s`.
    #[tactic(auto, unfolding(crate::specs::Texts::same_text))]
    pub fn is(&self, s: &str) -> bool
        ensures equal { IsTrue result ↔ (self.now ≡ s.now) }
        ensures test { result ≡ same_text self.now s.now }
    {
        self.text.as_bytes() == s.as_bytes()
    }
}

impl Duplicate for Id {
    ghost is_copy = { λ id made. made ≡ id };

    fn copy(&self) -> Result<Id, OutOfMemory> {
        Ok(Id {
            front: self.front,
            text: self.text.copy()?,
        })
    }
}

impl PartialEq for Id {
    ghost eq = { pointwise ◌==◌ };

    ghost laws = { partial_equiv_from_equiv nat_list_eq_equiv };

    #[inline]
    #[tactic(auto, using(crate::proofs::Names::order_rules))]
    fn eq(&self, other: &Id) -> bool {
        self.front == other.front && self.text.order_behind(&other.text).is_eq()
    }
}

impl Eq for Id {
    ghost laws = { nat_list_eq_equiv };
}

impl PartialOrd for Id {
    ghost partial_cmp = { λ x y. Some (slice_cmp nat_cmp x y) };

    ghost laws = { texts_po };

    fn partial_cmp(&self, other: &Id) -> Option<Ordering> {
        Some(self.cmp(other))
    }
}

impl Ord for Id {
    ghost cmp = { slice_cmp nat_cmp };

    ghost total = { nat_list_cmp_total };

    ghost matches_partial_cmp = { λ x y. refl };

    ghost matches_eq = { λ x y. texts_ties x y };

    #[inline]
    fn cmp(&self, other: &Id) -> Ordering {
        if self.front == other.front {
            self.text.order_behind(&other.text)
        } else {
            self.front.cmp(&other.front)
        }
    }
}

impl Hash for Id {
    ghost hash_input = { λ n. fed.str n };

    ghost respects_eq = { Prim.search (hashing, rules) };

    fn hash<H: Hasher>(&self, state: &mut H) {
        self.as_str().hash(state);
    }
}
