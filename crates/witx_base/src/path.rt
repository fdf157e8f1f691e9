//! Paths as owned values, whose contracts speak of their components.

ghost use Rattle.std.specs.{Prelude.{◌≡◌, ◌==◌, IfOk, option_copied, refl, Some}, Ordering.{nat_cmp}};
ghost use Rattle.std.specs.Cmp.{partial_equiv_from_equiv};
ghost use Rattle.std.specs.Cmp.Lexicographic.{pointwise, slice_cmp, lists_per, lists_equiv, lists_total, lists_ties, nat_list_eq_equiv, nat_list_cmp_total, texts_ties};
ghost use Rattle.std.specs.{Cmp.Rules.{hashing}, Hash.{items_Alike}};
ghost use Rattle.witx_base.specs.Paths.{file_name, is_absolute, join, parent, path_of, path_text};
ghost use Rattle.witx_base.specs.PathOrder.{paths_po};
ghost use Rattle.std.specs.Hash as fed;
ghost use Rattle.std.proofs.Common.{rules};

use crate::duplicate::Duplicate;
use crate::memory::OutOfMemory;
use crate::path_text;
use crate::text::Text;
use std::alloc::Global;
use std::cmp::Ordering;
use std::hash::{Hash, Hasher};
use std::marker::Model;

/// A path, which contracts see as the list of its components; that of an absolute path begins with
/// the component `/`. Paths are compared, ordered and hashed component by component.
///
/// It is kept as it is written, in one text, of which the components are the parts.
#[derive(Debug, Drop)]
pub struct WitxPath {
    text: Text,
}

impl Model for WitxPath {
    ghost use Rattle.std.specs.Prelude.{List, ℕ};
    ghost use Rattle.witx_base.specs.{Paths.{path_of}, PathTexts.{IsPathText}};

    ghost Value = { List (List ℕ) };

    ghost view = { λ p. path_of p.text };

    ghost invariant = { λ p. IsPathText p.text };
}

impl PartialEq for WitxPath {
    ghost eq = { pointwise (pointwise ◌==◌) };

    ghost laws = { lists_per (partial_equiv_from_equiv nat_list_eq_equiv) };

    #[tactic(auto, using(crate::proofs::Kept::equal_rules))]
    fn eq(&self, other: &WitxPath) -> bool {
        self.text == other.text
    }
}

impl Eq for WitxPath {
    ghost laws = { lists_equiv nat_list_eq_equiv };
}

impl PartialOrd for WitxPath {
    ghost partial_cmp = { λ p q. Some (slice_cmp (slice_cmp nat_cmp) p q) };

    ghost laws = { paths_po };

    fn partial_cmp(&self, other: &WitxPath) -> Option<Ordering> {
        Some(self.cmp(other))
    }
}

impl Ord for WitxPath {
    ghost cmp = { slice_cmp (slice_cmp nat_cmp) };

    ghost total = { lists_total nat_list_cmp_total };

    ghost matches_partial_cmp = { λ p q. refl };

    ghost matches_eq = { lists_ties (slice_cmp nat_cmp) texts_ties };

    fn cmp(&self, other: &WitxPath) -> Ordering {
        path_text::compare(self.text.as_str(), other.text.as_str())
    }
}

impl Hash for WitxPath {
    ghost hash_input = { fed.slice fed.str };

    ghost respects_eq = { (items_Alike {F = fed.str} (record { fed = Prim.search (hashing, rules) })).fed };

    fn hash<H: Hasher>(&self, state: &mut H) {
        path_text::hash_path(self.text.as_str(), state);
    }
}

impl WitxPath {
    /// The path that a text spells: the text is split at `/`, empty parts vanish, and `.` vanishes
    /// except as the first part of a relative path; `..` stays.
    #[tactic(auto, using(crate::proofs::Kept::new_rules))]
    pub fn new(alloc: Global, s: &str) -> Result<WitxPath, OutOfMemory>
        ensures { IfOk result (λ p. p ≡ path_of s.now) }
    {
        let text = Text::from_string(path_text::written(alloc, s)?);
        Ok(WitxPath { text })
    }

    /// The components, joined by `/`.
    pub fn as_str(&self) -> &str
        ensures { result.now ≡ path_text self.now }
    {
        self.text.as_str()
    }

    /// All but the last component; none for `/` and the empty path.
    #[tactic(auto, using(crate::proofs::Kept::parent_rules))]
    pub fn parent(&self) -> Result<Option<WitxPath>, OutOfMemory>
        ensures { IfOk result (λ p. p ≡ parent self.now) }
    {
        match path_text::parent_in(self.text.as_str()) {
            Some(text) => {
                let text = Text::new(self.text.allocator(), text)?;
                Ok(Some(WitxPath { text }))
            }
            None => Ok(None),
        }
    }

    /// The last component, unless it is `/`, `.`, `..` or missing.
    pub fn file_name(&self) -> Option<&str>
        ensures { option_copied result ≡ file_name self.now }
    {
        path_text::name_in(self.text.as_str())
    }

    /// Whether the path begins at the root.
    pub fn is_absolute(&self) -> bool
        ensures { result ≡ is_absolute self.now }
    {
        path_text::is_absolute_in(self.text.as_str())
    }

    /// `other` seen from this path: `other` itself where it is absolute, else its components behind
    /// this path's, where a `.` first in `other` vanishes unless this path is empty.
    #[tactic(auto, using(crate::proofs::Kept::join_rules))]
    pub fn join(&self, other: &WitxPath) -> Result<WitxPath, OutOfMemory>
        ensures { IfOk result (λ p. p ≡ join self.now other.now) }
    {
        if other.is_absolute() || self.text.is_empty() {
            return other.copy();
        }
        let text = path_text::joined(
            self.text.allocator(),
            self.text.as_str(),
            other.text.as_str(),
        )?;
        Ok(WitxPath {
            text: Text::from_string(text),
        })
    }
}

impl Duplicate for WitxPath {
    ghost is_copy = { λ path made. made ≡ path };

    fn copy(&self) -> Result<WitxPath, OutOfMemory> {
        Ok(WitxPath {
            text: self.text.copy()?,
        })
    }
}
