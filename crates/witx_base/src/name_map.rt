//! Maps from names, whose contracts speak of their entries in the names' order.

ghost use Rattle.std.specs.Prelude.{◌≡◌, ◌==◌, ◌&&◌, [], length, option_map, is_none, IfOk, IsTrue, OnOk, OnErr, cond, if◌then◌else◌, None, Some};
ghost use Rattle.std.specs.Ordering.{is_eq, nat_cmp};
ghost use Rattle.std.specs.Cmp.{and_equiv, and_per, on_equiv, on_per, partial_equiv_from_equiv};
ghost use Rattle.std.specs.Cmp.Lexicographic.{lists_equiv, lists_per, nat_list_eq_equiv, pointwise, slice_cmp};
ghost use Rattle.std.specs.{Cmp.Rules.{hashing}, Hash.{first_alike, items_Alike, on_Alike}};
ghost use Rattle.std.specs.{List.Sorted.{IsStrictlySortedBy}, Map.{keys_of, values_of}};
ghost use Rattle.std.specs.BTreeMap.{insert_entry};
ghost use Rattle.std.specs.Hash as fed;
ghost use Rattle.std.proofs.Common.{rules};
ghost use Rattle.witx_base.specs.{Copies.{IsCopyOfEntries}, Found.{found}};

use crate::duplicate::Duplicate;
use crate::memory::OutOfMemory;
use crate::name::Id;
use std::alloc::Global;
use std::collections::BTreeMap;
use std::collections::btree_map::{Entry, Iter, Keys, Values};
use std::hash::{Hash, Hasher};
use std::marker::Model;

/// An ordered map from names, which contracts see as the list of its entries in the names' order.
///
/// Maps are equal where their entries are. They are hashed by their names alone, in order, so that
/// the values need no hash.
#[derive(Debug, Drop)]
pub struct NameMap<V> {
    alloc: Global,
    map: BTreeMap<Id, V>,
}

impl<V> Model for NameMap<V> {
    ghost use Rattle.std.specs.Prelude.{List, ℕ};

    ghost Value = { List (List ℕ × V) };

    ghost view = { λ t. t.map.entries };
}

impl<V> NameMap<V> {
    /// The empty map; takes no memory.
    pub fn new(alloc: Global) -> NameMap<V>
        ensures { result ≡ [] }
    {
        NameMap {
            alloc,
            map: BTreeMap::new(alloc),
        }
    }

    /// Where the map takes its memory from.
    pub fn allocator(&self) -> Global {
        self.alloc
    }

    /// The number of entries.
    pub fn len(&self) -> usize
        ensures { result ≡ length self.now }
    {
        self.map.len()
    }

    /// Whether there is no entry.
    pub fn is_empty(&self) -> bool
        ensures { result ≡ (length self.now == 0) }
    {
        self.map.is_empty()
    }

    /// The value at a name; none where the map lacks it.
    pub fn get(&self, key: &Id) -> Option<&V>
        ensures { option_map (λ v. v.now) result ≡ found self.now key.now }
    {
        self.map.get(key)
    }

    /// Whether the name is behind all names of the map.
    fn ends_before(&self, name: &Id) -> bool
        ensures { IsTrue result → found self.now name.now ≡ None }
    {
        match self.map.last_key_value() {
            Some((last, _)) => last.cmp(name).is_lt(),
            None => false,
        }
    }

    /// The value at a name; the same as `get`, sooner where the name is behind all names of the map.
    pub fn get_new(&self, name: &Id) -> Option<&V>
        ensures { option_map (λ v. v.now) result ≡ found self.now name.now }
    {
        if self.ends_before(name) {
            return None;
        }
        self.get(name)
    }

    /// The entries, in the order of their names.
    pub fn iter(&self) -> Iter<'_, Id, V>
        ensures entries { result ≡ self.now }
        ensures ordered { IsStrictlySortedBy (slice_cmp nat_cmp) (keys_of self.now) }
    {
        self.map.iter()
    }

    /// The names, in order.
    pub fn keys(&self) -> Keys<'_, Id, V>
        ensures { result ≡ keys_of self.now }
    {
        self.map.keys()
    }

    /// The values, in the order of their names.
    pub fn values(&self) -> Values<'_, Id, V>
        ensures { result ≡ values_of self.now }
    {
        self.map.values()
    }
}

impl<V: Drop> NameMap<V> {
    /// Puts a value at a name, in place of the one that is there; a refused insert changes nothing.
    pub fn insert(&mut self, key: Id, value: V) -> Result<(), OutOfMemory>
        ensures entries { OnOk result (self.new ≡ insert_entry (slice_cmp nat_cmp) self.old key value) }
        ensures found { (q : _) → OnOk result (found self.new q
            ≡ cond (is_eq (slice_cmp nat_cmp key q)) (Some value) (found self.old q)) }
        ensures unchanged { OnErr result (self.new ≡ self.old) }
    {
        self.map.insert(key, value)?;
        Ok(())
    }

    /// Puts a value at a name that the map lacks, and tells whether it lacked it. At another name, and
    /// where there is no memory, the map stays. The name is searched once.
    pub fn insert_new(&mut self, key: Id, value: V) -> Result<bool, OutOfMemory>
        ensures told { IfOk result (λ lacked. lacked ≡ is_none (found self.old key)) }
        ensures entries { OnOk result (self.new ≡ (if is_none (found self.old key) then insert_entry
            (slice_cmp nat_cmp) self.old key value else self.old)) }
        ensures unchanged { OnErr result (self.new ≡ self.old) }
    {
        match self.map.entry(key)? {
            Entry::Vacant(vacant) => {
                vacant.insert(value);
                Ok(true)
            }
            Entry::Occupied(_) => Ok(false),
        }
    }
}

impl<V: Duplicate + Drop> Duplicate for NameMap<V> {
    ghost is_copy = { IsCopyOfEntries V.is_copy };

    fn copy(&self) -> Result<NameMap<V>, OutOfMemory> {
        let mut copies = NameMap::new(self.allocator());
        for (key, value) in self.map.iter() {
            copies.insert(key.copy()?, value.copy()?)?;
        }
        Ok(copies)
    }
}

impl<'a, V> IntoIterator for &'a NameMap<V> {
    type Item = (&'a Id, &'a V);

    type IntoIter = Iter<'a, Id, V>;

    ghost into_iter_gives = { λ m r. (r ≡ m.now) × IsStrictlySortedBy (slice_cmp nat_cmp) (keys_of m.now) };

    fn into_iter(self) -> Iter<'a, Id, V> {
        self.map.iter()
    }
}

impl<V: PartialEq> PartialEq for NameMap<V> {
    ghost eq = { pointwise (λ p q. pointwise ◌==◌ p.0 q.0 && V.eq p.1 q.1) };

    ghost laws = { lists_per (and_per (on_per (λ p. p.0) (partial_equiv_from_equiv nat_list_eq_equiv)) (on_per (λ p. p.1) V.laws)) };

    fn eq(&self, other: &NameMap<V>) -> bool {
        self.map == other.map
    }
}

impl<V: Eq> Eq for NameMap<V> {
    ghost laws = { lists_equiv (and_equiv (on_equiv (λ p. p.0) nat_list_eq_equiv) (on_equiv (λ p. p.1) V.Eq.laws)) };
}

impl<V: Eq> Hash for NameMap<V> {
    ghost hash_input = { fed.slice (λ p. fed.str p.0) };

    ghost respects_eq = { (items_Alike (first_alike (λ p q. V.eq p.1 q.1) (on_Alike (λ p. p.0) {F = fed.str} (record { fed = Prim.search (hashing, rules) })))).fed };

    fn hash<H: Hasher>(&self, state: &mut H) {
        self.map.len().hash(state);
        for (key, _) in self.map.iter() {
            key.hash(state);
        }
    }
}
