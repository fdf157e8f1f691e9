//! What a document and a module share: definitions in order, and entries by name.

ghost use Rattle.std.specs.Prelude.{◌≡◌, option_map};
ghost use Rattle.witx_base.specs.Found.{found};

use crate::copying::copied;
use std::hash::Hash;
use witx_base::{Duplicate, Id, NameMap, OutOfMemory};

/// Definitions in order, in a list `D`, and entries by name. They are equal where their entries
/// are, and are hashed by the names of the entries, in order.
#[derive_where(Debug; D, E)]
#[derive_where(PartialEq, Eq; E)]
#[derive_where(Hash; E: Eq)]
pub(crate) struct Held<D, E> {
    entries: NameMap<E>,
    #[derive_where(skip(EqHashOrd))]
    definitions: D,
}

// The entries first, so that each definition is let go of by those behind it before its own turn.
impl<D: Drop, E: Drop> Drop for Held<D, E> {
    fn drop(self) {
        let Held {
            entries,
            definitions,
        } = self;
        drop(entries);
        drop(definitions);
    }
}

impl<D, E> Held<D, E> {
    pub(crate) fn new(definitions: D, entries: NameMap<E>) -> Held<D, E>
        ensures definitions { result.definitions ≡ definitions }
        ensures entries { result.entries ≡ entries }
    {
        Held {
            entries,
            definitions,
        }
    }

    pub(crate) fn definitions(&self) -> &D
        ensures { result.now ≡ self.now.definitions }
    {
        &self.definitions
    }

    pub(crate) fn entry(&self, name: &Id) -> Option<&E>
        ensures { option_map (λ e. e.now) result ≡ found self.now.entries name.now }
    {
        self.entries.get(name)
    }
}

impl<D: Duplicate + Drop, E: Duplicate + Drop> Duplicate for Held<D, E> {
    ghost use Rattle.witx_base.specs.Copies.{IsCopyOfEntries};

    ghost is_copy = { λ held copy. D.is_copy held.definitions copy.definitions × IsCopyOfEntries E.is_copy held.entries copy.entries };

    fn copy(&self) -> Result<Held<D, E>, OutOfMemory> {
        copied!(self => Held { entries, definitions })
    }
}
