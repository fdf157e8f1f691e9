//! A set of paths.

ghost use Rattle.std.specs.{Prelude.{◌≡◌, ◌+◌, [], cond, true, false, OnOk}, BTreeSet.{btree_set_len}};
ghost use Rattle.witx_base.specs.{Paths.{Path}, PathOrder.{same_path}};
ghost use Rattle.witx_walk.specs.Steps.{has_path, HasPaths};

use std::alloc::Global;
use std::collections::BTreeSet;
use witx_base::{Duplicate, OutOfMemory, WitxPath};

/// Paths, each once.
#[derive(Drop)]
pub struct PathSet {
    paths: BTreeSet<WitxPath>,
}

impl PathSet {
    /// No path; takes no memory.
    pub fn new(alloc: Global) -> PathSet
        ensures { HasPaths result.paths [] }
    {
        PathSet {
            paths: BTreeSet::new(alloc),
        }
    }

    /// How many paths there are.
    pub fn len(&self) -> usize
        ensures { result ≡ btree_set_len self.now.paths }
    {
        self.paths.len()
    }

    /// Whether the path is there.
    pub fn contains(&self, path: &WitxPath) -> bool
        ensures { result ≡ has_path self.now.paths path.now }
    {
        self.paths.contains(path)
    }

    /// Adds a path.
    pub fn insert(&mut self, path: &WitxPath) -> Result<(), OutOfMemory>
        ensures known { OnOk result ((q : Path)
            → has_path self.new.paths q ≡ cond (same_path path.now q) true (has_path self.old.paths q)) }
        ensures count { OnOk result (has_path self.old.paths path.now ≡ false
            → btree_set_len self.new.paths ≡ btree_set_len self.old.paths + 1) }
    {
        self.paths.insert(path.copy()?)?;
        Ok(())
    }
}
