//! Names that are introduced and not finished.
#![tactic(auto, using(crate::proofs::Settling::settling_rules))]

ghost use Rattle.std.specs.{Prelude.{◌≡◌, ◌||◌, OnOk, Some, None, false}, Option.{is_some}};
ghost use Rattle.witx_base.specs.Found.{found};
ghost use Rattle.witx_scope.specs.Introduced.{is_named, is_unfinished};

use std::alloc::Global;
use witx_base::{Duplicate, Id, NameMap, OutOfMemory};

/// The names that are introduced and not finished: the one that is being declared, and those whose
/// declarations were refused.
#[derive(Drop)]
pub struct Unfinished {
    current: Option<Id>,
    refused: NameMap<()>,
}

impl Unfinished {
    /// No names; takes no memory.
    pub fn new(alloc: Global) -> Unfinished
        ensures { (n : _) → is_unfinished result n ≡ false }
    {
        Unfinished {
            current: None,
            refused: NameMap::new(alloc),
        }
    }

    /// Whether the name is one of them.
    pub fn has(&self, name: &Id) -> bool
        ensures { result ≡ is_unfinished self.now name.now }
    {
        self.is_current(name) || self.refused.get(name).is_some()
    }

    /// Whether the name is the one that is being declared.
    fn is_current(&self, name: &Id) -> bool
        ensures { result ≡ is_named self.now.current name.now }
    {
        match &self.current {
            Some(current) => name == current,
            None => false,
        }
    }

    /// Counts the name that was being declared among the refused ones, so that another can be declared.
    pub(crate) fn settle(&mut self) -> Result<(), OutOfMemory>
        ensures unfinished { (n : _) → is_unfinished self.new n ≡ is_unfinished self.old n }
        ensures refused { (n : _) → OnOk result (is_some (found self.new.refused n) ≡ is_unfinished self.old n) }
    {
        if let Some(current) = &self.current {
            self.refused.insert(current.copy()?, ())?;
        }
        Ok(())
    }

    /// Declares the name, in place of the one before it.
    pub(crate) fn declare(&mut self, name: Id)
        ensures current { self.new.current ≡ Some name }
        ensures refused { self.new.refused ≡ self.old.refused }
    {
        self.current = Some(name);
    }

    /// The name that is being declared is finished.
    pub fn finish(&mut self)
        ensures current { self.new.current ≡ None }
        ensures refused { self.new.refused ≡ self.old.refused }
    {
        self.current = None;
    }
}
