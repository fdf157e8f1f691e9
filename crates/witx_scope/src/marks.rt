//! Names inside one declaration, and the offset at which each stands.
#![tactic(auto, using(crate::proofs::Marking::marking_rules))]

ghost use Rattle.std.specs.Prelude.{◌≡◌, ◌∷◌, [], IfOk, None, option_map};
ghost use Rattle.witx_base.specs.Found.{found};
ghost use Rattle.witx_scope.specs.Names.{FindsOnOk};

use crate::names::place_of;
use std::alloc::Global;
use std::marker::Model;
use witx_base::{Id, Items, NameMap, OutOfMemory};

/// How many names the list holds: so few are gone through sooner than a map is searched.
const FEW: usize = 8;

/// Names inside one declaration, and the offset at which each stands: the first few in a list, further
/// ones in a map.
#[derive(Drop)]
pub struct Marks {
    few: Items<(Id, usize)>,
    more: NameMap<usize>,
}

impl Model for Marks {
    ghost use Rattle.std.specs.Prelude.{◌++◌, List, ℕ};

    ghost Value = { List (List ℕ × ℕ) };

    ghost view = { λ m. m.more ++ m.few };
}

impl Marks {
    /// No names; takes no memory.
    pub fn new(alloc: Global) -> Marks
        ensures { result ≡ [] }
    {
        Marks {
            few: Items::new(alloc),
            more: NameMap::new(alloc),
        }
    }

    /// The offset at which the name stands.
    pub fn get(&self, name: &Id) -> Option<&usize>
        ensures { option_map (λ at. at.now) result ≡ found self.now name.now }
    {
        match self.more.get(name) {
            Some(at) => Some(at),
            None => place_of(self.few.as_slice(), name),
        }
    }

    /// Puts a name that isn't there.
    fn put(&mut self, name: Id, at: usize) -> Result<(), OutOfMemory>
        requires { found self.old name ≡ None }
        ensures { FindsOnOk result self.new ((name, at) ∷ self.old) }
    {
        if self.few.len() < FEW {
            self.few.push((name, at))?;
        } else {
            self.more.insert(name, at)?;
        }
        Ok(())
    }

    /// Puts a name that isn't there, or tells the offset at which it stands.
    pub fn take(&mut self, name: Id, at: usize) -> Result<Option<usize>, OutOfMemory>
        ensures before { IfOk result (λ before. before ≡ found self.old name) }
        ensures kept { (q : _) → IfOk result (λ before. before ≡ None
            → found self.new q ≡ found ((name, at) ∷ self.old) q) }
    {
        if let Some(before) = self.get(&name) {
            return Ok(Some(*before));
        }
        self.put(name, at)?;
        Ok(None)
    }

    /// Puts a name, in place of the one that is there.
    pub fn insert(&mut self, name: Id, at: usize) -> Result<(), OutOfMemory>
        ensures { FindsOnOk result self.new ((name, at) ∷ self.old) }
    {
        if self.get(&name).is_some() {
            self.more.insert(name, at)?;
            return Ok(());
        }
        self.put(name, at)
    }
}
