//! The slots of a trace, each with the address that it was given.

ghost use Rattle.std.specs.Prelude.{◌≡◌, ◌<◌, ◌∷◌, [], ℕ, length, Some, None, IfOk, option_map, reverse};
ghost use Rattle.std.specs.{Ordering.{nat_cmp}, BTreeMap.{get}};
ghost use Rattle.witx_machine.specs.Machine.{slot_word};
ghost use Rattle.witx_run.specs.SlotViews.{address_at};

use std::alloc::Global;
use std::collections::BTreeMap;
use witx_base::OutOfMemory;

/// The addresses of slots, by the slots' numbers.
#[derive(Drop)]
pub struct Slots<W> {
    /// In the order in which they were given.
    in_order: Vec<(usize, W)>,
    /// Where a slot stands in that order.
    places: BTreeMap<usize, usize>,
    ghost agrees: { (k : ℕ) → slot_word k (reverse in_order.items) ≡ address_at in_order.items (get nat_cmp places k) },
    ghost known: { (k i : ℕ) → get nat_cmp places k ≡ Some i → i < length in_order.items },
}

impl<W: Drop> Slots<W> {
    /// No slot has an address; takes no memory.
    pub fn new(alloc: Global) -> Slots<W>
        ensures { result.in_order.items ≡ [] }
    {
        Slots {
            in_order: Vec::new(alloc),
            places: BTreeMap::new(alloc),
        }
    }

    /// The address of a slot.
    pub fn get(&self, slot: usize) -> Option<&W>
        ensures { option_map (λ w. w.now) result ≡ slot_word slot (reverse self.now.in_order.items) }
    {
        let place = self.places.get(&slot).copied()?;
        match self.in_order.get(place) {
            Some((_, address)) => Some(address),
            None => None,
        }
    }

    /// Gives an address to a slot that has none; where memory is wanting nothing is given.
    pub fn give(&mut self, slot: usize, address: W) -> Result<(), OutOfMemory>
        requires { None ≡ slot_word slot (reverse self.old.in_order.items) }
        ensures { IfOk result (λ _. reverse self.new.in_order.items ≡ (slot, address) ∷ reverse self.old.in_order.items) }
    {
        let place = self.in_order.len();
        self.in_order.push((slot, address))?;
        match self.places.insert(slot, place) {
            Ok(_) => Ok(()),
            Err(_) => {
                self.in_order.pop();
                Err(OutOfMemory)
            }
        }
    }
}
