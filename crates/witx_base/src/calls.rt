//! Which calls of a device in memory fail, and how many have.

ghost use Rattle.std.specs.Prelude.{◌≡◌, ◌≤◌, is_err, OnErr};
ghost use Rattle.witx_base.specs.{Causes.{one_more, Rose}, Calls.{counted, fails_next, no_calls}};

use crate::Calls;
use crate::memory::Failed;
use std::marker::Model;

/// The calls of a device in memory: which of them fail, by their numbers from 0, the number of the
/// next one, and how many faults there were. Both counts stay at the last value of a `u64`.
#[derive(Drop)]
pub struct CallCounter {
    fails: Calls,
    next: u64,
    faults: u64,
}

impl Model for CallCounter {
    ghost use Rattle.witx_base.specs.Calls.{CallCount};

    ghost Value = { CallCount };

    ghost view = { λ c. record { fails = c.fails; next = c.next; faults = c.faults } };
}

impl CallCounter {
    /// No call yet, of which those in `fails` are going to fail.
    pub fn new(fails: Calls) -> CallCounter
        ensures { result ≡ no_calls fails }
    {
        CallCounter {
            fails,
            next: 0,
            faults: 0,
        }
    }

    /// How many faults there were.
    pub fn faults(&self) -> u64
        ensures { result ≡ self.now.faults }
    {
        self.faults
    }

    /// Counts one more call. It fails, and counts a fault, exactly where its number is listed.
    pub fn count(&mut self) -> Result<(), Failed>
        ensures failed { is_err result ≡ fails_next self.old }
        ensures counted { self.new ≡ counted (fails_next self.old) self.old }
        ensures rose { OnErr result (Rose self.old.faults self.new.faults) }
        ensures later { self.old.faults ≤ self.new.faults }
    {
        let fails = self.fails.as_slice().contains(&self.next);
        self.next = self.next.saturating_add(1);
        if fails { Err(self.fault()) } else { Ok(()) }
    }

    /// Counts a fault for another reason, in the call that was counted last.
    pub fn fault(&mut self) -> Failed
        ensures counted { self.new ≡ record self.old { faults = one_more self.old.faults } }
        ensures later { self.old.faults ≤ self.new.faults }
    {
        self.faults = self.faults.saturating_add(1);
        Failed
    }
}
