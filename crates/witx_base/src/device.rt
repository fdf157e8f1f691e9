//! The two ends of a program: a source of bytes and a sink for them, with what they count.

ghost use Rattle.std.specs.Prelude.{◌≡◌, ◌<◌, ◌≤◌, ℕ, List, Option, length, take, IfOk, OnOk, OnErr};
ghost use Rattle.std.specs.Io.KnownBytes.{Appends, Consumes, IsAtEnd, Keeps};
ghost use Rattle.witx_base.specs.Causes.{one_more, Rose};

use crate::memory::Failed;

/// Where bytes come from.
pub trait Source {
    /// The bytes left, where the source tells them.
    ghost left: { Self → Option (List ℕ) };

    /// How often the source has failed.
    ghost faults: { Self → ℕ };

    /// How often the source was asked: each call counts one, up to the last value of a `u64`, so that
    /// a bound below that is a bound on the calls.
    ghost reads: { Self → ℕ };

    /// Moves the first of the bytes left to the front of `buf`, and answers how many; 0 is the end of
    /// the input. What stands behind them in `buf`, and in all of it after `Failed`, is left open.
    fn read(&mut self, buf: &mut [u8]) -> Result<usize, Failed>
        requires { 0 < length buf.old }
        ensures bound { IfOk result (λ n. n ≤ length buf.old) }
        ensures moved { IfOk result (λ n. Consumes (left self.old) (left self.new) (take n buf.new)) }
        ensures end { IfOk result (λ n. n ≡ 0 → IsAtEnd (left self.old)) }
        ensures no_fault { OnOk result (faults self.new ≡ faults self.old) }
        ensures failed { OnErr result (Rose (faults self.old) (faults self.new)) }
        ensures nothing_moved { OnErr result (Keeps (left self.old) (left self.new)) }
        ensures one_read { reads self.new ≡ one_more (reads self.old) }
        ensures later { faults self.old ≤ faults self.new };
}

/// Where bytes go.
pub trait Sink {
    /// The bytes taken, where the sink tells them.
    ghost taken: { Self → Option (List ℕ) };

    /// How often the sink has failed.
    ghost faults: { Self → ℕ };

    /// Takes the first bytes of `piece`, and answers how many, at least one: a sink that takes none fails.
    fn write(&mut self, piece: &[u8]) -> Result<usize, Failed>
        requires { 0 < length piece.now }
        ensures some { IfOk result (λ n. 0 < n) }
        ensures bound { IfOk result (λ n. n ≤ length piece.now) }
        ensures appended { IfOk result (λ n. Appends (taken self.old) (taken self.new) (take n piece.now)) }
        ensures no_fault { OnOk result (faults self.new ≡ faults self.old) }
        ensures failed { OnErr result (Rose (faults self.old) (faults self.new)) }
        ensures nothing_taken { OnErr result (Keeps (taken self.old) (taken self.new)) }
        ensures later { faults self.old ≤ faults self.new };
}
