ghost use Rattle.std.specs.Prelude.{◌≡◌, ◌<◌, ◌≤◌, ℕ, Option, Bool, ◌||◌, ◌==◌, List, length, take, IfOk, OnOk, OnErr};
ghost use Rattle.side_world.specs.Faults.{Rose};
ghost use Rattle.side_world.specs.Told.{Told, Took, EndsWhereTold};

use crate::Failed;

/// Where bytes come from: a file, a socket, or memory.
pub trait Source {
    // The bytes that are left, where the source tells them.
    ghost left: { Self → Option (List ℕ) };

    // All bytes that reads have given, where the source tells them.
    ghost taken: { Self → Option (List ℕ) };

    // The bytes that all reads but the last have given, where the source tells them: behind them stands what the last read gave.
    ghost earlier: { Self → Option (List ℕ) };

    // Whether a read has answered that the input has ended.
    ghost ended: { Self → Bool };

    // How often a read has failed. The count stops at 2^64 - 1.
    ghost faults: { Self → ℕ };

    /// Reads up to `into.len()` bytes to the front of `into`, and answers how many. 0 is the end of the input.
    ///
    /// `Failed` takes nothing, and comes only where the count of faults rose.
    fn read(&mut self, into: &mut [u8]) -> Result<usize, Failed>
        requires { 0 < length into.old }
        ensures within { IfOk result (λ n. n ≤ length into.old) }
        ensures took { IfOk result (λ n. Took (left self.old) (left self.new) (take n into.new)) }
        ensures taken { IfOk result (λ n. Told (taken self.old) (taken self.new) (take n into.new)) }
        ensures earlier { OnOk result (earlier self.new ≡ taken self.old) }
        ensures end { IfOk result (λ n. EndsWhereTold (left self.old) n) }
        ensures ended { IfOk result (λ n. ended self.new ≡ (ended self.old || (n == 0))) }
        ensures no_fault { OnOk result (faults self.new ≡ faults self.old) }

        ensures failed { OnErr result (Rose (faults self.old) (faults self.new)) }
        ensures untouched { OnErr result (left self.new ≡ left self.old) }
        ensures nothing_taken { OnErr result (taken self.new ≡ taken self.old) }
        ensures no_read { OnErr result (earlier self.new ≡ earlier self.old) }
        ensures not_ended { OnErr result (ended self.new ≡ ended self.old) }
        ensures no_fewer { faults self.old ≤ faults self.new };

    /// Says before a read whether the reader holds no part of a request, so that a source of many connections may let this
    /// one rest. A hint: nothing that is told changes, and most sources do nothing.
    fn between(&mut self, is_between: bool)
        ensures left { left self.new ≡ left self.old }
        ensures taken { taken self.new ≡ taken self.old }
        ensures earlier { earlier self.new ≡ earlier self.old }
        ensures ended { ended self.new ≡ ended self.old }
        ensures faults { faults self.new ≡ faults self.old }
    {
        let _ = is_between;
    }
}
