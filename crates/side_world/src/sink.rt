ghost use Rattle.std.specs.Prelude.{◌≡◌, ◌<◌, ◌≤◌, ℕ, Option, List, length, take, IfOk, OnOk, OnErr};
ghost use Rattle.side_world.specs.Faults.{Rose};
ghost use Rattle.side_world.specs.Told.{Told};

use crate::Failed;

/// Where bytes go: a file, a socket, or memory.
pub trait Sink {
    // All bytes that were written, where the sink tells them.
    ghost contents: { Self → Option (List ℕ) };

    // How often a write has failed. The count stops at 2^64 - 1.
    ghost faults: { Self → ℕ };

    /// Writes the first bytes of `piece`, at least one, and answers how many.
    ///
    /// `Failed` appends nothing, and comes only where the count of faults rose.
    fn write(&mut self, piece: &[u8]) -> Result<usize, Failed>
        requires { 0 < length piece.now }
        ensures some { IfOk result (λ n. 0 < n) }
        ensures within { IfOk result (λ n. n ≤ length piece.now) }
        ensures wrote { IfOk result (λ n. Told (contents self.old) (contents self.new) (take n piece.now)) }
        ensures no_fault { OnOk result (faults self.new ≡ faults self.old) }

        ensures failed { OnErr result (Rose (faults self.old) (faults self.new)) }
        ensures untouched { OnErr result (contents self.new ≡ contents self.old) }
        ensures no_fewer { faults self.old ≤ faults self.new };
}
