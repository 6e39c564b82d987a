ghost use Rattle.std.specs.Prelude.{◌≡◌, ◌≤◌, ◌+◌, ℕ, max, Option, Some, None, List, length, take, drop, IfOk, OnOk, OnErr};
ghost use Rattle.side_world.specs.Faults.{Rose};
ghost use Rattle.side_world.specs.Disk.{overwritten, Torn, Becomes, ComesOf, NoNew, LeavesOnly, GoesOn};

use crate::Failed;

/// A disk, which is one file: bytes that a process finds again after a crash, but for what was written since the last sync.
///
/// A crash may come at each moment, inside a call too. Between two syncs each range that was written, and what lies past the
/// old end, may then hold any bytes; other bytes stay. After a `sync` that succeeds a crash leaves what a read gives.
///
/// What is said of contents and of crashes is said of a disk that tells them, as one in memory does; a real disk tells none, ever.
pub trait Disk: Drop {
    // What a read gives, where the disk tells it.
    ghost contents: { Self → Option (List ℕ) };

    // How many bytes there are. It is always told, and never falls.
    ghost size: { Self → ℕ };

    // What a crash at this moment may leave, where the disk tells it.
    ghost leaves: { Self → List ℕ → Type 0 };

    // The moment, as a number that never falls.
    ghost moment: { Self → ℕ };

    // What a crash at some moment from that one on might have left, during a call or between two.
    ghost left_since: { Self → ℕ → List ℕ → Type 0 };

    // How often a call has failed. The count stops at 2^64 - 1.
    ghost faults: { Self → ℕ };

    /// How many bytes there are.
    fn len(&mut self) -> Result<u64, Failed>
        ensures len { IfOk result (λ n. n ≡ size self.old) }
        ensures contents { contents self.new ≡ contents self.old }
        ensures size { size self.new ≡ size self.old }
        ensures crash { NoNew (leaves self.old) (leaves self.new) }
        ensures time { GoesOn (moment self.old) (moment self.new) (left_since self.old) (left_since self.new) (leaves self.new) }
        ensures no_fault { OnOk result (faults self.new ≡ faults self.old) }
        ensures failed { OnErr result (Rose (faults self.old) (faults self.new)) }
        ensures no_fewer { faults self.old ≤ faults self.new };

    /// Reads the bytes from place `at` on into the whole of `into`. The range lies within the length.
    fn read_at(&mut self, at: u64, into: &mut [u8]) -> Result<(), Failed>
        requires { at + length into.old ≤ size self.old }
        ensures read { OnOk result ((old : List ℕ) → contents self.old ≡ Some old → into.new ≡ take (length into.old) (drop at old)) }
        ensures length { length into.new ≡ length into.old }
        ensures contents { contents self.new ≡ contents self.old }
        ensures size { size self.new ≡ size self.old }
        ensures crash { NoNew (leaves self.old) (leaves self.new) }
        ensures time { GoesOn (moment self.old) (moment self.new) (left_since self.old) (left_since self.new) (leaves self.new) }
        ensures no_fault { OnOk result (faults self.new ≡ faults self.old) }
        ensures failed { OnErr result (Rose (faults self.old) (faults self.new)) }
        ensures no_fewer { faults self.old ≤ faults self.new };

    /// Writes `piece` from place `at` on, over what is there and past the end. `at` is at most the length.
    ///
    /// After `Failed` the range may hold any bytes.
    fn write_at(&mut self, at: u64, piece: &[u8]) -> Result<(), Failed>
        requires { at ≤ size self.old }
        ensures written { OnOk result (Becomes (contents self.old) (contents self.new) (λ old new. new ≡ overwritten at piece.now old)) }
        ensures torn { OnErr result (Becomes (contents self.old) (contents self.new) (Torn at (length piece.now))) }
        ensures untold { contents self.old ≡ None → contents self.new ≡ None }
        ensures size { OnOk result (size self.new ≡ max (size self.old) (at + length piece.now)) }
        ensures no_shorter { size self.old ≤ size self.new }
        ensures no_longer { size self.new ≤ max (size self.old) (at + length piece.now) }
        ensures crash { ComesOf (Torn at (length piece.now)) (leaves self.old) (leaves self.new) }
        ensures time { GoesOn (moment self.old) (moment self.new) (left_since self.old) (left_since self.new) (leaves self.new) }
        ensures no_fault { OnOk result (faults self.new ≡ faults self.old) }
        ensures failed { OnErr result (Rose (faults self.old) (faults self.new)) }
        ensures no_fewer { faults self.old ≤ faults self.new };

    /// Has all that was written reach the disk: from then on a crash leaves what a read gives.
    fn sync(&mut self) -> Result<(), Failed>
        ensures durable { OnOk result (LeavesOnly (contents self.old) (leaves self.new)) }
        ensures contents { contents self.new ≡ contents self.old }
        ensures size { size self.new ≡ size self.old }
        ensures crash { NoNew (leaves self.old) (leaves self.new) }
        ensures time { GoesOn (moment self.old) (moment self.new) (left_since self.old) (left_since self.new) (leaves self.new) }
        ensures no_fault { OnOk result (faults self.new ≡ faults self.old) }
        ensures failed { OnErr result (Rose (faults self.old) (faults self.new)) }
        ensures no_fewer { faults self.old ≤ faults self.new };

    // Contents that are told have the length.
    ghost as_long: { (disk : Self) (bytes : List ℕ) → contents disk ≡ Some bytes → size disk ≡ length bytes };

    // What a read gives is one of the outcomes of a crash.
    ghost is_left: { (disk : Self) (bytes : List ℕ) → contents disk ≡ Some bytes → leaves disk bytes };

    // This moment is one of those since an earlier one.
    ghost counts_now: { (disk : Self) (t : ℕ) (c : List ℕ) → t ≤ moment disk → leaves disk c → left_since disk t c };

    // Since this moment there is no other.
    ghost only_now: { (disk : Self) (c : List ℕ) → left_since disk (moment disk) c → leaves disk c };
}
