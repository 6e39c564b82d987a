ghost use Rattle.std.specs.Prelude.{◌≡◌, [], false, Some};
ghost use Rattle.disk_memory.specs.Plan.{begun};

use disk_memory::{Schedule, Sizes};
use side_base::{Blob, Places};
use side_world::{BytesSource, Failed, Source};
use std::marker::Model;

/// A source whose bytes are in memory. It tells them.
///
/// Contracts see the bytes that were taken, those that all reads but the last took, those that are left, whether it has ended, and its count of faults.
#[derive(Debug, Drop)]
pub struct MemorySource {
    bytes: BytesSource,
    schedule: Schedule,
}

impl Model for MemorySource {
    ghost use Rattle.side_memory.specs.MemorySource.{SourceState};
    ghost use Rattle.disk_memory.specs.Plan.{plan_in};

    ghost Value = { SourceState };

    ghost view = { λ s. record { taken = s.bytes.taken; earlier = s.bytes.earlier; left = s.bytes.left; ended = s.bytes.ended; faults = s.schedule.faults; plan = plan_in s.schedule } };
}

impl MemorySource {
    /// A source of `bytes`, whose reads give at most `sizes` bytes; `failing` are the reads that fail, counted from 0.
    pub fn new(bytes: Blob, sizes: Sizes, failing: Places) -> Self
        ensures { result ≡ record { taken = []; earlier = []; left = bytes; ended = false; faults = 0; plan = begun failing } }
    {
        MemorySource {
            bytes: BytesSource::new(bytes),
            schedule: Schedule::new(sizes, failing),
        }
    }
}

impl Source for MemorySource {
    ghost use Rattle.std.specs.Prelude.{◌≡◌, ◌<◌, ◌≤◌, ◌↔◌, ◌||◌, ◌==◌, Some, length, take, IfOk, OnOk, OnErr, IsErr};
    ghost use Rattle.side_world.specs.Faults.{Rose};
    ghost use Rattle.side_world.specs.Told.{Told, Took, EndsWhereTold};
    ghost use Rattle.disk_memory.specs.Plan.{counted, FailsNext};

    ghost left = { λ s. Some s.left };

    ghost taken = { λ s. Some s.taken };

    ghost earlier = { λ s. Some s.earlier };

    ghost ended = { λ s. s.ended };

    ghost faults = { λ s. s.faults };

    /// Fails exactly where it is a read that is to fail.
    fn read(&mut self, into: &mut [u8]) -> Result<usize, Failed>
        requires { 0 < length into.old }
        ensures within { IfOk result (λ n. n ≤ length into.old) }
        ensures took { IfOk result (λ n. Took (Some self.old.left) (Some self.new.left) (take n into.new)) }
        ensures taken { IfOk result (λ n. Told (Some self.old.taken) (Some self.new.taken) (take n into.new)) }
        ensures earlier { OnOk result (Some self.new.earlier ≡ Some self.old.taken) }
        ensures end { IfOk result (λ n. EndsWhereTold (Some self.old.left) n) }
        ensures ended { IfOk result (λ n. self.new.ended ≡ (self.old.ended || (n == 0))) }
        ensures no_fault { OnOk result (self.new.faults ≡ self.old.faults) }

        ensures failed { OnErr result (Rose self.old.faults self.new.faults) }
        ensures untouched { OnErr result (Some self.new.left ≡ Some self.old.left) }
        ensures nothing_taken { OnErr result (Some self.new.taken ≡ Some self.old.taken) }
        ensures no_read { OnErr result (Some self.new.earlier ≡ Some self.old.earlier) }
        ensures not_ended { OnErr result (self.new.ended ≡ self.old.ended) }
        ensures no_fewer { self.old.faults ≤ self.new.faults }
        ensures listed { IsErr result ↔ FailsNext self.old.plan }
        ensures counted { self.new.plan ≡ counted self.old.plan }
    {
        let moved = self.schedule.next(into.len())?;
        self.bytes.read(&mut into[..moved])
    }

    fn between(&mut self, is_between: bool)
        ensures same { self.new ≡ self.old }
    {
        let _ = is_between;
    }
}
