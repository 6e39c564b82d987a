ghost use Rattle.std.specs.Prelude.{◌≡◌, [], Some, IfOk};
ghost use Rattle.disk_memory.specs.Plan.{begun};

use disk_memory::{Schedule, Sizes};
use side_base::{Blob, NoMemory, Places};
use side_world::{Failed, Sink};
use std::alloc::Global;
use std::marker::Model;

/// A sink that keeps its bytes in memory, and tells them.
///
/// Contracts see its contents and its count of faults. A write that finds no memory is a fault.
#[derive(Debug, Drop)]
pub struct MemorySink {
    contents: Blob,
    schedule: Schedule,
}

impl Model for MemorySink {
    ghost use Rattle.side_memory.specs.MemorySink.{SinkState};
    ghost use Rattle.disk_memory.specs.Plan.{plan_in};

    ghost Value = { SinkState };

    ghost view = { λ s. record { contents = s.contents; faults = s.schedule.faults; plan = plan_in s.schedule } };
}

impl MemorySink {
    /// An empty sink, whose writes take at most `sizes` bytes; `failing` are the writes that fail, counted from 0.
    pub fn new(alloc: Global, sizes: Sizes, failing: Places) -> Self
        ensures { result ≡ record { contents = []; faults = 0; plan = begun failing } }
    {
        MemorySink {
            contents: Blob::new(alloc),
            schedule: Schedule::new(sizes, failing),
        }
    }

    /// The same, with room for `room` bytes: until then no write takes memory.
    pub fn with_room(
        alloc: Global,
        room: usize,
        sizes: Sizes,
        failing: Places,
    ) -> Result<Self, NoMemory>
        ensures { IfOk result (λ sink. sink ≡ record { contents = []; faults = 0; plan = begun failing }) }
    {
        let mut contents = Blob::new(alloc);
        contents.reserve(room)?;
        Ok(MemorySink {
            contents,
            schedule: Schedule::new(sizes, failing),
        })
    }

    /// All bytes that were written.
    pub fn bytes(&self) -> &[u8]
        ensures { result.now ≡ self.now.contents }
    {
        self.contents.bytes()
    }
}

impl Sink for MemorySink {
    ghost use Rattle.std.specs.Prelude.{◌≡◌, ◌<◌, ◌≤◌, Some, length, take, IfOk, OnOk, OnErr, IsErr};
    ghost use Rattle.side_world.specs.Faults.{Rose};
    ghost use Rattle.side_world.specs.Told.{Told};
    ghost use Rattle.disk_memory.specs.Plan.{counted, FailsNext};

    ghost contents = { λ s. Some s.contents };

    ghost faults = { λ s. s.faults };

    /// Fails where it is a write that is to fail, and where there is no memory.
    fn write(&mut self, piece: &[u8]) -> Result<usize, Failed>
        requires { 0 < length piece.now }
        ensures some { IfOk result (λ n. 0 < n) }
        ensures within { IfOk result (λ n. n ≤ length piece.now) }
        ensures wrote { IfOk result (λ n. Told (Some self.old.contents) (Some self.new.contents) (take n piece.now)) }
        ensures no_fault { OnOk result (self.new.faults ≡ self.old.faults) }

        ensures failed { OnErr result (Rose self.old.faults self.new.faults) }
        ensures untouched { OnErr result (Some self.new.contents ≡ Some self.old.contents) }
        ensures no_fewer { self.old.faults ≤ self.new.faults }
        ensures listed { FailsNext self.old.plan → IsErr result }
        ensures counted { self.new.plan ≡ counted self.old.plan }
    {
        let n = self.schedule.next(piece.len())?;
        match self.contents.push(&piece[..n]) {
            Ok(()) => Ok(n),
            Err(_) => {
                self.schedule.fail();
                Err(Failed)
            }
        }
    }
}
