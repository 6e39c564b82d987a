ghost use Rattle.std.specs.Prelude.{◌≡◌, [], Some, None, IfSome, IfNone, OnSome, set};
ghost use Rattle.side_memory.specs.MemoryOutside.{IsMissing};
ghost use Rattle.disk_memory.specs.Plan.{begun};
ghost use Rattle.side_memory.specs.Scripts.{IsAt};

use crate::memory_acceptor::{AcceptorAnswers, MemoryAcceptor};
use crate::memory_clock::{MemoryClock, Steps};
use crate::memory_link::{LinkAnswers, MemoryLink};
use side_base::{Moment, Places};
use side_world::WorkerParts;
use std::alloc::Global;

/// What a worker in memory has of the outside for itself.
pub type MemoryParts = WorkerParts<MemoryAcceptor, MemoryLink, MemoryClock>;

/// What the parts of a worker answer: its acceptor and its link, with the calls of each that fail, and its clock.
#[derive(Debug, Drop)]
pub struct WorkerScript {
    pub answers: AcceptorAnswers,
    pub failing_accepts: Places,
    pub link_answers: LinkAnswers,
    pub failing_calls: Places,
    pub first: Moment,
    pub steps: Steps,
}

impl WorkerScript {
    // The parts, of which nothing was used. Takes no memory.
    pub(crate) fn into_parts(self, alloc: Global) -> MemoryParts
        ensures acceptor { result.acceptor ≡ record { answers = self.answers; notes = Some []; faults = 0; plan = begun self.failing_accepts } }
        ensures link { result.link ≡ record { answers = self.link_answers; calls = Some []; faults = 0; expiries = 0; plan = begun self.failing_calls } }
        ensures clock { result.clock ≡ record { last = self.first; paused = 0; steps = self.steps; ticks = Some [] } }
    {
        let WorkerScript {
            answers,
            failing_accepts,
            link_answers,
            failing_calls,
            first,
            steps,
        } = self;
        WorkerParts {
            acceptor: MemoryAcceptor::new(alloc, answers, failing_accepts),
            link: MemoryLink::new(alloc, link_answers, failing_calls),
            clock: MemoryClock::new(alloc, first, steps),
        }
    }
}

/// Takes the script of this number, where there is one that was not taken.
pub(crate) fn take_script(
    scripts: &mut Vec<Option<WorkerScript>>,
    number: u32,
) -> Option<WorkerScript>
    ensures at { IfSome result (IsAt scripts.old.items number) }
    ensures taken { OnSome result (scripts.new.items ≡ set scripts.old.items number None) }
    ensures missing { IfNone result (IsMissing scripts.old.items number) }
    ensures unchanged { IfNone result (scripts.new.items ≡ scripts.old.items) }
{
    let place = number as usize;
    if place < scripts.len() {
        scripts[place].take()
    } else {
        None
    }
}
