ghost use Rattle.std.specs.Prelude.{◌≡◌, ◌≤◌, [], ◌∷◌, min, drop, Some};
ghost use Rattle.side_world.specs.Moments.{Rises};
ghost use Rattle.side_world.specs.Told.{Tells};
ghost use Rattle.side_world.specs.declared.clock.Tick.TheVariants as tick;
ghost use Rattle.side_memory.specs.MemoryClock.{later, first_step};

use crate::notes::Notes;
use side_base::{MOMENT_LIMIT, Moment, Sequence};
use side_world::{Clock, Tick};
use std::alloc::Global;
use std::marker::Model;

/// How far each reading of a clock moves it on, in milliseconds, in order. Readings past the end of the list don't move it.
pub type Steps = Sequence<u64>;

/// A clock in memory: pauses move it on by all of their time, and readings by a list of steps; it stops at the greatest moment.
/// It tells its calls, until there is no memory for a note.
#[derive(Debug, Drop)]
pub struct MemoryClock {
    last: Moment,
    paused: u64,
    steps: Steps,
    notes: Notes<Tick>,
}

impl Model for MemoryClock {
    ghost use Rattle.side_memory.specs.MemoryClock.{ClockState};

    ghost Value = { ClockState };

    ghost view = { λ c. record { last = c.last; paused = c.paused; steps = c.steps; ticks = c.notes } };
}

impl MemoryClock {
    /// A clock that stands at `first`.
    pub fn new(alloc: Global, first: Moment, steps: Steps) -> Self
        ensures { result ≡ record { last = first; paused = 0; steps = steps; ticks = Some [] } }
    {
        MemoryClock {
            last: first,
            paused: 0,
            steps,
            notes: Notes::new(alloc),
        }
    }
}

impl Clock for MemoryClock {
    ghost use Rattle.std.specs.Prelude.{◌+◌, ◌-◌, ◌^◌};

    ghost last = { λ c. c.last };

    ghost paused = { λ c. c.paused };

    ghost ticks = { λ c. c.ticks };

    fn now(&mut self) -> Moment
        ensures last { result ≡ self.new.last }
        ensures later { self.old.last ≤ self.new.last }
        ensures paused { self.new.paused ≡ self.old.paused }
        ensures ticks { Tells self.old.ticks self.new.ticks (tick.Read result ∷ []) }
        ensures moved { self.new ≡ record self.old { last = later self.old.last (first_step self.old.steps); steps = drop 1 self.old.steps; ticks = self.new.ticks } }
    {
        let step = take_step(&mut self.steps);
        self.last = later(self.last, step);
        self.notes.add(Tick::Read { at: self.last.ms() });
        self.last
    }

    fn pause(&mut self, ms: u64)
        ensures later { self.old.last ≤ self.new.last }
        ensures paused { Rises self.old.paused ms self.new.paused }
        ensures ticks { Tells self.old.ticks self.new.ticks (tick.Paused ms ∷ []) }
        ensures moved { self.new ≡ record self.old { last = later self.old.last ms; paused = min (self.old.paused + ms) (2 ^ 64 - 1); ticks = self.new.ticks } }
    {
        self.last = later(self.last, ms);
        self.paused = self.paused.saturating_add(ms);
        self.notes.add(Tick::Paused { ms });
    }
}

fn take_step(steps: &mut Steps) -> u64
    ensures first { result ≡ first_step steps.old }
    ensures rest { steps.new ≡ drop 1 steps.old }
{
    match steps.take_first() {
        Some(step) => step,
        None => 0,
    }
}

fn later(moment: Moment, ms: u64) -> Moment
    ensures later { result ≡ later moment ms }
    ensures not_before { moment ≤ result }
{
    let at = moment.ms().saturating_add(ms).min(MOMENT_LIMIT - 1);
    match Moment::at(at) {
        Some(later) => later,
        None => unreachable!(),
    }
}
