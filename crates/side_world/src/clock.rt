ghost use Rattle.std.specs.Prelude.{◌≡◌, ◌≤◌, ℕ, List, [], ◌∷◌, Option};
ghost use Rattle.side_world.specs.Moments.{Rises};
ghost use Rattle.side_world.specs.Told.{Tells};

use side_base::Moment;

/// A call of a clock.
#[derive(Clone, Copy, Debug, PartialEq, Eq)]
pub enum Tick {
    /// The moment was read, in milliseconds since 1970.
    Read { at: u64 },
    /// So many milliseconds were to be waited.
    Paused { ms: u64 },
}

/// A clock, which can also wait.
///
/// Nothing is said of how long a pause takes.
pub trait Clock {
    ghost use Rattle.side_world.specs.declared.clock.Tick.{Tick};
    ghost use Rattle.side_world.specs.declared.clock.Tick.TheVariants as tick;

    // The moment that it answered last, or has moved on to since. It never falls.
    ghost last: { Self → ℕ };

    // The sum of all pauses in milliseconds, which stops at 2^64 - 1.
    ghost paused: { Self → ℕ };

    // The calls, in order, where the clock tells them.
    ghost ticks: { Self → Option (List Tick) };

    /// The moment, which is not before any that was answered earlier.
    fn now(&mut self) -> Moment
        ensures last { result ≡ last self.new }
        ensures later { last self.old ≤ last self.new }
        ensures paused { paused self.new ≡ paused self.old }
        ensures ticks { Tells (ticks self.old) (ticks self.new) (tick.Read result ∷ []) };

    /// Waits for about `ms` milliseconds.
    fn pause(&mut self, ms: u64)
        ensures later { last self.old ≤ last self.new }
        ensures paused { Rises (paused self.old) ms (paused self.new) }
        ensures ticks { Tells (ticks self.old) (ticks self.new) (tick.Paused ms ∷ []) };
}
