ghost use Rattle.std.specs.Prelude.{◌≡◌, ◌<◌, ℕ, SomeIff};
ghost use Rattle.side_base.specs.Limits.{moments_end};

use std::marker::Model;

/// One past the greatest moment: the first millisecond of the year 10000 in UTC.
pub const MOMENT_LIMIT: u64 = 253_402_300_800_000;

/// A moment in UTC, in whole milliseconds since the beginning of 1970, up to the end of the year 9999.
#[derive(Clone, Copy, Debug, PartialEq, Eq, PartialOrd, Ord)]
pub struct Moment {
    ms: u64,
}

impl Model for Moment {
    ghost Value = { ℕ };

    ghost view = { λ m. m.ms };

    ghost invariant = { λ m. m.ms < moments_end };

    ghost inverse = { λ n. record { ms = n } };
}

impl Moment {
    /// The moment `ms` milliseconds after the beginning of 1970; `None` exactly where that is past the year 9999.
    pub fn at(ms: u64) -> Option<Moment>
        ensures { SomeIff result (ms < moments_end) ms }
    {
        if ms < MOMENT_LIMIT {
            Some(Moment { ms })
        } else {
            None
        }
    }

    /// The milliseconds since the beginning of 1970.
    pub fn ms(self) -> u64
        ensures same { result ≡ self }
        ensures limit { result < moments_end }
    {
        self.ms
    }
}
