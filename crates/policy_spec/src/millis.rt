ghost use Rattle.std.specs.Prelude.{◌≡◌, ◌≤◌};

use std::marker::Model;

/// Milliseconds within the limit of a duration. Contracts see them as their number.
#[derive(Clone, Copy, Debug)]
pub struct Millis {
    count: u64,
}

impl Model for Millis {
    ghost use Rattle.std.specs.Prelude.{ℕ, ◌≤◌};

    ghost Value = { ℕ };

    ghost view = { λ m. m.count };

    ghost invariant = { λ m. m.count ≤ 31536000000 };

    ghost inverse = { λ ms. record { count = ms } };
}

impl Millis {
    /// `count` milliseconds, at most a year of them.
    pub fn new(count: u64) -> Millis
        requires { count ≤ 31536000000 }
        ensures { result ≡ count }
    {
        Millis { count }
    }

    /// How many milliseconds.
    pub fn count(self) -> u64
        ensures exact { result ≡ self }
        ensures within { result ≤ 31536000000 }
    {
        self.count
    }
}
