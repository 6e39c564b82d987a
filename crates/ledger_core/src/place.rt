ghost use Rattle.std.specs.Prelude.{◌≡◌};
ghost use Rattle.ledger_core.specs.Place.{place_order};

use std::cmp::Ordering;

/// Where a row stands among the others: rows go by `at`, then by message, then by subscription.
#[derive(Clone, Copy, Debug)]
pub(crate) struct Place {
    /// The moment from which on a row that waits is due, or the claim under which a row is held.
    pub(crate) at: u64,
    pub(crate) no: u64,
    pub(crate) sub: u32,
}

impl Place {
    /// Which of two places comes first.
    pub(crate) fn compare(&self, other: &Place) -> Ordering
        ensures { result ≡ place_order self.now other.now }
    {
        self.at
            .cmp(&other.at)
            .then(self.no.cmp(&other.no).then(self.sub.cmp(&other.sub)))
    }
}
