ghost use Rattle.std.specs.Prelude.{◌≡◌};
ghost use Rattle.std.specs.Option.{option_map_or};
ghost use Rattle.retry_core.specs.Trip.{holds, is_tripped};

/// A count of a breaker that a trip compares.
#[derive(Clone, Copy, Debug, PartialEq, Eq)]
pub enum Counter {
    /// The length of the last stretch of failing reports.
    ConsecutiveFailures,
    /// The calls that were let through.
    Requests,
    /// The failing reports.
    TotalFailures,
}

/// How a count is compared with a number.
#[derive(Clone, Copy, Debug, PartialEq, Eq)]
pub enum Sign {
    /// `>=`.
    AtLeast,
    /// `>`.
    Above,
    /// `<=`.
    AtMost,
    /// `<`.
    Below,
    /// `==`.
    Equal,
}

/// A comparison of a count with a number.
#[derive(Clone, Copy, Debug, PartialEq, Eq)]
pub struct Comparison {
    pub counter: Counter,
    pub sign: Sign,
    pub number: u32,
}

/// How the comparisons of a trip are joined.
#[derive(Clone, Copy, Debug, PartialEq, Eq)]
pub enum Join {
    /// `&&`: all of them hold.
    All,
    /// `||`: at least one of them holds.
    Any,
}

/// The condition on which a breaker opens: the comparisons that are there, from one to four, under one join. A trip of
/// one comparison has the join `All`.
#[derive(Clone, Copy, Debug, PartialEq, Eq)]
pub struct Trip {
    pub join: Join,
    pub comparisons: [Option<Comparison>; 4],
}

/// The counts of a breaker since its last change.
#[derive(Clone, Copy, Debug, PartialEq, Eq)]
pub struct Counts {
    pub consecutive_failures: u64,
    pub requests: u64,
    pub total_failures: u64,
}

impl Trip {
    /// Whether the trip is true of these counts. Takes no memory.
    pub fn is_true_of(&self, counts: &Counts) -> bool
        ensures { result ≡ is_tripped self.now counts.now }
    {
        match self.join {
            Join::All => self
                .comparisons
                .iter()
                .all(|slot| slot_holds(slot, counts, true)),
            Join::Any => self
                .comparisons
                .iter()
                .any(|slot| slot_holds(slot, counts, false)),
        }
    }
}

fn slot_holds(slot: &Option<Comparison>, counts: &Counts, absent: bool) -> bool
    ensures { result ≡ option_map_or (holds counts.now) slot.now absent }
{
    match slot {
        Some(comparison) => holds(comparison, counts),
        None => absent,
    }
}

fn holds(comparison: &Comparison, counts: &Counts) -> bool
    ensures { result ≡ holds counts.now comparison.now }
{
    let count = match comparison.counter {
        Counter::ConsecutiveFailures => counts.consecutive_failures,
        Counter::Requests => counts.requests,
        Counter::TotalFailures => counts.total_failures,
    };
    let number = u64::from(comparison.number);
    match comparison.sign {
        Sign::AtLeast => count >= number,
        Sign::Above => count > number,
        Sign::AtMost => count <= number,
        Sign::Below => count < number,
        Sign::Equal => count == number,
    }
}
