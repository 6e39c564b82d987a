use crate::Aims;
use side_base::{Blob, Moment};

/// How a delivery ended.
#[derive(Clone, Copy, Debug, PartialEq, Eq)]
pub enum Finish {
    /// It was delivered.
    Success,
    /// It failed, and is to be made again or dead-lettered, as the plan says.
    Retry,
    /// It is to be dropped, without a dead letter.
    Drop,
    /// It was not tried, and is due at this moment, in milliseconds since 1970, which may lie past the greatest `Moment`.
    Later { at: u64 },
}

/// What a ledger is told. The aims of one list are of different subscriptions, each of which has a plan.
#[derive(Debug, Drop)]
pub enum LedgerCmd {
    /// An event is owed to these subscriptions, from `now` on.
    Accept {
        event: Blob,
        aims: Aims,
        now: Moment,
    },
    /// Somebody is ready to make the first delivery that is due at `now`.
    Take {
        now: Moment,
    },
    /// A delivery has ended that was taken under a claim.
    Settle {
        no: u64,
        sub: u32,
        claim: u64,
        finish: Finish,
        now: Moment,
        /// A random word, by which the wait before the next attempt is chosen.
        word: u64,
        /// The subscriptions to the dead-letter topic that the event matches, for the case that it goes there.
        dead_aims: Aims,
    },
    /// How many deliveries there are of each status.
    Counts,
}
