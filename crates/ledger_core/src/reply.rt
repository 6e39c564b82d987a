use side_base::{Blob, Text};

/// Why a delivery was dropped.
#[derive(Clone, Copy, Debug, PartialEq, Eq)]
pub enum Reason {
    /// It was settled so.
    Asked,
    /// Its policy gave up, and its subscription has no dead-letter topic.
    UsedUp,
    /// Its event has gone to dead-letter topics 8 times.
    Hops,
}

/// What a ledger answers. A row is a delivery that is owed.
#[derive(Debug, Drop)]
pub enum LedgerReply {
    /// The event is message `no`; messages are numbered from 1.
    Accepted {
        no: u64,
    },
    /// The rows would be so many, or their events and paths have so many bytes, that one of the two exceeds its limit. To
    /// `Accept` nothing changed; to `Settle` the row is due again 1,000 ms later.
    Full {
        rows: u128,
        bytes: u128,
    },
    /// The row is held until it is settled under `claim`. Claims are numbered from 1, attempts at one row too.
    Taken {
        no: u64,
        sub: u32,
        claim: u64,
        event: Blob,
        path: Text,
        attempt: u64,
    },
    /// No row is due that is not held. The first of them is due at `next`, in milliseconds since 1970.
    Idle {
        next: Option<u64>,
    },
    /// The row is not held under this claim; nothing changed.
    NotTaken,
    /// The row was delivered.
    Done,
    /// The row was dropped.
    Dropped(Reason),
    /// The row is due again at this moment, in milliseconds since 1970.
    Again {
        at: u64,
    },
    /// The row went to its dead-letter topic, where its event is message `no`.
    Dead {
        no: u64,
    },
    /// How many deliveries are owed, held ones among them, and how many were delivered, dropped and dead-lettered.
    Counts {
        owed: u128,
        done: u128,
        dropped: u128,
        dead: u128,
    },
    /// There is no memory. To `Accept` and `Take` nothing changed; to `Settle` the row is due again at once.
    NoMemory,
}
