use ledger_core::LedgerReply;

/// What a turn of delivery came to.
#[derive(Debug, Drop)]
pub enum Turn {
    /// The delivery of message `no` to the subscription at the place `sub` was settled, with this reply.
    Delivered {
        no: u64,
        sub: u32,
        settled: LedgerReply,
    },
    /// No delivery is due. The first that will be is due at `next`, in milliseconds since 1970.
    Idle {
        next: Option<u64>,
    },
    /// There was no memory; the delivery is due again.
    Held,
    /// A cell has no ticket left; `count` was read in it, and its seat shows it.
    Exhausted {
        count: u64,
    },
}
