use crate::millis::Millis;
use retry_core::Trip;

/// A policy of a document, by its kind.
#[derive(Clone, Copy, Debug)]
pub enum Policy {
    Timeout(Millis),
    Retry {
        exponential: bool,
        wait: Millis,
        most: Millis,
        max_retries: Option<u32>,
    },
    Breaker {
        max_requests: u32,
        interval: Millis,
        timeout: Millis,
        trip: Trip,
    },
}

/// Which policies a member of `spec.policies` has.
#[derive(Clone, Copy, Debug)]
pub enum Section {
    Timeouts,
    Retries,
    Breakers,
}
