use crate::Trip;

/// How the wait before the next attempt is chosen. Its milliseconds are at most `side_base::DURATION_LIMIT`.
#[derive(Clone, Copy, Debug, PartialEq, Eq)]
pub enum RetryKind {
    /// Each wait is `duration_ms` milliseconds.
    Constant { duration_ms: u64 },
    /// Each wait is the one before it times a random factor from 3/4 to 9/4, in milliseconds, at least 1 and at most
    /// `max_interval_ms`.
    Exponential { max_interval_ms: u64 },
}

/// When a failing call is made again.
#[derive(Clone, Copy, Debug, PartialEq, Eq)]
pub struct RetryPolicy {
    pub kind: RetryKind,
    /// How many attempts may follow the first; `None` is no limit of the policy's own.
    pub max_retries: Option<u32>,
}

/// When calls are held back. Its milliseconds are at most `side_base::DURATION_LIMIT`.
#[derive(Clone, Copy, Debug, PartialEq, Eq)]
pub struct BreakerPolicy {
    /// How many calls a half-open breaker lets through at most, and how many good ones in a row close it; at least 1.
    pub max_requests: u32,
    /// After how many milliseconds a closed breaker clears its counts; 0 is never.
    pub interval_ms: u64,
    /// For how many milliseconds a breaker stays open.
    pub timeout_ms: u64,
    /// The condition on which a closed breaker opens.
    pub trip: Trip,
}

/// What is bound to the calls of one target. Its milliseconds are at most `side_base::DURATION_LIMIT`.
#[derive(Clone, Copy, Debug, PartialEq, Eq)]
pub struct Bound {
    /// How many milliseconds one attempt may take; `None` and 0 are no limit.
    pub timeout_ms: Option<u64>,
    pub retry: Option<RetryPolicy>,
    /// The place of the target's breaker in the list of breakers.
    pub breaker: Option<u32>,
}
