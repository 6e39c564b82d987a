/// What a breaker does with calls.
#[derive(Clone, Copy, Debug, PartialEq, Eq)]
pub enum Phase {
    /// It lets them through, and counts.
    Closed,
    /// It refuses them, up to the moment `until`, in milliseconds since 1970.
    Open { until: u64 },
    /// It lets a few through, to see whether they are good.
    HalfOpen,
}
