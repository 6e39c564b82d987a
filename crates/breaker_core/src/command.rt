use side_base::Moment;

/// What a breaker is told. A moment below the greatest that came so far counts as that greatest.
#[derive(Clone, Copy, Debug, PartialEq, Eq)]
pub enum BreakerCmd {
    /// A call asks to be let through.
    Admit {
        now: Moment,
    },
    /// A call that was admitted in this generation has ended.
    Report {
        generation: u64,
        now: Moment,
        /// Whether the call did not fail.
        good: bool,
    },
}

/// What a breaker answers.
#[derive(Clone, Copy, Debug, PartialEq, Eq)]
pub enum BreakerReply {
    /// The call may go on; its report names this generation. `half` tells whether the breaker is half-open.
    Admitted { generation: u64, half: bool },
    /// The breaker is open, up to this moment, in milliseconds since 1970; it may lie past the greatest `Moment`.
    Opened { until: u64 },
    /// The breaker is half-open, and has let `out` calls through, the most that it may.
    TooMany { out: u32 },
    /// The report counts.
    Counted,
    /// The generation of the report has ended; the present one is `current`.
    Stale { current: u64 },
}
