/// How serving ended.
#[derive(Clone, Copy, Debug, PartialEq, Eq)]
pub enum End {
    /// Each worker ended since a shutdown was asked for, or since no connection will come.
    Done,
    /// The acceptor of a worker failed: its count of faults rose.
    AcceptorFailed,
    /// A cell has no ticket left; `count` was read in it.
    Spent { count: u64 },
    /// The outside had no parts for a worker: its count of faults rose. Nothing was served.
    OutsideFailed,
    /// There was no memory for the workers. Nothing was served.
    NoMemory,
}
