/// Why a worker ended of its own, and asked all others to stop.
#[derive(Clone, Copy, Debug, PartialEq, Eq)]
pub enum Reason {
    /// A shutdown was asked for.
    Asked,
    /// The acceptor failed.
    Failed,
    /// A cell has no ticket left; `count` was read in it.
    Spent { count: u64 },
}
