use side_base::{Blob, Sequence};

/// One change of a row.
#[derive(Debug, Drop)]
pub enum Change {
    /// The key has this row from now on, whatever it had.
    Put {
        key: Blob,
        value: Blob,
        /// From 1, and below the `next` of the changes.
        version: u64,
        /// In milliseconds since 1970; 0 is never.
        until: u64,
    },
    /// The key has no row from now on.
    Remove {
        key: Blob,
    },
}

/// Changes in the order in which they are made.
pub type ChangeList = Sequence<Change>;

/// The changes of one commit.
#[derive(Debug, Drop)]
pub struct Changes {
    pub list: ChangeList,
    /// The version that the next write gets: at most 2^62, not below the keeper's, and above every version of the list.
    pub next: u64,
}
