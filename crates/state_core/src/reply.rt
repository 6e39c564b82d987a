use side_base::{Blob, Places, Sequence, Text};

/// A value with its version.
#[derive(Debug, Drop)]
pub struct Found {
    pub value: Blob,
    /// The number of the write that stored it, from 1, which no other write of the store has.
    pub version: u64,
}

/// What a key of a bulk get has.
#[derive(Debug, Drop)]
pub struct BulkRow {
    /// The key as it is stored.
    pub key: Text,
    /// `None` where the key has no row.
    pub found: Option<Found>,
}

/// What the keys of a bulk get have, in their order.
pub type Rows = Sequence<BulkRow>;

/// What a store answers.
#[derive(Debug, Drop)]
pub enum Reply {
    /// What the key has.
    Value { value: Blob, version: u64 },
    /// The key has no row.
    Absent,
    /// All items are stored.
    Saved,
    /// The items at these places, counted from 0, are not current; the others are stored.
    SomeRefused { places: Places },
    /// The key has no row any more.
    Deleted,
    /// The operation at this place, counted from 0, is the first that is not current; nothing changed.
    Mismatch { place: u32 },
    /// What each key of a bulk get has.
    Rows { rows: Rows },
    /// The values of a bulk get have `len` bytes in all, more than `BULK_LIMIT`.
    TooLong { len: u128 },
    /// All operations are made.
    Committed,
    /// The keeper failed, and counted the fault; nothing changed.
    Failed,
    /// The rows would take `len` bytes, more than the keeper's limit; nothing changed.
    Full { len: u128 },
    /// The versions from `next` on are fewer than the items that would be stored; nothing changed.
    Spent { next: u64 },
    /// There is no memory for the command; nothing changed.
    NoMemory,
}
