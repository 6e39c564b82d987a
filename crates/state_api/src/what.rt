/// Why a state request is malformed.
#[derive(Clone, Copy, Debug, PartialEq, Eq)]
pub enum What {
    /// The body is no JSON text (RFC 8259): it is bad at the place `at`, or a list or a map begins there inside 64 others.
    Json { at: usize },
    /// The body, or a field, is not of the form that the route wants.
    Shape,
    /// A key has not 1 to 1,024 bytes, or has `||` in it.
    Key,
    /// A concurrency is none of the words for it.
    Concurrency,
    /// An operation of a transaction is neither `upsert` nor `delete`.
    Operation,
    /// There are more than 1,024 items, keys or operations.
    TooMany,
    /// A time to live is neither `-1` nor a number of seconds from 1 to 4,294,967,295.
    Ttl,
}

/// Why a state request gives no command.
#[derive(Clone, Copy, Debug, PartialEq, Eq)]
pub enum StateErr {
    /// The request is malformed.
    Malformed { what: What },
    /// There is no memory for the command.
    NoMemory,
}
