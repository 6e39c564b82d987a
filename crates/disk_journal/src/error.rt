use std::error::Error;
use std::fmt;

/// Why a call on a journal was refused.
#[derive(Clone, Copy, Debug, PartialEq, Eq)]
pub enum JournalErr {
    /// The disk failed; its count of faults rose.
    Failed,
    /// The file is no journal's: that shows at place `at`, in bytes from its beginning.
    NotAJournal { at: u64 },
    /// `len`, the file's length after the record in bytes, exceeds the limit.
    Full { len: u128 },
    /// There is no memory for what is held of the file, or for its bodies.
    NoMemory,
}

impl fmt::Display for JournalErr {
    fn fmt<W: fmt::Write>(&self, f: &mut fmt::Formatter<W>) -> fmt::Result {
        match self {
            JournalErr::Failed => f.write_str("the disk failed"),
            JournalErr::NotAJournal { at } => write!(f, "no journal at {at}"),
            JournalErr::Full { len } => write!(f, "a length of {len} exceeds the limit"),
            JournalErr::NoMemory => f.write_str("no memory"),
        }
    }
}

impl Error for JournalErr {}
