ghost use Rattle.std.specs.Prelude.{◌≡◌};
ghost use Rattle.state_core.specs.Moved.{at_moment};
ghost use Rattle.state_core.specs.Taken.{IsTaken};

use side_base::{Blob, Moment, Sequence, Text};

/// What stands before the key of a request in the key under which its row is stored.
#[derive(Debug, Drop)]
pub struct Prefix {
    /// `None` where keys are stored as they are given.
    pub text: Option<Text>,
}

/// When a write is current for the row of its key.
#[derive(Clone, Copy, Debug, PartialEq, Eq)]
pub enum Mode {
    /// With an ETag where it is the row's, and always without one.
    Unsaid,
    /// With an ETag where it is the row's, and without one where there is no row.
    FirstWrite,
    /// Always.
    LastWrite,
}

/// A value to be stored under a key.
#[derive(Debug, Drop)]
pub struct Item {
    /// The key as it is stored, its prefix included.
    pub key: Text,
    /// A JSON text, which is kept byte for byte.
    pub value: Blob,
    /// The version that the row must have, in decimal digits.
    pub etag: Option<Text>,
    pub mode: Mode,
    /// How long the row lives, in seconds, from 1 to 4,294,967,295; `None` is for ever.
    pub ttl: Option<u64>,
}

/// One operation of a transaction.
#[derive(Debug, Drop)]
pub enum Op {
    /// Stores an item in place of what its key has.
    Upsert(Item),
    /// Removes the row of a key.
    Remove {
        key: Text,
        etag: Option<Text>,
        mode: Mode,
    },
}

/// Items of one save, in the order in which they are judged.
pub type Items = Sequence<Item>;

/// Stored keys, in the order in which they are asked for.
pub type Keys = Sequence<Text>;

/// Operations of one transaction, in the order in which they are judged.
pub type Ops = Sequence<Op>;

/// What a store is asked. Keys are stored keys, their prefix included. A moment below the greatest that came so far counts as
/// that greatest.
#[derive(Debug, Drop)]
pub enum Cmd {
    /// The value of a key, and its version.
    Get {
        key: Text,
        now: Moment,
    },
    /// Stores each item that is current, judged in order.
    Save {
        items: Items,
        now: Moment,
    },
    /// Removes the row of a key, if that is current.
    Delete {
        key: Text,
        etag: Option<Text>,
        mode: Mode,
        now: Moment,
    },
    /// The values of keys, and their versions.
    Bulk {
        keys: Keys,
        /// How many bytes of each key stand before the key of the request. The store does not use it.
        skip: usize,
        now: Moment,
    },
    /// Makes all the operations, judged in order, or none.
    Transact {
        ops: Ops,
        now: Moment,
    },
}

impl Cmd {
    /// Moves the command to another moment, as before it is given once more. All else stays. Takes no memory.
    pub fn set_now(&mut self, moment: Moment)
        ensures moved { self.new ≡ at_moment moment self.old }
        ensures taken { IsTaken self.old → IsTaken self.new }
    {
        match self {
            Cmd::Get { now, .. } => *now = moment,
            Cmd::Save { now, .. } => *now = moment,
            Cmd::Delete { now, .. } => *now = moment,
            Cmd::Bulk { now, .. } => *now = moment,
            Cmd::Transact { now, .. } => *now = moment,
        }
    }
}
