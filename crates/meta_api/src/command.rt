ghost use Rattle.std.specs.Prelude.{◌≡◌, ◌↔◌, IfOk, IsErrOf, IsUtf8};

use side_base::{Sequence, Text, TextErr};
use std::alloc::Global;

/// A name with the value that was noted for it.
#[derive(Debug, Drop)]
pub struct Pair {
    pub name: Text,
    pub value: Text,
}

/// Names with their values, in byte order of the names.
pub type Pairs = Sequence<Pair>;

/// What a book is asked.
#[derive(Debug, Drop)]
pub enum NotesCmd {
    /// Notes a value for a name, in place of the one that it has.
    Put { name: Text, value: Text },
    /// All names with the values that were noted for them last.
    List,
}

/// What a book answers.
#[derive(Debug, Drop)]
pub enum NotesReply {
    /// The value is noted.
    Noted,
    /// The book would have so many names, and so many bytes of names and values, of which one is more than it may have; nothing changed.
    Full { names: u128, bytes: u128 },
    /// What is noted.
    Listed { pairs: Pairs },
    /// There is no memory; nothing changed.
    NoMemory,
}

/// Why there is no command that notes a value.
#[derive(Clone, Copy, Debug, PartialEq, Eq)]
pub enum NoteErr {
    /// The value is not UTF-8 (RFC 3629).
    NotText,
    /// The value is UTF-8, and there is no memory for a copy of it or of the name.
    NoMemory,
}

/// The command that notes a value for a name, with copies of both.
pub fn put_command(alloc: Global, name: &Text, value: &[u8]) -> Result<NotesCmd, NoteErr>
    ensures command { IfOk result (λ cmd. (cmd ≡ NotesCmd.Put name.now value.now) × IsUtf8 value.now) }
    ensures not_text { IsErrOf result NoteErr.NotText ↔ (¬ IsUtf8 value.now) }
{
    match Text::from_bytes(alloc, value) {
        Ok(value) => match name.copy() {
            Ok(name) => Ok(NotesCmd::Put { name, value }),
            Err(_) => Err(NoteErr::NoMemory),
        },
        Err(TextErr::NotUtf8 { .. }) => Err(NoteErr::NotText),
        Err(TextErr::NoMemory) => Err(NoteErr::NoMemory),
    }
}
