ghost use Rattle.std.specs.Prelude.{◌≡◌, ◌≤◌, length};
ghost use Rattle.meta_api.specs.Book.{bytes_of};

use crate::pairs::{copied, copied_pair, is_small, place_of, size_with, store};
use crate::{NotesCmd, NotesReply, Pair};
use side_base::Text;
use std::alloc::Global;
use turn_cell::Object;

/// A book of metadata entries: names with the values that were noted for them last. Each command is one step of its history.
#[derive(Debug, Drop)]
pub struct Notes {
    alloc: Global,
    /// In byte order of their names.
    pub(crate) pairs: Vec<Pair>,
    /// The bytes of all names and values.
    pub(crate) bytes: u64,
    pub(crate) used: u64,
    ghost size: { bytes ≡ bytes_of pairs.items },
    ghost few_bytes: { bytes ≤ 1048576 },
    ghost few_names: { length pairs.items ≤ 1024 },
}

impl Notes {
    ghost use Rattle.std.specs.Prelude.{◌≡◌, []};
    ghost use Rattle.meta_api.specs.Notes.{pairs_of};
    ghost use Rattle.meta_api.specs.History.{Answers, PutAnswers, after_cmd, after_put};

    /// An empty book, whose history is empty. Takes no memory.
    pub fn new(alloc: Global) -> Notes
        ensures empty { pairs_of result ≡ [] }
        ensures unused { ⟦<Notes as Object>⟧.used result ≡ 0 }
    {
        Notes {
            alloc,
            pairs: Vec::new(alloc),
            bytes: 0,
            used: 0,
        }
    }

    /// The reply to a command.
    fn answered(&mut self, cmd: &NotesCmd) -> NotesReply
        ensures answers { Answers (pairs_of self.old) cmd.now result }
        ensures pairs { pairs_of self.new ≡ after_cmd (pairs_of self.old) cmd.now result }
        ensures used { self.new.used ≡ self.old.used }
    {
        match cmd {
            NotesCmd::Put { name, value } => self.put(name, value),
            NotesCmd::List => match copied(self.alloc, self.pairs.as_slice()) {
                Ok(pairs) => NotesReply::Listed { pairs },
                Err(_) => NotesReply::NoMemory,
            },
        }
    }

    /// Notes a value for a name.
    fn put(&mut self, name: &Text, value: &Text) -> NotesReply
        ensures reply { PutAnswers (pairs_of self.old) (record { name = name.now; value = value.now }) result }
        ensures pairs { pairs_of self.new ≡ after_put (pairs_of self.old) (record { name = name.now; value = value.now }) result }
        ensures used { self.new.used ≡ self.old.used }
    {
        match copied_pair(name, value) {
            Ok(pair) => self.put_pair(pair),
            Err(_) => NotesReply::NoMemory,
        }
    }

    /// Notes a pair.
    fn put_pair(&mut self, pair: Pair) -> NotesReply
        ensures reply { PutAnswers (pairs_of self.old) pair result }
        ensures pairs { pairs_of self.new ≡ after_put (pairs_of self.old) pair result }
        ensures used { self.new.used ≡ self.old.used }
    {
        let place = place_of(self.pairs.as_slice(), pair.name.bytes());
        let size = size_with(self.pairs.as_slice(), self.bytes, place, &pair);
        if !is_small(size) {
            return NotesReply::Full {
                names: size.names,
                bytes: size.bytes,
            };
        }
        match store(&mut self.pairs, place, pair) {
            Ok(()) => {
                self.bytes = size.bytes as u64;
                NotesReply::Noted
            }
            Err(_) => NotesReply::NoMemory,
        }
    }
}

impl Object for Notes {
    ghost use Rattle.std.specs.Prelude.{◌≡◌};
    ghost use Rattle.meta_api.specs.Notes.{Stands, opens, pairs_of};
    ghost use Rattle.meta_api.specs.History.{IsStep};

    type Cmd = NotesCmd;

    type Reply = NotesReply;

    ghost takes = { λ _ _. Unit {0} };

    ghost steps = { λ first history entry. IsStep (pairs_of first) history entry };

    ghost stands = { Stands };

    ghost used = { λ notes. notes.used };

    ghost mark = { λ _. 0 };

    fn apply(&mut self, cmd: &NotesCmd) -> NotesReply {
        let reply = self.answered(cmd);
        self.used += 1;
        reply
    }

    fn used(&self) -> u64 {
        self.used
    }

    ghost opens = { opens };

    ghost counts = { λ first history notes stands. stands.used };
}
