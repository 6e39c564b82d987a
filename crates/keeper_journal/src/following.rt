ghost use Rattle.std.specs.Prelude.{◌≡◌, ◌↔◌, IsTrue, OnOk, IsErrOf};
ghost use Rattle.std.specs.FinMap.{empty};
ghost use Rattle.keeper_core.specs.Changes.{IsBelow, VersionsAreBelow};
ghost use Rattle.keeper_core.specs.Rows.{IsCounted};
ghost use Rattle.keeper_core.specs.Table.{fed};
ghost use Rattle.keeper_journal.specs.Body.{IsBodyOf};
ghost use Rattle.keeper_journal.specs.History.{MayFollow};

use crate::{BodyErr, decode};
use keeper_core::{Change, ChangeList, Changes, RowTable};
use std::alloc::Global;

/// The greatest next version.
const VERSION_LIMIT: u64 = 1 << 62;

/// The rows and the next version after some commits.
#[derive(Drop)]
pub(crate) struct Replay {
    pub(crate) table: RowTable,
    pub(crate) next: u64,
    ghost counted: { IsCounted table.rows next },
}

impl Replay {
    ghost use Rattle.keeper_journal.specs.Following.{Follows, SaysNoneAfter};
    ghost use Rattle.keeper_journal.specs.declared.decoding.BodyErr.TheVariants.{NotABody};

    /// Before the first commit. `secret` are random bytes, for the hash of keys.
    pub(crate) fn new(alloc: Global, secret: [u8; 16]) -> Replay
        ensures rows { result.table.rows ≡ empty }
        ensures next { result.next ≡ 1 }
        ensures hasher { result.table.hasher ≡ fed secret }
    {
        Replay {
            table: RowTable::new(alloc, secret),
            next: 1,
        }
    }

    /// Makes the commit that a body says, where that may follow.
    pub(crate) fn follow(&mut self, alloc: Global, body: &[u8]) -> Result<(), BodyErr>
        ensures followed { OnOk result (Follows body.now self.old self.new) }
        ensures none { IsErrOf result NotABody → SaysNoneAfter self.old.next body.now }
        ensures hasher { self.new.table.hasher ≡ self.old.table.hasher }
    {
        let commit = match decode(alloc, body) {
            Ok(commit) => commit,
            Err(error) => return Err(error),
        };
        if !may_follow(self.next, &commit) {
            return Err(BodyErr::NotABody);
        }
        let Changes { list, next } = commit;
        let Ok(prepared) = self.table.prepare(alloc, list) else {
            return Err(BodyErr::NoMemory);
        };
        self.table.apply(prepared);
        self.next = next;
        Ok(())
    }
}

/// Whether a commit may follow where the next version is this one.
pub(crate) fn may_follow(next: u64, commit: &Changes) -> bool
    ensures { IsTrue result ↔ MayFollow next commit.now }
{
    next <= commit.next && commit.next <= VERSION_LIMIT && are_below(commit.next, &commit.list)
}

/// Whether changes put only versions below `next`.
fn are_below(next: u64, list: &ChangeList) -> bool
    ensures { IsTrue result ↔ VersionsAreBelow next list.now }
{
    for i in 0..list.len() {
        if !is_below(next, list.at(i)) {
            return false;
        }
    }
    true
}

fn is_below(next: u64, change: &Change) -> bool
    ensures { IsTrue result ↔ IsBelow next change.now }
{
    match change {
        Change::Put { version, .. } => *version < next,
        Change::Remove { .. } => true,
    }
}
