ghost use Rattle.std.specs.Prelude.{◌≡◌};
ghost use Rattle.keeper_core.specs.Rows.{bytes_in, IsCounted};

use crate::failing::FailingCommits;
use crate::growth::{bytes_put, keep_to};
use crate::{Changes, KeepErr, Keeper, RowTable, RowView};
use side_base::{Places, Sequence};
use std::alloc::Global;

/// A keeper whose rows are in memory. Its size is the sum over its rows of key, value and 8 bytes.
#[derive(Drop)]
pub struct MemoryKeeper {
    alloc: Global,
    table: RowTable,
    next: u64,
    size: u64,
    limit: u64,
    failing: FailingCommits,
    ghost sized: { size ≡ bytes_in table.rows },
    ghost counted: { IsCounted table.rows next },
}

impl MemoryKeeper {
    ghost use Rattle.std.specs.Prelude.{◌≡◌};
    ghost use Rattle.std.specs.FinMap.{empty};
    ghost use Rattle.keeper_core.specs.MemoryKeeper.{rows_in, next_of, limit_of, faults_of, failing_of, commits_of, hasher_in};
    ghost use Rattle.keeper_core.specs.Table.{fed};

    /// No rows, and a next version of 1; takes no memory. `failing` are the commits, counted from 0, that fail. A commit that
    /// finds no memory is not counted. `secret` are random bytes, for the hash of keys.
    pub fn new(alloc: Global, limit: u64, failing: Places, secret: [u8; 16]) -> MemoryKeeper
        ensures rows { rows_in result ≡ empty }
        ensures next { next_of result ≡ 1 }
        ensures limit { limit_of result ≡ limit }
        ensures failing { failing_of result ≡ failing }
        ensures commits { commits_of result ≡ 0 }
        ensures faults { faults_of result ≡ 0 }
        ensures hasher { hasher_in result ≡ fed secret }
    {
        MemoryKeeper {
            alloc,
            table: RowTable::new(alloc, secret),
            next: 1,
            size: 0,
            limit,
            failing: FailingCommits {
                places: failing,
                commits: 0,
                faults: 0,
            },
        }
    }
}

impl Keeper for MemoryKeeper {
    ghost use Rattle.std.specs.Prelude.{◌≡◌, ◌≤◌, ◌<◌, ◌+◌, ◌-◌, ◌^◌, ◌↔◌, min, ℕ, Err, OnOk, OnErr};
    ghost use Rattle.side_world.specs.Faults.{Rose};
    ghost use Rattle.keeper_core.specs.Rows.{bytes_in};
    ghost use Rattle.keeper_core.specs.Faults.{has_some, Rises};
    ghost use Rattle.keeper_core.specs.Changes.{after_changes, VersionsAreBelow};
    ghost use Rattle.keeper_core.specs.MemoryKeeper.{rows_in, next_of, limit_of, faults_of, failing_of, hasher_in, FailsNext, CountsCommit};

    ghost rows = { rows_in };

    ghost next = { next_of };

    ghost size = { λ keeper. bytes_in (rows_in keeper) };

    ghost limit = { limit_of };

    ghost faults = { faults_of };

    ghost may_fail = { λ keeper. has_some (failing_of keeper) };

    ghost size_after = { λ keeper rows size changes. bytes_in (after_changes rows changes) };

    // Its rows are gone with the process, so that nothing is to be said of where they are kept.
    ghost leads = { λ old answers new. Unit {0} };

    fn find(&self, key: &[u8]) -> Option<RowView<'_>> {
        self.table.find(key)
    }

    fn next_lapsed(&self, after: Option<&[u8]>, moment: u64) -> Option<&[u8]> {
        self.table.next_lapsed(after, moment)
    }

    fn next_version(&self) -> u64 {
        self.next
    }

    fn commit(&mut self, changes: Changes) -> Result<(), KeepErr>
        requires grows { next_of self.old ≤ changes.next }
        requires most { changes.next ≤ 2 ^ 62 }
        requires below { VersionsAreBelow changes.next changes.list }
        ensures rows { OnOk result (rows_in self.new ≡ after_changes (rows_in self.old) changes.list) }
        ensures next { OnOk result (next_of self.new ≡ changes.next) }
        ensures fits { OnOk result (bytes_in (after_changes (rows_in self.old) changes.list) ≤ limit_of self.old) }

        // Exactly the commits that are listed fail.
        ensures listed { (result ≡ Err KeepErr.Failed) ↔ FailsNext self.old }
        ensures failed { result ≡ Err KeepErr.Failed → Rose (faults_of self.old) (faults_of self.new) }
        ensures counts { CountsCommit self.old self.new result }
        ensures full { (len : ℕ) → result ≡ Err (KeepErr.Full len) → (len ≡ bytes_in (after_changes (rows_in self.old) changes.list)) × (limit_of self.old < len) }

        ensures unchanged { OnErr result ((rows_in self.new ≡ rows_in self.old) × (next_of self.new ≡ next_of self.old)) }
        ensures stays { (limit_of self.new ≡ limit_of self.old) × (failing_of self.new ≡ failing_of self.old) }
        ensures hasher { hasher_in self.new ≡ hasher_in self.old }
        ensures rises { Rises (has_some (failing_of self.old)) (faults_of self.old) (faults_of self.new) }
        ensures steady { (result ≡ Err KeepErr.Failed → ⊥) → faults_of self.new ≡ faults_of self.old }
        ensures faults { result ≡ Err KeepErr.Failed → faults_of self.new ≡ min (faults_of self.old + 1) (2 ^ 64 - 1) }
    {
        if self.failing.is_next() {
            self.failing.fail();
            return Err(KeepErr::Failed);
        }
        let list = changes.list.into_vec();
        let put = bytes_put(&list);
        match keep_to(self.alloc, &self.table, self.size, put, self.limit, &list) {
            Ok(()) => {}
            Err(KeepErr::NoMemory) => return Err(KeepErr::NoMemory),
            Err(error) => {
                self.failing.pass();
                return Err(error);
            }
        }
        let Ok(prepared) = self.table.prepare(self.alloc, Sequence::from_vec(list)) else {
            return Err(KeepErr::NoMemory);
        };
        self.failing.pass();
        let freed = self.table.apply(prepared);
        let len = u128::from(self.size) + put - freed;
        self.size = len as u64;
        self.next = changes.next;
        Ok(())
    }

    ghost counted = { λ keeper. keeper.counted };

    ghost at_rest = { λ keeper. tt };

    ghost goes_on = { λ first mid last before behind led goes. tt };
}
