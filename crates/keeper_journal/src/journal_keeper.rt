ghost use Rattle.std.specs.Prelude.{◌<◌, ◌^◌};
ghost use Rattle.keeper_core.specs.Rows.{IsCounted};
ghost use Rattle.disk_journal.specs.Journal.{limit_of};

use crate::following::Replay;
use crate::opening::opened;
use disk_journal::{Journal, JournalErr};
use keeper_core::RowTable;
use side_world::{Disk, Failed};
use std::alloc::Global;

/// A keeper whose commits are the bodies of a journal, so that a crash leaves each of them whole or not at all.
///
/// Its size is the length of its file behind the last record, in bytes.
#[derive(Drop)]
pub struct JournalKeeper<D: Disk> {
    pub(crate) alloc: Global,
    pub(crate) journal: Journal<D>,
    pub(crate) table: RowTable,
    pub(crate) next: u64,
    ghost counted: { IsCounted table.rows next },
    ghost short: { limit_of journal < 2 ^ 32 },
}

impl<D: Disk> JournalKeeper<D> {
    ghost use Rattle.std.specs.Prelude.{◌≡◌, ◌≢◌, ◌≤◌, ℕ, List, [], None, IfOk, IfErr};
    ghost use Rattle.side_world.specs.Faults.{Rose};
    ghost use Rattle.keeper_core.specs.declared.changes.Changes.{Changes};
    ghost use Rattle.disk_journal.specs.Moments.{Reads, ChangesNothing};
    ghost use Rattle.disk_journal.specs.declared.error.JournalErr.TheVariants.{NotAJournal, Full};
    ghost use Rattle.keeper_journal.specs.History.{IsHistory, IsRefusedAt};
    ghost use Rattle.keeper_core.specs.Table.{fed};
    ghost use Rattle.keeper_journal.specs.JournalKeeper.{rows_in, next_in, disk_in, limit_in, hasher_in};
    ghost use Rattle.keeper_journal.specs.Kept.{Kept};

    /// Makes a disk of length 0 a journal without commits, and opens any other. `limit` is the greatest length of the file behind
    /// a record, in bytes; `secret` are random bytes, for the hash of keys.
    ///
    /// Refuses as `Journal::load` does, and with `NotAJournal` at the gate of the first body that is not that of a commit, or of one that
    /// may not follow: its next version falls, exceeds 2^62, or is not above each version that it puts. The disk is given back.
    pub fn start(
        alloc: Global,
        mut disk: D,
        limit: u64,
        secret: [u8; 16],
    ) -> Result<JournalKeeper<D>, (D, JournalErr)>
        requires { limit < 2 ^ 32 }
        // It keeps the commits of the file, and a file says one list of commits.
        ensures kept { IfOk result (λ keeper. (commits : List Changes) × Kept D.Disk keeper commits None × (D.size disk ≢ 0 → Reads D.Disk disk (λ bytes. IsHistory bytes commits))) }
        ensures only { D.size disk ≢ 0 → IfOk result (λ keeper. Reads D.Disk disk (λ bytes. (commits : List Changes) → IsHistory bytes commits → Kept D.Disk keeper commits None)) }
        ensures refused { D.size disk ≢ 0 → IfErr result (λ e. (at : ℕ) → e.1 ≡ NotAJournal at → Reads D.Disk disk (λ bytes. IsRefusedAt bytes at)) }
        ensures refused_only { D.size disk ≢ 0 → IfErr result (λ e. (at : ℕ) → e.1 ≡ NotAJournal at → Reads D.Disk disk (λ bytes. (commits : List Changes) → IsHistory bytes commits → ⊥)) }

        // A disk of length 0 becomes a journal of no commits, unless it fails: this takes no memory.
        ensures fresh { D.size disk ≡ 0 → IfOk result (λ keeper. Kept D.Disk keeper [] None) }
        ensures fresh_size { D.size disk ≡ 0 → IfOk result (λ keeper. D.size (disk_in keeper) ≡ 17) }
        ensures fresh_failed { D.size disk ≡ 0 → IfErr result (λ e. (e.1 ≡ JournalErr.Failed) × (D.size e.0 ≤ 17)) }

        // A crash inside it leaves what one before it might have left.
        ensures opened { D.size disk ≢ 0 → IfOk result (λ keeper. ChangesNothing D.Disk disk (disk_in keeper)) }
        ensures given_back { D.size disk ≢ 0 → IfErr result (λ e. ChangesNothing D.Disk disk e.0) }

        ensures limit { IfOk result (λ keeper. limit_in keeper ≡ limit) }

        // Its keys are fed to std's hasher behind the secret.
        ensures hasher { IfOk result (λ keeper. hasher_in keeper ≡ fed secret) }

        ensures failed { IfErr result (λ e. e.1 ≡ JournalErr.Failed → Rose (D.faults disk) (D.faults e.0)) }
        ensures not_full { IfErr result (λ e. (len : ℕ) → e.1 ≡ Full len → ⊥) }
        ensures no_fault { IfOk result (λ keeper. D.faults (disk_in keeper) ≡ D.faults disk) }
        ensures no_fault_given_back { IfErr result (λ e. (e.1 ≡ JournalErr.Failed → ⊥) → D.faults e.0 ≡ D.faults disk) }
        ensures no_fewer_given_back { IfErr result (λ e. D.faults disk ≤ D.faults e.0) }
    {
        match disk.len() {
            Ok(0) => match Journal::create(disk, limit) {
                Ok(journal) => Ok(JournalKeeper::over(alloc, journal, Replay::new(alloc, secret))),
                Err(refused) => Err(refused),
            },
            Ok(_) => opened(alloc, disk, limit, secret),
            Err(Failed) => Err((disk, JournalErr::Failed)),
        }
    }

    /// A keeper over a journal, with the rows and the next version of its bodies.
    pub(crate) fn over(alloc: Global, journal: Journal<D>, replay: Replay) -> JournalKeeper<D>
        requires { limit_of journal < 2 ^ 32 }
        ensures journal { result.journal ≡ journal }
        ensures rows { rows_in result ≡ replay.table.rows }
        ensures next { next_in result ≡ replay.next }
        ensures hasher { hasher_in result ≡ replay.table.hasher }
    {
        JournalKeeper {
            alloc,
            journal,
            table: replay.table,
            next: replay.next,
        }
    }

    /// The disk, as the last call left it. Takes no memory.
    pub fn into_disk(self) -> D
        ensures { result ≡ disk_in self }
    {
        self.journal.into_disk()
    }
}
