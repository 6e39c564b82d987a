use crate::JournalKeeper;
use crate::encoding::{body_len, encode};
use crate::storing::{mend, store};
use keeper_core::{Changes, KeepErr, Keeper, RowView};
use side_base::Sequence;
use side_world::Disk;

/// What a record has beside its body.
const RECORD_BYTES: u128 = 9;

impl<D: Disk> Keeper for JournalKeeper<D> {
    ghost use Rattle.std.specs.Prelude.{◌≡◌, ◌⊎◌, ◌≤◌, ◌<◌, ◌^◌, ◌↔◌, max, ℕ, true, false, List, [], ◌∷◌, ◌++◌, Option, Some, None, Err, OnOk, OnErr, refl};
    ghost use Rattle.side_world.specs.Faults.{Rose};
    ghost use Rattle.keeper_core.specs.Faults.{Rises};
    ghost use Rattle.keeper_core.specs.Changes.{after_changes, VersionsAreBelow};
    ghost use Rattle.keeper_core.specs.declared.changes.Changes.{Changes};
    ghost use Rattle.disk_journal.specs.Journal.{torn_of};
    ghost use Rattle.disk_journal.specs.Moments.{AtEachMoment};
    ghost use Rattle.keeper_journal.specs.History.{IsWithOneAtMost};
    ghost use Rattle.keeper_journal.specs.JournalKeeper.{rows_in, next_in, journal_in, disk_in, size_in, limit_in, size_with, hasher_in};
    ghost use Rattle.keeper_journal.specs.Kept.{Kept, IsUndone, IsTooLong};
    ghost use Rattle.keeper_journal.specs.Run.{Leads, leads_on};

    ghost rows = { rows_in };

    ghost next = { next_in };

    ghost size = { size_in };

    ghost limit = { limit_in };

    ghost faults = { λ keeper. D.faults (disk_in keeper) };

    ghost may_fail = { λ keeper. true };

    ghost size_after = { λ keeper rows size changes. size_with size changes };

    ghost leads = { Leads D.Disk };

    fn find(&self, key: &[u8]) -> Option<RowView<'_>> {
        self.table.find(key)
    }

    fn next_lapsed(&self, after: Option<&[u8]>, moment: u64) -> Option<&[u8]> {
        self.table.next_lapsed(after, moment)
    }

    fn next_version(&self) -> u64 {
        self.next
    }

    // Repairs the journal first, where it is torn, also where the commit is too long. All memory is taken before the first device call.
    fn commit(&mut self, changes: Changes) -> Result<(), KeepErr>
        requires grows { next_in self.old ≤ changes.next }
        requires most { changes.next ≤ 2 ^ 62 }
        requires below { VersionsAreBelow changes.next changes.list }
        ensures rows { OnOk result (rows_in self.new ≡ after_changes (rows_in self.old) changes.list) }
        ensures next { OnOk result (next_in self.new ≡ changes.next) }
        ensures size { OnOk result (size_in self.new ≡ size_with (size_in self.old) changes.list) }
        ensures fits { OnOk result (size_with (size_in self.old) changes.list ≤ limit_in self.old) }

        // What it kept is kept, and with this commit only after `Ok`. One that failed at its gate is in doubt until the next commit.
        ensures kept { (commits : List Changes) (doubt : Option Changes) → Kept D.Disk self.old commits doubt → OnOk result (Kept D.Disk self.new (commits ++ changes ∷ []) None) }
        ensures undone { (commits : List Changes) (doubt : Option Changes) → Kept D.Disk self.old commits doubt → OnErr result (IsUndone D.Disk self.new commits doubt changes) }

        // A crash at any moment of the call leaves what was kept, with this commit or without it, or with the one in doubt.
        ensures any_moment { (kept : List Changes) (doubt : Option Changes) → Kept D.Disk self.old kept doubt → AtEachMoment D.Disk (disk_in self.old) (disk_in self.new) (IsWithOneAtMost kept doubt changes) }

        // What was made is told as it was given, and nothing else is.
        ensures leads { OnOk result (Leads D.Disk self.old (Some changes ∷ []) self.new) }
        ensures leads_nowhere { OnErr result (Leads D.Disk self.old (None ∷ []) self.new) }

        // A commit that is too long is refused, and no other is. A torn journal is repaired first; where it is not torn, nothing changes.
        ensures full { (len : ℕ) → result ≡ Err (KeepErr.Full len) → (len ≡ size_with (size_in self.old) changes.list) × (limit_in self.old < len) }
        ensures too_long { limit_in self.old < size_with (size_in self.old) changes.list → IsTooLong (torn_of (journal_in self.old)) (size_with (size_in self.old) changes.list) result }
        ensures repaired { (len : ℕ) → result ≡ Err (KeepErr.Full len) → (commits : List Changes) (doubt : Option Changes) → Kept D.Disk self.old commits doubt → Kept D.Disk self.new commits None }
        ensures mended { (len : ℕ) → result ≡ Err (KeepErr.Full len) → torn_of (journal_in self.new) ≡ false }
        ensures refused { (len : ℕ) → result ≡ Err (KeepErr.Full len) → torn_of (journal_in self.old) ≡ false → self.new ≡ self.old }

        // What finds no memory makes no device call.
        ensures without_memory { result ≡ Err KeepErr.NoMemory → journal_in self.new ≡ journal_in self.old }

        ensures failed { result ≡ Err KeepErr.Failed → Rose (D.faults (disk_in self.old)) (D.faults (disk_in self.new)) }
        ensures unchanged { OnErr result ((rows_in self.new ≡ rows_in self.old) × (next_in self.new ≡ next_in self.old) × (size_in self.new ≡ size_in self.old)) }
        ensures stays { limit_in self.new ≡ limit_in self.old }
        ensures hasher { hasher_in self.new ≡ hasher_in self.old }
        ensures rises { Rises true (D.faults (disk_in self.old)) (D.faults (disk_in self.new)) }
        ensures steady { (result ≡ Err KeepErr.Failed → ⊥) → D.faults (disk_in self.new) ≡ D.faults (disk_in self.old) }

        // The file never grows further than the record needs.
        ensures no_longer { D.size (disk_in self.new) ≤ max (D.size (disk_in self.old)) (size_with (size_in self.old) changes.list) }
    {
        let Changes { list, next } = changes;
        let list = list.into_vec();
        let len = u128::from(self.journal.len()) + RECORD_BYTES + body_len(&list);
        if len > u128::from(self.journal.limit()) {
            if !self.journal.is_torn() {
                return Err(KeepErr::Full { len });
            }
            match mend(&mut self.journal) {
                Ok(()) => return Err(KeepErr::Full { len }),
                Err(error) => return Err(error),
            }
        }
        let Ok(body) = encode(self.alloc, &list, next) else {
            return Err(KeepErr::NoMemory);
        };
        let Ok(prepared) = self.table.prepare(self.alloc, Sequence::from_vec(list)) else {
            return Err(KeepErr::NoMemory);
        };
        match store(&mut self.journal, body.bytes()) {
            Ok(()) => {
                self.table.apply(prepared);
                self.next = next;
                Ok(())
            }
            Err(error) => Err(error),
        }
    }

    ghost counted = { λ keeper. keeper.counted };

    ghost at_rest = { λ keeper. refl };

    ghost goes_on = { leads_on };
}
