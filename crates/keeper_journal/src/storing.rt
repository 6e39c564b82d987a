ghost use Rattle.std.specs.Prelude.{◌≡◌, ◌+◌, ◌≤◌, max, true, false, ℕ, List, [], ◌∷◌, ◌++◌, length, Option, None, Err, IsOk, OnOk, OnErr};
ghost use Rattle.side_world.specs.Faults.{Rose};
ghost use Rattle.disk_journal.specs.Journal.{Holds, disk_of, len_of, limit_of, torn_of};
ghost use Rattle.disk_journal.specs.Moments.{AtEachMoment};
ghost use Rattle.keeper_core.specs.declared.keeper.KeepErr.TheVariants.{Failed};
ghost use Rattle.keeper_journal.specs.Storing.{IsWithDoubt, IsWithOneAtMost, HoldsAsBefore};

use disk_journal::Journal;
use keeper_core::KeepErr;
use side_world::Disk;

/// Repairs a journal, where it is torn.
pub(crate) fn mend<D: Disk>(journal: &mut Journal<D>) -> Result<(), KeepErr>
    ensures repaired { (bodies : List (List ℕ)) (doubt : Option (List ℕ)) → Holds D.Disk journal.old bodies doubt → OnOk result (Holds D.Disk journal.new bodies None) }
    ensures undone { (bodies : List (List ℕ)) (doubt : Option (List ℕ)) → Holds D.Disk journal.old bodies doubt → OnErr result (Holds D.Disk journal.new bodies doubt) }
    ensures any_moment { (bodies : List (List ℕ)) (doubt : Option (List ℕ)) → Holds D.Disk journal.old bodies doubt → AtEachMoment D.Disk (disk_of journal.old) (disk_of journal.new) (IsWithDoubt bodies doubt) }
    ensures whole { torn_of journal.old ≡ false → IsOk result × (journal.new ≡ journal.old) }
    ensures ok { OnOk result (torn_of journal.new ≡ false) }
    ensures torn { OnErr result (torn_of journal.old ≡ true) }
    ensures failed { OnErr result ((result ≡ Err Failed) × Rose (D.faults (disk_of journal.old)) (D.faults (disk_of journal.new))) }
    ensures no_fault { OnOk result (D.faults (disk_of journal.new) ≡ D.faults (disk_of journal.old)) }
    ensures len { len_of journal.new ≡ len_of journal.old }
    ensures limit { limit_of journal.new ≡ limit_of journal.old }
    ensures size { D.size (disk_of journal.new) ≡ D.size (disk_of journal.old) }
    ensures no_fewer { D.faults (disk_of journal.old) ≤ D.faults (disk_of journal.new) }
{
    match journal.repair() {
        Ok(()) => Ok(()),
        Err(_) => Err(KeepErr::Failed),
    }
}

/// Has a body that fits reach the disk behind all others. Repairs the journal first, where it is torn.
pub(crate) fn store<D: Disk>(journal: &mut Journal<D>, body: &[u8]) -> Result<(), KeepErr>
    requires { len_of journal.old + 9 + length body.now ≤ limit_of journal.old }
    ensures stored { (bodies : List (List ℕ)) (doubt : Option (List ℕ)) → Holds D.Disk journal.old bodies doubt → OnOk result (Holds D.Disk journal.new (bodies ++ body.now ∷ []) None) }
    ensures undone { (bodies : List (List ℕ)) (doubt : Option (List ℕ)) → Holds D.Disk journal.old bodies doubt → OnErr result (HoldsAsBefore D.Disk journal.new bodies doubt body.now) }
    ensures any_moment { (bodies : List (List ℕ)) (doubt : Option (List ℕ)) → Holds D.Disk journal.old bodies doubt → AtEachMoment D.Disk (disk_of journal.old) (disk_of journal.new) (IsWithOneAtMost bodies doubt body.now) }
    ensures failed { OnErr result ((result ≡ Err Failed) × Rose (D.faults (disk_of journal.old)) (D.faults (disk_of journal.new))) }
    ensures no_fault { OnOk result (D.faults (disk_of journal.new) ≡ D.faults (disk_of journal.old)) }
    ensures longer { OnOk result (len_of journal.new ≡ len_of journal.old + 9 + length body.now) }
    ensures no_longer { OnErr result (len_of journal.new ≡ len_of journal.old) }
    ensures size { D.size (disk_of journal.new) ≤ max (D.size (disk_of journal.old)) (len_of journal.old + 9 + length body.now) }
    ensures limit { limit_of journal.new ≡ limit_of journal.old }
    ensures no_fewer { D.faults (disk_of journal.old) ≤ D.faults (disk_of journal.new) }
{
    match mend(journal) {
        Err(error) => Err(error),
        Ok(()) => match journal.append(body) {
            Err(_) => Err(KeepErr::Failed),
            Ok(()) => Ok(()),
        },
    }
}
