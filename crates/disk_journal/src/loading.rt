ghost use Rattle.std.specs.Prelude.{◌≡◌, ◌≤◌, ℕ, List, [], Err, IfOk, OnOk};
ghost use Rattle.side_world.specs.Disk.{LeavesOnly};
ghost use Rattle.side_world.specs.Faults.{Rose};
ghost use Rattle.disk_journal.specs.Image.{IsImage};
ghost use Rattle.disk_journal.specs.Moments.{Reads, ChangesNothing};
ghost use Rattle.disk_journal.specs.Opening.{opening_disk, opening_limit, HasGiven, HasGivenAll};
ghost use Rattle.disk_journal.specs.Refusal.{IsNoJournal};
ghost use Rattle.disk_journal.specs.declared.error.JournalErr.TheVariants.{Failed, NotAJournal, Full};

use crate::writing::sync;
use crate::{JournalErr, Opening};
use side_base::{Blob, Sequence};
use side_world::Disk;
use std::alloc::Global;

/// The byte strings of a journal, in order.
pub type Bodies = Sequence<Blob>;

/// The length of a file, once all of it has reached the disk.
pub(crate) fn synced_len<D: Disk>(disk: &mut D) -> Result<u64, JournalErr>
    ensures len { IfOk result (λ len. len ≡ D.size disk.new) }
    ensures synced { OnOk result (LeavesOnly (D.contents disk.old) (D.leaves disk.new)) }
    ensures same { ChangesNothing D.Disk disk.old disk.new }
    ensures failed { result ≡ Err JournalErr.Failed → Rose (D.faults disk.old) (D.faults disk.new) }
    ensures no_fault { (result ≡ Err JournalErr.Failed → ⊥) → D.faults disk.new ≡ D.faults disk.old }
    ensures no_other { (at : ℕ) → result ≡ Err (NotAJournal at) → ⊥ }
    ensures not_full { (len : ℕ) → result ≡ Err (Full len) → ⊥ }
    ensures no_fewer { D.faults disk.old ≤ D.faults disk.new }
{
    sync(disk)?;
    match disk.len() {
        Ok(len) => Ok(len),
        Err(_) => Err(JournalErr::Failed),
    }
}

/// A copy of each body of a journal that has given none.
pub(crate) fn copied<D: Disk>(alloc: Global, opening: &mut Opening<D>) -> Result<Bodies, JournalErr>
    ensures all { (first : D) → HasGiven D.Disk first opening.old [] → IfOk result (HasGivenAll D.Disk first opening.new) }
    ensures refused { (first : D) → HasGiven D.Disk first opening.old [] → (at : ℕ) → result ≡ Err (NotAJournal at) → Reads D.Disk first (λ bytes. IsNoJournal bytes at) }
    ensures refused_only { (first : D) → HasGiven D.Disk first opening.old [] → (at : ℕ) → result ≡ Err (NotAJournal at) → Reads D.Disk first (λ bytes. (bodies : List (List ℕ)) → IsImage bytes bodies → ⊥) }
    ensures changed { (first : D) → HasGiven D.Disk first opening.old [] → ChangesNothing D.Disk first (opening_disk opening.new) }
    ensures limit { opening_limit opening.new ≡ opening_limit opening.old }
    ensures failed { result ≡ Err JournalErr.Failed → Rose (D.faults (opening_disk opening.old)) (D.faults (opening_disk opening.new)) }
    ensures no_fault { (result ≡ Err JournalErr.Failed → ⊥) → D.faults (opening_disk opening.new) ≡ D.faults (opening_disk opening.old) }
    ensures not_full { (len : ℕ) → result ≡ Err (Full len) → ⊥ }
    ensures no_fewer { D.faults (opening_disk opening.old) ≤ D.faults (opening_disk opening.new) }
{
    let mut bodies = Bodies::new(alloc);
    loop {
        match opening.advance() {
            Ok(true) => {}
            Ok(false) => return Ok(bodies),
            Err(error) => return Err(error),
        }
        let Ok(copy) = Blob::from_bytes(alloc, opening.body()) else {
            return Err(JournalErr::NoMemory);
        };
        let Ok(()) = bodies.push(copy) else {
            return Err(JournalErr::NoMemory);
        };
    }
}
