//! The device calls of an append, each with what it adds behind the closed gate.
ghost use Rattle.std.specs.Prelude.{◌≡◌, ◌+◌, ◌≤◌, ◌<◌, ◌^◌, ℕ, max, List, [], ◌∷◌, ◌++◌, length, Some, None, Err, OnOk, OnErr};
ghost use Rattle.std.specs.Int.{w64, to_le_bytes};
ghost use Rattle.side_world.specs.Disk.{LeavesOnly, NoNew, GoesOn};
ghost use Rattle.side_world.specs.Faults.{Rose};
ghost use Rattle.disk_journal.specs.Image.{IsRecorded, IsFile, end_of};
ghost use Rattle.disk_journal.specs.Moments.{Shows};
ghost use Rattle.disk_journal.specs.Staging.{HasBegun, IsInDoubt};
ghost use Rattle.disk_journal.specs.declared.error.JournalErr.TheVariants.{Failed};

use crate::JournalErr;
use side_world::Disk;

/// Has all that was written reach the disk.
pub(crate) fn sync<D: Disk>(disk: &mut D) -> Result<(), JournalErr>
    ensures durable { OnOk result (LeavesOnly (D.contents disk.old) (D.leaves disk.new)) }
    ensures contents { D.contents disk.new ≡ D.contents disk.old }
    ensures size { D.size disk.new ≡ D.size disk.old }
    ensures crash { NoNew (D.leaves disk.old) (D.leaves disk.new) }
    ensures time { GoesOn (D.moment disk.old) (D.moment disk.new) (D.left_since disk.old) (D.left_since disk.new) (D.leaves disk.new) }
    ensures failed { OnErr result (Rose (D.faults disk.old) (D.faults disk.new)) }
    ensures no_fault { OnOk result (D.faults disk.new ≡ D.faults disk.old) }
    ensures only_failed { OnErr result (result ≡ Err Failed) }
    ensures no_fewer { D.faults disk.old ≤ D.faults disk.new }
{
    match disk.sync() {
        Ok(()) => Ok(()),
        Err(_) => Err(JournalErr::Failed),
    }
}

/// Writes `piece` at place `at`, behind the closed gate and what was written there before.
fn write_behind<D: Disk>(disk: &mut D, at: u64, piece: &[u8]) -> Result<(), JournalErr>
    requires { at ≤ D.size disk.old }
    ensures begun { (first : D) (bodies : List (List ℕ)) (begun : List ℕ) → HasBegun D.Disk first disk.old bodies begun → at ≡ end_of bodies + 1 + length begun → OnOk result (HasBegun D.Disk first disk.new bodies (begun ++ piece.now)) }
    ensures whole { (first : D) (bodies : List (List ℕ)) (begun : List ℕ) → HasBegun D.Disk first disk.old bodies begun → at ≡ end_of bodies + 1 + length begun → OnErr result (HasBegun D.Disk first disk.new bodies begun) }
    ensures size { OnOk result (at + length piece.now ≤ D.size disk.new) }
    ensures no_longer { D.size disk.new ≤ max (D.size disk.old) (at + length piece.now) }
    ensures no_shorter { D.size disk.old ≤ D.size disk.new }
    ensures failed { OnErr result (Rose (D.faults disk.old) (D.faults disk.new)) }
    ensures no_fault { OnOk result (D.faults disk.new ≡ D.faults disk.old) }
    ensures only_failed { OnErr result (result ≡ Err Failed) }
    ensures no_fewer { D.faults disk.old ≤ D.faults disk.new }
{
    match disk.write_at(at, piece) {
        Ok(()) => Ok(()),
        Err(_) => Err(JournalErr::Failed),
    }
}

/// Writes the record of `body` and a closed gate behind it, and has them reach the disk. The record's own gate, at place `end`, stays
/// closed.
pub(crate) fn stage<D: Disk>(disk: &mut D, end: u64, body: &[u8]) -> Result<(), JournalErr>
    requires within { end + 1 ≤ D.size disk.old }
    requires fits { end + 10 + length body.now < 2 ^ 64 }
    ensures staged { (bodies : List (List ℕ)) → end ≡ end_of bodies → Shows D.Disk disk.old (IsFile bodies None) → OnOk result (Shows D.Disk disk.new (IsFile bodies (Some body.now))) }
    ensures whole { (bodies : List (List ℕ)) → end ≡ end_of bodies → Shows D.Disk disk.old (IsFile bodies None) → (begun : List ℕ) × HasBegun D.Disk disk.old disk.new bodies begun }
    ensures size { OnOk result (end + 10 + length body.now ≤ D.size disk.new) }
    ensures no_longer { D.size disk.new ≤ max (D.size disk.old) (end + 10 + length body.now) }
    ensures no_shorter { D.size disk.old ≤ D.size disk.new }
    ensures failed { OnErr result (Rose (D.faults disk.old) (D.faults disk.new)) }
    ensures no_fault { OnOk result (D.faults disk.new ≡ D.faults disk.old) }
    ensures only_failed { OnErr result (result ≡ Err Failed) }
    ensures no_fewer { D.faults disk.old ≤ D.faults disk.new }
{
    let len = body.len() as u64;
    write_behind(disk, end + 1, &len.to_le_bytes())?;
    write_behind(disk, end + 9, body)?;
    write_behind(disk, end + 9 + len, &[0])?;
    sync(disk)
}

/// Writes a gate at place `end`, before a whole record, and has it reach the disk.
pub(crate) fn set_gate<D: Disk>(disk: &mut D, end: u64, gate: u8) -> Result<(), JournalErr>
    requires within { end + 1 ≤ D.size disk.old }
    ensures set { (bodies : List (List ℕ)) (body : List ℕ) → end ≡ end_of bodies → Shows D.Disk disk.old (IsFile bodies (Some body)) → OnOk result (Shows D.Disk disk.new (λ bytes. IsRecorded bytes bodies gate body)) }
    ensures doubt { (bodies : List (List ℕ)) (body : List ℕ) → end ≡ end_of bodies → Shows D.Disk disk.old (IsFile bodies (Some body)) → IsInDoubt D.Disk disk.old disk.new bodies body }
    ensures size { D.size disk.new ≡ D.size disk.old }
    ensures failed { OnErr result (Rose (D.faults disk.old) (D.faults disk.new)) }
    ensures no_fault { OnOk result (D.faults disk.new ≡ D.faults disk.old) }
    ensures only_failed { OnErr result (result ≡ Err Failed) }
    ensures no_fewer { D.faults disk.old ≤ D.faults disk.new }
{
    match disk.write_at(end, &[gate]) {
        Ok(()) => sync(disk),
        Err(_) => Err(JournalErr::Failed),
    }
}
