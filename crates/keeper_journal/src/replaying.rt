ghost use Rattle.std.specs.Prelude.{◌≡◌, ◌<◌, ◌≤◌, ℕ, List, [], ◌++◌, Ok, Err, true, IfOk, OnOk, IsErrOf};
ghost use Rattle.side_world.specs.Faults.{Rose};
ghost use Rattle.keeper_core.specs.Table.{fed};
ghost use Rattle.keeper_core.specs.declared.changes.Changes.{Changes};
ghost use Rattle.disk_journal.specs.Image.{IsImage};
ghost use Rattle.disk_journal.specs.Moments.{Reads, ChangesNothing};
ghost use Rattle.disk_journal.specs.Opening.{opening_disk, opening_limit, left_of, HasGiven, HasGivenAll};
ghost use Rattle.disk_journal.specs.Refusal.{IsNoJournal};
ghost use Rattle.disk_journal.specs.declared.error.JournalErr.TheVariants.{Failed, NotAJournal, Full};
ghost use Rattle.keeper_journal.specs.History.{IsHistory, IsRefusedAt};
ghost use Rattle.keeper_journal.specs.Following.{HasFollowed, HasFollowedAll, FollowsNext};

use crate::BodyErr;
use crate::following::Replay;
use disk_journal::{JournalErr, Opening};
use side_world::Disk;
use std::alloc::Global;

/// What the commits leave that the bodies of an opening say, or the gate of the first body that says none which may follow. `secret` are
/// random bytes, for the hash of keys.
pub(crate) fn replay<D: Disk>(
    alloc: Global,
    opening: &mut Opening<D>,
    secret: [u8; 16],
) -> Result<Replay, JournalErr>
    ensures replayed { (first : D) → HasGiven D.Disk first opening.old [] → IfOk result (HasFollowedAll D.Disk first opening.new) }
    ensures hasher { IfOk result (λ replay. replay.table.hasher ≡ fed secret) }
    ensures refused { (first : D) → HasGiven D.Disk first opening.old [] → (at : ℕ) → IsErrOf result (NotAJournal at) → Reads D.Disk first (λ bytes. IsRefusedAt bytes at) }
    ensures refused_only { (first : D) → HasGiven D.Disk first opening.old [] → (at : ℕ) → IsErrOf result (NotAJournal at) → Reads D.Disk first (λ bytes. (commits : List Changes) → IsHistory bytes commits → ⊥) }
    ensures changed { (first : D) → HasGiven D.Disk first opening.old [] → ChangesNothing D.Disk first (opening_disk opening.new) }
    ensures limit { opening_limit opening.new ≡ opening_limit opening.old }
    ensures failed { IsErrOf result Failed → Rose (D.faults (opening_disk opening.old)) (D.faults (opening_disk opening.new)) }
    ensures no_fault { (IsErrOf result Failed → ⊥) → D.faults (opening_disk opening.new) ≡ D.faults (opening_disk opening.old) }
    ensures not_full { (len : ℕ) → IsErrOf result (Full len) → ⊥ }
    ensures no_fewer { D.faults (opening_disk opening.old) ≤ D.faults (opening_disk opening.new) }
{
    let mut replay = Replay::new(alloc, secret);
    loop {
        match follow_next(alloc, opening, &mut replay) {
            Ok(true) => {}
            Ok(false) => return Ok(replay),
            Err(error) => return Err(error),
        }
    }
}

/// Follows the next body, and tells whether there is one. Where a body says no commit that may follow, it reads on: a file that is no
/// journal is refused as such.
fn follow_next<D: Disk>(
    alloc: Global,
    opening: &mut Opening<D>,
    replay: &mut Replay,
) -> Result<bool, JournalErr>
    ensures follows { (first : D) → HasFollowed D.Disk first opening.old replay.old → IfOk result (FollowsNext D.Disk first opening.new replay.new) }
    ensures hasher { replay.new.table.hasher ≡ replay.old.table.hasher }
    ensures refused { (first : D) → HasFollowed D.Disk first opening.old replay.old → (at : ℕ) → result ≡ Err (NotAJournal at) → Reads D.Disk first (λ bytes. IsRefusedAt bytes at) }
    ensures refused_only { (first : D) → HasFollowed D.Disk first opening.old replay.old → (at : ℕ) → result ≡ Err (NotAJournal at) → Reads D.Disk first (λ bytes. (commits : List Changes) → IsHistory bytes commits → ⊥) }
    ensures changed { (first : D) → HasFollowed D.Disk first opening.old replay.old → ChangesNothing D.Disk first (opening_disk opening.new) }
    ensures fewer { result ≡ Ok true → left_of opening.new < left_of opening.old }
    ensures limit { opening_limit opening.new ≡ opening_limit opening.old }
    ensures failed { result ≡ Err JournalErr.Failed → Rose (D.faults (opening_disk opening.old)) (D.faults (opening_disk opening.new)) }
    ensures no_fault { (result ≡ Err JournalErr.Failed → ⊥) → D.faults (opening_disk opening.new) ≡ D.faults (opening_disk opening.old) }
    ensures not_full { (len : ℕ) → result ≡ Err (Full len) → ⊥ }
    ensures no_fewer { D.faults (opening_disk opening.old) ≤ D.faults (opening_disk opening.new) }
{
    let at = opening.gate();
    match opening.advance() {
        Ok(true) => {}
        Ok(false) => return Ok(false),
        Err(error) => return Err(error),
    }
    match replay.follow(alloc, opening.body()) {
        Ok(()) => Ok(true),
        Err(BodyErr::NoMemory) => Err(JournalErr::NoMemory),
        Err(BodyErr::NotABody) => match pass_rest(opening) {
            Ok(()) => Err(JournalErr::NotAJournal { at }),
            Err(error) => Err(error),
        },
    }
}

/// Goes on to the closed gate.
fn pass_rest<D: Disk>(opening: &mut Opening<D>) -> Result<(), JournalErr>
    ensures all { (first : D) (bodies : List (List ℕ)) → HasGiven D.Disk first opening.old bodies → OnOk result ((more : List (List ℕ)) × HasGivenAll D.Disk first opening.new (bodies ++ more)) }
    ensures refused { (first : D) (bodies : List (List ℕ)) → HasGiven D.Disk first opening.old bodies → (at : ℕ) → result ≡ Err (NotAJournal at) → Reads D.Disk first (λ bytes. IsNoJournal bytes at) }
    ensures refused_only { (first : D) (bodies : List (List ℕ)) → HasGiven D.Disk first opening.old bodies → (at : ℕ) → result ≡ Err (NotAJournal at) → Reads D.Disk first (λ bytes. (others : List (List ℕ)) → IsImage bytes others → ⊥) }
    ensures changed { (first : D) (bodies : List (List ℕ)) → HasGiven D.Disk first opening.old bodies → ChangesNothing D.Disk first (opening_disk opening.new) }
    ensures limit { opening_limit opening.new ≡ opening_limit opening.old }
    ensures failed { result ≡ Err JournalErr.Failed → Rose (D.faults (opening_disk opening.old)) (D.faults (opening_disk opening.new)) }
    ensures no_fault { (result ≡ Err JournalErr.Failed → ⊥) → D.faults (opening_disk opening.new) ≡ D.faults (opening_disk opening.old) }
    ensures not_full { (len : ℕ) → result ≡ Err (Full len) → ⊥ }
    ensures no_fewer { D.faults (opening_disk opening.old) ≤ D.faults (opening_disk opening.new) }
{
    loop {
        match opening.advance() {
            Ok(true) => {}
            Ok(false) => return Ok(()),
            Err(error) => return Err(error),
        }
    }
}
