//! What holds of every keeper over a journal, as functions whose contract is the law.
ghost use Rattle.std.specs.Prelude.{◌≡◌, ◌≤◌, ◌<◌, ◌^◌, ℕ, List, ◌++◌, Option, Some, None, Err, IfOk, IfErr, OnOk, OnErr};
ghost use Rattle.side_world.specs.Faults.{Rose};
ghost use Rattle.keeper_core.specs.Changes.{VersionsAreBelow};
ghost use Rattle.keeper_core.specs.Commits.{HasMade};
ghost use Rattle.keeper_core.specs.declared.changes.Changes.{Changes};
ghost use Rattle.disk_journal.specs.AnyRun.{acknowledged};
ghost use Rattle.disk_journal.specs.declared.error.JournalErr.TheVariants.{NotAJournal};
ghost use Rattle.keeper_journal.specs.Body.{IsBodyOf};
ghost use Rattle.keeper_journal.specs.History.{IsHistory, IsRefusedAt};
ghost use Rattle.keeper_journal.specs.JournalKeeper.{disk_in, next_in, size_in, limit_in, size_with};
ghost use Rattle.keeper_journal.specs.AnyKeeper.{KeptByAny, AnyReads, HasJust, IsWhole};
ghost use Rattle.keeper_journal.specs.declared.any_keeper.AnyKeeper.{AnyKeeper};
ghost use Rattle.keeper_journal.specs.Run.{HasAtMostOneMore, IsCall, KeepsOfRun, LeavesWhatWasMade, AfterACrash};
ghost use Rattle.keeper_journal.specs.declared.journal_keeper.JournalKeeper.{JournalKeeper};

use crate::{AnyKeeper, JournalKeeper};
use disk_journal::JournalErr;
use keeper_core::{Changes, KeepErr, Keeper};
use side_world::Disk;
use std::alloc::Global;

/// Bytes are the body of one commit at most.
pub fn a_body_says_one_commit()
    ensures { (bytes : List ℕ) (commit other : Changes) → IsBodyOf bytes commit → IsBodyOf bytes other → commit ≡ other }
{}

/// A file says one list of commits at most, and one that says commits is not refused; one that is refused is so at one place.
pub fn a_file_says_one_history()
    ensures one { (bytes : List ℕ) (commits others : List Changes) → IsHistory bytes commits → IsHistory bytes others → commits ≡ others }
    ensures read { (bytes : List ℕ) (commits : List Changes) (at : ℕ) → IsHistory bytes commits → IsRefusedAt bytes at → ⊥ }
    ensures refused { (bytes : List ℕ) (at other : ℕ) → IsRefusedAt bytes at → IsRefusedAt bytes other → at ≡ other }
{
    disk_journal::laws::a_file_says_one_list();
    disk_journal::laws::a_file_has_one_answer();
}

/// A commit is a call of a run, which acknowledges its changes exactly where it answers `Ok`.
pub fn commit_in_a_run<D: Disk>(
    keeper: &mut JournalKeeper<D>,
    changes: Changes,
) -> Result<(), KeepErr>
    requires grows { next_in keeper.old ≤ changes.next }
    requires most { changes.next ≤ 2 ^ 62 }
    requires below { VersionsAreBelow changes.next changes.list }
    ensures acknowledged { OnOk result (IsCall D.Disk keeper.old keeper.new (Some changes)) }
    ensures not_acknowledged { OnErr result (IsCall D.Disk keeper.old keeper.new None) }
    ensures failed { result ≡ Err KeepErr.Failed → Rose (D.faults (disk_in keeper.old)) (D.faults (disk_in keeper.new)) }
    ensures full { (len : ℕ) → result ≡ Err (KeepErr.Full len) → (len ≡ size_with (size_in keeper.old) changes.list) × (limit_in keeper.old < len) }
{
    keeper.commit(changes)
}

/// A crash at any moment behind some commits leaves those that the keeper kept before them, all that were acknowledged, those that the
/// first of the calls behind them acknowledged, in order, and then at most one more.
pub fn a_crash_leaves_what_was_acknowledged<D: Disk>()
    ensures { (first mid last : JournalKeeper D D.Disk) (front back : List (Option Changes)) (commits : List Changes) (doubt : Option Changes) → LeavesWhatWasMade D.Disk first mid last front back commits doubt }
{}

/// The disk of a keeper, as its commits leave it, has the commits that the keeper kept before them and those of them that were made, in
/// order, and then at most one more; just those, where its journal is not torn.
pub fn a_disk_has_what_was_made<D: Disk>()
    ensures most { (first last : AnyKeeper D D.Disk) (kept made : List Changes) (doubt : Option Changes) → HasMade ⟦<AnyKeeper<D> as Keeper>⟧ first last made → KeptByAny first kept doubt → AnyReads last (HasAtMostOneMore (kept ++ made)) }
    ensures just { (first last : AnyKeeper D D.Disk) (kept made : List Changes) (doubt : Option Changes) → HasMade ⟦<AnyKeeper<D> as Keeper>⟧ first last made → KeptByAny first kept doubt → IsWhole last → HasJust last (kept ++ made) }
{}

/// Starts on what a crash at such a moment left: it keeps just those commits, and so has their rows and their next version; it is never
/// refused as no journal.
pub fn start_after_a_crash<D: Disk, E: Disk>(
    alloc: Global,
    disk: E,
    limit: u64,
    secret: [u8; 16],
) -> Result<JournalKeeper<E>, (E, JournalErr)>
    requires { limit < 2 ^ 32 }
    ensures limit { IfOk result (λ keeper. limit_in keeper ≡ limit) }
    ensures found { IfOk result (λ keeper. AfterACrash D.Disk E.Disk disk (λ commits front back. KeepsOfRun E.Disk keeper (commits ++ acknowledged front) back)) }
    ensures not_refused { IfErr result (λ e. AfterACrash D.Disk E.Disk disk (λ commits front back. (at : ℕ) → e.1 ≡ NotAJournal at → ⊥)) }
    ensures failed { IfErr result (λ e. e.1 ≡ JournalErr.Failed → Rose (E.faults disk) (E.faults e.0)) }
{
    JournalKeeper::start(alloc, disk, limit, secret)
}
