//! What holds of every journal, as functions whose contract is the law.
ghost use Rattle.std.specs.Prelude.{◌≡◌, false, ℕ, List, ◌++◌, Option, Some, None, Err, IfOk, IfErr, OnOk, OnErr};
ghost use Rattle.side_world.specs.Faults.{Rose};
ghost use Rattle.disk_journal.specs.AnyRun.{acknowledged};
ghost use Rattle.disk_journal.specs.Image.{IsImage};
ghost use Rattle.disk_journal.specs.Journal.{disk_of, limit_of, torn_of};
ghost use Rattle.disk_journal.specs.Refusal.{IsNoJournal};
ghost use Rattle.disk_journal.specs.Run.{IsCall, AreOfRun, LeavesWhatWasMade, AfterACrash};
ghost use Rattle.disk_journal.specs.declared.error.JournalErr.TheVariants.{NotAJournal};
ghost use Rattle.disk_journal.specs.declared.journal.Journal.{Journal};

use crate::{Bodies, Journal, JournalErr};
use side_world::Disk;
use std::alloc::Global;

/// A file says one list of bodies at most.
pub fn a_file_says_one_list()
    ensures { (bytes : List ℕ) (bodies others : List (List ℕ)) → IsImage bytes bodies → IsImage bytes others → others ≡ bodies }
{}

/// A file that says bodies is not refused, and one that is refused is so at one place.
pub fn a_file_has_one_answer()
    ensures read { (bytes : List ℕ) (bodies : List (List ℕ)) (at : ℕ) → IsImage bytes bodies → IsNoJournal bytes at → ⊥ }
    ensures refused { (bytes : List ℕ) (at other : ℕ) → IsNoJournal bytes at → IsNoJournal bytes other → other ≡ at }
{}

/// An append is a call of a run, which acknowledges its body exactly where it answers `Ok`.
pub fn append_in_a_run<D: Disk>(journal: &mut Journal<D>, body: &[u8]) -> Result<(), JournalErr>
    requires { torn_of journal.old ≡ false }
    ensures acknowledged { OnOk result (IsCall D.Disk journal.old journal.new (Some body.now)) }
    ensures not_acknowledged { OnErr result (IsCall D.Disk journal.old journal.new None) }
    ensures failed { result ≡ Err JournalErr.Failed → Rose (D.faults (disk_of journal.old)) (D.faults (disk_of journal.new)) }
{
    journal.append(body)
}

/// A repair is a call of a run, which acknowledges nothing.
pub fn repair_in_a_run<D: Disk>(journal: &mut Journal<D>) -> Result<(), JournalErr>
    ensures nothing { IsCall D.Disk journal.old journal.new None }
    ensures ok { OnOk result (torn_of journal.new ≡ false) }
    ensures failed { OnErr result (Rose (D.faults (disk_of journal.old)) (D.faults (disk_of journal.new))) }
{
    journal.repair()
}

/// A crash at any moment behind some calls leaves the bodies that the journal held before them, all that they acknowledged, those that
/// the first of the calls behind them acknowledged, in order, and then at most one more.
pub fn a_crash_leaves_what_was_acknowledged<D: Disk>()
    ensures { (first mid last : Journal D D.Disk) (front back : List (Option (List ℕ))) (bodies : List (List ℕ)) (doubt : Option (List ℕ)) → LeavesWhatWasMade D.Disk first mid last front back bodies doubt }
{}

/// Opens what a crash at such a moment left: it has just those bodies, and is never refused as no journal.
pub fn load_after_a_crash<D: Disk, E: Disk>(
    alloc: Global,
    disk: E,
    limit: u64,
) -> Result<(Journal<E>, Bodies), (E, JournalErr)>
    ensures limit { IfOk result (λ opened. limit_of opened.0 ≡ limit) }
    ensures found { IfOk result (λ opened. AfterACrash D.Disk E.Disk disk (λ bodies front back. AreOfRun (bodies ++ acknowledged front) back opened.1)) }
    ensures not_refused { IfErr result (λ e. AfterACrash D.Disk E.Disk disk (λ bodies front back. (at : ℕ) → e.1 ≡ NotAJournal at → ⊥)) }
{
    Journal::load(alloc, disk, limit)
}
