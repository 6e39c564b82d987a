use crate::formatting::RECORD_BYTES;
use crate::holding::hold_record;
use crate::window::Window;
use crate::{Journal, JournalErr};
use side_world::Disk;

/// A journal that is being opened: it gives the bodies one after the other, from the first, and then the journal.
///
/// It holds one block of the file at a time, of 1 MiB at most, or an open record that is longer, or what is left of the file where such a record runs past its end.
#[derive(Drop)]
pub struct Opening<D: Disk> {
    pub(crate) window: Window<D>,
    pub(crate) limit: u64,
}

impl<D: Disk> Opening<D> {
    ghost use Rattle.std.specs.Prelude.{◌≡◌, ◌+◌, ◌<◌, ◌≤◌, ℕ, List, None, Ok, Err, true, IfOk, OnErr};
    ghost use Rattle.side_world.specs.Faults.{Rose};
    ghost use Rattle.disk_journal.specs.Image.{IsImage};
    ghost use Rattle.disk_journal.specs.Journal.{disk_of, limit_of, Holds};
    ghost use Rattle.disk_journal.specs.Moments.{Reads};
    ghost use Rattle.disk_journal.specs.Opening.{opening_disk, opening_limit, gate_of, body_of, left_of, HasGiven, HasGivenAll, GivesNext};
    ghost use Rattle.disk_journal.specs.Refusal.{IsCutShort};
    ghost use Rattle.disk_journal.specs.declared.error.JournalErr.TheVariants.{NotAJournal, Full};

    /// Goes on to the next body, and tells whether there is one: `false` comes exactly at the closed gate behind all.
    ///
    /// Refuses with `NotAJournal` at the gate of an open record that runs past the end, or at the end where a gate should stand. Where it
    /// fails, the body that was next still is. Takes memory for a record that is longer than what is held.
    pub fn advance(&mut self) -> Result<bool, JournalErr>
        ensures gives { (first : D) (bodies : List (List ℕ)) → HasGiven D.Disk first self.old bodies → IfOk result (GivesNext D.Disk first self.new bodies) }
        ensures stays { (first : D) (bodies : List (List ℕ)) → HasGiven D.Disk first self.old bodies → OnErr result (HasGiven D.Disk first self.new bodies) }
        ensures refused { (first : D) (bodies : List (List ℕ)) → HasGiven D.Disk first self.old bodies → (at : ℕ) → result ≡ Err (NotAJournal at) → Reads D.Disk first (λ bytes. IsCutShort bytes at) }
        ensures refused_only { (first : D) (bodies : List (List ℕ)) → HasGiven D.Disk first self.old bodies → (at : ℕ) → result ≡ Err (NotAJournal at) → Reads D.Disk first (λ bytes. (others : List (List ℕ)) → IsImage bytes others → ⊥) }
        ensures fewer { result ≡ Ok true → left_of self.new < left_of self.old }
        ensures limit { opening_limit self.new ≡ opening_limit self.old }
        ensures failed { result ≡ Err JournalErr.Failed → Rose (D.faults (opening_disk self.old)) (D.faults (opening_disk self.new)) }
        ensures no_fault { (result ≡ Err JournalErr.Failed → ⊥) → D.faults (opening_disk self.new) ≡ D.faults (opening_disk self.old) }
        ensures not_full { (len : ℕ) → result ≡ Err (Full len) → ⊥ }
        ensures no_fewer { D.faults (opening_disk self.old) ≤ D.faults (opening_disk self.new) }
    {
        match hold_record(&mut self.window) {
            Ok(Some(len)) => {
                self.window.pass(RECORD_BYTES);
                self.window.pass(len);
                Ok(true)
            }
            Ok(None) => Ok(false),
            Err(error) => Err(error),
        }
    }

    /// The body to which `advance` went on, as long as nothing else was called since it answered `true`.
    pub fn body(&self) -> &[u8]
        ensures { result.now ≡ body_of self.now }
    {
        self.window.passed()
    }

    /// The place of the gate of the body that is next.
    pub fn gate(&self) -> u64
        ensures { result ≡ gate_of self.now }
    {
        self.window.place()
    }

    /// The journal, once all its bodies were given: the next gate is the closed one. Takes no memory.
    pub fn into_journal(self) -> Journal<D>
        requires { gate_of self + 1 ≤ D.size (opening_disk self) }
        ensures holds { (first : D) (bodies : List (List ℕ)) → HasGivenAll D.Disk first self bodies → Holds D.Disk result bodies None }
        ensures disk { disk_of result ≡ opening_disk self }
        ensures limit { limit_of result ≡ opening_limit self }
    {
        let end = self.window.place();
        Journal::over(self.window.into_disk(), end, self.limit)
    }

    /// The disk, as the last call left it. Takes no memory.
    pub fn into_disk(self) -> D
        ensures { result ≡ opening_disk self }
    {
        self.window.into_disk()
    }
}
