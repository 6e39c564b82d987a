ghost use Rattle.std.specs.Prelude.{◌+◌, ◌<◌, ◌≤◌, ◌^◌};

use crate::formatting::{HEADER_BYTES, format};
use crate::holding::pass_header;
use crate::loading::{copied, synced_len};
use crate::window::Window;
use crate::writing::{set_gate, stage};
use crate::{Bodies, JournalErr, Opening};
use side_world::Disk;
use std::alloc::Global;

/// A list of byte strings, the bodies, in the file of a disk. An append is acknowledged once its body is on the disk.
///
/// The file has a header of 16 bytes, and then a record for each body: a gate byte, the length of the body in eight bytes, the
/// lowest first, and the body. A gate is open exactly where it is 1. A closed gate stands behind the last record, and what stands
/// behind that says nothing.
#[derive(Drop)]
pub struct Journal<D: Disk> {
    disk: D,
    /// The place of the closed gate.
    end: u64,
    limit: u64,
    /// Whether that gate may be open: an append failed there, and no repair has succeeded since.
    torn: bool,
    ghost within: { end + 1 ≤ D.size disk },
    ghost counted: { end + 1 < 2 ^ 64 },
}

impl<D: Disk> Journal<D> {
    ghost use Rattle.std.specs.Prelude.{◌≡◌, ◌⊎◌, ◌↔◌, ◌<◌, ◌+◌, ◌≤◌, ◌^◌, max, true, false, ℕ, List, [], ◌∷◌, ◌++◌, length, Some, None, Err, IfOk, IfErr, IsOk, OnOk, OnErr};
    ghost use Rattle.side_world.specs.Faults.{Rose};
    ghost use Rattle.disk_journal.specs.Image.{header, IsImage, IsWithOrWithout, end_of};
    ghost use Rattle.disk_journal.specs.Journal.{disk_of, len_of, limit_of, torn_of, Holds};
    ghost use Rattle.disk_journal.specs.Moments.{Reads, Shows, AtEachMoment, ChangesNothing};
    ghost use Rattle.disk_journal.specs.Opening.{opening_disk, opening_limit, HasGiven};
    ghost use Rattle.disk_journal.specs.Refusal.{IsNoJournal};
    ghost use Rattle.disk_journal.specs.declared.error.JournalErr.TheVariants.{Failed, NotAJournal, Full};

    /// Makes an empty disk a journal of no bodies, as `format` does, and opens it. Takes no memory. `limit` is as for `load`.
    ///
    /// Where the disk fails it is given back; a crash before `Ok`, or a failure, may leave a file that is refused.
    pub fn create(mut disk: D, limit: u64) -> Result<Journal<D>, (D, JournalErr)>
        requires { D.size disk ≡ 0 }
        ensures holds { IfOk result (λ journal. Holds D.Disk journal [] None) }
        ensures formatted { IfOk result (λ journal. Shows D.Disk (disk_of journal) (λ bytes. bytes ≡ header ++ 0 ∷ [])) }
        ensures limit { IfOk result (λ journal. limit_of journal ≡ limit) }
        ensures size { IfOk result (λ journal. D.size (disk_of journal) ≡ 17) }
        ensures failed { IfErr result (λ e. (e.1 ≡ Failed) × Rose (D.faults disk) (D.faults e.0)) }
        ensures no_fault { IfOk result (λ journal. D.faults (disk_of journal) ≡ D.faults disk) }
        ensures no_longer { IfErr result (λ e. D.size e.0 ≤ 17) }
        ensures no_fewer_given_back { IfErr result (λ e. D.faults disk ≤ D.faults e.0) }
    {
        match format(&mut disk) {
            Ok(()) => Ok(Journal::over(disk, HEADER_BYTES as u64, limit)),
            Err(error) => Err((disk, error)),
        }
    }

    /// Opens the journal of a disk, and gives its bodies, copied. `limit`, the sync and the refusals are those of `open`, and those of
    /// `Opening::advance`; the disk is given back.
    pub fn load(alloc: Global, disk: D, limit: u64) -> Result<(Journal<D>, Bodies), (D, JournalErr)>
        // Where the disk tells what a read gives, these are its bodies, and no others are.
        ensures image { IfOk result (λ opened. Reads D.Disk disk (λ bytes. IsImage bytes opened.1)) }
        ensures only { IfOk result (λ opened. Reads D.Disk disk (λ bytes. (others : List (List ℕ)) → IsImage bytes others → others ≡ opened.1)) }
        ensures refused { IfErr result (λ e. (at : ℕ) → e.1 ≡ NotAJournal at → Reads D.Disk disk (λ bytes. IsNoJournal bytes at)) }
        ensures refused_only { IfErr result (λ e. (at : ℕ) → e.1 ≡ NotAJournal at → Reads D.Disk disk (λ bytes. (bodies : List (List ℕ)) → IsImage bytes bodies → ⊥)) }

        ensures holds { IfOk result (λ opened. Holds D.Disk opened.0 opened.1 None) }
        ensures limit { IfOk result (λ opened. limit_of opened.0 ≡ limit) }

        // A crash inside it leaves what one before it might have left.
        ensures opened { IfOk result (λ opened. ChangesNothing D.Disk disk (disk_of opened.0)) }
        ensures given_back { IfErr result (λ e. ChangesNothing D.Disk disk e.0) }

        ensures failed { IfErr result (λ e. e.1 ≡ Failed → Rose (D.faults disk) (D.faults e.0)) }
        ensures no_fault { IfOk result (λ opened. D.faults (disk_of opened.0) ≡ D.faults disk) }
        ensures no_fault_given_back { IfErr result (λ e. (e.1 ≡ Failed → ⊥) → D.faults e.0 ≡ D.faults disk) }
        ensures not_full { IfErr result (λ e. (len : ℕ) → e.1 ≡ Full len → ⊥) }
        ensures no_fewer_given_back { IfErr result (λ e. D.faults disk ≤ D.faults e.0) }
    {
        let mut opening = match Journal::open(alloc, disk, limit) {
            Ok(opening) => opening,
            Err(error) => return Err(error),
        };
        match copied(alloc, &mut opening) {
            Ok(bodies) => Ok((opening.into_journal(), bodies)),
            Err(error) => Err((opening.into_disk(), error)),
        }
    }

    /// Begins to open the journal of a disk; has all that was written reach the disk first. The opening gives the bodies, one after the
    /// other, and then the journal. `limit` is the greatest length of the file, in bytes, that an append may lead to.
    ///
    /// Takes memory for a block of the file, of 1 MiB at most, and later for a longer record. Refuses with `NotAJournal` at the first byte
    /// of the header that differs, or at the length of a file with no room for the header; the disk is given back.
    pub fn open(alloc: Global, mut disk: D, limit: u64) -> Result<Opening<D>, (D, JournalErr)>
        ensures given { IfOk result (λ opening. HasGiven D.Disk disk opening []) }
        ensures refused { IfErr result (λ e. (at : ℕ) → e.1 ≡ NotAJournal at → Reads D.Disk disk (λ bytes. IsNoJournal bytes at)) }
        ensures refused_only { IfErr result (λ e. (at : ℕ) → e.1 ≡ NotAJournal at → Reads D.Disk disk (λ bytes. (bodies : List (List ℕ)) → IsImage bytes bodies → ⊥)) }
        ensures limit { IfOk result (λ opening. opening_limit opening ≡ limit) }

        // A crash inside it leaves what one before it might have left.
        ensures given_back { IfErr result (λ e. ChangesNothing D.Disk disk e.0) }

        ensures failed { IfErr result (λ e. e.1 ≡ Failed → Rose (D.faults disk) (D.faults e.0)) }
        ensures no_fault { IfOk result (λ opening. D.faults (opening_disk opening) ≡ D.faults disk) }
        ensures no_fault_given_back { IfErr result (λ e. (e.1 ≡ Failed → ⊥) → D.faults e.0 ≡ D.faults disk) }
        ensures not_full { IfErr result (λ e. (len : ℕ) → e.1 ≡ Full len → ⊥) }
        ensures no_fewer_given_back { IfErr result (λ e. D.faults disk ≤ D.faults e.0) }
    {
        let len = match synced_len(&mut disk) {
            Ok(len) => len,
            Err(error) => return Err((disk, error)),
        };
        let mut window = Window::new(alloc, disk, len);
        match pass_header(&mut window) {
            Ok(()) => Ok(Opening { window, limit }),
            Err(error) => Err((window.into_disk(), error)),
        }
    }

    /// The journal of a disk whose closed gate stands at place `end`.
    pub(crate) fn over(disk: D, end: u64, limit: u64) -> Journal<D>
        requires within { end + 1 ≤ D.size disk }
        requires counted { end + 1 < 2 ^ 64 }
        ensures disk { disk_of result ≡ disk }
        ensures len { len_of result ≡ end + 1 }
        ensures torn { torn_of result ≡ false }
        ensures limit { limit_of result ≡ limit }
    {
        Journal {
            disk,
            end,
            limit,
            torn: false,
        }
    }

    /// Adds a body. After `Ok` each crash leaves it, whatever is called next. Takes no memory.
    ///
    /// After `Failed` the journal holds the bodies from before, or it is torn: a crash may then leave them with this one or without.
    /// `Full` changes nothing.
    pub fn append(&mut self, body: &[u8]) -> Result<(), JournalErr>
        requires { torn_of self.old ≡ false }
        ensures appended { (bodies : List (List ℕ)) → Holds D.Disk self.old bodies None → OnOk result (Holds D.Disk self.new (bodies ++ body.now ∷ []) None) }
        ensures undone { (bodies : List (List ℕ)) → Holds D.Disk self.old bodies None → result ≡ Err JournalErr.Failed → Holds D.Disk self.new bodies None ⊎ Holds D.Disk self.new bodies (Some body.now) }

        // A crash at any moment of the call leaves the bodies from before it, with the new one or without.
        ensures any_moment { (bodies : List (List ℕ)) → Holds D.Disk self.old bodies None → AtEachMoment D.Disk (disk_of self.old) (disk_of self.new) (IsWithOrWithout bodies body.now) }

        ensures full { (len : ℕ) → (result ≡ Err (Full len)) ↔ ((len ≡ len_of self.old + 9 + length body.now) × (limit_of self.old < len)) }
        ensures unchanged { (len : ℕ) → result ≡ Err (Full len) → self.new ≡ self.old }
        ensures failed { result ≡ Err JournalErr.Failed → Rose (D.faults (disk_of self.old)) (D.faults (disk_of self.new)) }
        ensures no_fault { OnOk result (D.faults (disk_of self.new) ≡ D.faults (disk_of self.old)) }
        ensures causes { OnErr result ((result ≡ Err JournalErr.Failed) ⊎ ((len : ℕ) × (result ≡ Err (Full len)))) }

        ensures ok { OnOk result ((torn_of self.new ≡ false) × (len_of self.new ≡ len_of self.old + 9 + length body.now)) }
        ensures err { OnErr result (len_of self.new ≡ len_of self.old) }

        // The file never grows further than the record needs.
        ensures no_longer { D.size (disk_of self.new) ≤ max (D.size (disk_of self.old)) (len_of self.old + 9 + length body.now) }

        ensures limit { limit_of self.new ≡ limit_of self.old }
        ensures no_fewer { D.faults (disk_of self.old) ≤ D.faults (disk_of self.new) }
    {
        let len = u128::from(self.end) + 10 + body.len() as u128;
        if len > u128::from(self.limit) {
            return Err(JournalErr::Full { len });
        }
        stage(&mut self.disk, self.end, body)?;
        self.torn = true;
        set_gate(&mut self.disk, self.end, 1)?;
        self.torn = false;
        self.end += 9 + body.len() as u64;
        Ok(())
    }

    /// Closes the gate at which an append failed, so that a crash leaves the bodies without that one. Takes no memory.
    ///
    /// Where the journal is not torn it makes no device call, since a write over a closed gate may leave it open.
    pub fn repair(&mut self) -> Result<(), JournalErr>
        ensures repaired { (bodies : List (List ℕ)) (doubt : List ℕ) → Holds D.Disk self.old bodies (Some doubt) → OnOk result (Holds D.Disk self.new bodies None) }
        ensures undone { (bodies : List (List ℕ)) (doubt : List ℕ) → Holds D.Disk self.old bodies (Some doubt) → OnErr result (Holds D.Disk self.new bodies (Some doubt)) }
        ensures any_moment { (bodies : List (List ℕ)) (doubt : List ℕ) → Holds D.Disk self.old bodies (Some doubt) → AtEachMoment D.Disk (disk_of self.old) (disk_of self.new) (IsWithOrWithout bodies doubt) }

        ensures whole { torn_of self.old ≡ false → IsOk result × (self.new ≡ self.old) }
        ensures ok { OnOk result (torn_of self.new ≡ false) }
        ensures err { OnErr result (torn_of self.new ≡ true) }
        ensures failed { OnErr result ((result ≡ Err JournalErr.Failed) × Rose (D.faults (disk_of self.old)) (D.faults (disk_of self.new))) }
        ensures no_fault { OnOk result (D.faults (disk_of self.new) ≡ D.faults (disk_of self.old)) }
        ensures len { len_of self.new ≡ len_of self.old }
        ensures size { D.size (disk_of self.new) ≡ D.size (disk_of self.old) }
        ensures limit { limit_of self.new ≡ limit_of self.old }
        ensures no_fewer { D.faults (disk_of self.old) ≤ D.faults (disk_of self.new) }
    {
        if !self.torn {
            return Ok(());
        }
        set_gate(&mut self.disk, self.end, 0)?;
        self.torn = false;
        Ok(())
    }

    /// Whether a crash may leave the body of an append that failed: from its failure at the gate until a repair succeeds.
    pub fn is_torn(&self) -> bool
        ensures { result ≡ torn_of self.now }
    {
        self.torn
    }

    /// The file's length behind its last record, in bytes: what stands past it says nothing.
    pub fn len(&self) -> u64
        ensures { result ≡ len_of self.now }
    {
        self.end + 1
    }

    /// The greatest such length that an append may lead to, in bytes.
    pub fn limit(&self) -> u64
        ensures { result ≡ limit_of self.now }
    {
        self.limit
    }

    /// The disk, as the last call left it. Takes no memory.
    pub fn into_disk(self) -> D
        ensures { result ≡ disk_of self }
    {
        self.disk
    }
}
