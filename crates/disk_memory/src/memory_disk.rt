ghost use Rattle.std.specs.Prelude.{◌≡◌, reverse};
ghost use Rattle.disk_memory.specs.DiskNotes.{held, Fit};

use crate::note::Note;
use crate::noting::{tear_on, write};
use crate::overwriting::{Tear, overwrite};
use crate::schedule::{Schedule, Sizes};
use side_base::{Blob, Places};
use side_world::{Disk, Failed};
use std::alloc::{AllocError, Global};

/// A disk whose bytes are in memory. It tells them, and notes each write and sync, so that it tells what a crash may leave at
/// each moment so far.
///
/// A write that fails leaves what a read gives as it was; its bytes may still be what a crash leaves. A call that finds no
/// memory is a fault.
#[derive(Debug, Drop)]
pub struct MemoryDisk {
    alloc: Global,
    opening: Vec<u8>,
    notes: Vec<Note>,
    bytes: Vec<u8>,
    schedule: Schedule,
    ghost bytes_are: { bytes.items ≡ held opening.items (reverse notes.items) },
    ghost fit: { Fit opening.items (reverse notes.items) },
}

impl MemoryDisk {
    ghost use Rattle.std.specs.Prelude.{◌≡◌, ◌≤◌, length, reverse, take, IfOk};
    ghost use Rattle.disk_memory.specs.DiskNotes.{MayLeave};
    ghost use Rattle.disk_memory.specs.MemoryDisk.{opening_of, notes_of, bytes_of, faults_of, plan_of, HasNotedNothing, IsOpened};
    ghost use Rattle.disk_memory.specs.Plan.{begun};

    /// A disk of `bytes`, all of them on it; `failing` are the calls that fail, counted from 0 over all calls.
    pub fn new(alloc: Global, bytes: &[u8], failing: Places) -> Result<Self, AllocError>
        ensures opened { IfOk result (IsOpened bytes.now) }
        ensures plan { IfOk result (λ disk. plan_of disk ≡ begun failing) }
    {
        Ok(MemoryDisk {
            alloc,
            opening: bytes.to_vec(alloc)?,
            notes: Vec::new(alloc),
            bytes: bytes.to_vec(alloc)?,
            schedule: Schedule::new(Sizes::new(alloc), failing),
        })
    }

    /// The calls that fail from now on, counted from 0.
    pub fn fail_at(&mut self, failing: Places)
        ensures notes { HasNotedNothing self.old self.new }
        ensures bytes { bytes_of self.new ≡ bytes_of self.old }
        ensures faults { faults_of self.new ≡ faults_of self.old }
        ensures plan { plan_of self.new ≡ begun failing }
    {
        self.schedule.failing = failing;
        self.schedule.calls = 0;
    }

    /// How often a call has failed.
    pub fn faults(&self) -> u64
        ensures { result ≡ faults_of self.now }
    {
        self.schedule.faults
    }

    /// What a read gives.
    pub fn bytes(&self) -> &[u8]
        ensures { result.now ≡ bytes_of self.now }
    {
        &self.bytes
    }

    /// How many writes and syncs were noted: all but the syncs that failed.
    pub fn moment(&self) -> usize
        ensures { result ≡ length (notes_of self.now) }
    {
        self.notes.len()
    }

    /// What a crash after the first `moment` writes and syncs, or inside the last of them, may leave.
    ///
    /// `tears` says how the writes since the last sync before that moment are torn, in order; those past its end are whole.
    pub fn image(&self, moment: usize, tears: &[Tear]) -> Result<Blob, AllocError>
        requires { moment ≤ length (notes_of self.now) }
        ensures { IfOk result (λ image. MayLeave (opening_of self.now) (reverse (take moment (reverse (notes_of self.now)))) image) }
    {
        let mut whole = self.opening.to_vec(self.alloc)?;
        let mut image = self.opening.to_vec(self.alloc)?;
        let mut rest = tears;
        for note in &self.notes[..moment] {
            match note {
                Note::Synced => {
                    image = whole.to_vec(self.alloc)?;
                    rest = tears;
                }
                Note::Written { at, piece } => {
                    rest = tear_on(self.alloc, &mut image, *at, piece.bytes(), rest)?;
                    overwrite(&mut whole, *at, piece.bytes())?;
                }
                Note::Lost { at, piece } => {
                    rest = tear_on(self.alloc, &mut image, *at, piece.bytes(), rest)?;
                }
            }
        }
        Ok(Blob::from_vec(image))
    }
}

impl MemoryDisk {
    ghost use Rattle.std.specs.Prelude.{◌≡◌, ◌≤◌, ◌⊎◌, length, OnOk, OnErr};
    ghost use Rattle.side_world.specs.Faults.{Rose};
    ghost use Rattle.disk_memory.specs.DiskNotes.{ChangesNoByte};
    ghost use Rattle.disk_memory.specs.MemoryDisk.{bytes_of, faults_of, plan_of, HasNoted, HasNotedNothing};
    ghost use Rattle.disk_memory.specs.declared.note.Note.TheVariants.{Written, Lost};

    // Writes, and notes it; a fault where there is no memory for the note.
    fn write(&mut self, at: usize, piece: &[u8]) -> Result<(), Failed>
        requires { at ≤ length (bytes_of self.old) }
        ensures ok { OnOk result (HasNoted (Written at piece.now) self.old self.new) }
        ensures err { OnErr result (HasNotedNothing self.old self.new) }
        ensures no_fault { OnOk result (faults_of self.new ≡ faults_of self.old) }
        ensures failed { OnErr result (Rose (faults_of self.old) (faults_of self.new)) }
        ensures no_fewer { faults_of self.old ≤ faults_of self.new }
        ensures plan { plan_of self.new ≡ plan_of self.old }
    {
        match write(self.alloc, &mut self.bytes, &mut self.notes, at, piece) {
            Ok(()) => Ok(()),
            Err(_) => {
                self.schedule.fail();
                Err(Failed)
            }
        }
    }

    // Notes what changed no byte.
    fn note(&mut self, note: Note) -> Result<(), AllocError>
        requires { ChangesNoByte note }
        ensures ok { OnOk result (HasNoted note self.old self.new) }
        ensures err { OnErr result (HasNotedNothing self.old self.new) }
        ensures bytes { bytes_of self.new ≡ bytes_of self.old }
        ensures faults { faults_of self.new ≡ faults_of self.old }
        ensures plan { plan_of self.new ≡ plan_of self.old }
    {
        self.notes.push(note)?;
        Ok(())
    }

    // Notes a write that failed, where there is memory for the note.
    fn lose(&mut self, at: usize, piece: &[u8])
        ensures noted { HasNoted (Lost at piece.now) self.old self.new ⊎ HasNotedNothing self.old self.new }
        ensures bytes { bytes_of self.new ≡ bytes_of self.old }
        ensures faults { faults_of self.new ≡ faults_of self.old }
        ensures plan { plan_of self.new ≡ plan_of self.old }
    {
        if let Ok(piece) = Blob::from_bytes(self.alloc, piece) {
            let _ = self.note(Note::Lost { at, piece });
        }
    }
}

impl Disk for MemoryDisk {
    ghost use Rattle.std.specs.Prelude.{◌≡◌, ◌≤◌, ◌+◌, ◌↔◌, max, length, take, drop, Some, None, List, ℕ, IfOk, OnOk, OnErr, IsErr};
    ghost use Rattle.std.proofs.Common.{inl, ◌∙◌};
    ghost use Rattle.side_world.specs.Faults.{Rose};
    ghost use Rattle.side_world.specs.Disk.{overwritten, Torn, Becomes, ComesOf, NoNew, LeavesOnly};
    ghost use Rattle.disk_memory.specs.DiskNotes.{MayLeave, MayHaveLeft, same_length, same_bytes, counts_now, only_now};
    ghost use Rattle.disk_memory.specs.MemoryDisk.{opening_of, notes_of, bytes_of, faults_of, plan_of, FailsNow, HasNoted, HasNotedNothing, HasLost, HasGoneOn};
    ghost use Rattle.disk_memory.specs.Plan.{counted};
    ghost use Rattle.disk_memory.specs.declared.note.Note.TheVariants.{Written, Synced};

    ghost contents = { λ d. Some (bytes_of d) };

    ghost size = { λ d. length (bytes_of d) };

    ghost leaves = { λ d. MayLeave (opening_of d) (notes_of d) };

    ghost moment = { λ d. length (notes_of d) };

    ghost left_since = { λ d. MayHaveLeft (opening_of d) (notes_of d) };

    ghost faults = { faults_of };

    /// Fails exactly where it is a call that is to fail. It is not noted.
    fn len(&mut self) -> Result<u64, Failed>
        ensures len { IfOk result (λ n. n ≡ length (bytes_of self.old)) }
        ensures contents { Some (bytes_of self.new) ≡ Some (bytes_of self.old) }
        ensures size { length (bytes_of self.new) ≡ length (bytes_of self.old) }
        ensures crash { NoNew (MayLeave (opening_of self.old) (notes_of self.old)) (MayLeave (opening_of self.new) (notes_of self.new)) }
        ensures time { HasGoneOn self.old self.new }
        ensures no_fault { OnOk result (faults_of self.new ≡ faults_of self.old) }
        ensures failed { OnErr result (Rose (faults_of self.old) (faults_of self.new)) }
        ensures no_fewer { faults_of self.old ≤ faults_of self.new }
        ensures noted { HasNotedNothing self.old self.new }
        ensures listed { IsErr result ↔ FailsNow self.old }
        ensures counted { plan_of self.new ≡ counted (plan_of self.old) }
    {
        self.schedule.call()?;
        Ok(self.bytes.len() as u64)
    }

    /// Fails exactly where it is a call that is to fail. It is not noted.
    fn read_at(&mut self, at: u64, into: &mut [u8]) -> Result<(), Failed>
        requires { at + length into.old ≤ length (bytes_of self.old) }
        ensures read { OnOk result ((old : List ℕ) → Some (bytes_of self.old) ≡ Some old → into.new ≡ take (length into.old) (drop at old)) }
        ensures length { length into.new ≡ length into.old }
        ensures contents { Some (bytes_of self.new) ≡ Some (bytes_of self.old) }
        ensures size { length (bytes_of self.new) ≡ length (bytes_of self.old) }
        ensures crash { NoNew (MayLeave (opening_of self.old) (notes_of self.old)) (MayLeave (opening_of self.new) (notes_of self.new)) }
        ensures time { HasGoneOn self.old self.new }
        ensures no_fault { OnOk result (faults_of self.new ≡ faults_of self.old) }
        ensures failed { OnErr result (Rose (faults_of self.old) (faults_of self.new)) }
        ensures no_fewer { faults_of self.old ≤ faults_of self.new }
        ensures noted { HasNotedNothing self.old self.new }
        ensures listed { IsErr result ↔ FailsNow self.old }
        ensures counted { plan_of self.new ≡ counted (plan_of self.old) }
    {
        self.schedule.call()?;
        let from = at as usize;
        into.copy_from_slice(&self.bytes[from..from + into.len()]);
        Ok(())
    }

    /// Is noted as written. Fails where it is a call that is to fail, and is noted as lost then where there is memory; and
    /// where there is no memory.
    fn write_at(&mut self, at: u64, piece: &[u8]) -> Result<(), Failed>
        requires { at ≤ length (bytes_of self.old) }
        ensures written { OnOk result (Becomes (Some (bytes_of self.old)) (Some (bytes_of self.new)) (λ old new. new ≡ overwritten at piece.now old)) }
        ensures torn { OnErr result (Becomes (Some (bytes_of self.old)) (Some (bytes_of self.new)) (Torn at (length piece.now))) }
        ensures untold { Some (bytes_of self.old) ≡ None → Some (bytes_of self.new) ≡ None }
        ensures size { OnOk result (length (bytes_of self.new) ≡ max (length (bytes_of self.old)) (at + length piece.now)) }
        ensures no_shorter { length (bytes_of self.old) ≤ length (bytes_of self.new) }
        ensures no_longer { length (bytes_of self.new) ≤ max (length (bytes_of self.old)) (at + length piece.now) }
        ensures crash { ComesOf (Torn at (length piece.now)) (MayLeave (opening_of self.old) (notes_of self.old)) (MayLeave (opening_of self.new) (notes_of self.new)) }
        ensures time { HasGoneOn self.old self.new }
        ensures no_fault { OnOk result (faults_of self.new ≡ faults_of self.old) }
        ensures failed { OnErr result (Rose (faults_of self.old) (faults_of self.new)) }
        ensures no_fewer { faults_of self.old ≤ faults_of self.new }
        ensures noted { OnOk result (HasNoted (Written at piece.now) self.old self.new) }
        ensures lost { OnErr result (HasLost at piece.now self.old self.new) }
        ensures listed { FailsNow self.old → IsErr result }
        ensures counted { plan_of self.new ≡ counted (plan_of self.old) }
    {
        match self.schedule.call() {
            Ok(()) => self.write(at as usize, piece),
            Err(Failed) => {
                self.lose(at as usize, piece);
                Err(Failed)
            }
        }
    }

    /// Is noted where it succeeds. Fails where it is a call that is to fail, and where there is no memory for the note.
    fn sync(&mut self) -> Result<(), Failed>
        ensures durable { OnOk result (LeavesOnly (Some (bytes_of self.old)) (MayLeave (opening_of self.new) (notes_of self.new))) }
        ensures contents { Some (bytes_of self.new) ≡ Some (bytes_of self.old) }
        ensures size { length (bytes_of self.new) ≡ length (bytes_of self.old) }
        ensures crash { NoNew (MayLeave (opening_of self.old) (notes_of self.old)) (MayLeave (opening_of self.new) (notes_of self.new)) }
        ensures time { HasGoneOn self.old self.new }
        ensures no_fault { OnOk result (faults_of self.new ≡ faults_of self.old) }
        ensures failed { OnErr result (Rose (faults_of self.old) (faults_of self.new)) }
        ensures no_fewer { faults_of self.old ≤ faults_of self.new }
        ensures noted { OnOk result (HasNoted Synced self.old self.new) }
        ensures not_noted { OnErr result (HasNotedNothing self.old self.new) }
        ensures listed { FailsNow self.old → IsErr result }
        ensures counted { plan_of self.new ≡ counted (plan_of self.old) }
    {
        self.schedule.call()?;
        match self.note(Note::Synced) {
            Ok(()) => Ok(()),
            Err(_) => {
                self.schedule.fail();
                Err(Failed)
            }
        }
    }

    ghost as_long = { λ disk bytes told. same_length told };

    ghost is_left = { λ disk bytes told. inl (same_bytes told ∙ disk.bytes_are) };

    ghost counts_now = { λ disk t c le left. counts_now (opening_of disk) (notes_of disk) t c left };

    ghost only_now = { λ disk c left. only_now (opening_of disk) (notes_of disk) c left };
}
