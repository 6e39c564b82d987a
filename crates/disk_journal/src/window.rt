//! A file that is read once, from its front to its end, through one buffer.
ghost use Rattle.std.specs.Prelude.{◌≡◌, ◌+◌, ◌-◌, ◌≤◌, ℕ, List, length, take, drop, Some};

use crate::JournalErr;
use crate::reading::{make_room, read_behind};
use side_world::{Disk, Failed};
use std::alloc::Global;

/// How many bytes are read at a time, where no more are wanted.
const BLOCK_BYTES: u64 = 1 << 20;

/// What is held of a file: the bytes that were read and not passed yet.
#[derive(Drop)]
pub(crate) struct Window<D: Disk> {
    disk: D,
    /// The length of the file.
    len: u64,
    /// The place in the file of the first byte that was not passed.
    at: u64,
    /// From `start` on it has the bytes of the file from `at` on.
    buffer: Vec<u8>,
    /// What was passed last stands from here to `start`.
    last: usize,
    start: usize,
    ghost ordered: { last ≤ start },
    ghost within: { start ≤ length buffer.items },
    ghost short: { at + (length buffer.items - start) ≤ len },
    ghost sized: { len ≡ D.size disk },
    ghost shows: { (bytes : List ℕ) → D.contents disk ≡ Some bytes → drop start buffer.items ≡ take (length buffer.items - start) (drop at bytes) },
}

impl<D: Disk> Window<D> {
    ghost use Rattle.std.specs.Prelude.{◌≡◌, ◌⊎◌, ◌+◌, ◌-◌, ◌^◌, ◌<◌, ◌≤◌, ℕ, List, [], ◌++◌, length, take, drop, Err, OnOk};
    ghost use Rattle.side_world.specs.Faults.{Rose};
    ghost use Rattle.disk_journal.specs.Moments.{ChangesNothing};
    ghost use Rattle.disk_journal.specs.Window.{disk_of, place_of, held_of, passed_of};
    ghost use Rattle.disk_journal.specs.declared.error.JournalErr.TheVariants.{NotAJournal, Full};

    /// Before the first byte of a file of this length. Takes no memory.
    pub(crate) fn new(alloc: Global, disk: D, len: u64) -> Window<D>
        requires { len ≡ D.size disk }
        ensures disk { disk_of result ≡ disk }
        ensures place { place_of result ≡ 0 }
        ensures held { held_of result ≡ [] }
    {
        Window {
            disk,
            len,
            at: 0,
            buffer: Vec::new(alloc),
            last: 0,
            start: 0,
        }
    }

    /// What is held: the bytes of the file from the first on that was not passed.
    pub(crate) fn held(&self) -> &[u8]
        ensures { result.now ≡ held_of self.now }
    {
        &self.buffer[self.start..]
    }

    /// What was passed last.
    pub(crate) fn passed(&self) -> &[u8]
        ensures { result.now ≡ passed_of self.now }
    {
        &self.buffer[self.last..self.start]
    }

    /// The place in the file of the first byte that was not passed.
    pub(crate) fn place(&self) -> u64
        ensures { result ≡ place_of self.now }
    {
        self.at
    }

    /// Passes the first `count` bytes that are held.
    pub(crate) fn pass(&mut self, count: usize)
        requires { count ≤ length (held_of self.old) }
        ensures held { held_of self.new ≡ drop count (held_of self.old) }
        ensures passed { passed_of self.new ≡ take count (held_of self.old) }
        ensures place { place_of self.new ≡ place_of self.old + count }
        ensures disk { disk_of self.new ≡ disk_of self.old }
    {
        self.last = self.start;
        self.start += count;
        self.at += count as u64;
    }

    /// Has `wanted` bytes held, or all that are left of the file. What was held stays in front, also where it fails.
    pub(crate) fn hold(&mut self, wanted: u64) -> Result<(), JournalErr>
        ensures enough { OnOk result ((wanted ≤ length (held_of self.new)) ⊎ (place_of self.new + length (held_of self.new) ≡ D.size (disk_of self.new))) }
        ensures all { wanted ≡ 2 ^ 64 - 1 → OnOk result (place_of self.new + length (held_of self.new) ≡ D.size (disk_of self.new)) }
        ensures held { (more : List ℕ) × (held_of self.new ≡ held_of self.old ++ more) }
        ensures place { place_of self.new ≡ place_of self.old }
        ensures same { ChangesNothing D.Disk (disk_of self.old) (disk_of self.new) }
        ensures failed { result ≡ Err JournalErr.Failed → Rose (D.faults (disk_of self.old)) (D.faults (disk_of self.new)) }
        ensures no_fault { (result ≡ Err JournalErr.Failed → ⊥) → D.faults (disk_of self.new) ≡ D.faults (disk_of self.old) }
        ensures no_other { (at : ℕ) → result ≡ Err (NotAJournal at) → ⊥ }
        ensures not_full { (len : ℕ) → result ≡ Err (Full len) → ⊥ }
        ensures no_fewer { D.faults (disk_of self.old) ≤ D.faults (disk_of self.new) }
    {
        let held = (self.buffer.len() - self.start) as u64;
        let left = self.len - self.at;
        if wanted <= held || held == left {
            return Ok(());
        }
        self.refill(left.min(wanted.max(BLOCK_BYTES)) as usize)
    }

    /// Has `size` bytes held, where fewer are.
    fn refill(&mut self, size: usize) -> Result<(), JournalErr>
        requires more { length (held_of self.old) < size }
        requires fits { place_of self.old + size ≤ D.size (disk_of self.old) }
        ensures enough { OnOk result (length (held_of self.new) ≡ size) }
        ensures held { (more : List ℕ) × (held_of self.new ≡ held_of self.old ++ more) }
        ensures place { place_of self.new ≡ place_of self.old }
        ensures same { ChangesNothing D.Disk (disk_of self.old) (disk_of self.new) }
        ensures failed { result ≡ Err JournalErr.Failed → Rose (D.faults (disk_of self.old)) (D.faults (disk_of self.new)) }
        ensures no_fault { (result ≡ Err JournalErr.Failed → ⊥) → D.faults (disk_of self.new) ≡ D.faults (disk_of self.old) }
        ensures no_other { (at : ℕ) → result ≡ Err (NotAJournal at) → ⊥ }
        ensures not_full { (len : ℕ) → result ≡ Err (Full len) → ⊥ }
        ensures no_fewer { D.faults (disk_of self.old) ≤ D.faults (disk_of self.new) }
    {
        let held = self.buffer.len() - self.start;
        let Ok(()) = make_room(&mut self.buffer, self.start, size) else {
            return Err(JournalErr::NoMemory);
        };
        self.last = 0;
        self.start = 0;
        match read_behind(
            &mut self.disk,
            self.at + held as u64,
            &mut self.buffer,
            held,
        ) {
            Ok(()) => Ok(()),
            Err(Failed) => {
                self.buffer.truncate(held);
                Err(JournalErr::Failed)
            }
        }
    }

    /// The disk, as the last call left it. Takes no memory.
    pub(crate) fn into_disk(self) -> D
        ensures { result ≡ disk_of self }
    {
        self.disk
    }
}
