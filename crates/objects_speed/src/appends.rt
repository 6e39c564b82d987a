//! What is measured.
ghost use Rattle.std.specs.Prelude.{◌≡◌, ◌≤◌, ◌+◌, false, OnOk};
ghost use Rattle.disk_journal.specs.Journal.{torn_of};

use disk_journal::Journal;
use side_world::{Disk, Failed};

const BODY: [u8; 100] = [b'x'; 100];

/// A record of the same length as that of a body.
const RECORD: [u8; 109] = [b'x'; 109];

/// How many of so many bodies of 100 bytes a journal took.
pub(crate) fn append<D: Disk>(journal: &mut Journal<D>, count: u32) -> u32
    requires { torn_of journal.old ≡ false }
{
    let mut taken: u32 = 0;
    for _ in 0..count {
        if journal.append(&BODY).is_err() {
            return taken;
        }
        taken = taken.wrapping_add(1);
    }
    taken
}

/// How many of so many records, each written, synced, and marked by one byte, which is synced too, an empty disk took.
pub(crate) fn write<D: Disk>(disk: &mut D, count: u32) -> u32 {
    let mut end: u64 = 0;
    let mut taken: u32 = 0;
    for _ in 0..count {
        if write_one(disk, end).is_err() {
            return taken;
        }
        end += RECORD.len() as u64;
        taken = taken.wrapping_add(1);
    }
    taken
}

/// Writes a record at this place, and marks it.
fn write_one<D: Disk>(disk: &mut D, at: u64) -> Result<(), Failed>
    requires { at ≤ D.size disk.old }
    ensures { OnOk result (at + 109 ≤ D.size disk.new) }
{
    disk.write_at(at, &RECORD)?;
    disk.sync()?;
    disk.write_at(at, &[1])?;
    disk.sync()
}
