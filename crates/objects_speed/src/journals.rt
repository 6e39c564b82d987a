//! What is measured of journals, and written as a line of standard error.

use crate::appends::{append, write};
use crate::clock::now;
use crate::line::{behind, tell};
use disk_journal::{Journal, format};
use host_devices::HostDisk;
use side_world::Disk;
use std::alloc::Global;
use std::fs::{File, Files, remove_file};
use std::io;
use std::rt::Clock;

/// The greatest length of the journal's file.
const LIMIT: u64 = 1 << 30;

const JOURNAL: &str = "objects_speed.journal";

const PLAIN: &str = "objects_speed.plain";

/// How many were taken, and the nanoseconds of each.
#[derive(Clone, Copy)]
struct Cost {
    taken: u32,
    each: u64,
}

/// What so many cost that began then.
fn since<R: Clock>(rt: &R, begin: u64, taken: u32) -> Cost {
    let took = now(rt).saturating_sub(begin);
    Cost {
        taken,
        each: took / u64::from(taken.max(1)),
    }
}

/// What an append to a journal over a disk costs, where that is empty; nothing is taken where it can't be loaded.
fn through_a_journal<R: Clock, D: Disk + Drop>(
    rt: &R,
    alloc: Global,
    mut disk: D,
    appends: u32,
) -> Cost {
    if disk.len() == Ok(0) && format(&mut disk).is_ok() {
        if let Ok((mut journal, _)) = Journal::load(alloc, disk, LIMIT) {
            let begin = now(rt);
            let taken = append(&mut journal, appends);
            return since(rt, begin, taken);
        }
    }
    Cost { taken: 0, each: 0 }
}

/// What two plain writes with a sync behind each cost, to an empty disk.
fn plainly<R: Clock, D: Disk + Drop>(rt: &R, mut disk: D, appends: u32) -> Cost {
    let begin = now(rt);
    let taken = write(&mut disk, appends);
    since(rt, begin, taken)
}

/// Measures so many appends of each kind, each to a new file.
pub(crate) fn round<R: Clock + Eprint + Files<File = File>>(
    rt: &R,
    alloc: Global,
    appends: u32,
) -> io::Result<()> {
    let journal = through_a_journal(rt, alloc, HostDisk::open(rt, JOURNAL)?, appends);
    let plain = plainly(rt, HostDisk::open(rt, PLAIN)?, appends);
    remove_file(rt, JOURNAL)?;
    remove_file(rt, PLAIN)?;
    let parts = [
        behind("", u64::from(journal.taken)),
        behind(" appends of 100 bytes to a journal: ", journal.each),
        behind(" ns each; ", u64::from(plain.taken)),
        behind(" plain ones: ", plain.each),
    ];
    tell(rt, &parts, " ns each")
}
