// A keeper over the disk of a case, and one of either kind: starting it, and calls of it.

use crate::journals::{is_step, play_refused};
use crate::report::Report;
use crate::rows::add_call;
use crate::words::{LIMIT, limit_in};
use case_text::{Lines, Section};
use disk_journal::JournalErr;
use disk_memory::MemoryDisk;
use keeper_core::{Keeper, MemoryKeeper};
use keeper_journal::{AnyKeeper, JournalKeeper};
use side_base::Places;
use std::alloc::Global;

/// The secret bytes of the hash of keys.
pub(crate) const SECRET: [u8; 16] = [7; 16];

fn play_calls<K: Keeper>(
    alloc: Global,
    keeper: &mut K,
    behind: &[Section<'_>],
    report: &mut Report,
) {
    for section in behind {
        if !is_step(section.word) {
            break;
        }
        let mut came = Lines::new(alloc);
        add_call(alloc, keeper, section, &mut came);
        report.judge(section, came);
    }
}

// Starts, and starts again where memory or the disk failed.
fn started_again(
    alloc: Global,
    disk: MemoryDisk,
) -> Result<JournalKeeper<MemoryDisk>, (MemoryDisk, JournalErr)> {
    match JournalKeeper::start(alloc, disk, LIMIT, SECRET) {
        Ok(keeper) => Ok(keeper),
        Err((disk, _)) => JournalKeeper::start(alloc, disk, LIMIT, SECRET),
    }
}

fn started(
    alloc: Global,
    disk: MemoryDisk,
    head: &Section<'_>,
) -> Result<JournalKeeper<MemoryDisk>, (MemoryDisk, JournalErr)> {
    if head.word == "keeper-again" {
        started_again(alloc, disk)
    } else {
        JournalKeeper::start(alloc, disk, limit_in(head.name), SECRET)
    }
}

fn play_started(
    alloc: Global,
    mut keeper: JournalKeeper<MemoryDisk>,
    head: &Section<'_>,
    behind: &[Section<'_>],
    report: &mut Report,
) -> MemoryDisk {
    report.judge_text(head, "started\n");
    play_calls(alloc, &mut keeper, behind, report);
    keeper.into_disk()
}

/// Starts a keeper on a disk, makes the calls behind, and gives the disk back.
pub(crate) fn play_keeper(
    alloc: Global,
    disk: MemoryDisk,
    head: &Section<'_>,
    behind: &[Section<'_>],
    report: &mut Report,
) -> MemoryDisk {
    match started(alloc, disk, head) {
        Ok(keeper) => play_started(alloc, keeper, head, behind, report),
        Err((disk, error)) => {
            play_refused(alloc, error, head, behind, report);
            disk
        }
    }
}

fn play_any(
    alloc: Global,
    mut keeper: AnyKeeper<MemoryDisk>,
    head: &Section<'_>,
    behind: &[Section<'_>],
    report: &mut Report,
) {
    report.judge_text(head, "started\n");
    play_calls(alloc, &mut keeper, behind, report);
    let _ = keeper.into_disk();
}

/// Makes the calls behind with a keeper of either kind, which is one in memory.
pub(crate) fn play_memory(
    alloc: Global,
    head: &Section<'_>,
    behind: &[Section<'_>],
    report: &mut Report,
) {
    let keeper = MemoryKeeper::new(alloc, limit_in(head.name), Places::new(alloc), SECRET);
    play_any(alloc, AnyKeeper::Memory(keeper), head, behind, report);
}

// The same over a journal on this disk.
fn play_on(
    alloc: Global,
    disk: MemoryDisk,
    head: &Section<'_>,
    behind: &[Section<'_>],
    report: &mut Report,
) {
    match JournalKeeper::start(alloc, disk, limit_in(head.name), SECRET) {
        Ok(keeper) => play_any(alloc, AnyKeeper::Journal(keeper), head, behind, report),
        Err((_, error)) => play_refused(alloc, error, head, behind, report),
    }
}

/// Makes the calls behind with a keeper of either kind, which stands over a journal on a disk of its own.
pub(crate) fn play_either(
    alloc: Global,
    head: &Section<'_>,
    behind: &[Section<'_>],
    report: &mut Report,
) {
    match MemoryDisk::new(alloc, &[], Places::new(alloc)) {
        Ok(disk) => play_on(alloc, disk, head, behind, report),
        Err(_) => report.lack(),
    }
}
