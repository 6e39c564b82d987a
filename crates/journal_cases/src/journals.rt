// A journal over the disk of a case: opening it, and calls of it.
ghost use Rattle.std.specs.Prelude.{◌≡◌, false};
ghost use Rattle.disk_journal.specs.Journal.{torn_of};

use crate::bodies::add_bodies;
use crate::report::Report;
use crate::words::{add_outcome, bytes_in, limit_in, yes_or_no};
use case_text::{Lines, Section};
use disk_journal::{Bodies, Journal, JournalErr, laws};
use disk_memory::MemoryDisk;
use std::alloc::Global;

/// Whether a section of this word is a call of a journal or of a keeper that stands open.
pub(crate) fn is_step(word: &str) -> bool {
    match word {
        "append"
        | "append-in-a-run"
        | "repair"
        | "repair-in-a-run"
        | "torn"
        | "len"
        | "limit"
        | "bodies" => true,
        "save" | "save-again" | "row" | "next" | "lapsed" => true,
        _ => false,
    }
}

// An append, as a call of a run or not.
fn appended(journal: &mut Journal<MemoryDisk>, word: &str, body: &[u8]) -> Result<(), JournalErr>
    requires { torn_of journal.old ≡ false }
{
    if word == "append" {
        journal.append(body)
    } else {
        laws::append_in_a_run(journal, body)
    }
}

// Appends the body that a section names, where that may be done.
fn add_append(
    alloc: Global,
    journal: &mut Journal<MemoryDisk>,
    section: &Section<'_>,
    lines: &mut Lines,
) {
    match bytes_in(alloc, section) {
        Ok(body) => {
            if journal.is_torn() {
                lines.add("torn");
            } else {
                add_outcome(alloc, lines, appended(journal, section.word, body.bytes()));
            }
        }
        Err(_) => lines.add("no memory"),
    }
}

// Makes the call that a section is, and says what came of it.
fn add_step(
    alloc: Global,
    journal: &mut Journal<MemoryDisk>,
    bodies: &Bodies,
    section: &Section<'_>,
    lines: &mut Lines,
) {
    match section.word {
        "append" | "append-in-a-run" => add_append(alloc, journal, section, lines),
        "repair" => add_outcome(alloc, lines, journal.repair()),
        "repair-in-a-run" => add_outcome(alloc, lines, laws::repair_in_a_run(journal)),
        "torn" => lines.add(yes_or_no(journal.is_torn())),
        "len" => lines.add_number("", journal.len()),
        "limit" => lines.add_number("", journal.limit()),
        "bodies" => add_bodies(lines, bodies),
        _ => lines.add("no call of a journal"),
    }
}

fn play_steps(
    alloc: Global,
    journal: &mut Journal<MemoryDisk>,
    bodies: &Bodies,
    behind: &[Section<'_>],
    report: &mut Report,
) {
    for section in behind {
        if !is_step(section.word) {
            break;
        }
        let mut came = Lines::new(alloc);
        add_step(alloc, journal, bodies, section, &mut came);
        report.judge(section, came);
    }
}

/// Says that a part was refused, and that what would be asked behind it was not.
pub(crate) fn play_refused(
    alloc: Global,
    error: JournalErr,
    head: &Section<'_>,
    behind: &[Section<'_>],
    report: &mut Report,
) {
    let mut came = Lines::new(alloc);
    came.add_told(alloc, &error);
    report.judge(head, came);
    for section in behind {
        if !is_step(section.word) {
            break;
        }
        report.judge_text(section, "not open\n");
    }
}

fn play_open(
    alloc: Global,
    mut journal: Journal<MemoryDisk>,
    bodies: &Bodies,
    head: &Section<'_>,
    behind: &[Section<'_>],
    report: &mut Report,
) -> MemoryDisk {
    report.judge_text(head, "open\n");
    play_steps(alloc, &mut journal, bodies, behind, report);
    journal.into_disk()
}

/// Opens the journal of a disk, makes the calls behind, and gives the disk back.
pub(crate) fn play_journal(
    alloc: Global,
    disk: MemoryDisk,
    head: &Section<'_>,
    behind: &[Section<'_>],
    report: &mut Report,
) -> MemoryDisk {
    match Journal::load(alloc, disk, limit_in(head.name)) {
        Ok((journal, bodies)) => play_open(alloc, journal, &bodies, head, behind, report),
        Err((disk, error)) => {
            play_refused(alloc, error, head, behind, report);
            disk
        }
    }
}

/// Laws that no case calls otherwise.
pub(crate) fn laws_hold() {
    laws::a_crash_leaves_what_was_acknowledged::<MemoryDisk>();
    laws::a_file_says_one_list();
    laws::a_file_has_one_answer();
}
