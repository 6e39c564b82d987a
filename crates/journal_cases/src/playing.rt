// A case, played and compared.

use crate::disks::{disk_of, play_disk, play_failing};
use crate::journals::{is_step, play_journal};
use crate::keepers::{play_either, play_keeper, play_memory};
use crate::report::Report;
use case_text::{Lines, Piece, Player, Section, sections};
use disk_memory::MemoryDisk;
use side_base::{NoMemory, Text};
use std::alloc::Global;

// Whether a section of this word says what must come of it.
fn asks(word: &str) -> bool {
    match word {
        "disk" | "failing" | "once" => false,
        _ => true,
    }
}

// Whether calls may stand behind a section of this word.
fn opens(word: &str) -> bool {
    match word {
        "journal" | "keeper" | "keeper-again" | "memory" | "either" => true,
        _ => false,
    }
}

// A part that leaves the disk where it is.
fn play_beside(
    alloc: Global,
    disk: &mut MemoryDisk,
    head: &Section<'_>,
    behind: &[Section<'_>],
    report: &mut Report,
) {
    match head.word {
        "disk" | "once" => {}
        "failing" => play_failing(alloc, disk, head, report),
        "memory" => play_memory(alloc, head, behind, report),
        "either" => play_either(alloc, head, behind, report),
        _ => play_disk(alloc, disk, head, report),
    }
}

// A part with the calls behind it, which gives the disk back.
fn play_part(
    alloc: Global,
    mut disk: MemoryDisk,
    head: &Section<'_>,
    behind: &[Section<'_>],
    report: &mut Report,
) -> MemoryDisk {
    match head.word {
        "journal" => play_journal(alloc, disk, head, behind, report),
        "keeper" | "keeper-again" => play_keeper(alloc, disk, head, behind, report),
        _ => {
            play_beside(alloc, &mut disk, head, behind, report);
            disk
        }
    }
}

// Plays the parts of a case over its disk, each with the calls behind it.
fn play_parts(alloc: Global, disk: MemoryDisk, sections: &[Section<'_>], report: &mut Report) {
    let mut disk = disk;
    let mut open = false;
    for place in 0..sections.len() {
        let head = &sections[place];
        if is_step(head.word) {
            if !open {
                report.judge_text(head, "not open\n");
            }
        } else {
            open = opens(head.word);
            disk = play_part(alloc, disk, head, &sections[place + 1..], report);
        }
    }
}

// What is wrong of a case whose sections are these.
fn report_of(alloc: Global, sections: &[Section<'_>]) -> Result<Text, NoMemory> {
    let mut report = Report::new(alloc);
    if !sections.iter().any(|section| asks(section.word)) {
        report.miss();
    }
    match disk_of(alloc, sections) {
        Ok(disk) => play_parts(alloc, disk, sections, &mut report),
        Err(_) => report.lack(),
    }
    report.done()
}

fn play(alloc: Global, case: &Piece<'_>) -> Result<Text, NoMemory> {
    let sections = sections(alloc, case)?;
    report_of(alloc, sections.as_slice())
}

/// The cases of journals and keepers over a disk in memory. One that begins with `once` must be right whichever allocation fails.
#[derive(Drop)]
pub(crate) struct Cases;

impl Player for Cases {
    fn play(&self, alloc: Global, case: &Piece<'_>, lines: &mut Lines) {
        match play(alloc, case) {
            Ok(wrong) => lines.add(wrong.as_str()),
            Err(_) => lines.lack(),
        }
    }
}
