// The disk of a case: its bytes, the calls of it that fail, and what is asked of it.

use crate::bodies::add_commit;
use crate::crashes::{add_crashes, add_cuts, add_kept_crashes};
use crate::report::Report;
use crate::words::{add_outcome, bytes_in, places_in, text};
use case_text::{Lines, Section, first_word, number_in, said, without_blank_end};
use disk_journal::format;
use disk_memory::MemoryDisk;
use side_base::{NoMemory, Places};
use side_world::Disk;
use std::alloc::Global;

// The bytes of a text without the end of its last line.
fn without_end(text: &[u8]) -> &[u8] {
    text.strip_suffix(b"\n").unwrap_or(text)
}

/// The disk that a case gives, or an empty one.
pub(crate) fn disk_of(alloc: Global, sections: &[Section<'_>]) -> Result<MemoryDisk, NoMemory> {
    match sections.iter().find(|section| section.word == "disk") {
        Some(section) => {
            let bytes = said(alloc, without_blank_end(section.text))?;
            MemoryDisk::new(alloc, without_end(bytes.bytes()), Places::new(alloc))
        }
        None => MemoryDisk::new(alloc, &[], Places::new(alloc)),
    }
}

// Formats where that may be done.
fn add_format(alloc: Global, disk: &mut MemoryDisk, lines: &mut Lines) {
    if disk.bytes().is_empty() {
        add_outcome(alloc, lines, format(disk));
    } else {
        lines.add("not empty");
    }
}

// Writes bytes at a place.
fn add_write(disk: &mut MemoryDisk, place: u32, bytes: &[u8], lines: &mut Lines) {
    if place as usize > disk.bytes().len() {
        lines.add("past the end");
    } else {
        match disk.write_at(u64::from(place), bytes) {
            Ok(()) => lines.add("ok"),
            Err(_) => lines.add("failed"),
        }
    }
}

// Writes what stands behind the place in a section.
fn write(alloc: Global, disk: &mut MemoryDisk, section: &Section<'_>, lines: &mut Lines) {
    let (place, bytes) = first_word(section.name);
    match said(alloc, bytes.as_bytes()) {
        Ok(bytes) => add_write(disk, number_in(place), bytes.bytes(), lines),
        Err(_) => lines.add("no memory"),
    }
}

fn spell(alloc: Global, section: &Section<'_>, lines: &mut Lines) {
    match bytes_in(alloc, section) {
        Ok(body) => add_commit(alloc, lines, body.bytes()),
        Err(_) => lines.add("no memory"),
    }
}

// Does to a disk, or asks of it, what a section says.
fn add_answer(alloc: Global, disk: &mut MemoryDisk, section: &Section<'_>, lines: &mut Lines) {
    match section.word {
        "format" => add_format(alloc, disk, lines),
        "write" => write(alloc, disk, section, lines),
        "bytes" => lines.add(text(disk.bytes())),
        "moment" => lines.add_number("", disk.moment() as u64),
        "crashes" => add_crashes(alloc, lines, disk, section),
        "kept-crashes" => add_kept_crashes(alloc, lines, disk, section),
        "cuts" => add_cuts(alloc, lines, disk, section),
        "commit" => spell(alloc, section, lines),
        _ => lines.add("no such part"),
    }
}

/// The calls that fail from now on.
pub(crate) fn play_failing(
    alloc: Global,
    disk: &mut MemoryDisk,
    section: &Section<'_>,
    report: &mut Report,
) {
    match places_in(alloc, section.name) {
        Ok(places) => disk.fail_at(places),
        Err(_) => report.lack(),
    }
}

/// Does to a disk, or asks of it, what a section says, and compares what came of it.
pub(crate) fn play_disk(
    alloc: Global,
    disk: &mut MemoryDisk,
    section: &Section<'_>,
    report: &mut Report,
) {
    let mut came = Lines::new(alloc);
    add_answer(alloc, disk, section, &mut came);
    report.judge(section, came);
}
