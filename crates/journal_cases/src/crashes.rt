// What a crash leaves at each moment, and what the first bytes of a file say.
ghost use Rattle.std.specs.Prelude.{◌≤◌, length};
ghost use Rattle.disk_memory.specs.MemoryDisk.{notes_of};

use crate::bodies::add_bodies;
use crate::keepers::SECRET;
use crate::rows::add_rows;
use crate::words::LIMIT;
use case_text::{Lines, Section, first_word, number_in};
use disk_journal::{Bodies, Journal, JournalErr};
use disk_memory::{MemoryDisk, Tear};
use keeper_journal::JournalKeeper;
use side_base::{Blob, NoMemory, Places};
use std::alloc::Global;

/// How many tears of three writes there are.
const TEARS: usize = 729;

// What a crash leaves of a write, of those of one byte, of eight and of a body, by a number.
fn tear_at(number: usize) -> Tear {
    match number % 9 {
        0 => Tear::Front(0),
        1 => Tear::Front(1),
        2 => Tear::Front(7),
        3 => Tear::Front(9),
        4 => Tear::Back(1),
        5 => Tear::Back(2),
        6 => Tear::Noise(0),
        7 => Tear::Noise(1),
        _ => Tear::Noise(255),
    }
}

fn add_loaded(lines: &mut Lines, journal: Journal<MemoryDisk>, bodies: &Bodies) {
    add_bodies(lines, bodies);
    let _ = journal.into_disk();
}

fn add_started(lines: &mut Lines, keeper: JournalKeeper<MemoryDisk>, keys: &str) {
    add_rows(lines, &keeper, keys);
    let _ = keeper.into_disk();
}

fn add_refused(alloc: Global, lines: &mut Lines, disk: MemoryDisk, error: JournalErr) {
    drop(disk);
    lines.add_told(alloc, &error);
}

// Says the bodies that a journal of these bytes has.
fn add_journal(alloc: Global, lines: &mut Lines, disk: MemoryDisk) {
    match disk_journal::laws::load_after_a_crash::<MemoryDisk, MemoryDisk>(alloc, disk, LIMIT) {
        Ok((journal, bodies)) => add_loaded(lines, journal, &bodies),
        Err((disk, error)) => add_refused(alloc, lines, disk, error),
    }
}

// Says what some keys have in a keeper on these bytes.
fn add_keeper(alloc: Global, lines: &mut Lines, disk: MemoryDisk, keys: &str) {
    match keeper_journal::laws::start_after_a_crash::<MemoryDisk, MemoryDisk>(
        alloc, disk, LIMIT, SECRET,
    ) {
        Ok(keeper) => add_started(lines, keeper, keys),
        Err((disk, error)) => add_refused(alloc, lines, disk, error),
    }
}

// Says what a disk of these bytes holds: bodies, or what some keys have.
fn add_held(alloc: Global, lines: &mut Lines, bytes: &[u8], keys: Option<&str>) {
    match MemoryDisk::new(alloc, bytes, Places::new(alloc)) {
        Ok(disk) => match keys {
            Some(keys) => add_keeper(alloc, lines, disk, keys),
            None => add_journal(alloc, lines, disk),
        },
        Err(_) => lines.add("no memory"),
    }
}

fn stands_in(found: &str, outcome: &str) -> bool {
    found.split(", ").any(|one| one == outcome)
}

// Adds an outcome behind a comma, unless it stands there.
fn add_new(found: &mut Lines, outcome: &str) {
    if !stands_in(found.as_str(), outcome) {
        if !found.is_empty() {
            found.add(", ");
        }
        found.add(outcome);
    }
}

// Adds what a disk of these bytes holds, unless it stands there.
fn add_found(alloc: Global, found: &mut Lines, bytes: &[u8], keys: Option<&str>) {
    let mut outcome = Lines::new(alloc);
    add_held(alloc, &mut outcome, bytes, keys);
    add_new(found, outcome.as_str());
}

// What a crash at a moment leaves, with the tears of this number.
fn torn_image(disk: &MemoryDisk, moment: usize, number: usize) -> Result<Blob, NoMemory>
    requires { moment ≤ length (notes_of disk.now) }
{
    let tears = [tear_at(number / 81), tear_at(number / 9), tear_at(number)];
    disk.image(moment, &tears)
}

// All that a crash at a moment may leave.
fn found_at(alloc: Global, disk: &MemoryDisk, moment: usize, keys: Option<&str>) -> Lines
    requires { moment ≤ length (notes_of disk.now) }
{
    let mut found = Lines::new(alloc);
    for number in 0..TEARS {
        match torn_image(disk, moment, number) {
            Ok(image) => add_found(alloc, &mut found, image.bytes(), keys),
            Err(_) => found.add("no memory"),
        }
    }
    found
}

fn add_moment(
    alloc: Global,
    lines: &mut Lines,
    disk: &MemoryDisk,
    moment: usize,
    keys: Option<&str>,
)
    requires { moment ≤ length (notes_of disk.now) }
{
    let found = found_at(alloc, disk, moment, keys);
    lines.add_number("", moment as u64);
    lines.add_line(": ", found.as_str());
}

// A line for each moment from this one on.
fn add_moments(
    alloc: Global,
    lines: &mut Lines,
    disk: &MemoryDisk,
    first: usize,
    keys: Option<&str>,
) {
    for moment in first..=disk.moment() {
        add_moment(alloc, lines, disk, moment, keys);
    }
}

/// Says what a crash at each moment may leave, from the moment that a section names on: the bodies of the journal.
pub(crate) fn add_crashes(
    alloc: Global,
    lines: &mut Lines,
    disk: &MemoryDisk,
    section: &Section<'_>,
) {
    add_moments(alloc, lines, disk, number_in(section.name) as usize, None);
}

/// The same of what the keys behind that moment have in a keeper.
pub(crate) fn add_kept_crashes(
    alloc: Global,
    lines: &mut Lines,
    disk: &MemoryDisk,
    section: &Section<'_>,
) {
    let (first, keys) = first_word(section.name);
    add_moments(alloc, lines, disk, number_in(first) as usize, Some(keys));
}

/// Says which bodies the first bytes of a disk are, of so many to so many of them.
pub(crate) fn add_cuts(alloc: Global, lines: &mut Lines, disk: &MemoryDisk, section: &Section<'_>) {
    let (first, last) = first_word(section.name);
    let bytes = disk.bytes();
    for len in number_in(first)..=number_in(last) {
        match bytes.split_at_checked(len as usize) {
            Some((front, _)) => add_found(alloc, lines, front, None),
            None => lines.add("shorter"),
        }
    }
}
