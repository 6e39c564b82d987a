// Words of a case, and what is said of errors.
ghost use Rattle.std.specs.Prelude.{◌<◌, ◌^◌};

use case_text::{Lines, Section, number_in, said};
use disk_journal::JournalErr;
use keeper_core::KeepErr;
use side_base::{Blob, NoMemory, Places};
use std::alloc::Global;

/// The greatest length of a journal in the program.
pub(crate) const LIMIT: u64 = 402_653_184;

/// The limit that a part names, or that of the program.
pub(crate) fn limit_in(words: &str) -> u64
    ensures { result < 2 ^ 32 }
{
    if words.is_empty() {
        LIMIT
    } else {
        u64::from(number_in(words))
    }
}

/// The bytes that the words of a section are, their escapes undone.
pub(crate) fn bytes_in(alloc: Global, section: &Section<'_>) -> Result<Blob, NoMemory> {
    said(alloc, section.name.as_bytes())
}

fn add_places(places: &mut Places, words: &str) -> Result<(), NoMemory> {
    for word in words.split(' ') {
        places.push(number_in(word))?;
    }
    Ok(())
}

/// The calls that some words name.
pub(crate) fn places_in(alloc: Global, words: &str) -> Result<Places, NoMemory> {
    let mut places = Places::new(alloc);
    add_places(&mut places, words)?;
    Ok(places)
}

/// Bytes as a text.
pub(crate) fn text(bytes: &[u8]) -> &str {
    str::from_utf8(bytes).unwrap_or("no text")
}

/// Says what came of a call of a journal.
pub(crate) fn add_outcome(alloc: Global, lines: &mut Lines, outcome: Result<(), JournalErr>) {
    match outcome {
        Ok(()) => lines.add("ok"),
        Err(error) => lines.add_told(alloc, &error),
    }
}

/// Says what came of a save. A length here has fewer than 2^64 bytes.
pub(crate) fn add_kept(lines: &mut Lines, outcome: Result<(), KeepErr>) {
    match outcome {
        Ok(()) => lines.add("ok"),
        Err(KeepErr::Failed) => lines.add("failed"),
        Err(KeepErr::Full { len }) => lines.add_number("full ", u64::try_from(len).unwrap_or(0)),
        Err(KeepErr::NoMemory) => lines.add("no memory"),
    }
}

pub(crate) fn yes_or_no(is_so: bool) -> &'static str {
    if is_so { "yes" } else { "no" }
}
