// Blobs of many bytes, whose copies share them, and texts of such bytes.

use crate::blobs::step;
use crate::told::note;
use case_text::{Lines, long_number_in};
use side_base::{Blob, NoMemory, Text};
use std::alloc::Global;

fn letters(alloc: Global, len: u64) -> Result<Blob, NoMemory> {
    let mut letters = Blob::new(alloc);
    for _ in 0..len {
        letters.push_byte(b'a')?;
    }
    Ok(letters.shared())
}

// The number of bytes, and the last three.
fn add_end(lines: &mut Lines, bytes: &[u8]) {
    lines.add_number(" ", bytes.len() as u64);
    lines.add_shown(" ", &bytes[bytes.len().saturating_sub(3)..]);
}

// Those of a copy, if it is still there.
fn add_copy_end(lines: &mut Lines, copy: &Option<Blob>) {
    match copy {
        Some(copy) => add_end(lines, copy.bytes()),
        None => lines.add(" none"),
    }
}

fn add_grown(mut text: Text, lines: &mut Lines) -> Result<(), NoMemory> {
    let copy = text.copy()?;
    text.push("!")?;
    lines.add(", text");
    add_end(lines, text.bytes());
    add_end(lines, copy.bytes());
    add_end(lines, copy.into_blob()?.bytes());
    Ok(())
}

fn add_text(blob: Blob, lines: &mut Lines) -> Result<(), NoMemory> {
    match blob.into_text() {
        Ok(text) => add_grown(text, lines),
        Err(error) => {
            lines.add_number(", NotUtf8 ", error.at as u64);
            add_end(lines, error.blob.bytes());
            Ok(())
        }
    }
}

fn add_copies_of(alloc: Global, given: &[u8], lines: &mut Lines) -> Result<(), NoMemory> {
    let mut blob = letters(alloc, long_number_in(given))?;
    let mut copy = Some(blob.copy()?);
    let mut words = given.split(|byte| *byte == b' ');
    let _ = words.next();
    for word in words {
        if word == b"-".as_slice() {
            copy = None;
        } else {
            step(&mut blob, word, lines)?;
        }
    }
    add_end(lines, blob.bytes());
    add_copy_end(lines, &copy);
    let third = match copy {
        Some(_) => Some(blob.copy()?),
        None => None,
    };
    add_text(blob, lines)?;
    add_copy_end(lines, &third);
    Ok(())
}

/// What so many letters `a` are after these steps, and what a copy from before is, each with its length and its last three bytes; then what
/// they are as a text with `!` behind it, the text's copy from before, this as a blob, and a copy of the blob from before it was a text.
/// The step `-` drops the copies, so that the bytes are held once.
pub(crate) fn add_copies(alloc: Global, given: &[u8], lines: &mut Lines) {
    lines.add("steps:");
    let added = add_copies_of(alloc, given, lines);
    note(lines, added);
}
