// Blobs, and texts that begin as literals.

use crate::told::note;
use case_text::{Lines, long_number_in};
use side_base::{Blob, NoMemory, Text};
use std::alloc::Global;

fn add_copy(blob: &Blob, lines: &mut Lines) {
    match blob.copy() {
        Ok(copy) => lines.add_shown(" ", copy.bytes()),
        Err(error) => note(lines, Err(error)),
    }
}

// What is asked of a blob.
fn ask(blob: &Blob, what: u8, lines: &mut Lines) {
    match what {
        b'?' => lines.add(if blob.is_empty() { " empty" } else { " some" }),
        b'#' => lines.add_number(" ", blob.len() as u64),
        b'=' => lines.add_shown(" ", blob.bytes()),
        b'~' => add_copy(blob, lines),
        _ => lines.add(" no such step"),
    }
}

pub(crate) fn step(blob: &mut Blob, word: &[u8], lines: &mut Lines) -> Result<(), NoMemory> {
    match word {
        [b'+', piece @ ..] => blob.push(piece),
        [b'\'', byte] => blob.push_byte(*byte),
        [b'%', number @ ..] => blob.reserve((long_number_in(number) % 1_000) as usize),
        [b'<', number @ ..] => {
            blob.truncate(long_number_in(number) as usize);
            Ok(())
        }
        [b'0'] => {
            blob.clear();
            Ok(())
        }
        [what] => {
            ask(blob, *what, lines);
            Ok(())
        }
        _ => {
            lines.add(" no such step");
            Ok(())
        }
    }
}

/// What a blob answers, from step to step: `+piece` and `'b` append a piece and a byte, `%5` makes room, `<3` cuts off, `0` clears;
/// `?` asks whether it is empty, `#` for its length, `=` for its bytes, and `~` for those of its copy.
pub(crate) fn add_blob(alloc: Global, given: &[u8], lines: &mut Lines) {
    let mut blob = Blob::new(alloc);
    lines.add("steps:");
    for word in given.split(|byte| *byte == b' ') {
        let done = step(&mut blob, word, lines);
        note(lines, done);
    }
}

fn add_literal_of(alloc: Global, given: &[u8], lines: &mut Lines) -> Result<(), NoMemory> {
    let mut text = Text::from_static(alloc, "shop");
    let copy = text.copy()?;
    for piece in str::from_utf8(given).unwrap_or("no text").split(' ') {
        text.push(piece)?;
    }
    lines.add_shown("", text.bytes());
    lines.add_shown(" ", copy.bytes());
    lines.add_shown(" ", text.into_blob()?.bytes());
    lines.add_shown(" ", copy.into_blob()?.bytes());
    Ok(())
}

/// The literal `shop` with these pieces behind it, a copy from before, and both as blobs.
pub(crate) fn add_literal(alloc: Global, given: &[u8], lines: &mut Lines) {
    let added = add_literal_of(alloc, given, lines);
    note(lines, added);
}
