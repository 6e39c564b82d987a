// Texts, which are UTF-8.

use crate::told::note;
use case_text::Lines;
use side_base::{Blob, NoMemory, Text};
use std::alloc::Global;

fn add_copies(alloc: Global, text: &Text, lines: &mut Lines) -> Result<(), NoMemory> {
    let copy = text.copy()?;
    let again = Text::from_str(alloc, text.as_str())?;
    lines.add_shown("] [", copy.bytes());
    lines.add_shown("] [", again.bytes());
    lines.add("]");
    Ok(())
}

/// A text of these bytes, its copy, and a text of the `str` that it is; or the place where they break off.
pub(crate) fn add_utf8(alloc: Global, given: &[u8], lines: &mut Lines) {
    match Text::from_bytes(alloc, given) {
        Ok(text) => {
            lines.add_shown("[", text.bytes());
            let copied = add_copies(alloc, &text, lines);
            note(lines, copied);
        }
        Err(error) => lines.add_told(alloc, &error),
    }
}

fn add_outcome(blob: Blob, given: &[u8], lines: &mut Lines) {
    match blob.into_text() {
        Ok(text) => lines.add_shown("text ", text.bytes()),
        Err(error) => {
            lines.add_number("NotUtf8 ", error.at as u64);
            if error.blob.bytes() == given {
                lines.add(", given back");
            }
        }
    }
}

/// The text that a blob becomes, or the place where it breaks off, and whether the blob is given back.
pub(crate) fn add_into_text(alloc: Global, given: &[u8], lines: &mut Lines) {
    match Blob::from_bytes(alloc, given) {
        Ok(blob) => add_outcome(blob, given, lines),
        Err(error) => note(lines, Err(error)),
    }
}
