// Fields, and the items of their values.

use crate::told::{add_flag, note};
use case_text::Lines;
use side_base::{Blob, Field, Fields, NoMemory, Sequence, Text, first_item, first_value, has_item};
use std::alloc::Global;

// The two parts of a text that a byte parts.
fn parted(text: &[u8], by: u8) -> (&[u8], &[u8]) {
    for at in 0..text.len() {
        let (front, behind) = text.split_at(at);
        if let [first, rest @ ..] = behind
            && *first == by
        {
            return (front, rest);
        }
    }
    (text, b"")
}

fn push_field(alloc: Global, fields: &mut Fields, text: &[u8]) -> Result<(), NoMemory> {
    let (name, value) = parted(text, b':');
    let name = Text::from_str(alloc, str::from_utf8(name).unwrap_or("no text"))?;
    let value = Blob::from_bytes(alloc, value)?;
    fields.push(Field { name, value })
}

/// The value of the first field of a name, among fields that are written as `name:value;name:value`.
pub(crate) fn add_value(alloc: Global, given: &[u8], name: &[u8], lines: &mut Lines) {
    let mut fields: Fields = Sequence::new(alloc);
    for text in given.split(|byte| *byte == b';') {
        let pushed = push_field(alloc, &mut fields, text);
        note(lines, pushed);
    }
    match first_value(&fields, name) {
        Some(value) => lines.add_shown("value ", value),
        None => lines.add("none"),
    }
}

/// The first item of a value, and the rest.
pub(crate) fn add_first_item(given: &[u8], lines: &mut Lines) {
    let (item, rest) = first_item(given);
    lines.add_shown("[", item);
    match rest {
        Some(rest) => lines.add_shown("] rest ", rest),
        None => lines.add("]"),
    }
}

/// Whether a value has an item.
pub(crate) fn add_has_item(given: &[u8], item: &[u8], lines: &mut Lines) {
    add_flag(lines, has_item(given, item));
}
