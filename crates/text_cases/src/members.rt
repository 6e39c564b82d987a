// Members of maps, and the texts that strings spell.

use crate::json::add_found;
use crate::told::{add_flag, note};
use case_text::{Lines, long_number_in};
use json_text::{Doc, Node, push_string, push_string_of};
use side_base::{Blob, NoMemory, Text};
use std::alloc::Global;

/// The last member of a name.
pub(crate) fn add_member(doc: &Doc<'_>, name: &[u8], lines: &mut Lines) {
    add_found(doc, doc.member(doc.root(), name), lines);
}

/// Whether a value is this text.
pub(crate) fn add_text_is(doc: &Doc<'_>, text: &[u8], lines: &mut Lines) {
    add_flag(lines, doc.text_is(doc.root(), text));
}

fn is_first_named(doc: &Doc<'_>, name: &[u8]) -> bool {
    match doc.first(doc.root()) {
        Some(node) => doc.name_is(node, name),
        None => false,
    }
}

/// Whether the first member has this name.
pub(crate) fn add_name_is(doc: &Doc<'_>, name: &[u8], lines: &mut Lines) {
    add_flag(lines, is_first_named(doc, name));
}

/// How deep a text is nested, and the first list or map that stands inside so many others.
pub(crate) fn add_levels(doc: &Doc<'_>, depth: &[u8], lines: &mut Lines) {
    lines.add_number("", doc.nesting(doc.root()) as u64);
    add_found(doc, doc.first_inside(long_number_in(depth) as usize), lines);
}

// A text, byte by byte, by a walk and by its numbers.
fn push_bytes(doc: &Doc<'_>, walked: &mut Blob, counted: &mut Blob) -> Result<(), NoMemory> {
    let mut bytes = doc.text_bytes(doc.root());
    let mut again = bytes.copy();
    for number in 0..doc.text_len(doc.root()) {
        if let Some(byte) = bytes.next() {
            walked.push_byte(byte)?;
        }
        if let Some(byte) = doc.text_byte(doc.root(), number) {
            counted.push_byte(byte)?;
        }
    }
    if bytes.next().is_some() || doc.text_byte(doc.root(), walked.len()).is_some() {
        walked.push(b"more")?;
    }
    if again.next() != walked.bytes().first().copied() {
        walked.push(b"other")?;
    }
    Ok(())
}

fn add_texts(alloc: Global, doc: &Doc<'_>, lines: &mut Lines) -> Result<(), NoMemory> {
    let mut walked = Blob::new(alloc);
    let mut counted = Blob::new(alloc);
    let mut pushed = Blob::new(alloc);
    push_bytes(doc, &mut walked, &mut counted)?;
    doc.push_text(doc.root(), &mut pushed)?;
    lines.add_shown("", doc.text_of(alloc, doc.root())?.bytes());
    lines.add_shown("|", walked.bytes());
    lines.add_shown("|", counted.bytes());
    lines.add_shown("|", pushed.bytes());
    Ok(())
}

/// The text that a string spells: as one, walked byte by byte, asked for by numbers, and appended.
pub(crate) fn add_text(alloc: Global, doc: &Doc<'_>, lines: &mut Lines) {
    let added = add_texts(alloc, doc, lines);
    note(lines, added);
}

fn add_names(alloc: Global, doc: &Doc<'_>, node: Node, lines: &mut Lines) -> Result<(), NoMemory> {
    if doc.is_node(node) {
        let mut pushed = Blob::new(alloc);
        doc.push_name(node, &mut pushed)?;
        lines.add_shown("", doc.name_of(alloc, node)?.bytes());
        lines.add_shown("|", pushed.bytes());
        if doc.name_bytes(node).next() != pushed.bytes().first().copied() {
            lines.add("|other");
        }
    }
    Ok(())
}

/// The name of the first value that the text holds: as one, and appended.
pub(crate) fn add_name(alloc: Global, doc: &Doc<'_>, lines: &mut Lines) {
    let node = doc.first(doc.root()).unwrap_or(doc.root());
    let added = add_names(alloc, doc, node, lines);
    note(lines, added);
}

fn add_lasts(alloc: Global, doc: &Doc<'_>, lines: &mut Lines) -> Result<(), NoMemory> {
    for member in doc.last_members(alloc, doc.root())?.into_vec() {
        lines.add_shown(" ", member.name.bytes());
        if doc.is_node(member.node) {
            lines.add_shown("=", doc.value_bytes(member.node));
        }
    }
    Ok(())
}

/// The last member of each name, with its bytes.
pub(crate) fn add_last(alloc: Global, doc: &Doc<'_>, lines: &mut Lines) {
    lines.add("names:");
    let added = add_lasts(alloc, doc, lines);
    note(lines, added);
}

fn add_strings(alloc: Global, text: &Text, lines: &mut Lines) -> Result<(), NoMemory> {
    let mut out = Blob::from_bytes(alloc, b"x")?;
    push_string(&mut out, text)?;
    push_string_of(&mut out, text.as_str())?;
    lines.add_shown("", out.bytes());
    Ok(())
}

/// A text as a string of JSON, twice, behind an `x`.
pub(crate) fn add_written(alloc: Global, given: &[u8], lines: &mut Lines) {
    match Text::from_bytes(alloc, given) {
        Ok(text) => {
            let added = add_strings(alloc, &text, lines);
            note(lines, added);
        }
        Err(_) => note(lines, Err(NoMemory)),
    }
}
