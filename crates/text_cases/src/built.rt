// Long texts of JSON, built of pieces.

use crate::json::{add_found, add_refusal, add_value};
use crate::told::note;
use case_text::{Lines, long_number_in, push_times};
use json_text::{Doc, Kind, read};
use side_base::{Blob, NoMemory, split_digits};
use std::alloc::Global;

// A piece is a number, a star, and the bytes that stand so often.
fn push_piece(text: &mut Blob, word: &[u8]) -> Result<(), NoMemory> {
    let (_, rest) = split_digits(word);
    match rest {
        [b'*', piece @ ..] => push_times(text, piece, long_number_in(word)),
        _ => text.push(word),
    }
}

fn built(alloc: Global, given: &[u8]) -> Result<Blob, NoMemory> {
    let mut text = Blob::new(alloc);
    for word in given.split(|byte| *byte == b' ') {
        push_piece(&mut text, word)?;
    }
    Ok(text)
}

fn add_names(alloc: Global, doc: &Doc<'_>, lines: &mut Lines) -> Result<(), NoMemory> {
    let names = doc.last_members(alloc, doc.root())?.len();
    lines.add_number(", names ", names as u64);
    lines.add(", a");
    add_found(doc, doc.member(doc.root(), b"a"), lines);
    Ok(())
}

fn add_outline(alloc: Global, doc: &Doc<'_>, lines: &mut Lines) {
    add_value(doc, doc.root(), lines);
    match doc.kind(doc.root()) {
        Kind::Text => lines.add_number(", bytes ", doc.text_len(doc.root()) as u64),
        Kind::Map => {
            let added = add_names(alloc, doc, lines);
            note(lines, added);
        }
        _ => lines.add_number(", levels ", doc.nesting(doc.root()) as u64),
    }
}

fn add_read(alloc: Global, text: &[u8], lines: &mut Lines) {
    match read(alloc, text) {
        Ok(doc) => add_outline(alloc, &doc, lines),
        Err(error) => add_refusal(error, lines),
    }
}

/// What comes of a text of pieces.
pub(crate) fn add_built(alloc: Global, given: &[u8], lines: &mut Lines) {
    match built(alloc, given) {
        Ok(text) => add_read(alloc, text.bytes(), lines),
        Err(error) => note(lines, Err(error)),
    }
}
