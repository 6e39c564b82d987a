// JSON texts: what is asked of them, or why they are refused.

use crate::asked::parts;
use crate::members::{
    add_last, add_levels, add_member, add_name, add_name_is, add_text, add_text_is,
};
use crate::told::note;
use case_text::Lines;
use json_text::{Doc, JsonErr, Kind, Node, read};
use side_base::NoMemory;
use std::alloc::Global;

fn kind_word(kind: Kind) -> &'static str {
    match kind {
        Kind::Null => "null",
        Kind::Flag { on: true } => "true",
        Kind::Flag { on: false } => "false",
        Kind::Number => "number",
        Kind::Text => "text",
        Kind::List => "list",
        Kind::Map => "map",
    }
}

/// The places of a value.
fn add_span(doc: &Doc<'_>, node: Node, lines: &mut Lines) {
    if doc.is_node(node) {
        let (start, end) = doc.span(node);
        lines.add_number(" ", start as u64);
        lines.add_number("-", end as u64);
    }
}

/// The places of a value that was found, or else that there is none.
pub(crate) fn add_found(doc: &Doc<'_>, found: Option<Node>, lines: &mut Lines) {
    match found {
        Some(node) => add_span(doc, node, lines),
        None => lines.add(" none"),
    }
}

/// The kind and the places of a value.
pub(crate) fn add_value(doc: &Doc<'_>, node: Node, lines: &mut Lines) {
    if doc.is_node(node) {
        lines.add(kind_word(doc.kind(node)));
        add_span(doc, node, lines);
    }
}

// What is left to be told: values, each with its level.
type Left = Vec<(Node, u32)>;

fn push_found(left: &mut Left, found: Option<Node>, level: u32) -> Result<(), NoMemory> {
    match found {
        Some(node) => Ok(left.push((node, level))?),
        None => Ok(()),
    }
}

fn push_others(doc: &Doc<'_>, left: &mut Left, node: Node, level: u32) -> Result<(), NoMemory> {
    if doc.is_node(node) {
        push_found(left, doc.next(node), level)?;
        push_found(left, doc.first(node), level.saturating_add(1))?;
    }
    Ok(())
}

fn add_level(level: u32, lines: &mut Lines) {
    if level > 0 {
        lines.add(", ");
    }
    for _ in 0..level {
        lines.add(".");
    }
}

// All values, in order, each with a dot for each list and map that it stands in.
fn add_all(alloc: Global, doc: &Doc<'_>, lines: &mut Lines) -> Result<(), NoMemory> {
    let mut left: Left = Vec::new(alloc);
    left.push((doc.root(), 0))?;
    for _ in 0..u64::MAX {
        match left.pop() {
            Some((node, level)) => {
                add_level(level, lines);
                add_value(doc, node, lines);
                push_others(doc, &mut left, node, level)?;
            }
            None => return Ok(()),
        }
    }
    Ok(())
}

/// Why a text is refused.
pub(crate) fn add_refusal(error: JsonErr, lines: &mut Lines) {
    match error {
        JsonErr::Bad { at } => lines.add_number("Bad ", at as u64),
        JsonErr::Deep { at } => lines.add_number("Deep ", at as u64),
        JsonErr::NoMemory => note(lines, Err(NoMemory)),
    }
}

fn add_tree(alloc: Global, doc: &Doc<'_>, lines: &mut Lines) {
    let added = add_all(alloc, doc, lines);
    note(lines, added);
}

/// What is asked of a text of JSON, of some beside other bytes.
#[derive(Clone, Copy)]
pub(crate) enum Asked {
    Tree,
    Text,
    Name,
    Last,
    Member,
    TextIs,
    NameIs,
    Levels,
}

/// What sections of this word ask of a text of JSON, if they are any that do.
pub(crate) fn asked_by(word: &str) -> Option<Asked> {
    match word {
        "json" => Some(Asked::Tree),
        "text" => Some(Asked::Text),
        "name" => Some(Asked::Name),
        "last" => Some(Asked::Last),
        "member" => Some(Asked::Member),
        "text-is" => Some(Asked::TextIs),
        "name-is" => Some(Asked::NameIs),
        "levels" => Some(Asked::Levels),
        _ => None,
    }
}

// The text, and the bytes beside it.
fn text_and_other(asked: Asked, given: &[u8]) -> (&[u8], &[u8]) {
    match asked {
        Asked::Member | Asked::TextIs | Asked::NameIs | Asked::Levels => parts(given),
        Asked::Tree | Asked::Text | Asked::Name | Asked::Last => (given, b""),
    }
}

fn add_of(alloc: Global, asked: Asked, doc: &Doc<'_>, other: &[u8], lines: &mut Lines) {
    match asked {
        Asked::Tree => add_tree(alloc, doc, lines),
        Asked::Text => add_text(alloc, doc, lines),
        Asked::Name => add_name(alloc, doc, lines),
        Asked::Last => add_last(alloc, doc, lines),
        Asked::Member => add_member(doc, other, lines),
        Asked::TextIs => add_text_is(doc, other, lines),
        Asked::NameIs => add_name_is(doc, other, lines),
        Asked::Levels => add_levels(doc, other, lines),
    }
}

/// The answer of a text, or why it is refused.
pub(crate) fn add_asked(alloc: Global, asked: Asked, given: &[u8], lines: &mut Lines) {
    let (text, other) = text_and_other(asked, given);
    match read(alloc, text) {
        Ok(doc) => add_of(alloc, asked, &doc, other, lines),
        Err(error) => add_refusal(error, lines),
    }
}
