// What a section asks, answered.

use crate::found::{add_at, add_document, add_get};
use crate::tree::add_tree;
use case_text::{Lines, Section};
use side_base::Text;
use std::alloc::Global;
use yaml_subset::{Docs, YamlErr};

// The answer to a section, of a file that is read.
fn add_found(alloc: Global, docs: &Docs, section: &Section<'_>, lines: &mut Lines) {
    match section.word {
        "tree" => add_tree(docs, lines),
        "count" => lines.add_number_line("", docs.count() as u64),
        "doc" => add_document(docs, section.name, lines),
        "get" => add_get(docs, section.name, lines),
        "at" => add_at(alloc, docs, section.name, lines),
        "refused" | "told" => lines.add_line("read", ""),
        _ => lines.add_line("no such section", ""),
    }
}

// With which byte that begins which is left out.
fn add_byte(error: &YamlErr, lines: &mut Lines) {
    match error {
        YamlErr::LeftOut { what, .. } => {
            lines.add(" at ");
            lines.add(str::from_utf8(&[*what]).unwrap_or("a byte"));
        }
        _ => {}
    }
}

// How a file is refused.
fn add_refusal(alloc: Global, error: &YamlErr, lines: &mut Lines) {
    let text = error
        .text(alloc)
        .unwrap_or(Text::from_static(alloc, "no memory"));
    lines.add(text.as_str());
    drop(text);
    add_byte(error, lines);
    lines.add("\n");
}

// The text of a refusal.
fn add_told(alloc: Global, error: &YamlErr, lines: &mut Lines) {
    lines.add_told(alloc, error);
    lines.add("\n");
}

// The answer to a section, of a file that is refused.
fn add_why(alloc: Global, error: &YamlErr, section: &Section<'_>, lines: &mut Lines) {
    match section.word {
        "told" => add_told(alloc, error, lines),
        "refused" => add_refusal(alloc, error, lines),
        "tree" | "count" | "doc" | "get" | "at" => lines.add_line("refused", ""),
        _ => lines.add_line("no such section", ""),
    }
}

/// The answer to a section.
pub(crate) fn add_answer(
    alloc: Global,
    read: &Result<Docs, YamlErr>,
    section: &Section<'_>,
    lines: &mut Lines,
) {
    match read {
        Ok(docs) => add_found(alloc, docs, section, lines),
        Err(error) => add_why(alloc, error, section, lines),
    }
}
