// Replies of a store as texts.

use crate::words::add_len;
use case_text::Lines;
use side_base::{Blob, Places, Text};
use state_core::{BulkRow, Reply, Rows};
use std::alloc::Global;

// A row, as `value#version`.
fn add_row(lines: &mut Lines, value: &Blob, version: u64) {
    lines.add(str::from_utf8(value.bytes()).unwrap_or("no text"));
    lines.add_number("#", version);
}

// A row of a bulk get, as `key=value#version`, or the key alone.
fn add_bulk_row(lines: &mut Lines, row: &BulkRow) {
    lines.add(":");
    lines.add(row.key.as_str());
    if let Some(found) = &row.found {
        lines.add("=");
        add_row(lines, &found.value, found.version);
    }
}

fn add_rows(lines: &mut Lines, rows: &Rows) {
    lines.add("rows");
    for place in 0..rows.len() {
        add_bulk_row(lines, rows.at(place));
    }
}

fn add_places(lines: &mut Lines, places: &Places) {
    lines.add("refused");
    for place in 0..places.len() {
        lines.add_number(":", u64::from(*places.at(place)));
    }
}

fn add_reply(lines: &mut Lines, reply: &Reply) {
    match reply {
        Reply::Value { value, version } => add_row(lines, value, *version),
        Reply::Absent => lines.add("absent"),
        Reply::Saved => lines.add("saved"),
        Reply::SomeRefused { places } => add_places(lines, places),
        Reply::Deleted => lines.add("deleted"),
        Reply::Mismatch { place } => lines.add_number("mismatch:", u64::from(*place)),
        Reply::Rows { rows } => add_rows(lines, rows),
        Reply::TooLong { len } => add_len(lines, "long:", *len),
        Reply::Committed => lines.add("committed"),
        Reply::Failed => lines.add("failed"),
        Reply::Full { len } => add_len(lines, "full:", *len),
        Reply::Spent { next } => lines.add_number("spent:", *next),
        Reply::NoMemory => lines.add("memory"),
    }
}

/// A reply, as `value#version`, `absent`, `saved` or `refused:0:2`.
pub(crate) fn reply_text(alloc: Global, reply: &Reply) -> Text {
    let mut lines = Lines::new(alloc);
    add_reply(&mut lines, reply);
    lines.add("\n");
    lines.into_text()
}

/// How many rows a reply has.
pub(crate) fn count_text(alloc: Global, reply: &Reply) -> Text {
    let mut lines = Lines::new(alloc);
    match reply {
        Reply::Rows { rows } => lines.add_number_line("", rows.len() as u64),
        _ => lines.add("no rows\n"),
    }
    lines.into_text()
}
