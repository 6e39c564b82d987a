// What a keeper has.

use crate::saving::{save, save_again};
use crate::words::{add_kept, text};
use case_text::{Lines, Section};
use keeper_core::{Keeper, RowView};
use std::alloc::Global;

fn add_found(lines: &mut Lines, value: &[u8], version: u64, until: u64) {
    lines.add(text(value));
    lines.add_number(";", version);
    lines.add_number(";", until);
}

/// Says a row: its value, the version of its write, and its end.
fn add_row(lines: &mut Lines, row: Option<RowView<'_>>) {
    match row {
        Some(row) => add_found(lines, row.value, row.version, row.until),
        None => lines.add("none"),
    }
}

fn add_lapsed(lines: &mut Lines, key: Option<&[u8]>) {
    match key {
        Some(key) => lines.add(text(key)),
        None => lines.add("none"),
    }
}

/// Makes the call that a section is, and says what came of it.
pub(crate) fn add_call<K: Keeper>(
    alloc: Global,
    keeper: &mut K,
    section: &Section<'_>,
    lines: &mut Lines,
) {
    match section.word {
        "save" => add_kept(lines, save(alloc, keeper, section.name.as_bytes())),
        "save-again" => add_kept(lines, save_again(alloc, keeper, section.name.as_bytes())),
        "row" => add_row(lines, keeper.find(section.name.as_bytes())),
        "next" => lines.add_number("", keeper.next_version()),
        "lapsed" => add_lapsed(lines, keeper.next_lapsed(None, u64::MAX)),
        _ => lines.add("no call of a keeper"),
    }
}

fn add_keyed(lines: &mut Lines, key: &str, row: Option<RowView<'_>>) {
    lines.add(key);
    lines.add("=");
    add_row(lines, row);
    lines.add(" ");
}

/// Says what each of some keys has, and the next version.
pub(crate) fn add_rows<K: Keeper>(lines: &mut Lines, keeper: &K, keys: &str) {
    for key in keys.split(' ') {
        add_keyed(lines, key, keeper.find(key.as_bytes()));
    }
    lines.add_number("next=", keeper.next_version());
}
