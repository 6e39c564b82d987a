// Commands as texts: a line for what is asked, and below it a line for each part of each item.

use case_text::Lines;
use side_base::{Moment, Text};
use state_core::{Cmd, Item, Items, Keys, Mode, Op, Ops};
use std::alloc::Global;

fn add_etag(lines: &mut Lines, etag: &Option<Text>) {
    if let Some(etag) = etag {
        lines.add_line("etag ", etag.as_str());
    }
}

fn add_mode(lines: &mut Lines, mode: Mode) {
    match mode {
        Mode::Unsaid => {}
        Mode::FirstWrite => lines.add("first write\n"),
        Mode::LastWrite => lines.add("last write\n"),
    }
}

fn add_ttl(lines: &mut Lines, ttl: Option<u64>) {
    if let Some(seconds) = ttl {
        lines.add_number_line("lives ", seconds);
    }
}

fn add_key(lines: &mut Lines, key: &Text) {
    lines.add_line("key ", key.as_str());
}

fn add_item(lines: &mut Lines, item: &Item) {
    add_key(lines, &item.key);
    lines.add_bytes("value ", item.value.bytes());
    add_etag(lines, &item.etag);
    add_mode(lines, item.mode);
    add_ttl(lines, item.ttl);
}

fn add_items(lines: &mut Lines, items: &Items) {
    for place in 0..items.len() {
        add_item(lines, items.at(place));
    }
}

fn add_removal(lines: &mut Lines, key: &Text, etag: &Option<Text>, mode: Mode) {
    add_key(lines, key);
    add_etag(lines, etag);
    add_mode(lines, mode);
}

fn add_op(lines: &mut Lines, op: &Op) {
    match op {
        Op::Upsert(item) => {
            lines.add("upsert\n");
            add_item(lines, item);
        }
        Op::Remove { key, etag, mode } => {
            lines.add("remove\n");
            add_removal(lines, key, etag, *mode);
        }
    }
}

fn add_ops(lines: &mut Lines, ops: &Ops) {
    for place in 0..ops.len() {
        add_op(lines, ops.at(place));
    }
}

fn add_keys(lines: &mut Lines, keys: &Keys) {
    for place in 0..keys.len() {
        add_key(lines, keys.at(place));
    }
}

// Adds the moment of a command, if it is not the beginning of 1970.
fn add_moment(lines: &mut Lines, now: Moment) {
    if now.ms() != 0 {
        lines.add_number_line("at ", now.ms());
    }
}

fn add_cmd(lines: &mut Lines, cmd: &Cmd) -> Moment {
    match cmd {
        Cmd::Get { key, now } => {
            lines.add("get\n");
            add_key(lines, key);
            *now
        }
        Cmd::Save { items, now } => {
            lines.add("save\n");
            add_items(lines, items);
            *now
        }
        Cmd::Delete {
            key,
            etag,
            mode,
            now,
        } => {
            lines.add("delete\n");
            add_removal(lines, key, etag, *mode);
            *now
        }
        Cmd::Bulk { keys, skip, now } => {
            lines.add_number_line("bulk, the keys behind ", *skip as u64);
            add_keys(lines, keys);
            *now
        }
        Cmd::Transact { ops, now } => {
            lines.add("transact\n");
            add_ops(lines, ops);
            *now
        }
    }
}

/// A command, as a text.
pub(crate) fn command_text(alloc: Global, cmd: &Cmd) -> Text {
    let mut lines = Lines::new(alloc);
    let now = add_cmd(&mut lines, cmd);
    add_moment(&mut lines, now);
    lines.into_text()
}

/// How many items, keys or operations a command has.
pub(crate) fn count_of(cmd: &Cmd) -> usize {
    match cmd {
        Cmd::Get { .. } | Cmd::Delete { .. } => 1,
        Cmd::Save { items, .. } => items.len(),
        Cmd::Bulk { keys, .. } => keys.len(),
        Cmd::Transact { ops, .. } => ops.len(),
    }
}
