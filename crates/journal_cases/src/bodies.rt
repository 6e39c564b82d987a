// Bodies: those of a journal, and one read as a commit and written again.
ghost use Rattle.std.specs.Prelude.{◌<◌, ◌^◌};
ghost use Rattle.keeper_journal.specs.Body.{body_len};

use crate::words::text;
use case_text::Lines;
use disk_journal::Bodies;
use keeper_core::{Change, Changes};
use keeper_journal::{BodyErr, body_len, decode, encode};
use std::alloc::Global;

fn add_bracketed(lines: &mut Lines, bytes: &[u8]) {
    lines.add("[");
    lines.add(text(bytes));
    lines.add("]");
}

/// Says bodies in their order, each in brackets, or `none`.
pub(crate) fn add_bodies(lines: &mut Lines, bodies: &Bodies) {
    if bodies.is_empty() {
        lines.add("none");
    }
    for place in 0..bodies.len() {
        add_bracketed(lines, bodies.at(place).bytes());
    }
}

// Whether changes are written as these bytes; `None` where memory lacks.
fn are_written_as(alloc: Global, list: &[Change], next: u64, body: &[u8]) -> Option<bool>
    requires { body_len list.now < 2 ^ 32 }
{
    match encode(alloc, list, next) {
        Ok(written) => Some(written.bytes() == body),
        Err(_) => None,
    }
}

fn written_as(alloc: Global, list: &[Change], next: u64, body: &[u8]) -> Option<bool> {
    if body_len(list) < 1 << 32 {
        are_written_as(alloc, list, next, body)
    } else {
        None
    }
}

fn how_written(is_same: Option<bool>) -> &'static str {
    match is_same {
        Some(true) => ", and so written",
        Some(false) => ", and written otherwise",
        None => ", and no memory",
    }
}

fn add_read(alloc: Global, lines: &mut Lines, changes: Changes, body: &[u8]) {
    let Changes { list, next } = changes;
    let list = list.into_vec();
    lines.add_number("next ", next);
    lines.add_number(", changes ", list.len() as u64);
    lines.add(how_written(written_as(alloc, &list, next, body)));
}

/// Says of the commit whose body this is its next version, how many changes it has, and whether they are written so.
pub(crate) fn add_commit(alloc: Global, lines: &mut Lines, body: &[u8]) {
    match decode(alloc, body) {
        Ok(changes) => add_read(alloc, lines, changes, body),
        Err(BodyErr::NotABody) => lines.add("no body"),
        Err(BodyErr::NoMemory) => lines.add("no memory"),
    }
}
