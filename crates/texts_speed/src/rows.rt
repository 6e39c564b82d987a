//! What is measured: rows of requests, and parts of the work with them.
use side_base::NoMemory;
use std::alloc::Global;

/// A row of what is measured: requests with this head and so many bytes of content, of which so many come together.
#[derive(Clone, Copy)]
pub(crate) struct Row {
    pub(crate) name: &'static str,
    pub(crate) head: &'static [u8],
    pub(crate) content: usize,
    pub(crate) group: u32,
}

/// How far the work with a request goes.
#[derive(Clone, Copy)]
pub(crate) struct Part {
    pub(crate) name: &'static str,
    /// A framer is fed, and gives it; else `httparse` alone reads its head.
    pub(crate) is_framed: bool,
    /// Its route is found.
    pub(crate) is_routed: bool,
    /// A response is written.
    pub(crate) is_answered: bool,
}

const GET: &[u8] = b"GET /v1.0/state/statestore/a HTTP/1.1\r\nHost: a\r\n\r\n";

/// The head of a save of a text of 100 bytes, which stands in 24 bytes of JSON.
const SAVE_100: &[u8] =
    b"POST /v1.0/state/statestore HTTP/1.1\r\nHost: a\r\nContent-Length: 124\r\n\r\n";

/// The head of a save of a text of 16,384 bytes.
const SAVE_16384: &[u8] =
    b"POST /v1.0/state/statestore HTTP/1.1\r\nHost: a\r\nContent-Length: 16408\r\n\r\n";

/// The rows that are measured, unless a word names one of them.
pub(crate) const ROWS: &[Row] = &[
    Row {
        name: "get",
        head: GET,
        content: 0,
        group: 1,
    },
    Row {
        name: "save-100",
        head: SAVE_100,
        content: 124,
        group: 1,
    },
    Row {
        name: "save-16384",
        head: SAVE_16384,
        content: 16_408,
        group: 1,
    },
    Row {
        name: "16-gets",
        head: GET,
        content: 0,
        group: 16,
    },
    Row {
        name: "16-saves-100",
        head: SAVE_100,
        content: 124,
        group: 16,
    },
    Row {
        name: "16-saves-16384",
        head: SAVE_16384,
        content: 16_408,
        group: 16,
    },
];

/// The parts that are measured, unless a word names one of them.
pub(crate) const PARTS: &[Part] = &[
    Part {
        name: "heads",
        is_framed: false,
        is_routed: false,
        is_answered: false,
    },
    Part {
        name: "frames",
        is_framed: true,
        is_routed: false,
        is_answered: false,
    },
    Part {
        name: "routes",
        is_framed: true,
        is_routed: true,
        is_answered: false,
    },
    Part {
        name: "whole",
        is_framed: true,
        is_routed: true,
        is_answered: true,
    },
];

/// Whether this is the name of a row, or `json`.
fn is_row(name: &str) -> bool {
    for row in ROWS {
        if row.name == name {
            return true;
        }
    }
    name == "json"
}

/// Whether this is the name of a part.
fn is_part(name: &str) -> bool {
    for part in PARTS {
        if part.name == name {
            return true;
        }
    }
    false
}

/// Whether the second word is a row and the third a part, as far as there are such.
pub(crate) fn are_known(words: &[String]) -> bool {
    let is_row = match words.get(2) {
        Some(word) => is_row(word.as_str()),
        None => true,
    };
    let is_part = match words.get(3) {
        Some(word) => is_part(word.as_str()),
        None => true,
    };
    is_row && is_part
}

/// Whether the word at a place is this name, or there is none.
pub(crate) fn is_wanted(words: &[String], place: usize, name: &str) -> bool {
    match words.get(place) {
        Some(word) => word.as_str() == name,
        None => true,
    }
}

fn push_request(bytes: &mut Vec<u8>, row: &Row) -> Result<(), NoMemory> {
    bytes.extend_from_slice(row.head)?;
    bytes.resize(bytes.len().saturating_add(row.content), b'x')?;
    Ok(())
}

/// The requests of a row that come together, one behind the other.
pub(crate) fn together(alloc: Global, row: &Row) -> Result<Vec<u8>, NoMemory> {
    let mut bytes = Vec::new(alloc);
    for _ in 0..row.group {
        push_request(&mut bytes, row)?;
    }
    Ok(bytes)
}
