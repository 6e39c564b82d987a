//! Measures what it takes to make a command of a request, and a response of a reply: of a get, of saves of 100 bytes and of 16 KiB, and
//! of a bulk get of 100 keys.
#![tactic(auto)]

mod asked;
mod measures;
mod replied;

use asked::Kind;
use measures::{Part, Row};
use std::{env, io};

/// How often each is made, where no argument is another number.
const TIMES: u32 = 100;

/// What is measured, unless an argument names one of these rows.
const ROWS: [Row; 12] = [
    Row {
        name: "command-get",
        part: Part::Command,
        kind: Kind::Get,
    },
    Row {
        name: "command-save-100",
        part: Part::Command,
        kind: Kind::Save(100),
    },
    Row {
        name: "command-save-16384",
        part: Part::Command,
        kind: Kind::Save(16_384),
    },
    Row {
        name: "command-bulk-100",
        part: Part::Command,
        kind: Kind::Bulk(100),
    },
    Row {
        name: "reply-get",
        part: Part::Reply,
        kind: Kind::Get,
    },
    Row {
        name: "reply-save-100",
        part: Part::Reply,
        kind: Kind::Save(100),
    },
    Row {
        name: "reply-save-16384",
        part: Part::Reply,
        kind: Kind::Save(16_384),
    },
    Row {
        name: "reply-bulk-100",
        part: Part::Reply,
        kind: Kind::Bulk(100),
    },
    Row {
        name: "response-get",
        part: Part::Response,
        kind: Kind::Get,
    },
    Row {
        name: "response-save-100",
        part: Part::Response,
        kind: Kind::Save(100),
    },
    Row {
        name: "response-save-16384",
        part: Part::Response,
        kind: Kind::Save(16_384),
    },
    Row {
        name: "response-bulk-100",
        part: Part::Response,
        kind: Kind::Bulk(100),
    },
];

/// The row of this name.
fn named(word: &str) -> Option<Row> {
    for row in ROWS {
        if row.name == word {
            return Some(row);
        }
    }
    None
}

fn main(rt: HostRuntime) -> io::Result<()> {
    let alloc = rt.alloc();
    let mut times = TIMES;
    let mut only = None;
    for word in env::args(&rt)? {
        if let Ok(number) = word.parse() {
            times = number;
        }
        if let Some(row) = named(word.as_str()) {
            only = Some(row);
        }
    }
    if let Some(row) = only {
        return measures::tell(&rt, alloc, row, times);
    }
    for row in ROWS {
        measures::tell(&rt, alloc, row, times)?;
    }
    Ok(())
}
