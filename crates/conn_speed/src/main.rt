//! Measures what a request costs over one connection in memory: a get, a save of 100 bytes and a save of 16 KiB, alone, 16 at a time, and each on a connection of its own.
#![tactic(auto)]

mod devices;
mod measures;
mod requests;

use requests::{Asked, Kind};
use std::{env, io};

/// How many requests of each row are made, where no argument is another number.
const REQUESTS: u32 = 1600;

/// What is measured, unless an argument names one of these rows.
const ROWS: [Asked; 8] = [
    Asked {
        name: "get",
        kind: Kind::Get,
        group: 1,
        is_apart: false,
    },
    Asked {
        name: "save-100",
        kind: Kind::Save(100),
        group: 1,
        is_apart: false,
    },
    Asked {
        name: "save-16384",
        kind: Kind::Save(16_384),
        group: 1,
        is_apart: false,
    },
    Asked {
        name: "16-gets",
        kind: Kind::Get,
        group: 16,
        is_apart: false,
    },
    Asked {
        name: "16-saves-100",
        kind: Kind::Save(100),
        group: 16,
        is_apart: false,
    },
    Asked {
        name: "16-saves-16384",
        kind: Kind::Save(16_384),
        group: 16,
        is_apart: false,
    },
    Asked {
        name: "get-apart",
        kind: Kind::Get,
        group: 1,
        is_apart: true,
    },
    Asked {
        name: "save-100-apart",
        kind: Kind::Save(100),
        group: 1,
        is_apart: true,
    },
];

/// The row of this name.
fn named(word: &str) -> Option<Asked> {
    for asked in ROWS {
        if asked.name == word {
            return Some(asked);
        }
    }
    None
}

fn main(rt: HostRuntime) -> io::Result<()> {
    let alloc = rt.alloc();
    let mut requests = REQUESTS;
    let mut only = None;
    for word in env::args(&rt)? {
        if let Ok(number) = word.parse() {
            requests = number;
        }
        if let Some(asked) = named(word.as_str()) {
            only = Some(asked);
        }
    }
    if let Some(asked) = only {
        return measures::tell(&rt, alloc, asked, requests);
    }
    for asked in ROWS {
        measures::tell(&rt, alloc, asked, requests)?;
    }
    Ok(())
}
