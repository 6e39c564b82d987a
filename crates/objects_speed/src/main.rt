//! Measures what a save and a get of a store in memory cost, and what it costs a ledger to accept, take and settle a message, among few rows and among many;
//! how many calls a second a turn cell takes, and how late the latest are, beside a `Mutex` round the same object; and what an append to a journal over a file
//! costs, beside as many syncs behind two plain writes.
#![tactic(auto)]

mod appends;
mod callers;
mod cells;
mod clock;
mod commands;
mod counter;
mod journals;
mod ledgers;
mod line;
mod messages;
mod queue;
mod shop;
mod stores;

use std::{env, io};

/// Rows of the larger store, where the first word is no other number.
const STORED: u32 = 2000;

/// Rows of the smaller one.
const FEW_STORED: u32 = 1000;

/// Rows that are owed in the larger ledger, where the second word is no other number.
const OWED: u32 = 1000;

/// Rows in the smaller one.
const FEW_OWED: u32 = 100;

/// Calls of all threads of a row, where the third word is no other number.
const CALLS: u32 = 1600;

/// Appends of each kind in a round, where the fourth word is no other number.
const APPENDS: u32 = 10;

/// Rounds of appends, each of them with both kinds in turn.
const ROUNDS: u32 = 3;

/// The number that the word at a place is, or else this one.
fn number_at(words: &[String], place: usize, other: u32) -> u32 {
    match words.get(place) {
        Some(word) => word.parse().unwrap_or(other),
        None => other,
    }
}

/// How much is measured.
#[derive(Clone, Copy)]
struct Sizes {
    stored: u32,
    owed: u32,
    calls: u32,
    appends: u32,
}

/// How much is measured, by the words of the command line.
fn sizes_of(rt: &HostRuntime) -> io::Result<Sizes> {
    let words: Vec<String> = env::args(rt)?.collect(rt.alloc())?;
    Ok(Sizes {
        stored: number_at(&words, 1, STORED),
        owed: number_at(&words, 2, OWED),
        calls: number_at(&words, 3, CALLS),
        appends: number_at(&words, 4, APPENDS),
    })
}

fn measure_stores(rt: &HostRuntime, rows: u32) -> io::Result<()> {
    stores::lasting(rt, rt.alloc(), FEW_STORED)?;
    stores::lasting(rt, rt.alloc(), rows)?;
    stores::ending(rt, rt.alloc(), FEW_STORED)?;
    stores::ending(rt, rt.alloc(), rows)
}

fn measure_ledgers(rt: &HostRuntime, rows: u32) -> io::Result<()> {
    ledgers::among(rt, rt.alloc(), FEW_OWED)?;
    ledgers::among(rt, rt.alloc(), rows)
}

fn measure_journals(rt: &HostRuntime, appends: u32) -> io::Result<()> {
    for _ in 0..ROUNDS {
        journals::round(rt, rt.alloc(), appends)?;
    }
    Ok(())
}

fn main(rt: HostRuntime) -> io::Result<()> {
    let sizes = sizes_of(&rt)?;
    measure_stores(&rt, sizes.stored)?;
    measure_ledgers(&rt, sizes.owed)?;
    cells::beside(&rt, rt.alloc(), sizes.calls)?;
    cells::held(&rt, rt.alloc(), rt)?;
    measure_journals(&rt, sizes.appends)
}
