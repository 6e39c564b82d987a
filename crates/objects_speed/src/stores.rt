//! What is measured of stores, and written as lines of standard error.

use crate::clock::now;
use crate::commands::{Kind, command, commands};
use crate::line::{behind, tell};
use crate::shop::Shop;
use std::alloc::Global;
use std::io;
use std::rt::Clock;

/// How many keys are asked for again and again.
const HOT: u32 = 1000;

/// How often.
const ROUNDS: u32 = 100;

/// How many keys all over the rows are asked for, each once if there are as many.
const SPREAD: u32 = 100_000;

/// How the row with this number is stored, of rows of which every other one is stored as is said, and the others without an end.
fn stored_as(number: u32, kind: Kind) -> Kind {
    if number % 2 == 0 { kind } else { Kind::Save }
}

/// Whether a row could be stored.
fn is_stored(alloc: Global, shop: &mut Shop, kind: Kind, number: u32) -> bool {
    match command(alloc, kind, number, 0) {
        Ok(cmd) => shop.ask_once(cmd),
        Err(_) => false,
    }
}

/// Stores so many rows, every other one of them as is said; how many are stored.
fn fill(alloc: Global, shop: &mut Shop, kind: Kind, rows: u32) -> u32 {
    let mut stored: u32 = 0;
    for number in 0..rows {
        let is_stored = is_stored(alloc, shop, stored_as(number, kind), number);
        stored = stored.wrapping_add(u32::from(is_stored));
    }
    stored
}

/// What is asked of a store.
#[derive(Clone, Copy)]
struct Asked {
    /// What the same keys are asked before each round, which is not measured.
    before: Kind,
    kind: Kind,
    /// How many keys are asked in a round.
    keys: u32,
    rounds: u32,
    /// Out of how many rows.
    rows: u32,
}

/// The nanoseconds of the commands of a round, and how many were answered as they were meant.
fn round<R: Clock>(rt: &R, alloc: Global, shop: &mut Shop, asked: Asked, ms: u32) -> (u64, u32) {
    let before = commands(alloc, asked.before, asked.keys, asked.rows, ms);
    let cmds = commands(alloc, asked.kind, asked.keys, asked.rows, ms);
    let _ = shop.ask_all(&before);
    let begin = now(rt);
    let good = shop.ask_all(&cmds);
    (now(rt).saturating_sub(begin), good)
}

/// The nanoseconds of a command, in rounds of which each is a millisecond later than the one before; 0 where not each was answered as it
/// was meant.
fn time<R: Clock>(rt: &R, alloc: Global, shop: &mut Shop, asked: Asked, ms: u32) -> u64 {
    let mut took: u64 = 0;
    let mut good: u64 = 0;
    for number in 0..asked.rounds {
        let (passed, answered) = round(rt, alloc, shop, asked, ms.saturating_add(number));
        took = took.saturating_add(passed);
        good = good.saturating_add(u64::from(answered));
    }
    let all = u64::from(asked.keys).saturating_mul(u64::from(asked.rounds));
    if good < all { 0 } else { took / all.max(1) }
}

/// The nanoseconds of a command: for few keys that are asked for again and again, and for keys all over the rows.
#[derive(Clone, Copy)]
struct Cost {
    hot: u64,
    spread: u64,
}

/// What a command of this kind costs, which follows one of the kind `before`.
fn cost_of<R: Clock>(
    rt: &R,
    alloc: Global,
    shop: &mut Shop,
    before: Kind,
    kind: Kind,
    rows: u32,
    ms: u32,
) -> Cost {
    let asked = Asked {
        before,
        kind,
        keys: HOT,
        rounds: ROUNDS,
        rows,
    };
    let hot = time(rt, alloc, shop, asked, ms);
    let asked = Asked {
        keys: SPREAD,
        rounds: 1,
        ..asked
    };
    let spread = time(rt, alloc, shop, asked, ms.saturating_add(ROUNDS));
    Cost { hot, spread }
}

/// How many rows were stored, and what a get costs among them, and then a save.
#[derive(Clone, Copy)]
struct Costs {
    stored: u32,
    get: Cost,
    save: Cost,
}

/// Stores so many rows, every other one of them as is said, and measures a get and such a save. Each measure begins later than the one before it has ended,
/// since a store takes no moment back.
fn costs_of<R: Clock>(rt: &R, alloc: Global, shop: &mut Shop, kind: Kind, rows: u32) -> Costs {
    Costs {
        stored: fill(alloc, shop, kind, rows),
        get: cost_of(rt, alloc, shop, Kind::Get, Kind::Get, rows, 0),
        save: cost_of(rt, alloc, shop, Kind::Get, kind, rows, 2 * ROUNDS),
    }
}

fn tell_lasting<R: Eprint>(rt: &R, costs: Costs) -> io::Result<()> {
    let (get, save) = (costs.get, costs.save);
    let parts = [
        behind("", u64::from(costs.stored)),
        behind(" rows: get ", get.hot),
        behind(" ns, save ", save.hot),
        behind(" ns; keys all over: ", get.spread),
        behind(" and ", save.spread),
    ];
    tell(rt, &parts, " ns")
}

fn tell_ending<R: Eprint>(rt: &R, costs: Costs, taken: Cost) -> io::Result<()> {
    let (get, given) = (costs.get, costs.save);
    let parts = [
        behind("", u64::from(costs.stored)),
        behind(" rows, half of them about to expire: get ", get.hot),
        behind(" ns, a save that gives an end ", given.hot),
        behind(" ns, one that takes it away ", taken.hot),
        behind(" ns; keys all over: ", get.spread),
        behind(", ", given.spread),
        behind(" and ", taken.spread),
    ];
    tell(rt, &parts, " ns")
}

/// What gets and saves cost among so many rows without an end.
pub(crate) fn lasting<R: Clock + Eprint>(rt: &R, alloc: Global, rows: u32) -> io::Result<()> {
    let mut shop = Shop::new(alloc);
    let costs = costs_of(rt, alloc, &mut shop, Kind::Save, rows);
    drop(shop);
    tell_lasting(rt, costs)
}

/// The same among so many rows of which every other one is about to expire: a save that gives its row an end, and one that takes it away.
pub(crate) fn ending<R: Clock + Eprint>(rt: &R, alloc: Global, rows: u32) -> io::Result<()> {
    let (ending, lasting) = (Kind::SaveEnding, Kind::Save);
    let mut shop = Shop::new(alloc);
    let costs = costs_of(rt, alloc, &mut shop, ending, rows);
    let taken = cost_of(rt, alloc, &mut shop, ending, lasting, rows, 4 * ROUNDS);
    drop(shop);
    tell_ending(rt, costs, taken)
}
