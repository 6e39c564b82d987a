// A store's history, played step by step.
ghost use Rattle.std.specs.Prelude.{◌<◌, ◌^◌};
ghost use Rattle.state_core.specs.Store.{IsReached};
ghost use Rattle.state_core.specs.Taken.{IsTaken};

use crate::store_text::{count_text, reply_text};
use crate::store_words::cmd_of;
use crate::taken::is_taken;
use crate::words::{failing, first_moment, moment_behind, number};
use case_text::{Lines, Section, first_word, name_in, text_of};
use keeper_core::{ChangeList, Changes, Keeper, MemoryKeeper};
use side_base::{Moment, Text};
use state_core::{Cmd, Reply, Store};
use std::alloc::Global;
use turn_cell::Object;

/// The greatest size of a store whose case gives none.
const LIMIT: u64 = 268_435_456;

/// The secret bytes of the hash of keys.
const SECRET: [u8; 16] = [7; 16];

// Moves the next version of a keeper without rows up to this one.
fn set_next(alloc: Global, keeper: &mut MemoryKeeper, next: u64) {
    if keeper.next_version() < next && next <= 1 << 62 {
        let _ = keeper.commit(Changes {
            list: ChangeList::new(alloc),
            next,
        });
    }
}

fn limit_in(words: &str) -> u64 {
    if words.is_empty() {
        LIMIT
    } else {
        number(words)
    }
}

// A keeper without rows: behind the word that begins a case stand its limit and its next version.
fn keeper(alloc: Global, sections: &[Section<'_>]) -> MemoryKeeper {
    let (limit, next) = first_word(name_in(sections, "store").unwrap_or(""));
    let mut keeper = MemoryKeeper::new(alloc, limit_in(limit), failing(alloc, sections), SECRET);
    set_next(alloc, &mut keeper, number(next));
    keeper
}

// A store of the keeper's rows.
fn fresh<K: Keeper>(alloc: Global, keeper: K) -> Store<K>
    ensures { IsReached K.Keeper result }
{
    Store::new(alloc, keeper)
}

// Gives a store a command that may be given.
fn applied<K: Keeper>(store: &mut Store<K>, cmd: &Cmd) -> Reply
    requires reached { IsReached K.Keeper store.old }
    requires taken { IsTaken cmd.now }
    requires room { ⟦<Store<K> as Object>⟧.used store.old < 2 ^ 62 }
    ensures { IsReached K.Keeper store.new }
{
    store.apply(cmd)
}

// Gives a store a command, if it may be given.
fn asks<K: Keeper>(store: &mut Store<K>, cmd: &Cmd) -> Option<Reply>
    requires { IsReached K.Keeper store.old }
    ensures { IsReached K.Keeper store.new }
{
    if !is_taken(cmd) {
        return None;
    }
    if store.used() >= 1 << 62 {
        return None;
    }
    Some(applied(store, cmd))
}

// The reply to a command, as a text, and the store behind it.
fn told<K: Keeper>(alloc: Global, mut store: Store<K>, cmd: &Cmd, word: &str) -> (Text, Store<K>)
    requires { IsReached K.Keeper store }
    ensures { IsReached K.Keeper result.1 }
{
    let reply = asks(&mut store, cmd);
    (told_text(alloc, &reply, word), store)
}

fn told_text(alloc: Global, reply: &Option<Reply>, word: &str) -> Text {
    match reply {
        Some(reply) => {
            if word == "bulk-count" {
                count_text(alloc, reply)
            } else {
                reply_text(alloc, reply)
            }
        }
        None => Text::from_static(alloc, "not taken\n"),
    }
}

// Of these keys those that a keeper has.
fn keys_text<K: Keeper>(alloc: Global, keeper: &K, words: &str) -> Text {
    let mut lines = Lines::new(alloc);
    for word in words.split(' ') {
        if keeper.find(word.as_bytes()).is_some() {
            lines.add_line("", word);
        }
    }
    lines.into_text()
}

// Of these keys those that a store's keeper has, whether their rows live or not, and a store that begins anew with that keeper.
fn kept<K: Keeper>(alloc: Global, store: Store<K>, words: &str) -> (Text, Store<K>)
    ensures { IsReached K.Keeper result.1 }
{
    let keeper = store.into_keeper();
    let text = keys_text(alloc, &keeper, words);
    (text, fresh(alloc, keeper))
}

// What another step than a command comes to.
fn other_step<K: Keeper>(alloc: Global, store: Store<K>, section: &Section<'_>) -> (Text, Store<K>)
    requires { IsReached K.Keeper store }
    ensures { IsReached K.Keeper result.1 }
{
    if section.word == "kept" {
        kept(alloc, store, section.name)
    } else {
        (Text::from_static(alloc, "no such step\n"), store)
    }
}

// What a section's step comes to, and the store behind it.
fn step<K: Keeper>(
    alloc: Global,
    store: Store<K>,
    section: &Section<'_>,
    now: Moment,
) -> (Text, Store<K>)
    requires { IsReached K.Keeper store }
    ensures { IsReached K.Keeper result.1 }
{
    match cmd_of(alloc, section.word, section.name, now) {
        Some(cmd) => told(alloc, store, &cmd, section.word),
        None => other_step(alloc, store, section),
    }
}

fn is_given(word: &str) -> bool {
    match word {
        "store" | "failing" | "at" => true,
        _ => false,
    }
}

// Plays a section, if it is a step, and compares.
fn turn<K: Keeper>(
    alloc: Global,
    store: Store<K>,
    section: &Section<'_>,
    now: Moment,
    lines: &mut Lines,
) -> Store<K>
    requires { IsReached K.Keeper store }
    ensures { IsReached K.Keeper result }
{
    if is_given(section.word) {
        return store;
    }
    let (told, next) = step(alloc, store, section, now);
    lines.compare(section.word, text_of(alloc, section).bytes(), told.bytes());
    next
}

// Plays the steps of a case over a store. `at` sets the moment of those that follow.
fn steps<K: Keeper>(alloc: Global, mut store: Store<K>, sections: &[Section<'_>], lines: &mut Lines)
    requires { IsReached K.Keeper store }
{
    let mut now = first_moment();
    for section in sections {
        now = moment_behind(section, now);
        store = turn(alloc, store, section, now, lines);
    }
}

/// Plays the steps of a case over a store of its own.
pub(crate) fn play_store(alloc: Global, sections: &[Section<'_>], lines: &mut Lines) {
    let store = fresh(alloc, keeper(alloc, sections));
    steps(alloc, store, sections, lines);
}
