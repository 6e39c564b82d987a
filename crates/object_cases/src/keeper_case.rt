// Commits of a keeper, played one after the other, and what it has then.
ghost use Rattle.std.specs.Prelude.{IsTrue};
ghost use Rattle.keeper_core.specs.Changes.{IsBelow, VersionsAreBelow};

use crate::words::{blob, bytes, digits, failing, first_part, number};
use case_text::{Lines, Section, first_word, name_in, text_of};
use keeper_core::{Change, ChangeList, Changes, KeepErr, Keeper, MemoryKeeper, RowView};
use side_base::{Blob, Text};
use std::alloc::Global;

/// The secret bytes of the hash of keys.
const SECRET: [u8; 16] = [7; 16];

// A put, as `key=value;version;until`, or a removal, as `-key`.
fn change_of(alloc: Global, words: &str) -> Change {
    match words.strip_prefix('-') {
        Some(key) => Change::Remove {
            key: bytes(alloc, key),
        },
        None => {
            let (head, words) = first_part(words);
            let (key, value) = head.split_once('=').unwrap_or((head, ""));
            let (version, until) = first_part(words);
            Change::Put {
                key: bytes(alloc, key),
                value: blob(alloc, value),
                version: number(version),
                until: number(until),
            }
        }
    }
}

// Changes with commas between them.
fn changes_of(alloc: Global, words: &str) -> ChangeList {
    let mut list = ChangeList::new(alloc);
    if !words.is_empty() {
        for word in words.split(',') {
            let _ = list.push(change_of(alloc, word));
        }
    }
    list
}

fn numbered_key(alloc: Global, each: u64) -> Blob {
    blob(alloc, digits(alloc, each.saturating_add(100_000)).as_str())
}

// A put of an empty row that ends at 1, under a key of each number below `count` and 100,000 more.
fn numbered_puts(alloc: Global, count: u64) -> ChangeList {
    let mut list = ChangeList::new(alloc);
    for each in 0..count.min(1_000_000) {
        let _ = list.push(Change::Put {
            key: numbered_key(alloc, each),
            value: Blob::new(alloc),
            version: 1,
            until: 1,
        });
    }
    list
}

// A removal of the key of each such number that is no multiple of a hundred.
fn numbered_removals(alloc: Global, count: u64) -> ChangeList {
    let mut list = ChangeList::new(alloc);
    for each in 0..count.min(1_000_000) {
        if each % 100 != 0 {
            let _ = list.push(Change::Remove {
                key: numbered_key(alloc, each),
            });
        }
    }
    list
}

// Whether a change puts a version below `next`.
fn is_below(next: u64, change: &Change) -> bool
    ensures { IsTrue result → IsBelow next change.now }
{
    match change {
        Change::Put { version, .. } => *version < next,
        Change::Remove { .. } => true,
    }
}

fn are_below(next: u64, list: &ChangeList) -> bool
    ensures { IsTrue result → VersionsAreBelow next list.now }
{
    for i in 0..list.len() {
        if !is_below(next, list.at(i)) {
            return false;
        }
    }
    true
}

// Makes changes whose numbers the rules of a commit allow.
fn commit<K: Keeper>(keeper: &mut K, list: ChangeList, next: u64) -> Option<Result<(), KeepErr>> {
    if keeper.next_version() <= next && next <= 1 << 62 && are_below(next, &list) {
        Some(keeper.commit(Changes { list, next }))
    } else {
        None
    }
}

fn add_answer(lines: &mut Lines, answer: Option<Result<(), KeepErr>>) {
    match answer {
        Some(Ok(())) => lines.add("made"),
        Some(Err(KeepErr::Failed)) => lines.add("failed"),
        Some(Err(KeepErr::Full { len })) => {
            lines.add_number("full:", u64::try_from(len).unwrap_or(0))
        }
        Some(Err(KeepErr::NoMemory)) => lines.add("memory"),
        None => lines.add("not allowed"),
    }
}

fn add_row(lines: &mut Lines, row: Option<RowView<'_>>) {
    match row {
        Some(row) => {
            lines.add(str::from_utf8(row.value).unwrap_or("no text"));
            lines.add_number(";", row.version);
            lines.add_number(";", row.until);
        }
        None => lines.add("absent"),
    }
}

fn add_key(lines: &mut Lines, key: Option<&[u8]>) {
    match key {
        Some(key) => lines.add(str::from_utf8(key).unwrap_or("no text")),
        None => lines.add("none"),
    }
}

fn list_by(alloc: Global, word: &str, words: &str) -> ChangeList {
    match word {
        "commit-numbered" => numbered_puts(alloc, number(words)),
        "commit-thinned" => numbered_removals(alloc, number(words)),
        _ => changes_of(alloc, words),
    }
}

// Makes a commit: its next version, and its changes.
fn commit_step(alloc: Global, keeper: &mut MemoryKeeper, section: &Section<'_>, lines: &mut Lines) {
    let (next, words) = first_word(section.name);
    let list = list_by(alloc, section.word, words);
    add_answer(lines, commit(keeper, list, number(next)));
}

// Counts the keys that have lapsed, in their order, and tells the last of them.
fn add_lapsed<K: Keeper>(alloc: Global, lines: &mut Lines, keeper: &K, moment: u64, most: u64) {
    let mut last = Blob::new(alloc);
    let mut count: u64 = 0;
    for each in 0..most {
        let after = if each == 0 { None } else { Some(last.bytes()) };
        match keeper.next_lapsed(after, moment) {
            Some(key) => {
                let copy = key_copy(alloc, key);
                last = copy;
                count = each + 1;
            }
            None => break,
        }
    }
    lines.add_number("", count);
    lines.add(" to ");
    lines.add(str::from_utf8(last.bytes()).unwrap_or("no text"));
}

fn key_copy(alloc: Global, key: &[u8]) -> Blob {
    let mut copy = Blob::new(alloc);
    let _ = copy.push(key);
    copy
}

// The first key behind another, if one is given, whose row has lapsed at a moment.
fn add_next_lapsed<K: Keeper>(alloc: Global, lines: &mut Lines, keeper: &K, section: &Section<'_>) {
    match section.word {
        "lapsed-behind" => {
            let (after, moment) = first_word(section.name);
            let after = bytes(alloc, after);
            add_key(
                lines,
                keeper.next_lapsed(Some(after.bytes()), number(moment)),
            );
        }
        _ => add_key(lines, keeper.next_lapsed(None, number(section.name))),
    }
}

fn step(alloc: Global, keeper: &mut MemoryKeeper, section: &Section<'_>) -> Text {
    let mut lines = Lines::new(alloc);
    match section.word {
        "commit" | "commit-numbered" | "commit-thinned" => {
            commit_step(alloc, keeper, section, &mut lines)
        }
        "row" => add_row(&mut lines, keeper.find(bytes(alloc, section.name).bytes())),
        "next" => lines.add_number("", keeper.next_version()),
        "lapsed" | "lapsed-behind" => add_next_lapsed(alloc, &mut lines, keeper, section),
        "lapsed-all" => add_lapsed(alloc, &mut lines, keeper, number(section.name), 1_000_000),
        _ => lines.add("no such step"),
    }
    lines.add("\n");
    lines.into_text()
}

fn is_given(word: &str) -> bool {
    match word {
        "keeper" | "failing" => true,
        _ => false,
    }
}

// Threads may pass a keeper on.
fn passed_on<T: Send + Sync>(value: T) -> T {
    value
}

/// Plays the steps of a case over a keeper of its own.
pub(crate) fn play_keeper(alloc: Global, sections: &[Section<'_>], lines: &mut Lines) {
    let limit = number(name_in(sections, "keeper").unwrap_or(""));
    let failing = failing(alloc, sections);
    let mut keeper = passed_on(MemoryKeeper::new(alloc, limit, failing, SECRET));
    for section in sections {
        if !is_given(section.word) {
            let told = step(alloc, &mut keeper, section);
            lines.compare(section.word, text_of(alloc, section).bytes(), told.bytes());
        }
    }
}
