// Commands of a store as a case names them.

use crate::words::{blob, digits, first_part, long_blob, number, text};
use case_text::first_word;
use side_base::{Blob, Moment, Text};
use state_core::{Cmd, Item, Items, Keys, Mode, Op, Ops};
use std::alloc::Global;

/// What stands behind a key, as `e1;f;t2`: an ETag after `e`, the mode as `f` for a first write and `l` for a last write, and
/// the seconds to live after `t`.
#[derive(Drop)]
struct Terms {
    etag: Option<Text>,
    mode: Mode,
    ttl: Option<u64>,
}

fn add_term(alloc: Global, terms: &mut Terms, word: &str) {
    if word == "f" {
        terms.mode = Mode::FirstWrite;
    } else if word == "l" {
        terms.mode = Mode::LastWrite;
    } else if let Some(etag) = word.strip_prefix('e') {
        terms.etag = Some(text(alloc, etag));
    } else if let Some(seconds) = word.strip_prefix('t') {
        terms.ttl = Some(number(seconds));
    }
}

fn terms_of(alloc: Global, words: &str) -> Terms {
    let mut terms = Terms {
        etag: None,
        mode: Mode::Unsaid,
        ttl: None,
    };
    for word in words.split(';') {
        add_term(alloc, &mut terms, word);
    }
    terms
}

// An item, as `key=value;e1`.
fn item_of(alloc: Global, words: &str) -> Item {
    let (head, words) = first_part(words);
    let (key, value) = head.split_once('=').unwrap_or((head, ""));
    let terms = terms_of(alloc, words);
    Item {
        key: text(alloc, key),
        value: blob(alloc, value),
        etag: terms.etag,
        mode: terms.mode,
        ttl: terms.ttl,
    }
}

fn items_of(alloc: Global, words: &str) -> Items {
    let mut items = Items::new(alloc);
    for word in words.split(',') {
        if !word.is_empty() {
            let _ = items.push(item_of(alloc, word));
        }
    }
    items
}

// A removal, as `-key;e1`, or an item.
fn op_of(alloc: Global, words: &str) -> Op {
    match words.strip_prefix('-') {
        Some(removal) => {
            let (key, words) = first_part(removal);
            let terms = terms_of(alloc, words);
            Op::Remove {
                key: text(alloc, key),
                etag: terms.etag,
                mode: terms.mode,
            }
        }
        None => Op::Upsert(item_of(alloc, words)),
    }
}

fn ops_of(alloc: Global, words: &str) -> Ops {
    let mut ops = Ops::new(alloc);
    for word in words.split(',') {
        if !word.is_empty() {
            let _ = ops.push(op_of(alloc, word));
        }
    }
    ops
}

fn keys_of(alloc: Global, words: &str) -> Keys {
    let mut keys = Keys::new(alloc);
    for word in words.split(',') {
        let _ = keys.push(text(alloc, word));
    }
    keys
}

fn delete_of(alloc: Global, words: &str, now: Moment) -> Cmd {
    let (key, words) = first_part(words);
    let terms = terms_of(alloc, words);
    Cmd::Delete {
        key: text(alloc, key),
        etag: terms.etag,
        mode: terms.mode,
        now,
    }
}

// An item without ETag and mode.
fn plain_item(key: Text, value: Blob, ttl: Option<u64>) -> Item {
    Item {
        key,
        value,
        etag: None,
        mode: Mode::Unsaid,
        ttl,
    }
}

// So many items that live for a second, with the keys from `100000` on.
fn numbered_items(alloc: Global, count: u64) -> Items {
    let mut items = Items::new(alloc);
    for each in 0..count.min(1_000_000) {
        let key = digits(alloc, each + 100_000);
        let _ = items.push(plain_item(key, Blob::new(alloc), Some(1)));
    }
    items
}

// An item whose value has so many bytes.
fn long_item(alloc: Global, words: &str) -> Items {
    let (key, len) = first_word(words);
    let value = long_blob(alloc, number(len));
    let mut items = Items::new(alloc);
    let _ = items.push(plain_item(text(alloc, key), value, None));
    items
}

fn items_by(alloc: Global, word: &str, words: &str) -> Items {
    match word {
        "save-numbered" => numbered_items(alloc, number(words)),
        "save-long" => long_item(alloc, words),
        _ => items_of(alloc, words),
    }
}

/// The command that a section says: `get a`, `save a=1,b=2;f`, `delete a;e1`, `bulk a,b` or `transact a=1,-b`, a save of so many rows that live
/// for a second, or of one row with a value of so many bytes.
pub(crate) fn cmd_of(alloc: Global, word: &str, words: &str, now: Moment) -> Option<Cmd> {
    match word {
        "get" => Some(Cmd::Get {
            key: text(alloc, words),
            now,
        }),
        "save" | "save-numbered" | "save-long" => Some(Cmd::Save {
            items: items_by(alloc, word, words),
            now,
        }),
        "delete" => Some(delete_of(alloc, words, now)),
        "bulk" | "bulk-count" => Some(Cmd::Bulk {
            keys: keys_of(alloc, words),
            skip: 0,
            now,
        }),
        "transact" => Some(Cmd::Transact {
            ops: ops_of(alloc, words),
            now,
        }),
        _ => None,
    }
}
