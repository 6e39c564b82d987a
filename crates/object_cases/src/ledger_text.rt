// Replies of a ledger as texts.

use crate::words::add_len;
use case_text::Lines;
use ledger_core::{LedgerReply, Reason};
use side_base::{Blob, Text};
use std::alloc::Global;

fn reason_words(reason: Reason) -> &'static str {
    match reason {
        Reason::Asked => "dropped:asked",
        Reason::UsedUp => "dropped:used up",
        Reason::Hops => "dropped:hops",
    }
}

// What is delivered, as `:event:/path`.
fn add_delivery(lines: &mut Lines, event: &Blob, path: &Text) {
    lines.add(":");
    lines.add(str::from_utf8(event.bytes()).unwrap_or("no text"));
    lines.add(":");
    lines.add(path.as_str());
}

// A row that was taken: its message, its subscription, its claim, what is delivered, and the attempt.
fn add_taken(lines: &mut Lines, row: (u64, u32, u64), event: &Blob, path: &Text, attempt: u64) {
    let (no, sub, claim) = row;
    lines.add_number("taken:", no);
    lines.add_number(".", u64::from(sub));
    lines.add_number(".", claim);
    add_delivery(lines, event, path);
    lines.add_number(":", attempt);
}

fn add_idle(lines: &mut Lines, next: Option<u64>) {
    match next {
        Some(due) => lines.add_number("idle:", due),
        None => lines.add("idle"),
    }
}

fn add_full(lines: &mut Lines, rows: u128, bytes: u128) {
    add_len(lines, "full:", rows);
    add_len(lines, ":", bytes);
}

fn add_counts(lines: &mut Lines, counts: [u128; 4]) {
    lines.add("counts");
    for count in counts {
        add_len(lines, ":", count);
    }
}

fn add_reply(lines: &mut Lines, reply: &LedgerReply) {
    match reply {
        LedgerReply::Accepted { no } => lines.add_number("accepted:", *no),
        LedgerReply::Full { rows, bytes } => add_full(lines, *rows, *bytes),
        LedgerReply::Taken {
            no,
            sub,
            claim,
            event,
            path,
            attempt,
        } => add_taken(lines, (*no, *sub, *claim), event, path, *attempt),
        LedgerReply::Idle { next } => add_idle(lines, *next),
        LedgerReply::NotTaken => lines.add("not taken"),
        LedgerReply::Done => lines.add("done"),
        LedgerReply::Dropped(reason) => lines.add(reason_words(*reason)),
        LedgerReply::Again { at } => lines.add_number("again:", *at),
        LedgerReply::Dead { no } => lines.add_number("dead:", *no),
        LedgerReply::Counts {
            owed,
            done,
            dropped,
            dead,
        } => add_counts(lines, [*owed, *done, *dropped, *dead]),
        LedgerReply::NoMemory => lines.add("memory"),
    }
}

/// A reply, as `accepted:1`, `taken:1.0.1:event:/path:1`, `idle:500`, `dropped:asked` or `counts:1:0:0:0`.
pub(crate) fn reply_text(alloc: Global, reply: &LedgerReply) -> Text {
    let mut lines = Lines::new(alloc);
    add_reply(&mut lines, reply);
    lines.add("\n");
    lines.into_text()
}
