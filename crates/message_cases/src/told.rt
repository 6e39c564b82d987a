// Turns and replies of a ledger as texts.

use case_text::Lines;
use delivery_turn::Turn;
use ledger_core::{LedgerReply, Reason};

fn short(number: u128) -> u64 {
    u64::try_from(number).unwrap_or(u64::MAX)
}

fn reason_words(reason: Reason) -> &'static str {
    match reason {
        Reason::Asked => "dropped as asked\n",
        Reason::UsedUp => "dropped, used up\n",
        Reason::Hops => "dropped, hops\n",
    }
}

// Adds how a delivery was settled.
fn add_settled(lines: &mut Lines, reply: &LedgerReply) {
    match reply {
        LedgerReply::Done => lines.add("done\n"),
        LedgerReply::Dropped(reason) => lines.add(reason_words(*reason)),
        LedgerReply::Again { at } => lines.add_number_line("again at ", *at),
        LedgerReply::Dead { no } => lines.add_number_line("dead as ", *no),
        LedgerReply::Full { rows, bytes } => {
            lines.add_number("full at ", short(*rows));
            lines.add_number_line(" and ", short(*bytes));
        }
        _ => lines.add("another reply\n"),
    }
}

fn add_idle(lines: &mut Lines, next: Option<u64>) {
    match next {
        Some(due) => lines.add_number_line("idle until ", due),
        None => lines.add("idle\n"),
    }
}

/// Adds what a turn came to.
pub(crate) fn add_turn(lines: &mut Lines, turn: &Turn) {
    match turn {
        Turn::Delivered { no, sub, settled } => {
            lines.add_number("", *no);
            lines.add_number(" to ", u64::from(*sub));
            lines.add(": ");
            add_settled(lines, settled);
        }
        Turn::Idle { next } => add_idle(lines, *next),
        Turn::Held => lines.add("held\n"),
        Turn::Exhausted { .. } => lines.add("exhausted\n"),
    }
}

/// Adds how many deliveries there are of each status.
pub(crate) fn add_counts(lines: &mut Lines, reply: &LedgerReply) {
    match reply {
        LedgerReply::Counts {
            owed,
            done,
            dropped,
            dead,
        } => {
            lines.add_number("owed ", short(*owed));
            lines.add_number(", done ", short(*done));
            lines.add_number(", dropped ", short(*dropped));
            lines.add_number_line(", dead ", short(*dead));
        }
        _ => lines.add("another reply\n"),
    }
}
