// Plans and commands of a ledger as a case names them.
ghost use Rattle.std.specs.Option.{ForSome};
ghost use Rattle.retry_core.specs.RetryPolicy.{IsWithinLimit};
ghost use Rattle.ledger_core.specs.Plan.{AreWithinLimit};

use crate::retry_case::policy_of;
use crate::words::{blob, first_part, long_blob, number, text};
use case_text::number_in;
use ledger_core::{Aim, Aims, Finish, LedgerCmd, Plan, Plans};
use retry_core::RetryPolicy;
use side_base::{Blob, Moment};
use std::alloc::Global;

// A policy, or `-` for none.
fn retry_of(words: &str) -> Option<RetryPolicy>
    ensures { ForSome result IsWithinLimit }
{
    if words == "-" {
        None
    } else {
        Some(policy_of(words))
    }
}

// A plan: its policy, and `dead` behind it where there is a dead-letter topic.
fn plan_of(words: &str) -> Plan
    ensures { ForSome result.retry IsWithinLimit }
{
    let (policy, topic) = first_part(words);
    Plan {
        retry: retry_of(policy),
        dead: topic == "dead",
    }
}

/// Plans with commas between them.
pub(crate) fn plans_of(alloc: Global, words: &str) -> Plans
    ensures { AreWithinLimit result }
{
    let mut plans = Plans::new(alloc);
    for word in words.split(',') {
        let _ = plans.push(plan_of(word));
    }
    plans
}

// An aim, as `0=/a`, or `0` without a path.
fn aim_of(alloc: Global, words: &str) -> Aim {
    match words.split_once('=') {
        Some((sub, path)) => Aim {
            sub: number_in(sub),
            path: Some(text(alloc, path)),
        },
        None => Aim {
            sub: number_in(words),
            path: None,
        },
    }
}

fn aims_of(alloc: Global, words: &str) -> Aims {
    let mut aims = Aims::new(alloc);
    for word in words.split(',') {
        if !word.is_empty() {
            let _ = aims.push(aim_of(alloc, word));
        }
    }
    aims
}

fn event_of(alloc: Global, word: &str, event: &str) -> Blob {
    if word == "accept-long" {
        long_blob(alloc, number(event))
    } else {
        blob(alloc, event)
    }
}

// An event and its aims, as `e;0=/a,1`; `accept-long` has an event of so many bytes.
fn accept_of(alloc: Global, word: &str, words: &str, now: Moment) -> LedgerCmd {
    let (event, aims) = first_part(words);
    LedgerCmd::Accept {
        event: event_of(alloc, word, event),
        aims: aims_of(alloc, aims),
        now,
    }
}

// How a delivery ended, if the word says that.
fn finish_of(word: &str, value: u64) -> Option<Finish> {
    match word {
        "done" => Some(Finish::Success),
        "drop" => Some(Finish::Drop),
        "later" => Some(Finish::Later { at: value }),
        "retry" => Some(Finish::Retry),
        _ => None,
    }
}

// A settling of a row, as `1.0.2` for message 1, subscription 0 and claim 2.
fn settling(row: &str, finish: Finish, now: Moment, word: u64, dead_aims: Aims) -> LedgerCmd {
    let (no, place) = row.split_once('.').unwrap_or((row, ""));
    let (sub, claim) = place.split_once('.').unwrap_or((place, ""));
    LedgerCmd::Settle {
        no: number(no),
        sub: number_in(sub),
        claim: number(claim),
        finish,
        now,
        word,
        dead_aims,
    }
}

// A settling, as `1.0.2;500;1=/d`: its row, a moment or a random word, and the aims of a dead letter.
fn settle_of(alloc: Global, word: &str, words: &str, now: Moment) -> Option<LedgerCmd> {
    let (row, words) = first_part(words);
    let (value, aims) = first_part(words);
    let value = number(value);
    match finish_of(word, value) {
        Some(finish) => Some(settling(row, finish, now, value, aims_of(alloc, aims))),
        None => None,
    }
}

/// The command that a section says: `accept e;0=/a,1`, `take`, `counts`, or a settling as `done 1.0.1`, `drop 1.0.1`, `later 1.0.1;500` or
/// `retry 1.0.1;7;0=/d`.
pub(crate) fn cmd_of(alloc: Global, word: &str, words: &str, now: Moment) -> Option<LedgerCmd> {
    match word {
        "accept" | "accept-often" | "accept-long" => Some(accept_of(alloc, word, words, now)),
        "take" => Some(LedgerCmd::Take { now }),
        "counts" => Some(LedgerCmd::Counts),
        _ => settle_of(alloc, word, words, now),
    }
}
