// A breaker's history, played step by step.
ghost use Rattle.std.specs.Prelude.{◌≡◌, IfSome};
ghost use Rattle.retry_core.specs.BreakerPolicy.{IsWithinLimit};
ghost use Rattle.turn_cell.specs.Sitting.{IsSeatOf};
ghost use Rattle.turn_cell.specs.Growth.{Stays};

use crate::words::{moment, number};
use breaker_core::{Breaker, BreakerCmd, BreakerReply};
use case_text::{Lines, Section, first_word, name_in, number_in, text_of};
use retry_core::{BreakerPolicy, Trip, trip_of};
use side_base::Text;
use std::alloc::Global;
use std::sync::Wait;
use turn_cell::{Object, Seat, TurnCell};

/// The most milliseconds of a policy.
const MOST_MS: u64 = 1_000_000;

fn policy_with(words: &str, max_requests: u32, interval_ms: u64) -> Option<BreakerPolicy>
    ensures { IfSome result IsWithinLimit }
{
    let (timeout, trip) = first_word(words);
    match trip_of(trip.as_bytes()) {
        Ok(trip) => Some(policy(max_requests, interval_ms, number(timeout), trip)),
        Err(_) => None,
    }
}

fn policy(max_requests: u32, interval_ms: u64, timeout_ms: u64, trip: Trip) -> BreakerPolicy
    ensures { IsWithinLimit result }
{
    BreakerPolicy {
        max_requests,
        interval_ms: interval_ms.min(MOST_MS),
        timeout_ms: timeout_ms.min(MOST_MS),
        trip,
    }
}

// A policy, as its requests, its interval, its timeout and its trip.
fn policy_of(words: &str) -> Option<BreakerPolicy>
    ensures { IfSome result IsWithinLimit }
{
    let (requests, words) = first_word(words);
    let (interval, words) = first_word(words);
    policy_with(words, number_in(requests), number(interval))
}

// A report for a generation at a moment.
fn report(words: &str, good: bool) -> BreakerCmd {
    let (generation, at) = first_word(words);
    BreakerCmd::Report {
        generation: number(generation),
        now: moment(at),
        good,
    }
}

fn cmd_of(section: &Section<'_>) -> Option<BreakerCmd> {
    match section.word {
        "admit" => Some(BreakerCmd::Admit {
            now: moment(section.name),
        }),
        "good" => Some(report(section.name, true)),
        "bad" => Some(report(section.name, false)),
        _ => None,
    }
}

fn reply_text(alloc: Global, reply: &BreakerReply) -> Text {
    let mut lines = Lines::new(alloc);
    match reply {
        BreakerReply::Admitted {
            generation,
            half: false,
        } => lines.add_number_line("admitted in ", *generation),
        BreakerReply::Admitted {
            generation,
            half: true,
        } => lines.add_number_line("admitted half-open in ", *generation),
        BreakerReply::Opened { until } => lines.add_number_line("open until ", *until),
        BreakerReply::TooMany { out } => lines.add_number_line("half-open with ", u64::from(*out)),
        BreakerReply::Counted => lines.add("counted\n"),
        BreakerReply::Stale { current } => lines.add_number_line("stale in ", *current),
    }
    lines.into_text()
}

fn told<W: Wait>(
    rt: &W,
    alloc: Global,
    cell: &TurnCell<Breaker>,
    seat: &mut Seat<Breaker>,
    cmd: &BreakerCmd,
) -> Text
    requires { IsSeatOf cell.now seat.old }
    ensures same { IsSeatOf cell.now seat.new }
    ensures stays { Stays seat.old seat.new }
{
    match cell.call(rt, seat, cmd) {
        Ok(reply) => reply_text(alloc, &reply),
        Err(_) => Text::from_static(alloc, "exhausted\n"),
    }
}

// The history of a cell of its own, call by call.
fn steps<W: Wait>(
    rt: &W,
    alloc: Global,
    cell: &TurnCell<Breaker>,
    mut seat: Seat<Breaker>,
    sections: &[Section<'_>],
    lines: &mut Lines,
) -> Seat<Breaker>
    requires { IsSeatOf cell.now seat }
    ensures { Stays seat result }
{
    for section in sections {
        if let Some(cmd) = cmd_of(section) {
            let told = told(rt, alloc, cell, &mut seat, &cmd);
            lines.compare(section.word, text_of(alloc, section).bytes(), told.bytes());
        }
    }
    seat
}

fn count_steps(sections: &[Section<'_>]) -> u64 {
    let mut count: u64 = 0;
    for section in sections {
        if section.word != "breaker" {
            count = count.saturating_add(1);
        }
    }
    count
}

fn play<W: Wait>(
    rt: &W,
    alloc: Global,
    breaker: Breaker,
    sections: &[Section<'_>],
    lines: &mut Lines,
)
    requires { ⟦<Breaker as Object>⟧.used breaker ≡ 0 }
{
    match TurnCell::start(alloc, breaker) {
        Ok((cell, root)) => {
            let root = steps(rt, alloc, &cell, root, sections, lines);
            if cell.close(root).used() != count_steps(sections) {
                lines.add("not all are steps\n");
            }
        }
        Err(_) => lines.add("no memory\n"),
    }
}

/// Plays the steps of a case over a breaker of its own, in a cell.
pub(crate) fn play_breaker<W: Wait>(
    rt: &W,
    alloc: Global,
    sections: &[Section<'_>],
    lines: &mut Lines,
) {
    match policy_of(name_in(sections, "breaker").unwrap_or("")) {
        Some(policy) => play(rt, alloc, Breaker::new(&policy), sections, lines),
        None => lines.add("no policy\n"),
    }
}
