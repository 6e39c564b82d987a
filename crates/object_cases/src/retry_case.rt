// The waits of a policy of retries.
ghost use Rattle.retry_core.specs.RetryPolicy.{IsKindWithinLimit, IsWithinLimit};

use crate::words::number;
use case_text::{Lines, Section, first_word, name_in, number_in, text_of};
use retry_core::{Next, RetryKind, RetryPolicy, RetryRun};
use side_base::Text;
use std::alloc::Global;

/// The most milliseconds of a policy.
const MOST_MS: u64 = 31_536_000_000;

fn kind_of(word: &str, ms: u64) -> RetryKind
    ensures { IsKindWithinLimit result }
{
    let ms = ms.min(MOST_MS);
    match word {
        "exponential" => RetryKind::Exponential {
            max_interval_ms: ms,
        },
        _ => RetryKind::Constant { duration_ms: ms },
    }
}

fn retries_in(word: &str) -> Option<u32> {
    if word.is_empty() {
        None
    } else {
        Some(number_in(word))
    }
}

/// A policy: its kind, its milliseconds, and how many retries it makes at most.
pub(crate) fn policy_of(words: &str) -> RetryPolicy
    ensures { IsWithinLimit result }
{
    let (kind, words) = first_word(words);
    let (ms, retries) = first_word(words);
    RetryPolicy {
        kind: kind_of(kind, number(ms)),
        max_retries: retries_in(retries),
    }
}

fn add_next(lines: &mut Lines, next: Next) {
    match next {
        Next::Wait(ms) => lines.add_number_line("", ms),
        Next::GiveUp { attempts } => lines.add_number_line("given up after ", u64::from(attempts)),
    }
}

// What follows each of these random words.
fn waits(alloc: Global, run: &mut RetryRun, words: &str) -> Text {
    let mut lines = Lines::new(alloc);
    for word in words.split(' ') {
        add_next(&mut lines, run.next(number(word)));
    }
    lines.into_text()
}

// How many waits of one length a run makes, where it counts its attempts right.
fn count_waits(run: &mut RetryRun, ms: u64) -> u64 {
    for made in 0..10_000 {
        let attempts = u64::from(run.attempts());
        if run.next(0) != Next::Wait(ms) || attempts != made + 1 {
            return made;
        }
    }
    10_000
}

// How many waits of one length a run makes, what follows then, and what it counts as its attempts.
fn add_all(lines: &mut Lines, run: &mut RetryRun, ms: u64) {
    lines.add_number_line("waits ", count_waits(run, ms));
    add_next(lines, run.next(0));
    add_next(lines, run.next(u64::MAX));
    lines.add_number_line("attempts ", u64::from(run.attempts()));
}

fn to_the_end(alloc: Global, run: &mut RetryRun, words: &str) -> Text {
    let mut lines = Lines::new(alloc);
    add_all(&mut lines, run, number(words));
    lines.into_text()
}

fn step(alloc: Global, run: &mut RetryRun, section: &Section<'_>) -> Text {
    match section.word {
        "next" => waits(alloc, run, section.name),
        "to-the-end" => to_the_end(alloc, run, section.name),
        _ => Text::from_static(alloc, "no such step\n"),
    }
}

/// Plays the steps of a case over a run of its own.
pub(crate) fn play_retry(alloc: Global, sections: &[Section<'_>], lines: &mut Lines) {
    let mut run = RetryRun::start(&policy_of(name_in(sections, "retry").unwrap_or("")));
    for section in sections {
        if section.word != "retry" {
            let told = step(alloc, &mut run, section);
            lines.compare(section.word, text_of(alloc, section).bytes(), told.bytes());
        }
    }
}
