// Trips: their texts, and of which counts they are true.

use crate::words::{bytes, number};
use case_text::{Lines, Section, first_word, name_in, text_of};
use retry_core::{Comparison, Counter, Counts, Join, Sign, Trip, TripErr, trip_of};
use side_base::Text;
use std::alloc::Global;

fn counter_name(counter: Counter) -> &'static str {
    match counter {
        Counter::ConsecutiveFailures => "consecutiveFailures",
        Counter::Requests => "requests",
        Counter::TotalFailures => "totalFailures",
    }
}

fn sign_text(sign: Sign) -> &'static str {
    match sign {
        Sign::AtLeast => " >= ",
        Sign::Above => " > ",
        Sign::AtMost => " <= ",
        Sign::Below => " < ",
        Sign::Equal => " == ",
    }
}

fn join_text(join: Join) -> &'static str {
    match join {
        Join::All => "all\n",
        Join::Any => "any\n",
    }
}

fn add_comparison(lines: &mut Lines, comparison: &Comparison) {
    lines.add(counter_name(comparison.counter));
    lines.add_number_line(sign_text(comparison.sign), u64::from(comparison.number));
}

// The comparisons of a trip, in their slots.
fn add_trip(lines: &mut Lines, trip: &Trip) {
    lines.add(join_text(trip.join));
    for slot in &trip.comparisons {
        match slot {
            Some(comparison) => add_comparison(lines, comparison),
            None => lines.add("-\n"),
        }
    }
}

fn add_err(alloc: Global, lines: &mut Lines, error: TripErr) {
    lines.add_told(alloc, &error);
    lines.add("\n");
}

// The counts of a case: consecutive failures, requests and all failures.
fn counts_of(words: &str) -> Counts {
    let (consecutive, words) = first_word(words);
    let (requests, total) = first_word(words);
    Counts {
        consecutive_failures: number(consecutive),
        requests: number(requests),
        total_failures: number(total),
    }
}

fn add_truth(lines: &mut Lines, trip: &Trip, sections: &[Section<'_>]) {
    let counts = counts_of(name_in(sections, "counts").unwrap_or(""));
    if trip.is_true_of(&counts) {
        lines.add("true\n");
    } else {
        lines.add("false\n");
    }
}

fn add_read(lines: &mut Lines, trip: &Trip, word: &str, sections: &[Section<'_>]) {
    match word {
        "read" => add_trip(lines, trip),
        "holds" => add_truth(lines, trip, sections),
        _ => lines.add("no such step\n"),
    }
}

fn told(alloc: Global, sections: &[Section<'_>], section: &Section<'_>) -> Text {
    let mut lines = Lines::new(alloc);
    match trip_of(bytes(alloc, section.name).bytes()) {
        Ok(trip) => add_read(&mut lines, &trip, section.word, sections),
        Err(error) => add_err(alloc, &mut lines, error),
    }
    lines.into_text()
}

fn is_given(word: &str) -> bool {
    match word {
        "trip" | "counts" => true,
        _ => false,
    }
}

/// Reads the trips of a case.
pub(crate) fn play_trip(alloc: Global, sections: &[Section<'_>], lines: &mut Lines) {
    for section in sections {
        if !is_given(section.word) {
            let told = told(alloc, sections, section);
            lines.compare(section.word, text_of(alloc, section).bytes(), told.bytes());
        }
    }
}
