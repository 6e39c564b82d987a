// Breakers as texts.

use case_text::Lines;
use policy_spec::BreakerPolicies;
use retry_core::{BreakerPolicy, Comparison, Counter, Join, Sign, Trip};
use side_base::{NoMemory, Text};
use std::alloc::Global;

fn counter_name(counter: Counter) -> &'static str {
    match counter {
        Counter::ConsecutiveFailures => "consecutiveFailures",
        Counter::Requests => "requests",
        Counter::TotalFailures => "totalFailures",
    }
}

fn sign_text(sign: Sign) -> &'static str {
    match sign {
        Sign::AtLeast => " >= ",
        Sign::Above => " > ",
        Sign::AtMost => " <= ",
        Sign::Below => " < ",
        Sign::Equal => " == ",
    }
}

fn join_text(join: Join) -> &'static str {
    match join {
        Join::All => " && ",
        Join::Any => " || ",
    }
}

fn add_comparison(lines: &mut Lines, comparison: &Comparison) {
    lines.add(counter_name(comparison.counter));
    lines.add_number(sign_text(comparison.sign), comparison.number as u64);
}

fn add_trip(lines: &mut Lines, trip: &Trip) {
    let mut join = ", trip ";
    for slot in &trip.comparisons {
        if let Some(comparison) = slot {
            lines.add(join);
            add_comparison(lines, comparison);
            join = join_text(trip.join);
        }
    }
    lines.add("\n");
}

fn add_breaker(lines: &mut Lines, policy: &BreakerPolicy) {
    lines.add_number("requests ", policy.max_requests as u64);
    lines.add_number(", interval ", policy.interval_ms);
    lines.add_number(", timeout ", policy.timeout_ms);
    add_trip(lines, &policy.trip);
}

/// The breakers, in their order: a line for each.
pub(crate) fn breakers_text(alloc: Global, breakers: &BreakerPolicies) -> Result<Text, NoMemory> {
    let mut lines = Lines::new(alloc);
    for place in 0..breakers.len() {
        add_breaker(&mut lines, breakers.at(place));
    }
    lines.done()
}
