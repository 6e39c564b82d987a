// What is bound to a target, as a text: a line for its timeout, its retries and its breaker.

use case_text::Lines;
use policy_spec::{Policies, Target, bind};
use retry_core::{RetryKind, RetryPolicy};
use side_base::{NoMemory, Text};
use std::alloc::Global;

fn add_kind(lines: &mut Lines, kind: RetryKind) {
    match kind {
        RetryKind::Constant { duration_ms } => lines.add_number("retry after ", duration_ms),
        RetryKind::Exponential { max_interval_ms } => {
            lines.add_number("retry after up to ", max_interval_ms)
        }
    }
}

fn add_most(lines: &mut Lines, most: Option<u32>) {
    match most {
        Some(most) => lines.add_number_line(", times ", most as u64),
        None => lines.add(", without end\n"),
    }
}

fn add_retry(lines: &mut Lines, retry: Option<RetryPolicy>) {
    if let Some(retry) = retry {
        add_kind(lines, retry.kind);
        add_most(lines, retry.max_retries);
    }
}

fn add_timeout(lines: &mut Lines, timeout: Option<u64>) {
    if let Some(ms) = timeout {
        lines.add_number_line("timeout ", ms);
    }
}

fn add_breaker(lines: &mut Lines, place: Option<u32>) {
    if let Some(place) = place {
        lines.add_number_line("breaker ", place as u64);
    }
}

/// What is bound to a target, and `nothing` where nothing is.
pub(crate) fn bound_text(
    alloc: Global,
    policies: &Policies,
    target: &Target<'_>,
) -> Result<Text, NoMemory> {
    let bound = bind(policies, target);
    let mut lines = Lines::new(alloc);
    add_timeout(&mut lines, bound.timeout_ms);
    add_retry(&mut lines, bound.retry);
    add_breaker(&mut lines, bound.breaker);
    if lines.is_empty() {
        lines.add("nothing\n");
    }
    lines.done()
}
