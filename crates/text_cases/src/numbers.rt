// Durations, decimal digits and moments.

use case_text::{Lines, long_number_in};
use side_base::{Moment, duration_ms, number_of, split_digits};
use std::alloc::Global;

/// A duration in milliseconds, or why it is refused.
pub(crate) fn add_duration(alloc: Global, given: &[u8], lines: &mut Lines) {
    match duration_ms(given) {
        Ok(ms) => lines.add_number("", ms),
        Err(error) => lines.add_told(alloc, &error),
    }
}

/// The number that a text begins with, and the rest.
pub(crate) fn add_digits(given: &[u8], lines: &mut Lines) {
    let (digits, rest) = split_digits(given);
    lines.add_number("", number_of(digits));
    lines.add_shown(" ", rest);
}

/// The milliseconds of a moment.
pub(crate) fn add_moment(given: &[u8], lines: &mut Lines) {
    match Moment::at(long_number_in(given)) {
        Some(moment) => lines.add_number("", moment.ms()),
        None => lines.add("none"),
    }
}
