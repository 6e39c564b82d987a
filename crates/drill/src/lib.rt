//! A drill: requests to the state store `statestore`, generated from a number, so that a large run over them is the same each time.
//!
//! - `generating` draws a word for each request, and writes the request that the word means.
//! - `writing` is the form of a request: its line, its fields and its content.
//! - `tallying` counts how many responses have which status.
//! - `kept_sink`, `still_clock` and `no_link` are what a drill has of the outside.
#![tactic(auto)]

mod generating;
mod kept_sink;
mod no_link;
mod still_clock;
mod tallying;
#[cfg(test)]
mod tests;
mod writing;

pub use generating::requests;
pub use kept_sink::KeptSink;
pub use no_link::NoLink;
pub use still_clock::StillClock;
pub use tallying::{Tally, count_statuses};
