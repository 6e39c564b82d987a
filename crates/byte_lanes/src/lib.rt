//! Searches over bytes, 32 at a time, for readers and writers of JSON, and a test for UTF-8. Each meets the contract that a plain loop
//! meets; that lanes make it fast shows in the body alone.
#![tactic(auto)]

mod escapes;
mod lanes;
mod places;
mod utf8;

pub use escapes::escaped_len;
pub use lanes::{BACKSLASH, FIRST_ABOVE_ASCII, FIRST_PRINTABLE, QUOTE};
pub use places::{first_above, first_special};
pub use utf8::utf8_len;
