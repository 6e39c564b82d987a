//! Rows over a journal: a keeper whose commits a crash leaves whole or not at all, and one that is this or in memory.
#![tactic(auto)]

mod any_keeper;
mod committing;
mod decoding;
mod encoding;
mod following;
mod journal_keeper;
pub mod laws;
mod opening;
mod replaying;
mod storing;

pub use any_keeper::AnyKeeper;
pub use decoding::{BodyErr, decode};
pub use encoding::{body_len, encode};
pub use journal_keeper::JournalKeeper;
