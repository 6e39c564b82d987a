//! A list of byte strings in a file, each on the disk before it is acknowledged, so that it is found after a crash at any moment.
#![tactic(auto)]

mod error;
mod formatting;
mod holding;
mod journal;
pub mod laws;
mod loading;
mod opening;
mod parsing;
mod reading;
mod window;
mod writing;

pub use error::JournalErr;
pub use formatting::format;
pub use journal::Journal;
pub use loading::Bodies;
pub use opening::Opening;
