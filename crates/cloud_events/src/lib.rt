//! Events (CloudEvents 1.0): a body that was published as an event, and the verdict of a reply on its delivery.
#![tactic(auto)]

mod base;
mod clock;
mod complete;
mod delivery;
mod gather;
mod item;
mod judge;
pub mod laws;
mod media;
mod outcome;
mod placing;
mod sent;
mod wrapping;
mod written;

pub use delivery::verdict;
pub use outcome::Verdict;
pub use sent::{EventErr, Sent};
pub use wrapping::wrap;
