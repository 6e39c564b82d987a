//! Circuit breakers: a target that fails is left alone for a while, and asked again with care.
#![tactic(auto)]

mod breaker;
mod command;
pub mod laws;
mod phase;
mod present;

pub use breaker::Breaker;
pub use command::{BreakerCmd, BreakerReply};
pub use phase::Phase;
