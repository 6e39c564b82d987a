//! Turns of actors: calls of one actor are taken one at a time, in the order in which they joined.
//!
//! - `command` is what is asked, and what is answered.
//! - `turns` is the object, `turning` makes its steps, and `lines` has the open tickets of each actor.
//! - `laws` says what holds of every history.
#![tactic(auto)]

mod command;
pub mod laws;
mod lines;
mod turning;
mod turns;

pub use command::{TurnsCmd, TurnsReply};
pub use turns::Turns;
