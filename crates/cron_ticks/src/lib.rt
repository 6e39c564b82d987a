//! Ticks of schedules: which tick of which binding is taken next, each once and in order.
//!
//! - `command` is what is asked, and what is answered.
//! - `ticks` is the object; `answering` is its step, and `following` finds the tick that is due after another one.
//! - `laws` says what holds of every history.
#![tactic(auto)]

mod answering;
mod command;
mod following;
pub mod laws;
mod ticks;

pub use command::{TicksCmd, TicksReply};
pub use ticks::{Periods, Ticks};
