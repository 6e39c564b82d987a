//! What a sidecar does of itself, beside answering requests: ticks of the bindings that have a schedule, one after the other; turns of
//! delivery over all ledgers; what a worker does when it is idle; and what is done behind the connection of a run on standard input.
//!
//! - `crons` has what ticks need of a configuration, `brokers` what deliveries do, each made once at the start.
//! - `ticking` takes the tick that is due first, and calls the app for it, by `at_cron`.
//! - `delivering` takes one turn on the first ledger that isn't idle, by `at_ledger`; `idling` is what an idle worker does.
//! - `taking` takes ticks until none is due, and `draining` delivers until nothing is due soon; `counting` counts the deliveries of one
//!   ledger.
//! - `laws` has what holds of every delivery of an accepted message.
#![tactic(auto)]

mod at_cron;
mod at_ledger;
mod brokers;
mod counting;
mod cron;
mod crons;
mod delivering;
mod draining;
mod idling;
pub mod laws;
mod taking;
mod ticking;

pub use brokers::Brokers;
pub use counting::counts;
pub use cron_bind::Posted;
pub use crons::{Crons, periods_of};
pub use delivering::deliver;
pub use delivery_turn::Turn;
pub use draining::{Drained, drain};
pub use idling::{Duties, IdleTurn, idle_turn};
pub use taking::take_ticks;
pub use ticking::{TickTurn, tick};
