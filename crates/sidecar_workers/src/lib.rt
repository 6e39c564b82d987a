//! Workers: each does its calls in order, stops where it should, says why, and keeps its fact; then all can be met.
#![tactic(auto)]

mod exit;
mod reason;
mod seat;
mod slot;
mod stop;
mod view;
mod word;
mod work;
mod workers;

pub use exit::{Exit, after_serve, after_turn};
pub use reason::Reason;
pub use seat::StopSeat;
pub use slot::Slot;
pub use stop::Stop;
pub use work::{Call, Got, Owed, Served, Turned, Work};
pub use workers::run_workers;
