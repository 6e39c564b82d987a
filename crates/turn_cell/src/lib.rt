//! Objects that many threads share, taking turns: one legal history for each.
#![tactic(auto)]

mod cell;
mod entry;
mod error;
mod object;
mod sleepers;
mod table;
mod turn;
mod view;

pub use cell::{Seat, TurnCell};
pub use entry::Entry;
pub use error::{ApiErr, Exhausted};
pub use object::Object;
