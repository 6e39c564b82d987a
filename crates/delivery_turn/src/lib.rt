//! One turn of delivery: a row is taken from a ledger, its event is sent to the app once, and the row is settled.
//!
//! The definition stands in `specs/Delivery.antt`, and `laws` has what follows of it.
#![tactic(auto)]

mod deliveries;
mod ending;
mod judging;
pub mod laws;
mod posting;
mod row;
mod settling;
mod stepping;
mod taking;
mod turning;

pub use deliveries::Deliveries;
pub use ending::Turn;
pub use turning::turn;
