//! Calls of the methods of apps: of the own one at its port, and of others at their sidecars, under what is bound to them.
#![tactic(auto)]

mod invoking;
mod placing;
mod replying;

pub use invoking::invoke;
pub use placing::{Peers, Place};
