//! Deliveries that are owed: what was accepted for a subscription is owed until it is done, dropped or dead-lettered.
#![tactic(auto)]

mod accepting;
mod balance;
mod books;
mod command;
pub mod laws;
mod ledger;
mod place;
mod placing;
mod plan;
mod reply;
mod rows;
mod settling;
mod size;
mod taking;
mod tree;

pub use command::{Finish, LedgerCmd};
pub use ledger::Ledger;
pub use plan::{Aim, Aims, Plan, Plans};
pub use reply::{LedgerReply, Reason};
pub use size::{MOST_BYTES, MOST_ROWS};
