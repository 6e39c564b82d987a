//! Key-value state: a store that answers commands one after the other, as its history says.
#![tactic(auto)]

mod answer;
mod batch;
mod command;
mod commit;
mod current;
mod judging;
pub mod laws;
mod reading;
mod reply;
mod store;
mod writing;

pub use command::{Cmd, Item, Items, Keys, Mode, Op, Ops, Prefix};
pub use reading::BULK_LIMIT;
pub use reply::{BulkRow, Found, Reply, Rows};
pub use store::Store;
