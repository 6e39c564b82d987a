//! Rows by their keys, as a store keeps them: what every keeper of rows answers, and one in memory.
#![tactic(auto)]

mod changes;
mod end_tree;
mod failing;
mod growth;
mod hashed_rows;
mod insertion;
mod keeper;
pub mod laws;
mod links;
mod memory_keeper;
mod moving;
mod prepared;
mod removal;
mod retiming;
mod rotation;
mod row;
mod row_table;
mod secret_state;
mod seeking;

pub use changes::{Change, ChangeList, Changes};
pub use keeper::{KeepErr, Keeper};
pub use memory_keeper::MemoryKeeper;
pub use prepared::Prepared;
pub use row::RowView;
pub use row_table::RowTable;
