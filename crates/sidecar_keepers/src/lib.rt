//! A keeper of rows for each state component, and its disk back to the outside at the end.
//!
//! | type | its keeper |
//! |---|---|
//! | `state.in-memory` | in memory, of at most 256 MiB; it begins without rows |
//! | `state.journal` | over the journal in the file at the component's `path`, of at most 384 MiB |
#![tactic(auto)]

mod giving;
pub mod laws;
mod starting;

pub use giving::give_back;
pub use starting::{KeepersErr, start_keepers};
