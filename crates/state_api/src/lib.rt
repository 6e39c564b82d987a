//! State requests (Dapr's state API): from a request to a command of a store, and from its reply to a response.
#![tactic(auto)]

mod actors;
mod asking;
mod call;
mod commanding;
pub mod laws;
mod part;
mod raw;
mod refusing;
mod responding;
mod running;
mod values;
mod what;
mod words;

pub use actors::actor_command;
pub use call::{StateAnswer, StoreCall};
pub use commanding::command;
pub use refusing::malformed_response;
pub use responding::response;
pub use running::{Ran, run};
pub use what::{StateErr, What};
pub use words::has_bars;
