//! Calls of actors: they are taken one at a time, in the order in which they came.
//!
//! - `calling` makes a call: it joins the line of its actor, waits for its turn (`awaiting`), asks the app, and leaves (`taking`).
//! - `requesting` is the request to the app, `replying` what is answered, and `stepping` one step of the turns.
#![tactic(auto)]

mod awaiting;
mod calling;
mod replying;
mod requesting;
mod stepping;
mod taking;

pub use calling::{ActorCall, invoke};
