//! The one way of all requests over the shared objects of a sidecar, which `sidecar_objects` has, with their passes and what is done by these.
//!
//! - `config` says what a sidecar is configured as, and `shared` what all passes share; `site` is a store as requests find it; `starting` and `closing` are its
//!   begin and its end, and `room` is what the end needs.
//! - `responding` answers a request by its route: `state_request` at a store, where `storing` makes the call, `actor_state_request` at the store of actors, which `choosing` finds, `note_request` at the book of
//!   metadata, `app_request` and `binding_request` by the link, `actor_request` by the link in the turn of an actor, and `publish_request` at a ledger; `naming` finds their components, and `refusing`
//!   has the responses that need no object. `delivering` has the ticks and the deliveries of what is configured, by `sidecar_turns`.
//! - `desk` answers the requests of connections, and `connection` serves one.
#![tactic(auto)]

mod actor_request;
mod actor_state_request;
mod app_request;
mod binding_request;
mod choosing;
mod closing;
mod config;
mod connection;
mod delivering;
mod desk;
mod naming;
mod note_request;
mod publish_request;
mod refusing;
mod responding;
mod room;
mod shared;
mod site;
mod starting;
mod state_request;
mod storing;

pub use choosing::actor_store;
pub use config::Config;
pub use connection::serve_connection;
pub use delivering::{drain, idle_turn, take_ticks, tick};
pub use responding::respond;
pub use room::Room;
pub use shared::Shared;
pub use sidecar_objects::{Doing, ObjectKinds, Objects, Pass, SlotStep};
pub use sidecar_turns::{Drained, IdleTurn, Posted, TickTurn, Turn, deliver};
pub use site::StoreSite;
pub use starting::count_of_stores;
pub use storing::run_store;
