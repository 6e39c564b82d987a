//! The routes of the interface: which route a method and a request target mean.
#![tactic(auto)]

pub mod laws;
mod methods;
mod parameters;
mod route;
mod routers;
mod shutdown;
mod table;
mod target;

pub use methods::Methods;
pub use route::{Route, RouteErr};
pub use routers::Routers;
pub use shutdown::is_shutdown;
pub use target::query_of;

/// The allocator had no room.
pub use side_base::NoMemory;
