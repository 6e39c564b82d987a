//! Output bindings over HTTP: from a request to the call of a program at the component's address, and from its reply to a response.
#![tactic(auto)]

mod asking;
mod invoking;
mod malformed;
mod replying;
mod requesting;
mod values;

pub use asking::Ask;
pub use invoking::invoke;
pub use malformed::Wrong;
pub use replying::unknown_binding;
