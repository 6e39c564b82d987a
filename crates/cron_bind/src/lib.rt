//! Calls of the own app for the ticks of its bindings: each tick is one call under the policies that are bound to the binding.
#![tactic(auto)]

mod posting;
mod requesting;

pub use posting::{Posted, post};
