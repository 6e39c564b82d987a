//! Resiliency: which timeout, retries and circuit breaker are bound to which target.
#![tactic(auto)]

mod choice;
mod joining;
pub mod laws;
mod load;
mod millis;
mod named;
mod policy;
mod policy_err;
mod policy_list;
mod read;
mod section;
mod target;

pub use joining::join;
pub use load::policies;
pub use policy_err::PolicyErr;
pub use policy_list::{BreakerPolicies, Policies, bind, breakers};
pub use target::Target;
