//! Attempts under a policy: each is let through by the circuit breaker, made, and reported, and is made again after a wait
//! where it failed, as the policy that is bound to the target says.
#![tactic(auto)]

mod breaker_at;
mod guard;
mod operation;
mod outcome;
mod run;
mod turn;

pub use breaker_at::BreakerAt;
pub use guard::{Guard, NoBreaker, Stepped};
pub use operation::{Attempt, Operation};
pub use outcome::{Outcome, Refusal};
pub use run::run_call;
