//! Policies as numbers: how long to wait before an attempt is made again, when to give up, and what opens a breaker.
#![tactic(auto)]

pub mod laws;
mod policy;
mod run;
mod trip;
mod trip_text;

pub use policy::{Bound, BreakerPolicy, RetryKind, RetryPolicy};
pub use run::{FIRST_WAIT_MS, MOST_ATTEMPTS, Next, RetryRun};
pub use trip::{Comparison, Counter, Counts, Join, Sign, Trip};
pub use trip_text::{TripErr, trip_of};
