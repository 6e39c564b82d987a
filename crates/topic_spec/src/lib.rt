//! Subscriptions: what resource files and an app's own list say of them, which apps may publish to a topic and subscribe to it,
//! and to which paths an event is delivered.
#![tactic(auto)]

mod aiming;
mod choosing;
mod documents;
mod draft;
pub mod laws;
mod listed;
mod loading;
mod reading;
mod scopes;
mod sub;
mod sub_err;

pub use aiming::{aims, default_aims};
pub use choosing::{allowed, join};
pub use loading::{app_list, subscriptions};
pub use scopes::{may_publish, may_subscribe};
pub use sub::{Rule, Rules, Sub, Subs};
pub use sub_err::SubErr;
