//! Messages that are published: from a request to a command of a ledger, and from its reply to a response; and the subscriptions that an app lists.
#![tactic(auto)]

mod listing;
mod message;
mod naming;
mod publication;
mod publishing;
mod replying;
mod stamp;

pub use listing::app_subscriptions;
pub use message::prepare;
pub use publication::{PubErr, Publication};
pub use publishing::publish;
pub use replying::unknown_pubsub;
