use retry_core::Bound;
use std::alloc::Global;
use topic_spec::Subs;

/// What the deliveries of a ledger stand on.
#[derive(Clone, Copy)]
pub struct Deliveries<'a> {
    pub alloc: Global,
    /// The port at which the app listens on 127.0.0.1.
    pub port: u16,
    /// All subscriptions: the ledger has a plan for each.
    pub subs: &'a Subs,
    /// What is bound to the deliveries of the ledger's component. Its retry policy is the ledger's to follow.
    pub bound: &'a Bound,
}
