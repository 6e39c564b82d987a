use cloud_events::EventErr;
use resource_spec::Component;
use side_base::{Request, Text};
use topic_spec::Subs;

/// What is published: the request, the pub/sub component and the topic that its route names, the id of the app, and all
/// subscriptions.
#[derive(Clone, Copy)]
pub struct Publication<'a> {
    pub request: &'a Request,
    pub component: &'a Component,
    pub topic: &'a Text,
    pub app: &'a Text,
    pub subs: &'a Subs,
}

/// Why what is published becomes no command of a ledger.
#[derive(Debug, Drop)]
pub enum PubErr {
    /// The scopes of the component don't let the app publish to the topic.
    Forbidden,
    /// The body becomes no event; this isn't want of memory.
    Event(EventErr),
    /// There is no memory.
    NoMemory,
}
