//! What follows of the definitions of requests, over all objects, as functions whose contract is the law: why a request of each route is answered as it is, that it
//! succeeds where nothing stands against it, and that what it did stands in the histories of the objects.
#![tactic(auto)]

pub mod bindings;
pub mod calls;
pub mod histories;
pub mod messages;
pub mod notes;
pub mod states;
