use crate::{Methods, NoMemory};
use side_base::{Blob, Text};
use std::error::Error;
use std::fmt;

/// What a request asks for, with the names that its target gives. Names are decoded.
#[derive(Debug, Drop)]
pub enum Route {
    /// Save the items of the body.
    Save { store: Text },
    /// Read a key.
    Get { store: Text, key: Text },
    /// Delete a key.
    Delete { store: Text, key: Text },
    /// Read the keys of the body.
    Bulk { store: Text },
    /// Do the operations of the body, all or none.
    Transact { store: Text },
    /// Call a method of an application; `rest` is the target from the method's name on, with its query, as it was sent.
    Invoke { app: Text, rest: Blob },
    /// Publish the body to a topic.
    Publish { pubsub: Text, topic: Text },
    /// Invoke an output binding.
    Binding { name: Text },
    /// Call a method of an actor. The method stands in the target.
    ActorCall { kind: Text, id: Text },
    /// Read a key of an actor's state.
    ActorGet { kind: Text, id: Text, key: Text },
    /// Do the operations of the body on an actor's state, all or none.
    ActorChange { kind: Text, id: Text },
    /// Ask whether the sidecar answers.
    Health,
    /// Read the metadata.
    Metadata,
    /// Set a metadata entry.
    SetMetadata { name: Text },
    /// End the sidecar.
    Shutdown,
}

/// Why a method and a target have no route.
#[derive(Clone, Copy, Debug, PartialEq, Eq)]
pub enum RouteErr {
    /// No method has a route for the path.
    NotFound,
    /// The method has no route for the path. Those that have one are `allow`.
    MethodNotAllowed { allow: Methods },
    /// At `at` in the target a byte stands before the query that no target has, or a `%` that two hexadecimal digits do
    /// not follow; else a parameter starts at `at` that is not UTF-8 where it is decoded.
    BadEscape { at: usize },
    /// There is no room for a copy of a name.
    NoMemory,
}

impl fmt::Display for RouteErr {
    ghost use Rattle.std.specs.Prelude.{Some};
    ghost use Rattle.api_routes.specs.Refusals.{refusal_text};

    ghost output = { λ error. Some (refusal_text error) };

    fn fmt<W: fmt::Write>(&self, f: &mut fmt::Formatter<W>) -> fmt::Result {
        match self {
            RouteErr::NotFound => f.write_str("no route"),
            RouteErr::MethodNotAllowed { .. } => f.write_str("method"),
            RouteErr::BadEscape { at } => write!(f, "escape at {at}"),
            RouteErr::NoMemory => f.write_str("no memory"),
        }
    }
}

impl Error for RouteErr {}
