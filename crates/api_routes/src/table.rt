ghost use Rattle.std.specs.Prelude.{◌≡◌};
ghost use Rattle.api_routes.specs.Parameters.{parts_of};
ghost use Rattle.api_routes.specs.Routers.{AreRows};
ghost use Rattle.api_routes.specs.Table.{table};

use crate::Methods;

/// What a route does.
#[derive(Clone, Copy, Debug, PartialEq, Eq)]
pub(crate) enum Kind {
    Save,
    Get,
    Delete,
    Bulk,
    Transact,
    Invoke,
    Publish,
    Binding,
    ActorCall,
    ActorGet,
    ActorChange,
    Health,
    Metadata,
    SetMetadata,
    Shutdown,
}

/// A part of a path: what stands after a slash.
#[derive(Clone, Copy)]
pub(crate) enum Part {
    /// A segment that is none of the parameters.
    Literal,
    /// A parameter: one segment.
    Segment,
    /// A parameter: all that is left.
    Tail,
}

/// A row of the table of routes.
#[derive(Clone, Copy)]
pub(crate) struct Row {
    pub(crate) methods: Methods,
    /// The path: between two slashes stands a literal or, in braces, a parameter of one segment. A parameter with a star
    /// is all that is left.
    pub(crate) path: &'static str,
    pub(crate) kind: Kind,
}

const DELETE: Methods = Methods {
    delete: true,
    ..Methods::NONE
};

const GET: Methods = Methods {
    get: true,
    ..Methods::NONE
};

const POST: Methods = Methods {
    post: true,
    ..Methods::NONE
};

const PUT: Methods = Methods {
    put: true,
    ..Methods::NONE
};

const POST_AND_PUT: Methods = Methods {
    post: true,
    put: true,
    ..Methods::NONE
};

const DELETE_GET_POST_AND_PUT: Methods = Methods {
    delete: true,
    get: true,
    post: true,
    put: true,
    ..Methods::NONE
};

const ALL: Methods = Methods {
    delete: true,
    get: true,
    head: true,
    options: true,
    patch: true,
    post: true,
    put: true,
};

/// The path that ends the sidecar.
pub(crate) const SHUTDOWN_PATH: &str = "/v1.0/shutdown";

/// The routes of the interface.
pub(crate) const ROUTES: [Row; 15] = [
    Row {
        methods: POST_AND_PUT,
        path: "/v1.0/state/{store}",
        kind: Kind::Save,
    },
    Row {
        methods: GET,
        path: "/v1.0/state/{store}/{key}",
        kind: Kind::Get,
    },
    Row {
        methods: DELETE,
        path: "/v1.0/state/{store}/{key}",
        kind: Kind::Delete,
    },
    Row {
        methods: POST_AND_PUT,
        path: "/v1.0/state/{store}/bulk",
        kind: Kind::Bulk,
    },
    Row {
        methods: POST_AND_PUT,
        path: "/v1.0/state/{store}/transaction",
        kind: Kind::Transact,
    },
    Row {
        methods: ALL,
        path: "/v1.0/invoke/{app}/method/{*rest}",
        kind: Kind::Invoke,
    },
    Row {
        methods: POST_AND_PUT,
        path: "/v1.0/publish/{pubsub}/{*topic}",
        kind: Kind::Publish,
    },
    Row {
        methods: POST_AND_PUT,
        path: "/v1.0/bindings/{name}",
        kind: Kind::Binding,
    },
    Row {
        methods: GET,
        path: "/v1.0/healthz",
        kind: Kind::Health,
    },
    Row {
        methods: GET,
        path: "/v1.0/metadata",
        kind: Kind::Metadata,
    },
    Row {
        methods: PUT,
        path: "/v1.0/metadata/{name}",
        kind: Kind::SetMetadata,
    },
    Row {
        methods: POST,
        path: SHUTDOWN_PATH,
        kind: Kind::Shutdown,
    },
    Row {
        methods: DELETE_GET_POST_AND_PUT,
        path: "/v1.0/actors/{kind}/{id}/method/{*rest}",
        kind: Kind::ActorCall,
    },
    Row {
        methods: GET,
        path: "/v1.0/actors/{kind}/{id}/state/{key}",
        kind: Kind::ActorGet,
    },
    Row {
        methods: POST_AND_PUT,
        path: "/v1.0/actors/{kind}/{id}/state",
        kind: Kind::ActorChange,
    },
];

/// The routes of the interface, as a slice.
pub(crate) fn routes() -> &'static [Row]
    ensures { AreRows result.now table }
{
    &ROUTES
}

/// The parts of the path of a kind of route.
pub(crate) fn parts_of(kind: Kind) -> &'static [Part]
    ensures { result.now ≡ parts_of kind }
{
    match kind {
        Kind::Save | Kind::Binding | Kind::SetMetadata => {
            &[Part::Literal, Part::Literal, Part::Segment]
        }
        Kind::Get | Kind::Delete => {
            &[Part::Literal, Part::Literal, Part::Segment, Part::Segment]
        }
        Kind::Bulk | Kind::Transact => {
            &[Part::Literal, Part::Literal, Part::Segment, Part::Literal]
        }
        Kind::Invoke => &[
            Part::Literal,
            Part::Literal,
            Part::Segment,
            Part::Literal,
            Part::Tail,
        ],
        Kind::Publish => &[Part::Literal, Part::Literal, Part::Segment, Part::Tail],
        Kind::ActorCall => &[
            Part::Literal,
            Part::Literal,
            Part::Segment,
            Part::Segment,
            Part::Literal,
            Part::Tail,
        ],
        Kind::ActorGet => &[
            Part::Literal,
            Part::Literal,
            Part::Segment,
            Part::Segment,
            Part::Literal,
            Part::Segment,
        ],
        Kind::ActorChange => &[
            Part::Literal,
            Part::Literal,
            Part::Segment,
            Part::Segment,
            Part::Literal,
        ],
        Kind::Health | Kind::Metadata | Kind::Shutdown => &[Part::Literal, Part::Literal],
    }
}
