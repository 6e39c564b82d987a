ghost use Rattle.std.specs.Prelude.{◌≡◌};
ghost use Rattle.api_error.specs.Code.{code_name};

/// Which kind of error a response tells.
#[derive(Clone, Copy, Debug, PartialEq, Eq)]
pub enum Code {
    /// The request is no request of HTTP that is taken here.
    BadRequest,
    /// No route has the path.
    NotFound,
    /// The path has a route, but not for the method.
    MethodNotAllowed,
    /// The request's path or body is not of the route's form.
    MalformedRequest,
    /// There is no state component of the name.
    StateStoreNotFound,
    /// A read of a key was refused.
    StateGet,
    /// A read of several keys was refused.
    StateBulkGet,
    /// A save was refused.
    StateSave,
    /// A delete was refused.
    StateDelete,
    /// A transaction was refused.
    StateTransaction,
    /// A call of an app was refused or failed.
    DirectInvoke,
    /// A call of an output binding was refused or failed.
    InvokeOutputBinding,
    /// There is no pub/sub component of the name.
    PubsubNotFound,
    /// The app may not publish to the topic.
    PubsubForbidden,
    /// What was published can't be made an event.
    PubsubCloudEventsSer,
    /// The event was not taken.
    PubsubPublishMessage,
    /// A call of an actor was refused or failed.
    ActorInvokeMethod,
    /// No store keeps the state of actors.
    ActorState,
    /// There is no room for a metadata entry.
    MetadataFull,
    /// An object has counted all calls that it can count.
    Spent,
    /// There is no memory.
    NoMemory,
}

impl Code {
    /// Its name in a response. Takes no memory.
    pub fn name(self) -> &'static str
        ensures { result.now ≡ code_name self }
    {
        match self {
            Code::BadRequest => "ERR_BAD_REQUEST",
            Code::NotFound => "ERR_NOT_FOUND",
            Code::MethodNotAllowed => "ERR_METHOD_NOT_ALLOWED",
            Code::MalformedRequest => "ERR_MALFORMED_REQUEST",
            Code::StateStoreNotFound => "ERR_STATE_STORE_NOT_FOUND",
            Code::StateGet => "ERR_STATE_GET",
            Code::StateBulkGet => "ERR_STATE_BULK_GET",
            Code::StateSave => "ERR_STATE_SAVE",
            Code::StateDelete => "ERR_STATE_DELETE",
            Code::StateTransaction => "ERR_STATE_TRANSACTION",
            Code::DirectInvoke => "ERR_DIRECT_INVOKE",
            Code::InvokeOutputBinding => "ERR_INVOKE_OUTPUT_BINDING",
            Code::PubsubNotFound => "ERR_PUBSUB_NOT_FOUND",
            Code::PubsubForbidden => "ERR_PUBSUB_FORBIDDEN",
            Code::PubsubCloudEventsSer => "ERR_PUBSUB_CLOUD_EVENTS_SER",
            Code::PubsubPublishMessage => "ERR_PUBSUB_PUBLISH_MESSAGE",
            Code::ActorInvokeMethod => "ERR_ACTOR_INVOKE_METHOD",
            Code::ActorState => "ERR_ACTOR_STATE",
            Code::MetadataFull => "ERR_METADATA_FULL",
            Code::Spent => "ERR_SPENT",
            Code::NoMemory => "ERR_NO_MEMORY",
        }
    }
}
