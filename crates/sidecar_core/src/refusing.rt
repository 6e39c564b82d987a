ghost use Rattle.std.specs.Prelude.{◌≡◌, IfOk};
ghost use Rattle.sidecar_core.specs.Responses.{no_route, not_allowed, bad_escape, bad_actor, no_actor_store, no_store};

use api_error::{Code, error_response};
use api_routes::Methods;
use side_base::{Blob, Field, NoMemory, Response, Text};
use std::alloc::Global;

/// No route has the path.
pub(crate) fn no_route(alloc: Global) -> Result<Response, NoMemory>
    ensures { IfOk result (λ response. response ≡ no_route) }
{
    error_response(alloc, 404, Code::NotFound, "no route")
}

/// The path has a route for these methods alone.
pub(crate) fn not_allowed(alloc: Global, allow: Methods) -> Result<Response, NoMemory>
    ensures { IfOk result (λ response. response ≡ not_allowed allow) }
{
    let mut value = Blob::new(alloc);
    allow.push_allow(&mut value)?;
    let mut response = error_response(alloc, 405, Code::MethodNotAllowed, "method")?;
    response.fields.push(Field {
        name: Text::from_static(alloc, "Allow"),
        value,
    })?;
    Ok(response)
}

/// The target has a bad byte, or a part of it is no text, at this place.
pub(crate) fn bad_escape(alloc: Global, at: usize) -> Result<Response, NoMemory>
    ensures { IfOk result (λ response. response ≡ bad_escape at) }
{
    let message = format!(in alloc; "escape at {at}")?;
    error_response(alloc, 400, Code::MalformedRequest, message.as_str())
}

/// The kind or the id of an actor holds a bar.
pub(crate) fn bad_actor(alloc: Global) -> Result<Response, NoMemory>
    ensures { IfOk result (λ response. response ≡ bad_actor) }
{
    error_response(alloc, 400, Code::MalformedRequest, "actor")
}

/// There is no state component of the name.
pub(crate) fn no_store(alloc: Global, name: &Text) -> Result<Response, NoMemory>
    ensures { IfOk result (λ response. response ≡ no_store name.now) }
{
    let mut message = Text::from_str(alloc, "state store ")?;
    message.push(name.as_str())?;
    message.push(" is not found")?;
    error_response(alloc, 400, Code::StateStoreNotFound, message.as_str())
}

/// No state component keeps the state of actors.
pub(crate) fn no_actor_store(alloc: Global) -> Result<Response, NoMemory>
    ensures { IfOk result (λ response. response ≡ no_actor_store) }
{
    error_response(alloc, 500, Code::ActorState, "no actor store")
}
