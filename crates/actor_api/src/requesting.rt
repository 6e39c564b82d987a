//! What is asked of the app.
ghost use Rattle.std.specs.Prelude.{◌≡◌, ◌≤◌, ◌++◌, IfOk, codes, drop, length};
ghost use Rattle.actor_api.specs.Calling.{request_to};

use link_call::passed_fields;
use side_base::{Blob, LinkRequest, Method, NoMemory, Request, Text};
use std::alloc::Global;

/// How many bytes of a target stand before the actor: `/v1.0/actors/`.
const FRONT: usize = 13;

/// The request to the app at this port that calls the method of an actor.
pub(crate) fn request_for(
    alloc: Global,
    port: u16,
    request: &Request,
) -> Result<LinkRequest, NoMemory>
    requires { 13 ≤ length request.now.target }
    ensures { IfOk result (λ asked. asked ≡ request_to port request.now) }
{
    Ok(LinkRequest {
        host: Text::from_static(alloc, "127.0.0.1"),
        port,
        method: Method::Put,
        target: target_for(alloc, &request.target)?,
        fields: passed_fields(alloc, &request.fields)?,
        body: request.body.copy()?,
    })
}

/// The target at the app: `/actors/` in the place of `/v1.0/actors/`.
fn target_for(alloc: Global, target: &Blob) -> Result<Blob, NoMemory>
    requires { 13 ≤ length target.now }
    ensures { IfOk result (λ made. made ≡ codes "/actors/" ++ drop 13 target.now) }
{
    let mut made = Blob::from_bytes(alloc, b"/actors/")?;
    made.push(&target.bytes()[FRONT..])?;
    Ok(made)
}
