//! What a call of an actor is answered.
ghost use Rattle.std.specs.Prelude.{◌≡◌, ◌++◌, IfOk, codes, decimal};
ghost use Rattle.actor_api.specs.Calling.{Replies, not_invoked};

use api_error::{Code, error_response};
use itoa::Buffer;
use link_call::{given, pass_on};
use side_base::{NoMemory, Response, Text};
use side_world::LinkErr;
use std::alloc::Global;
use turn_cell::ApiErr;

/// The response to what the link answered: a reply is passed on, whatever its status is.
pub(crate) fn replied(alloc: Global, answer: Result<Response, LinkErr>) -> Result<Response, ApiErr>
    ensures { Replies answer result }
{
    match answer {
        Ok(response) => given(pass_on(alloc, response)),
        Err(error) => missed(alloc, error),
    }
}

/// The response where there is no reply.
fn missed(alloc: Global, error: LinkErr) -> Result<Response, ApiErr>
    ensures { Replies (Err error) result }
{
    match error {
        LinkErr::Failed => given(not_invoked(alloc, "call failed")),
        LinkErr::Expired => given(not_invoked(alloc, "call expired")),
        LinkErr::NoMemory => Err(ApiErr::NoMemory),
    }
}

/// An error of this route.
pub(crate) fn not_invoked(alloc: Global, message: &str) -> Result<Response, NoMemory>
    ensures { IfOk result (λ response. response ≡ not_invoked message.now) }
{
    error_response(alloc, 500, Code::ActorInvokeMethod, message)
}

/// One whose message is a text and a number.
pub(crate) fn not_invoked_by(alloc: Global, text: &str, number: u64) -> Result<Response, NoMemory>
    ensures { IfOk result (λ response. response ≡ not_invoked (text.now ++ decimal number)) }
{
    let mut message = Text::from_str(alloc, text)?;
    message.push(Buffer::new().format(number))?;
    not_invoked(alloc, message.as_str())
}
