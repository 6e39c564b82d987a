//! What a call of a method is answered.
ghost use Rattle.std.specs.Prelude.{◌≡◌, ◌++◌, codes, IfOk};
ghost use Rattle.policy_run.specs.RefusalText.{refusal_text};
ghost use Rattle.invoke_api.specs.Invoking.{InvokeReplies, UnplacedReplies, missed, not_invoked};

use crate::placing::Unplaced;
use api_error::{Code, error_response};
use link_call::{Miss, given, pass_on};
use policy_run::{Outcome, Refusal};
use side_base::{NoMemory, Response, Text};
use std::alloc::Global;
use turn_cell::ApiErr;

/// The response to what the attempts came to: a reply is passed on, also one with a status from 500 on.
pub(crate) fn replied(alloc: Global, outcome: Outcome<Response, Miss>) -> Result<Response, ApiErr>
    ensures { InvokeReplies outcome result }
{
    match outcome {
        Outcome::Good(response) => given(pass_on(alloc, response)),
        Outcome::Bad(miss) => given(missed(alloc, miss)),
        Outcome::Refused(refusal) => given(refused(alloc, refusal)),
        Outcome::Exhausted { count } => Err(ApiErr::Exhausted { count }),
        Outcome::NoMemory => Err(ApiErr::NoMemory),
    }
}

/// The response where nothing was asked.
pub(crate) fn unplaced(alloc: Global, app: &Text, why: Unplaced) -> Result<Response, ApiErr>
    ensures { UnplacedReplies app.now why result }
{
    match why {
        Unplaced::NoPort => given(not_invoked(alloc, "no app port")),
        Unplaced::Unknown => given(unknown(alloc, app)),
        Unplaced::NoMemory => Err(ApiErr::NoMemory),
    }
}

/// The response where the last attempt failed.
fn missed(alloc: Global, miss: Miss) -> Result<Response, NoMemory>
    ensures { IfOk result (λ response. response ≡ missed miss) }
{
    match miss {
        Miss::Failed => not_invoked(alloc, "call failed"),
        Miss::Expired => not_invoked(alloc, "call expired"),
        Miss::Replied(response) => pass_on(alloc, response),
    }
}

/// The response where the breaker let no attempt through.
fn refused(alloc: Global, refusal: Refusal) -> Result<Response, NoMemory>
    ensures { IfOk result (λ response. response ≡ not_invoked (refusal_text refusal)) }
{
    let text = refusal.text(alloc)?;
    not_invoked(alloc, text.as_str())
}

/// The response where no app of the id is known.
fn unknown(alloc: Global, app: &Text) -> Result<Response, NoMemory>
    ensures { IfOk result (λ response. response ≡ not_invoked (codes "unknown app " ++ app.now)) }
{
    let mut text = Text::from_str(alloc, "unknown app ")?;
    text.push(app.as_str())?;
    not_invoked(alloc, text.as_str())
}

/// An error of this route.
fn not_invoked(alloc: Global, message: &str) -> Result<Response, NoMemory>
    ensures { IfOk result (λ response. response ≡ not_invoked message.now) }
{
    error_response(alloc, 500, Code::DirectInvoke, message)
}
