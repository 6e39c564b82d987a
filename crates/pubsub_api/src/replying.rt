//! What a request to publish is answered.
ghost use Rattle.std.specs.Prelude.{◌≡◌, ◌++◌, codes, decimal, IfOk};
ghost use Rattle.pubsub_api.specs.Publishing.{AcceptReplies, IsAcceptReply, RefusalReplies, fault_text, forbidden, full, no_event, taken, unknown_pubsub};

use crate::PubErr;
use api_error::{Code, error_response};
use cloud_events::EventErr;
use itoa::Buffer;
use ledger_core::LedgerReply;
use link_call::given;
use side_base::{Blob, NoMemory, Response, Sequence, Text};
use std::alloc::Global;
use turn_cell::ApiErr;

/// The response where no pub/sub component of the name is loaded.
pub fn unknown_pubsub(alloc: Global, name: &Text) -> Result<Response, NoMemory>
    ensures { IfOk result (λ response. response ≡ unknown_pubsub name.now) }
{
    let message = around(alloc, "pubsub ", name, " is not found")?;
    error_response(alloc, 404, Code::PubsubNotFound, message.as_str())
}

/// The response to what becomes no command.
pub(crate) fn refused(alloc: Global, topic: &Text, error: PubErr) -> Result<Response, ApiErr>
    ensures { RefusalReplies topic.now error result }
{
    match error {
        PubErr::Forbidden => given(forbidden(alloc, topic)),
        PubErr::Event(why) => given(no_event(alloc, &why)),
        PubErr::NoMemory => Err(ApiErr::NoMemory),
    }
}

/// The response to what the ledger replied.
pub(crate) fn accepted(alloc: Global, reply: &LedgerReply) -> Result<Response, ApiErr>
    requires { IsAcceptReply reply.now }
    ensures { AcceptReplies reply.now result }
{
    match reply {
        LedgerReply::Accepted { .. } => Ok(taken(alloc)),
        LedgerReply::Full { rows, bytes } => given(full(alloc, *rows, *bytes)),
        LedgerReply::NoMemory => Err(ApiErr::NoMemory),
        _ => unreachable!(),
    }
}

/// The response where the message is taken. Takes no memory.
fn taken(alloc: Global) -> Response
    ensures { result ≡ taken }
{
    Response {
        status: 204,
        fields: Sequence::new(alloc),
        body: Blob::new(alloc),
    }
}

/// The response where the scopes deny it.
fn forbidden(alloc: Global, topic: &Text) -> Result<Response, NoMemory>
    ensures { IfOk result (λ response. response ≡ forbidden topic.now) }
{
    let message = around(alloc, "topic ", topic, " is not allowed")?;
    error_response(alloc, 403, Code::PubsubForbidden, message.as_str())
}

/// The response where the body becomes no event.
fn no_event(alloc: Global, why: &EventErr) -> Result<Response, NoMemory>
    ensures { IfOk result (λ response. response ≡ no_event why.now) }
{
    error_response(alloc, 400, Code::PubsubCloudEventsSer, fault_text(why))
}

/// The name of what is wrong with a body.
fn fault_text(why: &EventErr) -> &'static str
    ensures { result.now ≡ fault_text why.now }
{
    match why {
        EventErr::NotJson { .. } => "NotJson",
        EventErr::Attribute { .. } => "Attribute",
        EventErr::BothData => "BothData",
        EventErr::BadBase64 { .. } => "BadBase64",
        EventErr::BadTime => "BadTime",
        EventErr::NoMemory => "NoMemory",
    }
}

/// The response where the ledger is full.
fn full(alloc: Global, rows: u128, bytes: u128) -> Result<Response, NoMemory>
    ensures { IfOk result (λ response. response ≡ full rows bytes) }
{
    let message = full_text(alloc, rows, bytes)?;
    error_response(alloc, 500, Code::PubsubPublishMessage, message.as_str())
}

/// The message that tells how much the ledger would hold.
fn full_text(alloc: Global, rows: u128, bytes: u128) -> Result<Text, NoMemory>
    ensures { IfOk result (λ text. text ≡ codes "full at " ++ decimal rows ++ codes " rows and " ++ decimal bytes ++ codes " bytes") }
{
    let mut digits = Buffer::new();
    let mut text = Text::from_str(alloc, "full at ")?;
    text.push(digits.format(rows))?;
    text.push(" rows and ")?;
    text.push(digits.format(bytes))?;
    text.push(" bytes")?;
    Ok(text)
}

/// A text between two others.
fn around(alloc: Global, before: &str, text: &Text, behind: &str) -> Result<Text, NoMemory>
    ensures { IfOk result (λ whole. whole ≡ before.now ++ text.now ++ behind.now) }
{
    let mut whole = Text::from_str(alloc, before)?;
    whole.push(text.as_str())?;
    whole.push(behind)?;
    Ok(whole)
}
