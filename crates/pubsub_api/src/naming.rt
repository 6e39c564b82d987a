//! What of a request becomes an event.
ghost use Rattle.std.specs.Prelude.{◌≡◌, IfOk, option_copied};
ghost use Rattle.cloud_events.specs.Laws.{AreTexts};
ghost use Rattle.pubsub_api.specs.Publishing.{as_text, sent_of, text_field};

use crate::Publication;
use cloud_events::Sent;
use side_base::{NoMemory, Request, Text, TextErr, first_value};
use std::alloc::Global;

/// The body of a publication with what becomes its event.
pub(crate) fn sent_of(alloc: Global, what: &Publication<'_>) -> Result<Sent, NoMemory>
    ensures { IfOk result (λ sent. sent ≡ sent_of what.now) }
{
    let content_type = text_field(alloc, what.request, b"Content-Type")?;
    let traceparent = text_field(alloc, what.request, b"traceparent")?;
    let tracestate = text_field(alloc, what.request, b"tracestate")?;
    let body = what.request.body.copy()?;
    let pubsub = what.component.name().copy()?;
    let topic = what.topic.copy()?;
    let app = what.app.copy()?;
    Ok(Sent {
        content_type,
        body,
        traceparent,
        tracestate,
        pubsub,
        topic,
        app,
    })
}

/// The value of the first field of this name, where it is a text.
fn text_field(alloc: Global, request: &Request, name: &[u8]) -> Result<Option<Text>, NoMemory>
    ensures { IfOk result (λ text. text ≡ text_field name.now request.now) }
{
    as_text(alloc, first_value(&request.fields, name))
}

/// A value as a text; one that is no UTF-8 counts as absent.
fn as_text(alloc: Global, value: Option<&[u8]>) -> Result<Option<Text>, NoMemory>
    ensures { IfOk result (λ text. text ≡ as_text (option_copied value.entry)) }
{
    match value {
        Some(bytes) => match Text::from_bytes(alloc, bytes) {
            Ok(text) => Ok(Some(text)),
            Err(TextErr::NotUtf8 { .. }) => Ok(None),
            Err(TextErr::NoMemory) => Err(NoMemory),
        },
        None => Ok(None),
    }
}

/// The texts of an event are UTF-8.
pub(crate) fn texts_are_utf8(sent: &Sent, id: &Text)
    ensures { AreTexts sent.now id.now }
{
    let _id = id.bytes();
    let _app = sent.app.bytes();
    let _pubsub = sent.pubsub.bytes();
    let _topic = sent.topic.bytes();
    if let Some(value) = &sent.content_type {
        let _type = value.bytes();
    }
    if let Some(value) = &sent.traceparent {
        let _parent = value.bytes();
    }
    if let Some(value) = &sent.tracestate {
        let _state = value.bytes();
    }
}
