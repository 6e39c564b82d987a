//! What a content type says of a body (RFC 9110, section 8.3; RFC 6838, section 4.2.8).
ghost use Rattle.std.specs.Prelude.{◌≡◌, ◌≤◌, ◌-◌, ◌==◌, drop, length, position};
ghost use Rattle.cloud_events.specs.Media.{by_type, cut_at, ends_in_json, form_of, media_type};

use side_base::{Text, is_same_word, trimmed};

/// What a body is taken as.
#[derive(Clone, Copy, Debug, PartialEq, Eq)]
pub(crate) enum Form {
    /// A whole event, as JSON.
    Event,
    /// Data that is JSON.
    Json,
    /// Data that is a text, where it is UTF-8.
    Plain,
    /// Data that is any bytes.
    Binary,
}

/// What a body is taken as by the value of its `Content-Type`.
pub(crate) fn form_of(content_type: &Option<Text>) -> Form
    ensures { result ≡ form_of content_type.now }
{
    match content_type {
        Some(value) => by_type(media_type(value.bytes())),
        None => Form::Plain,
    }
}

// The part before `;`, without the blanks round it.
fn media_type(value: &[u8]) -> &[u8]
    ensures { result.now ≡ media_type value.now }
{
    match semicolon_at(value) {
        Some(at) => trimmed(&value[..at]),
        None => trimmed(value),
    }
}

fn semicolon_at(value: &[u8]) -> Option<usize>
    ensures { result ≡ position (λ byte. byte == 59) value.now }
{
    value.iter().position(|byte| *byte == b';')
}

fn by_type(kind: &[u8]) -> Form
    ensures { result ≡ by_type kind.now }
{
    if is_same_word(kind, b"application/cloudevents+json") {
        Form::Event
    } else if is_same_word(kind, b"application/json") || ends_in_json(kind) {
        Form::Json
    } else if is_same_word(kind, b"application/octet-stream") {
        Form::Binary
    } else {
        Form::Plain
    }
}

fn ends_in_json(kind: &[u8]) -> bool
    ensures { result ≡ ends_in_json kind.now }
{
    kind.len() >= 5 && is_same_word(last_five(kind), b"+json")
}

fn last_five(kind: &[u8]) -> &[u8]
    requires { 5 ≤ length kind.now }
    ensures { result.now ≡ drop (length kind.now - 5) kind.now }
{
    let (_, end) = kind.split_at(kind.len() - 5);
    end
}
