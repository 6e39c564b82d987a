use side_base::{Blob, Text};

/// A body that is published, with what becomes its event.
#[derive(Debug, Drop)]
pub struct Sent {
    /// The whole value of the field `Content-Type`, where there is one.
    pub content_type: Option<Text>,
    /// The body.
    pub body: Blob,
    /// The value of the field `traceparent`, where there is one.
    pub traceparent: Option<Text>,
    /// The value of the field `tracestate`, where there is one.
    pub tracestate: Option<Text>,
    /// The name of the pub/sub component.
    pub pubsub: Text,
    /// The topic.
    pub topic: Text,
    /// The id of the app that publishes.
    pub app: Text,
}

/// Why a body was not wrapped. Where several hold, it is the one that stands first here; of several attributes the one whose value
/// stands first in the body.
#[derive(Debug, Drop)]
pub enum EventErr {
    /// The body is no JSON text up to place `at`, or a list or a map that begins there stands inside 64 others, or, in data, inside
    /// 63; or the body of a sent event is another value than a map (`at` is 0).
    NotJson { at: usize },
    /// The member of this name is no attribute: it lacks the value that CloudEvents asks of it, or has another name than attributes
    /// may have.
    Attribute { name: Text },
    /// Both `data` and `data_base64` are there.
    BothData,
    /// The value of `data_base64`, which begins at place `at`, is no standard base64 text with padding.
    BadBase64 { at: usize },
    /// `time` is no timestamp (RFC 3339), or names a day that isn't in the calendar.
    BadTime,
    /// There is no memory.
    NoMemory,
}
