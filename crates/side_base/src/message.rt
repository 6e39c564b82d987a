use crate::{Blob, Method, Sequence, Text};

/// A list of header fields, in the order of the message.
pub type Fields = Sequence<Field>;

/// A list of names, such as keys or file names.
pub type Names = Sequence<Text>;

/// A list of requests, in the order of their stream.
pub type Requests = Sequence<Request>;

/// A header field of a message (RFC 9110, section 5): its name, and its value without white space round it.
#[derive(Debug, Drop)]
pub struct Field {
    pub name: Text,
    pub value: Blob,
}

/// A request that came in (RFC 9112, section 3).
#[derive(Debug, Drop)]
pub struct Request {
    pub method: Method,
    /// The request target as it was sent.
    pub target: Blob,
    /// The minor version: 0 for HTTP/1.0, 1 for HTTP/1.1.
    pub minor: u8,
    pub fields: Fields,
    /// The content, without its framing.
    pub body: Blob,
}

/// A response. Its length and the end of its connection are said by what writes it, and are not among the fields.
#[derive(Debug, Drop)]
pub struct Response {
    /// The status code, from 100 to 999 (RFC 9110, section 15).
    pub status: u16,
    pub fields: Fields,
    pub body: Blob,
}

/// A request to another program, with the host and the port of the server that is asked.
#[derive(Debug, Drop)]
pub struct LinkRequest {
    /// A host name or an IP address.
    pub host: Text,
    pub port: u16,
    pub method: Method,
    /// The request target as it is sent.
    pub target: Blob,
    pub fields: Fields,
    pub body: Blob,
}
