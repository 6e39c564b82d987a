ghost use Rattle.std.specs.Prelude.{◌≡◌, ◌∷◌, [], IfOk};
ghost use Rattle.api_error.specs.Body.{error_body, error_response, json_type};
ghost use Rattle.api_error.specs.NoMemory.{no_memory_response};

use crate::Code;
use json_text::push_string_of;
use side_base::{Blob, Field, Fields, NoMemory, Response, Sequence, Text};
use std::alloc::Global;

/// What is written in place of a response where no memory is left for one: status 503 with its fields, which end the
/// connection, and the body of `Code::NoMemory`, whose last byte is a space.
const NO_MEMORY_RESPONSE: &[u8] =
    b"HTTP/1.1 503 Service Unavailable\r\nContent-Type: application/json\r\nContent-Length: 52\r\nConnection: close\r\n\r\n{\"errorCode\":\"ERR_NO_MEMORY\",\"message\":\"no memory\"} ";

/// The response of an error: the status, and a JSON body with the code's name and the message.
pub fn error_response(
    alloc: Global,
    status: u16,
    code: Code,
    message: &str,
) -> Result<Response, NoMemory>
    ensures { IfOk result (λ response. response ≡ error_response status code message.now) }
{
    let body = error_body(alloc, code, message)?;
    let fields = json_fields(alloc)?;
    Ok(Response {
        status,
        fields,
        body,
    })
}

/// A JSON map of the code's name and the message.
fn error_body(alloc: Global, code: Code, message: &str) -> Result<Blob, NoMemory>
    ensures { IfOk result (λ body. body ≡ error_body code message.now) }
{
    let mut body = Blob::new(alloc);
    body.push(b"{\"errorCode\":\"")?;
    body.push(code.name().as_bytes())?;
    body.push(b"\",\"message\":")?;
    push_string_of(&mut body, message)?;
    body.push(b"}")?;
    Ok(body)
}

/// The one field of a response with a JSON body.
pub fn json_fields(alloc: Global) -> Result<Fields, NoMemory>
    ensures { IfOk result (λ fields. fields ≡ json_type ∷ []) }
{
    let mut fields = Sequence::new(alloc);
    fields.push(Field {
        name: Text::from_static(alloc, "Content-Type"),
        value: Blob::from_bytes(alloc, b"application/json")?,
    })?;
    Ok(fields)
}

/// The bytes of the response where no memory is left for one: status 503, after which the connection ends. Takes no memory.
pub fn no_memory_response() -> &'static [u8]
    ensures { result.now ≡ no_memory_response }
{
    NO_MEMORY_RESPONSE
}
