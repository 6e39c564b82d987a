//! The response to a request that is malformed.
ghost use Rattle.std.specs.Prelude.{◌≡◌, ◌++◌, codes, decimal, IfOk};
ghost use Rattle.state_api.specs.Response.{malformed, what_text};

use crate::What;
use api_error::{Code, error_response};
use itoa::Buffer;
use side_base::{NoMemory, Response, Text};
use std::alloc::Global;

/// The response to a malformed request: status 400, and a message that names what is wrong.
pub fn malformed_response(alloc: Global, what: What) -> Result<Response, NoMemory>
    ensures { IfOk result (λ response. response ≡ malformed what) }
{
    let text = what_text(alloc, what)?;
    error_response(alloc, 400, Code::MalformedRequest, text.as_str())
}

/// The message that names it.
fn what_text(alloc: Global, what: What) -> Result<Text, NoMemory>
    ensures { IfOk result (λ text. text ≡ what_text what) }
{
    match what {
        What::Json { at } => place_text(alloc, at),
        What::Shape => Ok(Text::from_static(alloc, "shape")),
        What::Key => Ok(Text::from_static(alloc, "key")),
        What::Concurrency => Ok(Text::from_static(alloc, "concurrency")),
        What::Operation => Ok(Text::from_static(alloc, "operation")),
        What::TooMany => Ok(Text::from_static(alloc, "too many")),
        What::Ttl => Ok(Text::from_static(alloc, "ttl")),
    }
}

/// The message that names a place at which the body is no JSON text.
fn place_text(alloc: Global, at: usize) -> Result<Text, NoMemory>
    ensures { IfOk result (λ text. text ≡ codes "json at " ++ decimal at) }
{
    let mut text = Text::new(alloc);
    text.push("json at ")?;
    let mut digits = Buffer::new();
    text.push(digits.format(at))?;
    Ok(text)
}
