//! Why a request to a binding is malformed, and the response to it.
ghost use Rattle.std.specs.Prelude.{◌≡◌, ◌++◌, codes, decimal, IfOk};
ghost use Rattle.bind_api.specs.Malformed.{malformed, wrong_of, wrong_text};

use api_error::{Code, error_response};
use itoa::Buffer;
use json_text::JsonErr;
use side_base::{NoMemory, Response, Text};
use std::alloc::Global;

/// Why the body of a request is malformed.
#[derive(Clone, Copy, Debug, PartialEq, Eq)]
pub enum Wrong {
    /// It is no JSON text (RFC 8259): it is bad at the place `at`, or a list or a map begins there inside 64 others.
    Json { at: usize },
    /// It is no map, has no text as its operation, or metadata that are no map or whose path is no text.
    Shape,
    /// Its operation is none of the words for one.
    Operation,
}

/// Why a body asks for nothing.
#[derive(Clone, Copy, Debug, PartialEq, Eq)]
pub enum AskErr {
    /// It is malformed.
    Malformed { what: Wrong },
    /// There is no memory for what it asks for.
    NoMemory,
}

/// What is told of a body that is no JSON text.
pub(crate) fn wrong_of(error: JsonErr) -> AskErr
    ensures { result ≡ wrong_of error }
{
    match error {
        JsonErr::Bad { at } => AskErr::Malformed {
            what: Wrong::Json { at },
        },
        JsonErr::Deep { at } => AskErr::Malformed {
            what: Wrong::Json { at },
        },
        JsonErr::NoMemory => AskErr::NoMemory,
    }
}

/// The response to a malformed request: status 400, and a message that names what is wrong.
pub(crate) fn malformed_response(alloc: Global, what: Wrong) -> Result<Response, NoMemory>
    ensures { IfOk result (λ response. response ≡ malformed what) }
{
    let text = wrong_text(alloc, what)?;
    error_response(alloc, 400, Code::MalformedRequest, text.as_str())
}

/// The message that names it.
fn wrong_text(alloc: Global, what: Wrong) -> Result<Text, NoMemory>
    ensures { IfOk result (λ text. text ≡ wrong_text what) }
{
    match what {
        Wrong::Json { at } => place_text(alloc, at),
        Wrong::Shape => Ok(Text::from_static(alloc, "shape")),
        Wrong::Operation => Ok(Text::from_static(alloc, "operation")),
    }
}

/// The message that names a place at which the body is no JSON text.
fn place_text(alloc: Global, at: usize) -> Result<Text, NoMemory>
    ensures { IfOk result (λ text. text ≡ codes "json at " ++ decimal at) }
{
    let mut text = Text::new(alloc);
    text.push("json at ")?;
    let mut digits = Buffer::new();
    text.push(digits.format(at))?;
    Ok(text)
}
