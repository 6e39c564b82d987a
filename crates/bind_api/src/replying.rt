//! What a request to a binding is answered.
ghost use Rattle.std.specs.Prelude.{◌≡◌, ◌++◌, ◌∷◌, [], codes, decimal, IfOk, OnOk, option_copied};
ghost use Rattle.side_base.specs.Field.{first_value};
ghost use Rattle.policy_run.specs.RefusalText.{refusal_text};
ghost use Rattle.bind_api.specs.Binding.{BindingReplies, done, missed, not_bound, status_field, taken_fields, taken_with, told, type_field, type_fields};

use api_error::{Code, error_response};
use itoa::Buffer;
use link_call::{Miss, given};
use policy_run::{Outcome, Refusal};
use side_base::{Blob, Field, Fields, NoMemory, Response, Sequence, Text, first_value};
use std::alloc::Global;
use turn_cell::ApiErr;

/// The response to what the attempts came to.
pub(crate) fn replied(alloc: Global, outcome: Outcome<Response, Miss>) -> Result<Response, ApiErr>
    ensures { BindingReplies outcome result }
{
    match outcome {
        Outcome::Good(response) => given(told(alloc, response)),
        Outcome::Bad(miss) => given(missed(alloc, miss)),
        Outcome::Refused(refusal) => given(refused(alloc, refusal)),
        Outcome::Exhausted { count } => Err(ApiErr::Exhausted { count }),
        Outcome::NoMemory => Err(ApiErr::NoMemory),
    }
}

/// The response where no binding of the name is loaded.
pub fn unknown_binding(alloc: Global, name: &Text) -> Result<Response, NoMemory>
    ensures { IfOk result (λ response. response ≡ not_bound (codes "unknown binding " ++ name.now)) }
{
    let mut text = Text::from_str(alloc, "unknown binding ")?;
    text.push(name.as_str())?;
    not_bound(alloc, text.as_str())
}

/// The response where the last attempt failed.
fn missed(alloc: Global, miss: Miss) -> Result<Response, NoMemory>
    ensures { IfOk result (λ response. response ≡ missed miss) }
{
    match miss {
        Miss::Failed => not_bound(alloc, "call failed"),
        Miss::Expired => not_bound(alloc, "call expired"),
        Miss::Replied(response) => told(alloc, response),
    }
}

/// The response where the breaker let no attempt through.
fn refused(alloc: Global, refusal: Refusal) -> Result<Response, NoMemory>
    ensures { IfOk result (λ response. response ≡ not_bound (refusal_text refusal)) }
{
    let text = refusal.text(alloc)?;
    not_bound(alloc, text.as_str())
}

/// The response to a reply: one of 200 to 299 is a success, and of any other the status is told.
fn told(alloc: Global, response: Response) -> Result<Response, NoMemory>
    ensures { IfOk result (λ answer. answer ≡ told response) }
{
    let status = response.status;
    if 200 <= status && status <= 299 {
        taken(alloc, response)
    } else {
        refused_by(alloc, status)
    }
}

/// The response to a reply of another status.
fn refused_by(alloc: Global, status: u16) -> Result<Response, NoMemory>
    ensures { IfOk result (λ response. response ≡ not_bound (codes "status " ++ decimal status)) }
{
    let text = status_text(alloc, status)?;
    not_bound(alloc, text.as_str())
}

/// The message that tells a status.
fn status_text(alloc: Global, status: u16) -> Result<Text, NoMemory>
    ensures { IfOk result (λ text. text ≡ codes "status " ++ decimal status) }
{
    let mut text = Text::from_str(alloc, "status ")?;
    let mut digits = Buffer::new();
    text.push(digits.format(status))?;
    Ok(text)
}

/// The response to a success: its content with its type and its status, or that there is none. The content is moved.
fn taken(alloc: Global, response: Response) -> Result<Response, NoMemory>
    ensures { IfOk result (λ answer. answer ≡ taken_with response response.body) }
{
    if response.body.is_empty() {
        return Ok(done(alloc));
    }
    let fields = taken_fields(alloc, &response)?;
    Ok(Response {
        status: 200,
        fields,
        body: response.body,
    })
}

/// The fields of such a response: the first type that the reply says, and its status.
fn taken_fields(alloc: Global, response: &Response) -> Result<Fields, NoMemory>
    ensures { IfOk result (λ fields. fields ≡ taken_fields response.now) }
{
    let mut fields = Sequence::new(alloc);
    push_type(
        alloc,
        &mut fields,
        first_value(&response.fields, b"Content-Type"),
    )?;
    let status = status_field(alloc, response.status)?;
    fields.push(status)?;
    Ok(fields)
}

/// A success without content.
fn done(alloc: Global) -> Response
    ensures { result ≡ done }
{
    Response {
        status: 204,
        fields: Sequence::new(alloc),
        body: Blob::new(alloc),
    }
}

/// Appends the type of the content, where there is one.
fn push_type(alloc: Global, fields: &mut Fields, value: Option<&[u8]>) -> Result<(), NoMemory>
    ensures { OnOk result (fields.new ≡ fields.old ++ type_fields (option_copied value.entry)) }
{
    match value {
        Some(value) => {
            let field = type_field(alloc, value)?;
            fields.push(field)
        }
        None => Ok(()),
    }
}

/// The type of the content.
fn type_field(alloc: Global, value: &[u8]) -> Result<Field, NoMemory>
    ensures { IfOk result (λ field. field ≡ type_field value.now) }
{
    Ok(Field {
        name: Text::from_static(alloc, "Content-Type"),
        value: Blob::from_bytes(alloc, value)?,
    })
}

/// The status of the reply.
fn status_field(alloc: Global, status: u16) -> Result<Field, NoMemory>
    ensures { IfOk result (λ field. field ≡ status_field status) }
{
    let mut digits = Buffer::new();
    Ok(Field {
        name: Text::from_static(alloc, "metadata.statusCode"),
        value: Blob::from_bytes(alloc, digits.format(status).as_bytes())?,
    })
}

/// An error of this route.
fn not_bound(alloc: Global, message: &str) -> Result<Response, NoMemory>
    ensures { IfOk result (λ response. response ≡ not_bound message.now) }
{
    error_response(alloc, 500, Code::InvokeOutputBinding, message)
}
