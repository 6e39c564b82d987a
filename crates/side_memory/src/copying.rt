ghost use Rattle.std.specs.Prelude.{◌≡◌, IfOk};

use side_base::{Field, Fields, LinkRequest, NoMemory, Response};
use std::alloc::Global;

fn copy_fields(alloc: Global, fields: &Fields) -> Result<Fields, NoMemory>
    ensures { IfOk result (λ copy. copy ≡ fields.now) }
{
    let mut copy = Fields::new(alloc);
    for i in 0..fields.len() {
        let field = fields.at(i);
        copy.push(Field {
            name: field.name.copy()?,
            value: field.value.copy()?,
        })?;
    }
    Ok(copy)
}

/// A second request with the same parts.
pub(crate) fn copy_request(alloc: Global, request: &LinkRequest) -> Result<LinkRequest, NoMemory>
    ensures { IfOk result (λ copy. copy ≡ request.now) }
{
    Ok(LinkRequest {
        host: request.host.copy()?,
        port: request.port,
        method: request.method,
        target: request.target.copy()?,
        fields: copy_fields(alloc, &request.fields)?,
        body: request.body.copy()?,
    })
}

/// A second response with the same parts.
pub(crate) fn copy_response(alloc: Global, response: &Response) -> Result<Response, NoMemory>
    ensures { IfOk result (λ copy. copy ≡ response.now) }
{
    Ok(Response {
        status: response.status,
        fields: copy_fields(alloc, &response.fields)?,
        body: response.body.copy()?,
    })
}
