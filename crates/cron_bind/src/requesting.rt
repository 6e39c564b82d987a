//! The request to the app.
ghost use Rattle.std.specs.Prelude.{◌≡◌, IfOk};
ghost use Rattle.cron_bind.specs.Posting.{request_to, target_of};

use percent_encoding::{AsciiSet, NON_ALPHANUMERIC, ascii_set, percent_encode};
use side_base::{Blob, LinkRequest, Method, NoMemory, Sequence, Text};
use std::alloc::Global;

/// Where the own app listens.
const OWN_HOST: &str = "127.0.0.1";

/// The bytes that are escaped: all but letters, digits, `-`, `.`, `_` and `~` (RFC 3986, section 2.3).
const RESERVED: AsciiSet = ascii_set!(
    NON_ALPHANUMERIC
        .remove(b'-')
        .remove(b'.')
        .remove(b'_')
        .remove(b'~')
);

/// The request to the app at this port for a tick of the binding of this name.
pub(crate) fn request_for(alloc: Global, port: u16, name: &Text) -> Result<LinkRequest, NoMemory>
    ensures { IfOk result (λ asked. asked ≡ request_to port name.now) }
{
    Ok(LinkRequest {
        host: Text::from_static(alloc, OWN_HOST),
        port,
        method: Method::Post,
        target: target_of(alloc, name.bytes())?,
        fields: Sequence::new(alloc),
        body: Blob::new(alloc),
    })
}

/// The target: a slash and the name, escaped.
fn target_of(alloc: Global, name: &[u8]) -> Result<Blob, NoMemory>
    ensures { IfOk result (λ target. target ≡ target_of name.now) }
{
    let mut target = String::new(alloc);
    target.push('/')?;
    percent_encode(name, RESERVED).append_to(&mut target)?;
    Ok(Blob::from_vec(target.into_bytes()))
}
