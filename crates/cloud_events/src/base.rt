//! Base64 (RFC 4648, section 4).
ghost use Rattle.std.specs.Prelude.{◌≡◌, ◌++◌, ◌∷◌, [], ◌↔◌, IfOk, OnOk, IsTrue};
ghost use Rattle.cloud_events.specs.Base.{IsBase64, encoded};

use base64::DecodeAllocError;
use base64::engine::general_purpose::STANDARD;
use json_text::push_string_of;
use side_base::{Blob, NoMemory};
use std::alloc::Global;

/// Whether the text is the base64 of some bytes: in the standard alphabet, padded, its unused bits zero.
pub(crate) fn is_base64(alloc: Global, text: &[u8]) -> Result<bool, NoMemory>
    ensures { IfOk result (λ is. IsTrue is ↔ IsBase64 text.now) }
{
    match STANDARD.decode(alloc, text) {
        Ok(_) => Ok(true),
        Err(DecodeAllocError::OutOfMemory) => Err(NoMemory),
        Err(DecodeAllocError::DecodeError(_)) => Ok(false),
    }
}

/// Appends the base64 of the bytes as a JSON string.
pub(crate) fn push_encoded(alloc: Global, out: &mut Blob, bytes: &[u8]) -> Result<(), NoMemory>
    ensures { OnOk result (out.new ≡ out.old ++ encoded bytes.now) }
{
    let text = STANDARD.encode(alloc, bytes)?;
    push_string_of(out, text.as_str())
}
