ghost use Rattle.std.specs.Prelude.{◌≡◌};
ghost use Rattle.http_frames.specs.Closes.{is_close, closes_after};

use side_base::{Field, Request, has_item, is_same_word};

const CONNECTION: &[u8] = b"connection";

const CLOSE: &[u8] = b"close";

/// Whether the connection ends after this request: it is of HTTP/1.0, or names `close` in a field `Connection`,
/// in any case (RFC 9112, section 9.6). Takes no memory.
#[tactic(auto, unfolding(crate::specs::Closes::closes_after))]
pub fn closes(request: &Request) -> bool
    ensures { result ≡ closes_after request.now }
{
    if request.minor == 0 {
        return true;
    }
    for i in 0..request.fields.len() {
        if is_close(request.fields.at(i)) {
            return true;
        }
    }
    false
}

fn is_close(field: &Field) -> bool
    ensures { result ≡ is_close field.now }
{
    is_same_word(field.name.bytes(), CONNECTION) && has_item(field.value.bytes(), CLOSE)
}
