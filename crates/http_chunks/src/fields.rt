ghost use Rattle.std.specs.Prelude.{◌≡◌, ◌<◌, IfSome, IsTrue, length, slice_index};
ghost use Rattle.std.specs.List.{list_all};
ghost use Rattle.httparse.specs.Grammar.{is_token_byte};
ghost use Rattle.http_chunks.specs.LinePlaces.{IsInField, IsInValue, is_field_byte};

use httparse::{is_header_value, is_method_token, is_token};

const COLON: u8 = b':';

/// What a field begins with, which bytes of one kind may follow in any number.
#[derive(Clone, Copy, Debug)]
pub enum FieldPart {
    /// Bytes of its name.
    Name,
    /// Its name, a colon, and bytes of its value.
    Value,
}

/// The part of a field that the bytes are.
pub fn field_part(bytes: &[u8]) -> Option<FieldPart>
    ensures { IfSome result (λ part. IsInField part bytes.now) }
{
    if is_token(bytes) {
        Some(FieldPart::Name)
    } else if is_in_value(bytes) {
        Some(FieldPart::Value)
    } else {
        None
    }
}

/// Whether the bytes may follow in the part.
pub fn are_of_field(part: FieldPart, bytes: &[u8]) -> bool
    ensures { result ≡ list_all (is_field_byte part) bytes.now }
{
    match part {
        FieldPart::Name => are_token_bytes(bytes),
        FieldPart::Value => is_header_value(bytes),
    }
}

fn are_token_bytes(bytes: &[u8]) -> bool
    ensures { result ≡ list_all is_token_byte bytes.now }
{
    bytes.iter().all(|byte| is_method_token(*byte))
}

/// Whether the bytes are a field's name, a colon, and bytes of its value.
fn is_in_value(bytes: &[u8]) -> bool
    ensures { IsTrue result → IsInValue bytes.now }
{
    match colon_at(bytes) {
        Some(at) => is_token(&bytes[..at]) && is_header_value(&bytes[at + 1..]),
        None => false,
    }
}

/// The place of the first colon.
fn colon_at(bytes: &[u8]) -> Option<usize>
    ensures { IfSome result (λ at. (at < length bytes.now) × (slice_index bytes.now at ≡ 58)) }
{
    for at in 0..bytes.len() {
        if bytes[at] == COLON {
            return Some(at);
        }
    }
    None
}
