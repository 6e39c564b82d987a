// The texts of a value and of its name.
ghost use Rattle.std.specs.Prelude.{◌≡◌, ◌↔◌, ◌++◌, IsTrue, OnOk, OnErr, slice_get};
ghost use Rattle.json_text.specs.Unescape.{HasText, HasName, unescaped, content, text_shown, name_shown};
ghost use Rattle.json_text.specs.Told.{inside_of};

use crate::spot::{Span, Spot};
use json_lexemes::{Kind, byte_of, push_unescaped, spells};
use side_base::{Blob, NoMemory};

// The bytes between the quotes of a string.
fn content_of(bytes: &[u8], span: Span) -> &[u8]
    ensures { result.now ≡ content bytes.now span }
{
    let from = span.start.saturating_add(1).min(bytes.len());
    let rest = &bytes[from..];
    let len = span
        .end
        .saturating_sub(1)
        .saturating_sub(span.start.saturating_add(1));
    &rest[..len.min(rest.len())]
}

/// Whether the value is this text.
pub(crate) fn has_text(bytes: &[u8], spot: Spot, text: &[u8]) -> bool
    ensures { IsTrue result ↔ HasText bytes.now spot text.now }
{
    match spot.kind {
        Kind::Text => spells(content_of(bytes, spot.span), text),
        _ => false,
    }
}

/// Whether the value is a member of this name.
pub(crate) fn has_name(bytes: &[u8], spot: Spot, name: &[u8]) -> bool
    ensures { IsTrue result ↔ HasName bytes.now spot name.now }
{
    match spot.name {
        Some(span) => spells(content_of(bytes, span), name),
        None => false,
    }
}

/// What spells the text that the value is; nothing for another value.
#[tactic(auto, unfolding(json_lexemes::specs::Unescape::unescaped_from))]
pub(crate) fn text_inside(bytes: &[u8], spot: Spot) -> &[u8]
    ensures spells { unescaped result.now ≡ text_shown bytes.now spot }
    ensures inside { result.now ≡ inside_of bytes.now spot }
{
    match spot.kind {
        Kind::Text => content_of(bytes, spot.span),
        _ => b"",
    }
}

/// What spells the name of a member; nothing for another value.
#[tactic(auto, unfolding(json_lexemes::specs::Unescape::unescaped_from))]
pub(crate) fn name_inside(bytes: &[u8], spot: Spot) -> &[u8]
    ensures { unescaped result.now ≡ name_shown bytes.now spot }
{
    match spot.name {
        Some(span) => content_of(bytes, span),
        None => b"",
    }
}

/// The byte of this number of the text that the value is.
pub(crate) fn text_byte_of(bytes: &[u8], spot: Spot, number: usize) -> Option<u8>
    ensures { result ≡ slice_get (text_shown bytes.now spot) number }
{
    byte_of(text_inside(bytes, spot), number)
}

/// Appends the text that the value is; nothing for another value. Without memory `out` stays as it was.
pub(crate) fn push_text_of(out: &mut Blob, bytes: &[u8], spot: Spot) -> Result<(), NoMemory>
    ensures ok { OnOk result (out.new ≡ out.old ++ text_shown bytes.now spot) }
    ensures err { OnErr result (out.new ≡ out.old) }
{
    push_unescaped(out, text_inside(bytes, spot))
}

/// Appends the name of a member; nothing for another value. Without memory `out` stays as it was.
pub(crate) fn push_name_of(out: &mut Blob, bytes: &[u8], spot: Spot) -> Result<(), NoMemory>
    ensures ok { OnOk result (out.new ≡ out.old ++ name_shown bytes.now spot) }
    ensures err { OnErr result (out.new ≡ out.old) }
{
    push_unescaped(out, name_inside(bytes, spot))
}
