//! Parts of a body by their names, as they lie in it. Of repeated members the last counts; null counts as absent.
ghost use Rattle.std.specs.Prelude.{◌≡◌, codes, IfSome, Option};
ghost use Rattle.json_text.specs.Doc.{IsNode, bytes_read};
ghost use Rattle.bind_api.specs.Given.{Says, shown};
ghost use Rattle.bind_api.specs.Values.{AreAt, IsAt, Value, last_named, held_in, member, needed, text_of, text_or_none};
ghost use Rattle.bind_api.specs.Asked.{bytes_of, path_in, path_of, sent_of};

use crate::Wrong;
use json_text::{Doc, Node};

/// The member of a name, if it is there.
pub(crate) fn member(doc: &Doc<'_>, n: Node, name: &[u8]) -> Option<Node>
    requires { IsNode doc.now n }
    ensures node { IfSome result (IsNode doc.now) }
    ensures member { (value : Value) → IsAt doc.now n value → AreAt doc.now result (member (bytes_read doc.now) name.now value) }
{
    doc.member_unless_null(n, name)
}

/// The last member of a name, be it null.
pub(crate) fn last_member(doc: &Doc<'_>, n: Node, name: &[u8]) -> Option<Node>
    requires { IsNode doc.now n }
    ensures node { IfSome result (IsNode doc.now) }
    ensures last { (value : Value) → IsAt doc.now n value → AreAt doc.now result (last_named (bytes_read doc.now) name.now (held_in value)) }
{
    doc.member(n, name)
}

/// The value as a text.
fn text_of<'r>(doc: &'r Doc<'_>, n: Node) -> Result<&'r [u8], Wrong>
    requires { IsNode doc.now n }
    ensures { (value : Value) → IsAt doc.now n value → Says shown result (text_of (bytes_read doc.now) value) }
{
    if !doc.is_text(n) {
        return Err(Wrong::Shape);
    }
    Ok(doc.text(n))
}

/// A text that must be there.
pub(crate) fn needed<'r>(doc: &'r Doc<'_>, found: Option<Node>) -> Result<&'r [u8], Wrong>
    requires { IfSome found (IsNode doc.now) }
    ensures { (value : Option Value) → AreAt doc.now found value → Says shown result (needed (bytes_read doc.now) value) }
{
    match found {
        Some(n) => text_of(doc, n),
        None => Err(Wrong::Shape),
    }
}

/// A text that may be absent, and is empty then.
fn text_or_none<'r>(doc: &'r Doc<'_>, found: Option<Node>) -> Result<&'r [u8], Wrong>
    requires { IfSome found (IsNode doc.now) }
    ensures { (value : Option Value) → AreAt doc.now found value → Says shown result (text_or_none (bytes_read doc.now) value) }
{
    match found {
        Some(n) => text_of(doc, n),
        None => Ok(b""),
    }
}

/// The path among the metadata.
pub(crate) fn path_in<'r>(doc: &'r Doc<'_>, metadata: Option<Node>) -> Result<&'r [u8], Wrong>
    requires { IfSome metadata (IsNode doc.now) }
    ensures { (value : Option Value) → AreAt doc.now metadata value → Says shown result (path_in (bytes_read doc.now) value) }
{
    match metadata {
        Some(n) => path_of(doc, n),
        None => Ok(b""),
    }
}

/// The path that metadata have.
fn path_of<'r>(doc: &'r Doc<'_>, n: Node) -> Result<&'r [u8], Wrong>
    requires { IsNode doc.now n }
    ensures { (value : Value) → IsAt doc.now n value → Says shown result (path_of (bytes_read doc.now) value) }
{
    if !doc.is_map(n) {
        return Err(Wrong::Shape);
    }
    text_or_none(doc, member(doc, n, b"path"))
}

/// What is sent of the data: what a text spells, the bytes of any other value, and nothing of an absent one.
pub(crate) fn sent_of<'r>(doc: &'r Doc<'_>, found: Option<Node>) -> &'r [u8]
    requires { IfSome found (IsNode doc.now) }
    ensures { (value : Option Value) → AreAt doc.now found value → result.now ≡ sent_of (bytes_read doc.now) value }
{
    match found {
        Some(n) => bytes_of(doc, n),
        None => b"",
    }
}

/// What a text spells, or the bytes of any other value.
fn bytes_of<'r>(doc: &'r Doc<'_>, n: Node) -> &'r [u8]
    requires { IsNode doc.now n }
    ensures { (value : Value) → IsAt doc.now n value → result.now ≡ bytes_of (bytes_read doc.now) value }
{
    if doc.is_text(n) {
        doc.text(n)
    } else {
        doc.value_bytes(n)
    }
}
