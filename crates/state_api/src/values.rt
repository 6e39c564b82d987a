//! Members of the maps of a JSON text, by their names. Of repeated members the last counts; null counts as absent.
ghost use Rattle.std.specs.Prelude.{◌≡◌, IfSome, Ok};
ghost use Rattle.json_text.specs.Doc.{IsNode, bytes_read};
ghost use Rattle.state_api.specs.Given.{Gives};
ghost use Rattle.state_api.specs.Values.{AreAt, AreNodes, AreTextsAt, IsAt, Value, are_texts, held_in, is_list, is_map, is_text, last_named, member, needed, optional, text_of};

use crate::{StateErr, What};
use json_text::laws::a_walk_visits_all_items;
use json_text::{Doc, Members, Node};
use side_base::Text;
use std::alloc::Global;

/// The body, or a part of it, has not the form that the route wants.
pub(crate) const SHAPE: StateErr = StateErr::Malformed { what: What::Shape };

/// The last member of a name.
pub(crate) fn last_member(doc: &Doc<'_>, n: Node, name: &[u8]) -> Option<Node>
    requires { IsNode doc.now n }
    ensures node { IfSome result (IsNode doc.now) }
    ensures last { (value : Value) → IsAt doc.now n value → AreAt doc.now result (last_named (bytes_read doc.now) name.now (held_in value)) }
{
    doc.member(n, name)
}

/// The member of a name, if it is there.
pub(crate) fn member(doc: &Doc<'_>, n: Node, name: &[u8]) -> Option<Node>
    requires { IsNode doc.now n }
    ensures node { IfSome result (IsNode doc.now) }
    ensures member { (value : Value) → IsAt doc.now n value → AreAt doc.now result (member (bytes_read doc.now) name.now value) }
{
    doc.member_unless_null(n, name)
}

/// Whether the value is a list.
pub(crate) fn is_list(doc: &Doc<'_>, n: Node) -> bool
    requires { IsNode doc.now n }
    ensures { (value : Value) → IsAt doc.now n value → result ≡ is_list value.spot.kind }
{
    doc.is_list(n)
}

/// Whether the value is a map.
pub(crate) fn is_map(doc: &Doc<'_>, n: Node) -> bool
    requires { IsNode doc.now n }
    ensures { (value : Value) → IsAt doc.now n value → result ≡ is_map value.spot.kind }
{
    doc.is_map(n)
}

/// Whether the value is a text.
pub(crate) fn is_text(doc: &Doc<'_>, n: Node) -> bool
    requires { IsNode doc.now n }
    ensures { (value : Value) → IsAt doc.now n value → result ≡ is_text value.spot.kind }
{
    doc.is_text(n)
}

/// The value as a text.
pub(crate) fn text_of(alloc: Global, doc: &Doc<'_>, n: Node) -> Result<Text, StateErr>
    requires { IsNode doc.now n }
    ensures { (value : Value) → IsAt doc.now n value → Gives result (text_of (bytes_read doc.now) value) }
{
    if !is_text(doc, n) {
        return Err(SHAPE);
    }
    match doc.text_of(alloc, n) {
        Ok(text) => Ok(text),
        Err(_) => Err(StateErr::NoMemory),
    }
}

/// The text that a member is, which must be there.
pub(crate) fn needed(alloc: Global, doc: &Doc<'_>, n: Node, name: &[u8]) -> Result<Text, StateErr>
    requires { IsNode doc.now n }
    ensures { (value : Value) → IsAt doc.now n value → Gives result (needed (bytes_read doc.now) (member (bytes_read doc.now) name.now value)) }
{
    match member(doc, n, name) {
        Some(m) => text_of(alloc, doc, m),
        None => Err(SHAPE),
    }
}

/// The text that a member is, if it is there.
pub(crate) fn optional(
    alloc: Global,
    doc: &Doc<'_>,
    n: Node,
    name: &[u8],
) -> Result<Option<Text>, StateErr>
    requires { IsNode doc.now n }
    ensures { (value : Value) → IsAt doc.now n value → Gives result (optional (bytes_read doc.now) (member (bytes_read doc.now) name.now value)) }
{
    match member(doc, n, name) {
        Some(m) => match text_of(alloc, doc, m) {
            Ok(text) => Ok(Some(text)),
            Err(error) => Err(error),
        },
        None => Ok(None),
    }
}

/// Whether of each name the last member is a text.
pub(crate) fn are_texts(alloc: Global, doc: &Doc<'_>, n: Node) -> Result<bool, StateErr>
    requires { IsNode doc.now n }
    ensures { (value : Value) → IsAt doc.now n value → Gives result (Ok (are_texts (bytes_read doc.now) (held_in value))) }
{
    a_walk_visits_all_items();
    let _read = doc.root();
    match doc.last_members(alloc, n) {
        Ok(members) => Ok(all_texts(doc, &members)),
        Err(_) => Err(StateErr::NoMemory),
    }
}

/// Whether the values of all members are texts.
fn all_texts(doc: &Doc<'_>, members: &Members) -> bool
    requires { AreNodes doc.now members.now }
    ensures { AreTextsAt doc.now members.now result }
{
    for i in 0..members.len() {
        if !is_text(doc, members.at(i).node) {
            return false;
        }
    }
    true
}
