// What a rule computes with.
ghost use Rattle.std.specs.Prelude.{◌≡◌, List, ℕ, Option, Some, IfSome};
ghost use Rattle.json_text.specs.declared.doc.Doc.{Doc as JsonDoc};
ghost use Rattle.json_text.specs.declared.spot.Spot.{Spot};
ghost use Rattle.json_text.specs.Forest.{Forest, grows};
ghost use Rattle.json_text.specs.Doc.{bytes_read, IsNode, StandsAt};
ghost use Rattle.rule_value.specs.Values.{Event, Value as Meant, both, either, negated, flag_in, flag_or_error, member_at, value_at, value_as, value_found};
ghost use Rattle.rule_value.specs.Standing.{IsEvent, Is, IsFound, IsReadable};

use crate::operand::{Bytes, whole_of};
use crate::part::Whole;
use json_text::{Doc, Kind, Node};
use side_base::{Blob, Sequence};

/// A value. `Other` is a list, a map, or a number that is no whole one within 64 bits.
#[derive(Clone, Copy)]
pub(crate) enum Value<'r> {
    /// A text of the rule.
    Own { text: &'r [u8] },
    /// A text of the event.
    Told { node: Node },
    /// A whole number.
    Number { whole: Whole },
    /// A truth value.
    Flag { on: bool },
    /// Null.
    Null,
    /// What has no further value.
    Other,
    /// What could not be computed.
    Error,
}

/// The member of the event that the names lead to.
pub(crate) fn member_at(doc: &Doc<'_>, path: &Sequence<Blob>) -> Option<Node>
    ensures node { IfSome result (IsNode doc.now) }
    ensures found { (event : Event) → IsEvent doc.now event → IsFound doc.now result (member_at event path.now) }
{
    let mut node = doc.root();
    for i in 0..path.len() {
        match doc.member(node, path.at(i).bytes()) {
            Some(found) => node = found,
            None => return None,
        }
    }
    Some(node)
}

/// The value of a member.
pub(crate) fn value_at<'r>(doc: &Doc<'_>, found: Option<Node>) -> Value<'r>
    requires { IfSome found (IsNode doc.now) }
    ensures readable { IsReadable doc.now result }
    ensures value { (values : Option Forest) → IsFound doc.now found values → Is doc.now result (value_found (bytes_read doc.now) values) }
{
    match found {
        Some(node) => value_of(doc, node),
        None => Value::Error,
    }
}

fn value_of<'r>(doc: &Doc<'_>, node: Node) -> Value<'r>
    requires { IsNode doc.now node }
    ensures readable { IsReadable doc.now result }
    ensures value { (spot : Spot) (children later : Forest) → StandsAt doc.now node (grows spot children later) → Is doc.now result (value_as (bytes_read doc.now) spot spot.kind) }
{
    match doc.kind(node) {
        Kind::Null => Value::Null,
        Kind::Flag { on } => Value::Flag { on },
        Kind::Number => match whole_of(Bytes::own(doc.value_bytes(node))) {
            Some(whole) => Value::Number { whole },
            None => Value::Other,
        },
        Kind::Text => Value::Told { node },
        Kind::List => Value::Other,
        Kind::Map => Value::Other,
    }
}

/// The truth value that it is, if it is one.
pub(crate) fn flag_of(value: Value<'_>) -> Option<bool>
    ensures { (doc : JsonDoc) (meant : Meant) → Is doc value.entry meant → result ≡ flag_in meant }
{
    match value {
        Value::Flag { on } => Some(on),
        Value::Own { text: _ } => None,
        Value::Told { node: _ } => None,
        Value::Number { whole: _ } => None,
        Value::Null => None,
        Value::Other => None,
        Value::Error => None,
    }
}

/// A truth value; none stands for an error.
pub(crate) fn flag_or_error<'r>(flag: Option<bool>) -> Value<'r>
    ensures readable { (doc : JsonDoc) → IsReadable doc result }
    ensures value { (doc : JsonDoc) → Is doc result (flag_or_error flag) }
{
    match flag {
        Some(on) => Value::Flag { on },
        None => Value::Error,
    }
}

/// `&&`: false on either side makes it false; otherwise what is no truth value makes an error.
pub(crate) fn both(a: Option<bool>, b: Option<bool>) -> Option<bool>
    ensures { result ≡ both a b }
{
    match a {
        Some(true) => b,
        Some(false) => Some(false),
        None => match b {
            Some(true) => None,
            Some(false) => Some(false),
            None => None,
        },
    }
}

/// `||`: true on either side makes it true; otherwise what is no truth value makes an error.
pub(crate) fn either(a: Option<bool>, b: Option<bool>) -> Option<bool>
    ensures { result ≡ either a b }
{
    match a {
        Some(false) => b,
        Some(true) => Some(true),
        None => match b {
            Some(false) => None,
            Some(true) => Some(true),
            None => None,
        },
    }
}

/// `!`
pub(crate) fn negated(a: Option<bool>) -> Option<bool>
    ensures { result ≡ negated a }
{
    match a {
        Some(on) => Some(!on),
        None => None,
    }
}
