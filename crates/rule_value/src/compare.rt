// Comparisons and calls.
ghost use Rattle.std.specs.Prelude.{◌≡◌, List, ℕ, option_map, IfSome, IsUtf8};
ghost use Rattle.json_text.specs.declared.doc.Doc.{Doc as JsonDoc};
ghost use Rattle.rule_value.specs.Values.{Value as Meant, text, number, flag, null, unless_error, equal, below, compared, called, text_in, as_number, number_or_error};
ghost use Rattle.rule_value.specs.Standing.{Is, IsReadable};

use crate::operand::{Bytes, comes_before, holds, is_same, whole_of};
use crate::part::{Call, Relation, Whole};
use crate::value::{Value, negated};
use crate::whole::is_less;
use json_text::Doc;

// What no value of another kind is equal to; an error where this is one or other.
fn unless_error(value: Value<'_>) -> Option<bool>
    ensures { (doc : JsonDoc) (meant : Meant) → Is doc value.entry meant → result ≡ unless_error meant }
{
    match value {
        Value::Own { text: _ } => Some(false),
        Value::Told { node: _ } => Some(false),
        Value::Number { whole: _ } => Some(false),
        Value::Flag { on: _ } => Some(false),
        Value::Null => Some(false),
        Value::Other => None,
        Value::Error => None,
    }
}

fn equal_text(doc: &Doc<'_>, one: Bytes<'_>, other: Value<'_>) -> Option<bool>
    requires { IsReadable doc.now other }
    ensures { (meant : Meant) → Is doc.now other.entry meant → result ≡ equal (text one.entry) meant }
{
    match other {
        Value::Own { text } => Some(is_same(one, Bytes::own(text))),
        Value::Told { node } => Some(is_same(one, Bytes::told(doc.text_bytes(node)))),
        _ => unless_error(other),
    }
}

fn equal_number(one: Whole, other: Value<'_>) -> Option<bool>
    ensures { (doc : JsonDoc) (meant : Meant) → Is doc other.entry meant → result ≡ equal (number one) meant }
{
    match other {
        Value::Number { whole } => Some(!is_less(one, whole) && !is_less(whole, one)),
        _ => unless_error(other),
    }
}

fn equal_flag(one: bool, other: Value<'_>) -> Option<bool>
    ensures { (doc : JsonDoc) (meant : Meant) → Is doc other.entry meant → result ≡ equal (flag one) meant }
{
    match other {
        Value::Flag { on } => Some(on == one),
        _ => unless_error(other),
    }
}

fn equal_null(other: Value<'_>) -> Option<bool>
    ensures { (doc : JsonDoc) (meant : Meant) → Is doc other.entry meant → result ≡ equal null meant }
{
    match other {
        Value::Null => Some(true),
        _ => unless_error(other),
    }
}

/// `==`: two kinds are unequal; on other and on an error it is an error.
pub(crate) fn equal(doc: &Doc<'_>, one: Value<'_>, other: Value<'_>) -> Option<bool>
    requires { IsReadable doc.now one × IsReadable doc.now other }
    ensures { (a b : Meant) → Is doc.now one.entry a → Is doc.now other.entry b → result ≡ equal a b }
{
    match one {
        Value::Own { text } => equal_text(doc, Bytes::own(text), other),
        Value::Told { node } => equal_text(doc, Bytes::told(doc.text_bytes(node)), other),
        Value::Number { whole } => equal_number(whole, other),
        Value::Flag { on } => equal_flag(on, other),
        Value::Null => equal_null(other),
        Value::Other => None,
        Value::Error => None,
    }
}

fn text_below(doc: &Doc<'_>, one: Bytes<'_>, other: Value<'_>) -> Option<bool>
    requires { IsReadable doc.now other }
    ensures { (meant : Meant) → Is doc.now other.entry meant → result ≡ below (text one.entry) meant }
{
    match other {
        Value::Own { text } => Some(comes_before(one, Bytes::own(text))),
        Value::Told { node } => Some(comes_before(one, Bytes::told(doc.text_bytes(node)))),
        Value::Number { whole: _ } => None,
        Value::Flag { on: _ } => None,
        Value::Null => None,
        Value::Other => None,
        Value::Error => None,
    }
}

fn number_below(one: Whole, other: Value<'_>) -> Option<bool>
    ensures { (doc : JsonDoc) (meant : Meant) → Is doc other.entry meant → result ≡ below (number one) meant }
{
    match other {
        Value::Number { whole } => Some(is_less(one, whole)),
        Value::Own { text: _ } => None,
        Value::Told { node: _ } => None,
        Value::Flag { on: _ } => None,
        Value::Null => None,
        Value::Other => None,
        Value::Error => None,
    }
}

/// `<`: two numbers or two texts have an order.
pub(crate) fn below(doc: &Doc<'_>, one: Value<'_>, other: Value<'_>) -> Option<bool>
    requires { IsReadable doc.now one × IsReadable doc.now other }
    ensures { (a b : Meant) → Is doc.now one.entry a → Is doc.now other.entry b → result ≡ below a b }
{
    match one {
        Value::Own { text } => text_below(doc, Bytes::own(text), other),
        Value::Told { node } => text_below(doc, Bytes::told(doc.text_bytes(node)), other),
        Value::Number { whole } => number_below(whole, other),
        Value::Flag { on: _ } => None,
        Value::Null => None,
        Value::Other => None,
        Value::Error => None,
    }
}

/// A comparison.
pub(crate) fn compared(
    doc: &Doc<'_>,
    relation: Relation,
    one: Value<'_>,
    other: Value<'_>,
) -> Option<bool>
    requires { IsReadable doc.now one × IsReadable doc.now other }
    ensures { (a b : Meant) → Is doc.now one.entry a → Is doc.now other.entry b → result ≡ compared relation a b }
{
    match relation {
        Relation::Equal => equal(doc, one, other),
        Relation::Unlike => negated(equal(doc, one, other)),
        Relation::Below => below(doc, one, other),
        Relation::AtLeast => negated(below(doc, one, other)),
        Relation::Above => below(doc, other, one),
        Relation::AtMost => negated(below(doc, other, one)),
    }
}

/// The text that a value is, if it is one.
fn text_in<'r>(doc: &'r Doc<'_>, value: Value<'r>) -> Option<&'r [u8]>
    requires { IsReadable doc.now value }
    ensures text { (meant : Meant) → Is doc.now value.entry meant → option_map (λ text. text.now) result ≡ text_in meant }
    ensures utf8 { IfSome result (λ text. IsUtf8 text.now) }
{
    match value {
        Value::Own { text } => Some(text),
        Value::Told { node } => Some(doc.text(node)),
        Value::Number { whole: _ } => None,
        Value::Flag { on: _ } => None,
        Value::Null => None,
        Value::Other => None,
        Value::Error => None,
    }
}

/// A call, which takes two texts.
pub(crate) fn called(doc: &Doc<'_>, call: Call, all: Value<'_>, part: Value<'_>) -> Option<bool>
    requires { IsReadable doc.now all × IsReadable doc.now part }
    ensures { (a b : Meant) → Is doc.now all.entry a → Is doc.now part.entry b → result ≡ called call a b }
{
    match text_in(doc, all) {
        Some(all) => match text_in(doc, part) {
            Some(part) => Some(holds(call, all, part)),
            None => None,
        },
        None => None,
    }
}

fn number_or_error<'r>(number: Option<Whole>) -> Value<'r>
    ensures readable { (doc : JsonDoc) → IsReadable doc result }
    ensures value { (doc : JsonDoc) → Is doc result (number_or_error number) }
{
    match number {
        Some(whole) => Value::Number { whole },
        None => Value::Error,
    }
}

/// `int`, which takes a number or a text that spells one.
pub(crate) fn as_number<'r>(doc: &Doc<'_>, value: Value<'r>) -> Value<'r>
    requires { IsReadable doc.now value }
    ensures readable { IsReadable doc.now result }
    ensures value { (meant : Meant) → Is doc.now value.entry meant → Is doc.now result (as_number meant) }
{
    match value {
        Value::Number { whole } => Value::Number { whole },
        Value::Own { text } => number_or_error(whole_of(Bytes::own(text))),
        Value::Told { node } => number_or_error(whole_of(Bytes::told(doc.text_bytes(node)))),
        Value::Flag { on: _ } => Value::Error,
        Value::Null => Value::Error,
        Value::Other => Value::Error,
        Value::Error => Value::Error,
    }
}
