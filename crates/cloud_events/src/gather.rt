//! The members of a map that was sent.
ghost use Rattle.std.specs.Prelude.{◌≡◌, ◌++◌, ◌∷◌, [], IfOk, OnOk};
ghost use Rattle.json_text.specs.Doc.{IsNode, OfNode, bytes_read};
ghost use Rattle.json_text.specs.declared.spot.Spot.{Spot};
ghost use Rattle.cloud_events.specs.Gather.{Adds, AllNodes, AreItems};
ghost use Rattle.cloud_events.specs.Items.{AreSaid, by_kind, item_at, number_value, value_at};
ghost use Rattle.cloud_events.specs.Members.{IsAt};
ghost use Rattle.json_text.specs.Unescape.{text_shown};

use crate::item::{Item, Value, is_int32, is_same};
use json_text::laws::a_walk_visits_all_items;
use json_text::{Doc, Kind, Member, Members, Node};
use side_base::NoMemory;
use std::alloc::Global;

/// The last member of each name, in order of the names, without those that are null.
pub(crate) fn gather(alloc: Global, doc: &Doc<'_>, n: Node) -> Result<Vec<Item>, NoMemory>
    requires { IsNode doc.now n }
    ensures { OfNode doc.now n (λ spot children later. IfOk result (λ items. AreSaid (bytes_read doc.now) children items.items)) }
{
    a_walk_visits_all_items();
    let _read = doc.root();
    match doc.last_members(alloc, n) {
        Ok(members) => all_items(alloc, doc, members),
        Err(error) => Err(error),
    }
}

// All that are not null.
fn all_items(alloc: Global, doc: &Doc<'_>, mut members: Members) -> Result<Vec<Item>, NoMemory>
    requires { AllNodes doc.now members }
    ensures { IfOk result (λ items. AreItems doc.now members items.items) }
{
    let mut items = Vec::with_capacity(alloc, members.len())?;
    while let Some(member) = members.take_first() {
        match add(alloc, doc, &mut items, member) {
            Ok(()) => {}
            Err(error) => return Err(error),
        }
    }
    Ok(items)
}

// Adds the member at the end, unless it is null.
fn add(alloc: Global, doc: &Doc<'_>, items: &mut Vec<Item>, member: Member) -> Result<(), NoMemory>
    requires { IsNode doc.now member.node }
    ensures { OnOk result (Adds doc.now member items.old.items items.new.items) }
{
    if doc.is_null(member.node) {
        return Ok(());
    }
    match item_of(alloc, doc, member) {
        Ok(item) => push(items, item),
        Err(error) => Err(error),
    }
}

fn push(items: &mut Vec<Item>, item: Item) -> Result<(), NoMemory>
    ensures { OnOk result (items.new.items ≡ items.old.items ++ item ∷ []) }
{
    match items.push(item) {
        Ok(()) => Ok(()),
        Err(_) => Err(NoMemory),
    }
}

fn item_of(alloc: Global, doc: &Doc<'_>, member: Member) -> Result<Item, NoMemory>
    requires { IsNode doc.now member.node }
    ensures name { IfOk result (λ item. item.name ≡ member.name) }
    ensures same { (spot : Spot) → IsAt doc.now member.node spot → IfOk result (λ item. item ≡ item_at (bytes_read doc.now) member.name spot) }
{
    let (start, end) = doc.span(member.node);
    match value_of(alloc, doc, member.name.bytes(), member.node) {
        Ok(value) => Ok(Item {
            name: member.name,
            start,
            end,
            value,
        }),
        Err(error) => Err(error),
    }
}

fn value_of(alloc: Global, doc: &Doc<'_>, name: &[u8], n: Node) -> Result<Value, NoMemory>
    requires { IsNode doc.now n }
    ensures { (spot : Spot) → IsAt doc.now n spot → IfOk result (λ value. value ≡ value_at (bytes_read doc.now) name.now spot) }
{
    if is_same(name, b"data") {
        return Ok(Value::Other);
    }
    by_kind(alloc, doc, n, doc.kind(n))
}

fn by_kind(alloc: Global, doc: &Doc<'_>, n: Node, kind: Kind) -> Result<Value, NoMemory>
    requires { IsNode doc.now n }
    ensures { (spot : Spot) → IsAt doc.now n spot → IfOk result (λ value. value ≡ by_kind (bytes_read doc.now) spot kind) }
{
    match kind {
        Kind::Text => text_value(alloc, doc, n),
        Kind::Number => Ok(number_value(doc.value_bytes(n))),
        Kind::Flag { .. } => Ok(Value::Simple),
        Kind::Null => Ok(Value::Other),
        Kind::List => Ok(Value::Other),
        Kind::Map => Ok(Value::Other),
    }
}

fn text_value(alloc: Global, doc: &Doc<'_>, n: Node) -> Result<Value, NoMemory>
    requires { IsNode doc.now n }
    ensures { (spot : Spot) → IsAt doc.now n spot → IfOk result (λ value. value ≡ Value.Text (text_shown (bytes_read doc.now) spot)) }
{
    match doc.text_of(alloc, n) {
        Ok(text) => Ok(Value::Text(text)),
        Err(error) => Err(error),
    }
}

fn number_value(number: &[u8]) -> Value
    ensures { result ≡ number_value number.now }
{
    if is_int32(number) {
        Value::Simple
    } else {
        Value::Other
    }
}
