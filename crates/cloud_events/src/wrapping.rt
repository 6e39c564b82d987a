//! A body that is published becomes an event.
ghost use Rattle.std.specs.Prelude.{◌≡◌, ℕ, List, map, IfOk, IfErr, OnOk, if◌then◌else◌};
ghost use Rattle.std.specs.Str.{is_utf8};
ghost use Rattle.json_text.specs.Doc.{Shows};
ghost use Rattle.cloud_events.specs.declared.sent.EventErr.TheVariants.{NoMemory as no_memory};
ghost use Rattle.cloud_events.specs.Clock.{IsTimeOf};
ghost use Rattle.cloud_events.specs.Event.{attribute_of, completed, event_bytes, text_item, type_of};
ghost use Rattle.cloud_events.specs.Items.{Rise, item_in};
ghost use Rattle.cloud_events.specs.Judge.{AreEvents, IsFault};
ghost use Rattle.cloud_events.specs.Reading.{AreData, IsData, IsUnreadBy, body_item, encoded_item, span_item};
ghost use Rattle.cloud_events.specs.Wrapped.{AreGiven, AreSent, IsDataRefusal, IsEventRefusal, IsRefused, IsWrapped};

use crate::complete::{complete, text_item};
use crate::gather::gather;
use crate::item::{Item, Value};
use crate::judge::judge;
use crate::media::{Form, form_of};
use crate::written::written;
use crate::{EventErr, Sent};
use json_text::laws::a_walk_visits_all_items;
use json_text::{Doc, JsonErr, read};
use side_base::{Blob, Moment, NoMemory, Text};
use std::alloc::Global;

/// The most lists and maps that stand within one another in data.
const DATA_DEPTH: usize = 63;

/// The event of a body that is published with this id and at this moment, as JSON (CloudEvents 1.0): its members in byte order of
/// their names, without spaces. By its content type the body is a whole event, whose members are kept and completed, or data, which
/// is JSON, a text, or bytes in base64.
pub fn wrap(alloc: Global, sent: &Sent, id: &Text, now: Moment) -> Result<Blob, EventErr>
    ensures ok { IfOk result (IsWrapped sent.now id.now now) }
    ensures err { IfErr result (IsRefused sent.now) }
{
    match given(alloc, sent) {
        Ok(items) => match finish(alloc, sent, id, now, items) {
            Ok(event) => Ok(event),
            Err(_) => Err(EventErr::NoMemory),
        },
        Err(error) => Err(error),
    }
}

// The event of members that are given.
fn finish(
    alloc: Global,
    sent: &Sent,
    id: &Text,
    now: Moment,
    mut items: Vec<Item>,
) -> Result<Blob, NoMemory>
    ensures { IfOk result (λ event. (time : List ℕ) × IsTimeOf now time × (event ≡ event_bytes (map (attribute_of sent.now.body) (completed sent.now id.now time items.items)))) }
{
    match complete(alloc, &mut items, sent, id, now) {
        Ok(()) => written(alloc, sent.body.bytes(), items.as_slice()),
        Err(error) => Err(error),
    }
}

// The members that the body gives.
fn given(alloc: Global, sent: &Sent) -> Result<Vec<Item>, EventErr>
    ensures ok { IfOk result (λ items. AreGiven sent.now items.items) }
    ensures err { IfErr result (IsRefused sent.now) }
{
    match form_of(&sent.content_type) {
        Form::Event => event_items(alloc, sent.body.bytes()),
        Form::Json => json_items(alloc, sent),
        Form::Plain => plain_items(alloc, sent),
        Form::Binary => encoded_items(alloc, sent),
    }
}

fn unread(error: JsonErr) -> EventErr
    ensures { IsUnreadBy error result }
{
    match error {
        JsonErr::Bad { at } => EventErr::NotJson { at },
        JsonErr::Deep { at } => EventErr::NotJson { at },
        JsonErr::NoMemory => EventErr::NoMemory,
    }
}

// Those of a whole event.
fn event_items(alloc: Global, body: &[u8]) -> Result<Vec<Item>, EventErr>
    ensures ok { IfOk result (λ items. AreSent body.now items.items) }
    ensures err { IfErr result (IsEventRefusal body.now) }
{
    match read(alloc, body) {
        Ok(doc) => items_of(alloc, &doc),
        Err(error) => Err(unread(error)),
    }
}

fn items_of(alloc: Global, doc: &Doc<'_>) -> Result<Vec<Item>, EventErr>
    ensures ok { (bytes : List ℕ) → Shows doc.now bytes → IfOk result (λ items. AreSent bytes items.items) }
    ensures err { (bytes : List ℕ) → Shows doc.now bytes → IfErr result (IsEventRefusal bytes) }
{
    let root = doc.root();
    if !doc.is_map(root) {
        return Err(EventErr::NotJson { at: 0 });
    }
    match gather(alloc, doc, root) {
        Ok(items) => judged(alloc, items),
        Err(_) => Err(EventErr::NoMemory),
    }
}

// The members, if they are an event's.
fn judged(alloc: Global, items: Vec<Item>) -> Result<Vec<Item>, EventErr>
    ensures same { IfOk result (λ those. those.items ≡ items.items) }
    ensures ok { OnOk result (AreEvents (λ name. item_in name items.items)) }
    ensures err { Rise items.items → IfErr result (IsFault (λ name. item_in name items.items)) }
{
    match judge(alloc, items.as_slice()) {
        Ok(()) => Ok(items),
        Err(error) => Err(error),
    }
}

// Those of data that is JSON.
fn json_items(alloc: Global, sent: &Sent) -> Result<Vec<Item>, EventErr>
    ensures ok { IfOk result (λ items. AreData sent.now items.items) }
    ensures err { IfErr result (IsDataRefusal sent.now.body) }
{
    match read(alloc, sent.body.bytes()) {
        Ok(doc) => root_items(alloc, sent, &doc),
        Err(error) => Err(unread(error)),
    }
}

fn root_items(alloc: Global, sent: &Sent, doc: &Doc<'_>) -> Result<Vec<Item>, EventErr>
    ensures ok { (bytes : List ℕ) → Shows doc.now bytes → bytes ≡ sent.now.body → IfOk result (λ items. AreData sent.now items.items) }
    ensures err { (bytes : List ℕ) → Shows doc.now bytes → IfErr result (IsDataRefusal bytes) }
{
    a_walk_visits_all_items();
    match doc.first_inside(DATA_DEPTH) {
        Some(n) => {
            let (at, _) = doc.span(n);
            Err(EventErr::NotJson { at })
        }
        None => {
            let (start, end) = doc.span(doc.root());
            span_items(alloc, sent, start, end)
        }
    }
}

fn span_items(alloc: Global, sent: &Sent, start: usize, end: usize) -> Result<Vec<Item>, EventErr>
    ensures ok { IfOk result (λ items. IsData (span_item start end) sent.now items.items) }
    ensures err { IfErr result (λ error. error ≡ no_memory) }
{
    let item = Item {
        name: Text::from_static(alloc, "data"),
        start,
        end,
        value: Value::Other,
    };
    data_items(alloc, sent, item)
}

// Those of data that is a text, where it is UTF-8.
fn plain_items(alloc: Global, sent: &Sent) -> Result<Vec<Item>, EventErr>
    ensures ok { IfOk result (λ items. IsData (if is_utf8 sent.now.body then body_item else encoded_item) sent.now items.items) }
    ensures err { IfErr result (λ error. error ≡ no_memory) }
{
    match str::from_utf8(sent.body.bytes()) {
        Ok(_) => {
            let item = Item {
                name: Text::from_static(alloc, "data"),
                start: 0,
                end: 0,
                value: Value::Body,
            };
            data_items(alloc, sent, item)
        }
        Err(_) => encoded_items(alloc, sent),
    }
}

// Those of data that is any bytes.
fn encoded_items(alloc: Global, sent: &Sent) -> Result<Vec<Item>, EventErr>
    ensures ok { IfOk result (λ items. IsData encoded_item sent.now items.items) }
    ensures err { IfErr result (λ error. error ≡ no_memory) }
{
    let item = Item {
        name: Text::from_static(alloc, "data_base64"),
        start: 0,
        end: 0,
        value: Value::Encoded,
    };
    data_items(alloc, sent, item)
}

// The data, and its content type.
fn data_items(alloc: Global, sent: &Sent, first: Item) -> Result<Vec<Item>, EventErr>
    ensures ok { IfOk result (λ items. IsData first sent.now items.items) }
    ensures err { IfErr result (λ error. error ≡ no_memory) }
{
    match two_items(alloc, sent, first) {
        Ok(items) => Ok(items),
        Err(_) => Err(EventErr::NoMemory),
    }
}

fn two_items(alloc: Global, sent: &Sent, first: Item) -> Result<Vec<Item>, NoMemory>
    ensures { IfOk result (λ items. IsData first sent.now items.items) }
{
    let content_type = content_type(alloc, &sent.content_type)?;
    let mut items = Vec::new(alloc);
    items.push(first)?;
    items.push(text_item(alloc, "datacontenttype", content_type))?;
    Ok(items)
}

// The whole content type, or the default.
fn content_type(alloc: Global, content_type: &Option<Text>) -> Result<Text, NoMemory>
    ensures { IfOk result (λ text. text ≡ type_of content_type.now) }
{
    match content_type {
        Some(value) => value.copy(),
        None => Ok(Text::from_static(alloc, "text/plain")),
    }
}
