//! What an event has beside what was given.
ghost use Rattle.std.specs.Prelude.{◌≡◌, ℕ, List, fold, OnOk};
ghost use Rattle.cloud_events.specs.Clock.{IsTimeOf};
ghost use Rattle.cloud_events.specs.Event.{completed, optional_item, own_items, text_item, trace_items};
ghost use Rattle.cloud_events.specs.Placing.{fill, put};

use crate::Sent;
use crate::clock::time_text;
use crate::item::{Item, Value};
use crate::placing::{fill, put};
use side_base::{Moment, NoMemory, Text};
use std::alloc::Global;

/// Fills in what is absent, and sets the topic and the pub/sub component.
pub(crate) fn complete(
    alloc: Global,
    items: &mut Vec<Item>,
    sent: &Sent,
    id: &Text,
    now: Moment,
) -> Result<(), NoMemory>
    ensures { OnOk result ((time : List ℕ) × IsTimeOf now time × (items.new.items ≡ completed sent.now id.now time items.old.items)) }
{
    match time_text(alloc, now) {
        Ok(time) => complete_at(alloc, items, sent, id, time),
        Err(error) => Err(error),
    }
}

fn complete_at(
    alloc: Global,
    items: &mut Vec<Item>,
    sent: &Sent,
    id: &Text,
    time: Text,
) -> Result<(), NoMemory>
    ensures { OnOk result (items.new.items ≡ completed sent.now id.now time items.old.items) }
{
    fill_own(alloc, items, sent, id, time)?;
    fill_traces(alloc, items, sent)?;
    put_text(alloc, items, "topic", sent.topic.copy()?)?;
    put_text(alloc, items, "pubsubname", sent.pubsub.copy()?)
}

fn fill_own(
    alloc: Global,
    items: &mut Vec<Item>,
    sent: &Sent,
    id: &Text,
    time: Text,
) -> Result<(), NoMemory>
    ensures { OnOk result (items.new.items ≡ fold fill items.old.items (own_items sent.now id.now time)) }
{
    fill_text(alloc, items, "id", id.copy()?)?;
    fill_text(alloc, items, "source", sent.app.copy()?)?;
    fill_text(alloc, items, "specversion", Text::from_static(alloc, "1.0"))?;
    fill_text(alloc, items, "time", time)?;
    fill_text(
        alloc,
        items,
        "type",
        Text::from_static(alloc, "com.dapr.event.sent"),
    )
}

fn fill_traces(alloc: Global, items: &mut Vec<Item>, sent: &Sent) -> Result<(), NoMemory>
    ensures { OnOk result (items.new.items ≡ fold fill items.old.items (trace_items sent.now)) }
{
    fill_optional(alloc, items, "traceid", &sent.traceparent)?;
    fill_optional(alloc, items, "traceparent", &sent.traceparent)?;
    fill_optional(alloc, items, "tracestate", &sent.tracestate)
}

fn fill_optional(
    alloc: Global,
    items: &mut Vec<Item>,
    name: &'static str,
    text: &Option<Text>,
) -> Result<(), NoMemory>
    ensures { OnOk result (items.new.items ≡ fold fill items.old.items (optional_item name.now text.now)) }
{
    match text {
        Some(text) => match text.copy() {
            Ok(text) => fill_text(alloc, items, name, text),
            Err(error) => Err(error),
        },
        None => Ok(()),
    }
}

fn fill_text(
    alloc: Global,
    items: &mut Vec<Item>,
    name: &'static str,
    text: Text,
) -> Result<(), NoMemory>
    ensures { OnOk result (items.new.items ≡ fill items.old.items (text_item name.now text)) }
{
    fill(items, text_item(alloc, name, text))
}

fn put_text(
    alloc: Global,
    items: &mut Vec<Item>,
    name: &'static str,
    text: Text,
) -> Result<(), NoMemory>
    ensures { OnOk result (items.new.items ≡ put (text_item name.now text) items.old.items) }
{
    put(items, text_item(alloc, name, text))
}

/// A member that is a text.
pub(crate) fn text_item(alloc: Global, name: &'static str, text: Text) -> Item
    ensures { result ≡ text_item name.now text }
{
    Item {
        name: Text::from_static(alloc, name),
        start: 0,
        end: 0,
        value: Value::Text(text),
    }
}
