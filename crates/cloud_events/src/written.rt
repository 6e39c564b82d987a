//! The bytes of an event.
ghost use Rattle.std.specs.Prelude.{◌≡◌, ◌++◌, ◌∷◌, map, IfOk, OnOk};
ghost use Rattle.cloud_events.specs.Event.{attribute_of, event_bytes, item_bytes, joined, spelled, spelled_value};
ghost use Rattle.cloud_events.specs.declared.item.Value.TheVariants.{Body};

use crate::base::push_encoded;
use crate::item::{Item, Value, part};
use byte_lanes::escaped_len;
use json_text::{push_comma, push_string, push_string_of};
use side_base::{Blob, NoMemory};
use std::alloc::Global;

/// The event of these members, which are of this body.
pub(crate) fn written(alloc: Global, body: &[u8], items: &[Item]) -> Result<Blob, NoMemory>
    ensures { IfOk result (λ event. event ≡ event_bytes (map (attribute_of body.now) items.now)) }
{
    let mut event = Blob::new(alloc);
    event.reserve(room(body, items))?;
    event.push_byte(b'{')?;
    push_members(alloc, &mut event, body, items)?;
    event.push_byte(b'}')?;
    Ok(event)
}

// At least the bytes of the event, where they can be counted.
fn room(body: &[u8], items: &[Item]) -> usize {
    let mut room: usize = 2;
    for item in items {
        room = room
            .saturating_add(item.name.len())
            .saturating_add(room_of(body, item))
            .saturating_add(4);
    }
    room
}

// At least the bytes of the value.
fn room_of(body: &[u8], item: &Item) -> usize {
    match &item.value {
        Value::Text(text) => room_of_text(text.bytes()),
        Value::Body => room_of_text(body),
        Value::Encoded => (body.len() / 3).saturating_mul(4).saturating_add(6),
        Value::Simple => item.end.saturating_sub(item.start),
        Value::Other => item.end.saturating_sub(item.start),
    }
}

fn room_of_text(text: &[u8]) -> usize {
    usize::try_from(escaped_len(text))
        .unwrap_or(0)
        .saturating_add(2)
}

fn push_members(
    alloc: Global,
    event: &mut Blob,
    body: &[u8],
    items: &[Item],
) -> Result<(), NoMemory>
    ensures { OnOk result (event.new ≡ event.old ++ joined (map (item_bytes body.now) items.now)) }
{
    for i in 0..items.len() {
        push_comma(event, i == 0)?;
        push_member(alloc, event, body, &items[i])?;
    }
    Ok(())
}

fn push_member(alloc: Global, event: &mut Blob, body: &[u8], item: &Item) -> Result<(), NoMemory>
    ensures { OnOk result (event.new ≡ event.old ++ item_bytes body.now item.now) }
{
    push_string(event, &item.name)?;
    event.push_byte(b':')?;
    push_value(alloc, event, body, item)
}

fn push_value(alloc: Global, event: &mut Blob, body: &[u8], item: &Item) -> Result<(), NoMemory>
    ensures { OnOk result (event.new ≡ event.old ++ spelled body.now item.now) }
{
    match &item.value {
        Value::Text(text) => push_string(event, text),
        Value::Simple => event.push(part(body, item.start, item.end)),
        Value::Other => event.push(part(body, item.start, item.end)),
        Value::Body => push_body(event, body),
        Value::Encoded => push_encoded(alloc, event, body),
    }
}

// The body as a text; nothing where it is none.
fn push_body(event: &mut Blob, body: &[u8]) -> Result<(), NoMemory>
    ensures { OnOk result (event.new ≡ event.old ++ spelled_value body.now 0 0 Body) }
{
    match str::from_utf8(body) {
        Ok(text) => push_string_of(event, text),
        Err(_) => Ok(()),
    }
}
