//! A member among others, in byte order of their names.
ghost use Rattle.std.specs.Prelude.{◌≡◌, ◌≤◌, ◌<◌, length, OnOk};
ghost use Rattle.std.specs.Bool.{OnTrue};
ghost use Rattle.std.specs.Ordering.{nat_cmp};
ghost use Rattle.std.specs.Cmp.Lexicographic.{slice_cmp};
ghost use Rattle.cloud_events.specs.declared.item.Item.{Item as ItemRecord};
ghost use Rattle.cloud_events.specs.Placing.{fill, put, put_at};

use crate::item::{Item, is_there};
use side_base::NoMemory;
use std::cmp::Ordering;

/// Where a member of a name stands among others, or would stand.
#[derive(Clone, Copy, Debug)]
pub(crate) struct Place {
    pub at: usize,
    /// Whether one stands there.
    pub taken: bool,
}

/// Adds a member, unless one has its name.
pub(crate) fn fill(items: &mut Vec<Item>, item: Item) -> Result<(), NoMemory>
    ensures { OnOk result (items.new.items ≡ fill items.old.items item) }
{
    if is_there(items.as_slice(), item.name.bytes()) {
        return Ok(());
    }
    put(items, item)
}

/// Adds a member, in place of the one that has its name.
pub(crate) fn put(items: &mut Vec<Item>, item: Item) -> Result<(), NoMemory>
    ensures { OnOk result (items.new.items ≡ put item items.old.items) }
{
    let place = place_of(items.as_slice(), item.name.bytes());
    store(items, place, item)
}

// Which of two names comes first, in byte order.
fn order(one: &[u8], other: &[u8]) -> Ordering
    ensures { result ≡ slice_cmp nat_cmp one.now other.now }
{
    one.cmp(other)
}

// The place of a name.
fn place_of(items: &[Item], name: &[u8]) -> Place
    ensures place { (item : ItemRecord) → item.name ≡ name.now → put item items.now ≡ put_at result item items.now }
    ensures within { result.at ≤ length items.now }
    ensures taken { OnTrue result.taken (result.at < length items.now) }
{
    for (at, item) in items.iter().enumerate() {
        match order(name, item.name.bytes()) {
            Ordering::Less => return Place { at, taken: false },
            Ordering::Equal => return Place { at, taken: true },
            Ordering::Greater => {}
        }
    }
    Place {
        at: items.len(),
        taken: false,
    }
}

// Puts a member to its place.
fn store(items: &mut Vec<Item>, place: Place, item: Item) -> Result<(), NoMemory>
    requires within { place.at ≤ length items.old.items }
    requires taken { OnTrue place.taken (place.at < length items.old.items) }
    ensures { OnOk result (items.new.items ≡ put_at place item items.old.items) }
{
    if place.taken {
        items[place.at] = item;
        return Ok(());
    }
    match items.insert(place.at, item) {
        Ok(()) => Ok(()),
        Err(_) => Err(NoMemory),
    }
}
