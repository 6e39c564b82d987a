//! Whether members that were sent are those of an event (CloudEvents 1.0).
ghost use Rattle.std.specs.Prelude.{◌≡◌, ◌⊎◌, ◌↔◌, true, false, IfOk, OnOk, IfErr, IsTrue, IfSome, IfNone, option_copied, bytes_eq, MatchOption};
ghost use Rattle.std.specs.List.{list_all};
ghost use Rattle.cloud_events.specs.Items.{Rise, item_in};
ghost use Rattle.cloud_events.specs.Judge.{AreEvents, IsBadBase, IsBadTime, IsBaseValue, IsDataFault, IsFault, IsGoodBase, IsGoodTime, IsTimeValue, are_both, earlier, first_wrong, is_attribute, is_attribute_name, is_data_name, is_name_byte, is_simple, is_some_text, is_version, is_wrong, needs_text, sooner};

use crate::EventErr;
use crate::base::is_base64;
use crate::clock::is_time;
use crate::item::{Item, Value, find, is_same, is_there};
use side_base::NoMemory;
use std::alloc::Global;

/// Whether the members, which stand in order of their names, are those of an event.
pub(crate) fn judge(alloc: Global, items: &[Item]) -> Result<(), EventErr>
    ensures ok { OnOk result (AreEvents (λ name. item_in name items.now)) }
    ensures err { Rise items.now → IfErr result (IsFault (λ name. item_in name items.now)) }
{
    match first_wrong(items) {
        Some(item) => Err(no_attribute(item)),
        None => judge_data(alloc, items),
    }
}

fn no_attribute(item: &Item) -> EventErr
    ensures { (result ≡ EventErr.Attribute item.now.name) ⊎ (result ≡ EventErr.NoMemory) }
{
    match item.name.copy() {
        Ok(name) => EventErr::Attribute { name },
        Err(_) => EventErr::NoMemory,
    }
}

// The member that is no attribute and whose value stands first in the body.
fn first_wrong(items: &[Item]) -> Option<&Item>
    ensures { option_copied result ≡ first_wrong items.now }
{
    let mut found = None;
    for item in items {
        found = earlier(found, item);
    }
    found
}

fn earlier<'a>(found: Option<&'a Item>, item: &'a Item) -> Option<&'a Item>
    ensures { option_copied result ≡ earlier (option_copied found.entry) item.now }
{
    if is_wrong(item) {
        sooner(found, item)
    } else {
        found
    }
}

fn sooner<'a>(found: Option<&'a Item>, item: &'a Item) -> Option<&'a Item>
    ensures { option_copied result ≡ sooner (option_copied found.entry) item.now }
{
    match found {
        Some(first) => {
            if item.start < first.start {
                Some(item)
            } else {
                Some(first)
            }
        }
        None => Some(item),
    }
}

fn is_wrong(item: &Item) -> bool
    ensures { result ≡ is_wrong item.now }
{
    !(is_data_name(item.name.bytes()) || is_attribute(item.name.bytes(), &item.value))
}

fn is_data_name(name: &[u8]) -> bool
    ensures { result ≡ is_data_name name.now }
{
    is_same(name, b"data") || is_same(name, b"data_base64")
}

fn is_attribute(name: &[u8], value: &Value) -> bool
    ensures { result ≡ is_attribute name.now value.now }
{
    if is_same(name, b"specversion") {
        is_version(value)
    } else if needs_text(name) {
        is_some_text(value)
    } else {
        is_attribute_name(name) && is_simple(value)
    }
}

// Whether an attribute must be a text of at least one byte.
fn needs_text(name: &[u8]) -> bool
    ensures { result ≡ needs_text name.now }
{
    is_same(name, b"id")
        || is_same(name, b"source")
        || is_same(name, b"type")
        || is_same(name, b"subject")
        || is_same(name, b"dataschema")
        || is_same(name, b"datacontenttype")
}

fn is_attribute_name(name: &[u8]) -> bool
    ensures { result ≡ is_attribute_name name.now }
{
    name.len() >= 1 && are_name_bytes(name)
}

fn are_name_bytes(name: &[u8]) -> bool
    ensures { result ≡ list_all is_name_byte name.now }
{
    name.iter().all(|byte| is_name_byte(*byte))
}

fn is_name_byte(byte: u8) -> bool
    ensures { result ≡ is_name_byte byte }
{
    byte.is_ascii_lowercase() || byte.is_ascii_digit()
}

fn is_version(value: &Value) -> bool
    ensures { result ≡ is_version value.now }
{
    match value {
        Value::Text(text) => is_same(text.bytes(), b"1.0"),
        Value::Simple => false,
        Value::Other => false,
        Value::Body => false,
        Value::Encoded => false,
    }
}

fn is_some_text(value: &Value) -> bool
    ensures { result ≡ is_some_text value.now }
{
    match value {
        Value::Text(text) => text.len() >= 1,
        Value::Simple => false,
        Value::Other => false,
        Value::Body => false,
        Value::Encoded => false,
    }
}

fn is_simple(value: &Value) -> bool
    ensures { result ≡ is_simple value.now }
{
    match value {
        Value::Text(_) => true,
        Value::Simple => true,
        Value::Other => false,
        Value::Body => false,
        Value::Encoded => false,
    }
}

// Whether data and time are an event's.
fn judge_data(alloc: Global, items: &[Item]) -> Result<(), EventErr>
    ensures one { OnOk result (are_both (λ name. item_in name items.now) ≡ false) }
    ensures base { OnOk result (IsGoodBase (λ name. item_in name items.now)) }
    ensures time { OnOk result (IsGoodTime (λ name. item_in name items.now)) }
    ensures err { IfErr result (IsDataFault (λ name. item_in name items.now)) }
{
    if are_both(items) {
        return Err(EventErr::BothData);
    }
    match bad_base(alloc, items) {
        Ok(bad) => judge_rest(items, bad),
        Err(_) => Err(EventErr::NoMemory),
    }
}

// The same, where data stands once at most, by the place of what is no base64.
fn judge_rest(items: &[Item], bad: Option<usize>) -> Result<(), EventErr>
    requires one { are_both (λ name. item_in name items.now) ≡ false }
    requires base { MatchOption bad (IsGoodBase (λ name. item_in name items.now)) (IsBadBase (λ name. item_in name items.now)) }
    ensures base { OnOk result (IsGoodBase (λ name. item_in name items.now)) }
    ensures time { OnOk result (IsGoodTime (λ name. item_in name items.now)) }
    ensures err { IfErr result (IsDataFault (λ name. item_in name items.now)) }
{
    match bad {
        Some(at) => Err(EventErr::BadBase64 { at }),
        None => judge_time(items),
    }
}

fn are_both(items: &[Item]) -> bool
    ensures { result ≡ are_both (λ name. item_in name items.now) }
{
    is_there(items, b"data") && is_there(items, b"data_base64")
}

// Where `data_base64` stands, if it is no base64.
fn bad_base(alloc: Global, items: &[Item]) -> Result<Option<usize>, NoMemory>
    ensures { IfOk result (λ bad. MatchOption bad (IsGoodBase (λ name. item_in name items.now)) (IsBadBase (λ name. item_in name items.now))) }
{
    match find(items, b"data_base64") {
        Some(item) => bad_start(alloc, item),
        None => Ok(None),
    }
}

fn bad_start(alloc: Global, item: &Item) -> Result<Option<usize>, NoMemory>
    ensures { IfOk result (λ bad. MatchOption bad (IsBaseValue item.now.value) (λ at. (¬ IsBaseValue item.now.value) × (at ≡ item.now.start))) }
{
    match is_base_value(alloc, &item.value) {
        Ok(is) => { if is { Ok(None) } else { Ok(Some(item.start)) } }
        Err(error) => Err(error),
    }
}

fn is_base_value(alloc: Global, value: &Value) -> Result<bool, NoMemory>
    ensures { IfOk result (λ is. IsTrue is ↔ IsBaseValue value.now) }
{
    match value {
        Value::Text(text) => is_base64(alloc, text.bytes()),
        Value::Simple => Ok(false),
        Value::Other => Ok(false),
        Value::Body => Ok(false),
        Value::Encoded => Ok(false),
    }
}

fn judge_time(items: &[Item]) -> Result<(), EventErr>
    ensures ok { OnOk result (IsGoodTime (λ name. item_in name items.now)) }
    ensures err { IfErr result (λ error. (error ≡ EventErr.BadTime) × IsBadTime (λ name. item_in name items.now)) }
{
    match find(items, b"time") {
        Some(item) => time_of(item),
        None => Ok(()),
    }
}

fn time_of(item: &Item) -> Result<(), EventErr>
    ensures ok { OnOk result (IsTimeValue item.now.value) }
    ensures err { IfErr result (λ error. (error ≡ EventErr.BadTime) × (¬ IsTimeValue item.now.value)) }
{
    if is_time_value(&item.value) {
        Ok(())
    } else {
        Err(EventErr::BadTime)
    }
}

fn is_time_value(value: &Value) -> bool
    ensures { IsTrue result ↔ IsTimeValue value.now }
{
    match value {
        Value::Text(text) => is_time(text.bytes()),
        Value::Simple => false,
        Value::Other => false,
        Value::Body => false,
        Value::Encoded => false,
    }
}
