//! How fast JSON is read, and how many values it has.
ghost use Rattle.std.specs.Prelude.{All};
ghost use Rattle.json_text.specs.Doc.{IsNode};

use json_text::{Doc, JsonErr, Node, read};
use std::alloc::{AllocError, Global};
use std::io::{self, Read};

/// Adds what follows a value, and what it holds.
fn add_behind(doc: &Doc<'_>, node: Node, left: &mut Vec<Node>) -> Result<(), AllocError>
    requires node { IsNode doc.now node }
    requires left { All (IsNode doc.now) left.old.items }
    ensures { All (IsNode doc.now) left.new.items }
{
    if let Some(next) = doc.next(node) {
        left.push(next)?;
    }
    if let Some(first) = doc.first(node) {
        left.push(first)?;
    }
    Ok(())
}

/// How many values there are from those that are left on, walked one by one: lists and maps, and what stands in them.
fn count_left(doc: &Doc<'_>, left: &mut Vec<Node>) -> Result<u64, AllocError>
    requires { All (IsNode doc.now) left.old.items }
{
    let mut count: u64 = 0;
    // A text has no more values than bytes.
    for _ in 0..doc.bytes().len() {
        match left.pop() {
            Some(node) => add_behind(doc, node, left)?,
            None => return Ok(count),
        }
        count = count.wrapping_add(1);
    }
    Ok(count)
}

/// The number of values of a document; none where memory lacks.
fn count_values(alloc: Global, doc: &Doc<'_>) -> Option<u64> {
    let mut left = Vec::new(alloc);
    if left.push(doc.root()).is_err() {
        return None;
    }
    count_left(doc, &mut left).ok()
}

/// How many values a text has, which is read so many times, and at least once.
fn count_read(alloc: Global, text: &[u8], times: u32) -> Result<u64, JsonErr> {
    for _ in 1..times {
        if let Err(error) = read(alloc, text) {
            return Err(error);
        }
    }
    let doc = read(alloc, text)?;
    count_values(alloc, &doc).ok_or(JsonErr::NoMemory)
}

/// Reads standard input as JSON so many times, and prints how many values it has.
pub(crate) fn tell(rt: &HostRuntime, times: u32) -> io::Result<()> {
    let mut text = Vec::new(rt.alloc());
    rt.stdin().read_to_end(&mut text)?;
    match count_read(rt.alloc(), text.as_slice(), times) {
        Ok(count) => println!(rt; "{count}"),
        Err(error) => println!(rt; "{error}"),
    }
}
