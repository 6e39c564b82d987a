//! What the body of a state request says, before its words are judged.
ghost use Rattle.std.specs.Prelude.{◌≡◌, codes, IfSome, Ok, Option};
ghost use Rattle.json_text.specs.Doc.{IsNode, bytes_read};
ghost use Rattle.state_api.specs.Given.{Gives};
ghost use Rattle.state_api.specs.Values.{AreAt, IsAt, Value, member};
ghost use Rattle.state_api.specs.Raw.{bytes_of, concurrency_in, item_in, item_members, op_in, request_in, ttl_text_in};

use crate::StateErr;
use crate::values::{SHAPE, are_texts, is_map, last_member, member, needed, optional};
use json_text::{Doc, Node};
use side_base::{Blob, Text};
use std::alloc::Global;

/// An item of a save: its texts, and its value as it stands in the body.
#[derive(Debug, Drop)]
pub struct RawItem {
    pub key: Text,
    pub value: Blob,
    pub etag: Option<Text>,
    pub concurrency: Option<Text>,
    pub ttl: Option<Text>,
}

/// An operation of a transaction.
#[derive(Debug, Drop)]
pub struct RawOp {
    pub operation: Text,
    pub item: RawItem,
}

/// Reads an item.
pub(crate) fn read_item(alloc: Global, doc: &Doc<'_>, n: Node) -> Result<RawItem, StateErr>
    requires { IsNode doc.now n }
    ensures { (value : Value) → IsAt doc.now n value → Gives result (item_in (bytes_read doc.now) value) }
{
    if !is_map(doc, n) {
        return Err(SHAPE);
    }
    read_members(alloc, doc, n)
}

/// Reads the members of an item.
fn read_members(alloc: Global, doc: &Doc<'_>, n: Node) -> Result<RawItem, StateErr>
    requires { IsNode doc.now n }
    ensures { (value : Value) → IsAt doc.now n value → Gives result (item_members (bytes_read doc.now) value) }
{
    let key = needed(alloc, doc, n, b"key")?;
    let etag = optional(alloc, doc, n, b"etag")?;
    let options = member(doc, n, b"options");
    let concurrency = read_concurrency(alloc, doc, options)?;
    let metadata = member(doc, n, b"metadata");
    let ttl = read_ttl(alloc, doc, metadata)?;
    let found = last_member(doc, n, b"value");
    let value = read_value(alloc, doc, found)?;
    Ok(RawItem {
        key,
        value,
        etag,
        concurrency,
        ttl,
    })
}

/// The bytes of the value as they stand; an absent one is null.
fn read_value(alloc: Global, doc: &Doc<'_>, found: Option<Node>) -> Result<Blob, StateErr>
    requires { IfSome found (IsNode doc.now) }
    ensures { (value : Option Value) → AreAt doc.now found value → Gives result (Ok (bytes_of (bytes_read doc.now) value)) }
{
    match found {
        Some(n) => copied(alloc, doc.value_bytes(n)),
        None => copied(alloc, b"null"),
    }
}

/// A copy of bytes.
fn copied(alloc: Global, bytes: &[u8]) -> Result<Blob, StateErr>
    ensures { Gives result (Ok bytes.now) }
{
    match Blob::from_bytes(alloc, bytes) {
        Ok(value) => Ok(value),
        Err(_) => Err(StateErr::NoMemory),
    }
}

/// The concurrency among the options.
fn read_concurrency(
    alloc: Global,
    doc: &Doc<'_>,
    options: Option<Node>,
) -> Result<Option<Text>, StateErr>
    requires { IfSome options (IsNode doc.now) }
    ensures { (value : Option Value) → AreAt doc.now options value → Gives result (concurrency_in (bytes_read doc.now) value) }
{
    match options {
        Some(n) => {
            if !is_map(doc, n) {
                return Err(SHAPE);
            }
            optional(alloc, doc, n, b"concurrency")
        }
        None => Ok(None),
    }
}

/// The time to live among the metadata.
fn read_ttl(alloc: Global, doc: &Doc<'_>, metadata: Option<Node>) -> Result<Option<Text>, StateErr>
    requires { IfSome metadata (IsNode doc.now) }
    ensures { (value : Option Value) → AreAt doc.now metadata value → Gives result (ttl_text_in (bytes_read doc.now) value) }
{
    match metadata {
        Some(n) => {
            if !is_map(doc, n) {
                return Err(SHAPE);
            }
            match are_texts(alloc, doc, n) {
                Ok(all) => {
                    if all {
                        optional(alloc, doc, n, b"ttlInSeconds")
                    } else {
                        Err(SHAPE)
                    }
                }
                Err(error) => Err(error),
            }
        }
        None => Ok(None),
    }
}

/// Reads an operation.
pub(crate) fn read_op(alloc: Global, doc: &Doc<'_>, n: Node) -> Result<RawOp, StateErr>
    requires { IsNode doc.now n }
    ensures { (value : Value) → IsAt doc.now n value → Gives result (op_in (bytes_read doc.now) value) }
{
    if !is_map(doc, n) {
        return Err(SHAPE);
    }
    let operation = needed(alloc, doc, n, b"operation")?;
    let request = member(doc, n, b"request");
    let item = read_request(alloc, doc, request)?;
    Ok(RawOp { operation, item })
}

/// The item of an operation.
fn read_request(alloc: Global, doc: &Doc<'_>, request: Option<Node>) -> Result<RawItem, StateErr>
    requires { IfSome request (IsNode doc.now) }
    ensures { (value : Option Value) → AreAt doc.now request value → Gives result (request_in (bytes_read doc.now) value) }
{
    match request {
        Some(n) => read_item(alloc, doc, n),
        None => Err(SHAPE),
    }
}
