//! What the words of a request's parts ask for.
ghost use Rattle.std.specs.Prelude.{◌≡◌, length, IfOk};
ghost use Rattle.state_api.specs.Given.{Gives};
ghost use Rattle.state_api.specs.Asked.{item_of, op_of, op_with, upserts};
ghost use Rattle.state_core.specs.Taken.{HasTtl, IsTtl};

use crate::part::Part;
use crate::raw::{RawItem, RawOp, read_item, read_op};
use crate::values::text_of;
use crate::words::{etag_of, mode_of, stored_key, ttl_of};
use crate::{StateErr, What};
use json_text::{Doc, Node};
use side_base::Text;
use state_core::{Item, Op, Prefix};
use std::alloc::Global;

impl Part for Text {
    ghost use Rattle.std.specs.Prelude.{length};
    ghost use Rattle.std.specs.Str.{IsCharBoundary};
    ghost use Rattle.state_api.specs.Values.{text_of};
    ghost use Rattle.state_api.specs.Words.{front_of, stored_key};

    type Asked = Text;

    ghost says = { text_of };

    ghost means = { stored_key };

    ghost fine = { λ prefix stored. IsCharBoundary stored (length (front_of prefix)) };

    fn read(alloc: Global, doc: &Doc<'_>, n: Node) -> Result<Text, StateErr> {
        text_of(alloc, doc, n)
    }

    fn ask(self, alloc: Global, prefix: &Prefix) -> Result<Text, StateErr> {
        stored_key(alloc, prefix, &self)
    }
}

impl Part for RawItem {
    ghost use Rattle.state_core.specs.Taken.{IsTtl};
    ghost use Rattle.state_api.specs.Raw.{item_in};
    ghost use Rattle.state_api.specs.Asked.{item_of};

    type Asked = Item;

    ghost says = { item_in };

    ghost means = { item_of };

    ghost fine = { λ _ item. IsTtl item.ttl };

    fn read(alloc: Global, doc: &Doc<'_>, n: Node) -> Result<RawItem, StateErr> {
        read_item(alloc, doc, n)
    }

    fn ask(self, alloc: Global, prefix: &Prefix) -> Result<Item, StateErr> {
        item_of(alloc, prefix, self)
    }
}

impl Part for RawOp {
    ghost use Rattle.state_core.specs.Taken.{HasTtl};
    ghost use Rattle.state_api.specs.Raw.{op_in};
    ghost use Rattle.state_api.specs.Asked.{op_of};

    type Asked = Op;

    ghost says = { op_in };

    ghost means = { op_of };

    ghost fine = { λ _ op. HasTtl op };

    fn read(alloc: Global, doc: &Doc<'_>, n: Node) -> Result<RawOp, StateErr> {
        read_op(alloc, doc, n)
    }

    fn ask(self, alloc: Global, prefix: &Prefix) -> Result<Op, StateErr> {
        op_of(alloc, prefix, self)
    }
}

/// The item that is to be stored.
fn item_of(alloc: Global, prefix: &Prefix, raw: RawItem) -> Result<Item, StateErr>
    ensures gives { Gives result (item_of prefix.now raw) }
    ensures ttl { IfOk result (λ item. IsTtl item.ttl) }
{
    let RawItem {
        key,
        value,
        etag,
        concurrency,
        ttl,
    } = raw;
    let key = stored_key(alloc, prefix, &key)?;
    let mode = mode_of(&concurrency)?;
    let ttl = ttl_of(&ttl)?;
    let etag = etag_of(alloc, etag)?;
    Ok(Item {
        key,
        value,
        etag,
        mode,
        ttl,
    })
}

/// The operation that is to be made.
pub(crate) fn op_of(alloc: Global, prefix: &Prefix, raw: RawOp) -> Result<Op, StateErr>
    ensures gives { Gives result (op_of prefix.now raw) }
    ensures ttl { IfOk result HasTtl }
{
    let RawOp { operation, item } = raw;
    let RawItem {
        key,
        value,
        etag,
        concurrency,
        ttl,
    } = item;
    let key = stored_key(alloc, prefix, &key)?;
    let mode = mode_of(&concurrency)?;
    let is_upsert = upserts(&operation)?;
    let ttl = ttl_of(&ttl)?;
    let etag = etag_of(alloc, etag)?;
    let item = Item {
        key,
        value,
        etag,
        mode,
        ttl,
    };
    Ok(op_with(is_upsert, item))
}

/// Whether the word is that of an upsert, and not of a delete.
fn upserts(word: &Text) -> Result<bool, StateErr>
    ensures { Gives result (upserts word.now) }
{
    let bytes = word.bytes();
    if bytes == b"upsert".as_slice() {
        Ok(true)
    } else if bytes == b"delete".as_slice() {
        Ok(false)
    } else {
        Err(StateErr::Malformed {
            what: What::Operation,
        })
    }
}

/// An upsert of the item, or a removal of its key.
fn op_with(is_upsert: bool, item: Item) -> Op
    ensures { result ≡ op_with is_upsert item }
{
    if is_upsert {
        Op::Upsert(item)
    } else {
        Op::Remove {
            key: item.key,
            etag: item.etag,
            mode: item.mode,
        }
    }
}
