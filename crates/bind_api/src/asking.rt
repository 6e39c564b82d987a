//! What the body of a request to a binding asks for.
ghost use Rattle.std.specs.Prelude.{◌≡◌, Ok};
ghost use Rattle.json_text.specs.Doc.{IsNode, bytes_read};
ghost use Rattle.bind_api.specs.Given.{Gives, Says, Tells};
ghost use Rattle.bind_api.specs.Values.{IsAt, Value};
ghost use Rattle.bind_api.specs.Asked.{BodyAsks, after_path, after_word, ask_in, method_of, other_method_of, parts_shown};

use crate::Wrong;
use crate::malformed::{AskErr, wrong_of};
use crate::values::{last_member, member, needed, path_in, sent_of};
use json_text::{Doc, Node, read};
use side_base::{Blob, Method, is_same_word};
use std::alloc::Global;

/// What a request to a binding asks for.
#[derive(Debug, Drop)]
pub struct Ask {
    pub method: Method,
    /// What stands behind the path of the component's address; it may be empty.
    pub path: Blob,
    /// What is sent.
    pub body: Blob,
}

/// The parts of a body that say it, as they lie there.
#[derive(Clone, Copy)]
struct Parts<'a> {
    method: Method,
    path: &'a [u8],
    sent: &'a [u8],
}

/// What a body asks for. That it is JSON is tested first, then its form, and at last its operation; the first fault is told.
pub(crate) fn ask_of(alloc: Global, body: &[u8]) -> Result<Ask, AskErr>
    ensures { Tells result (BodyAsks ask_in body.now) }
{
    match read(alloc, body) {
        Ok(doc) => ask_at(alloc, &doc, doc.root()),
        Err(error) => Err(wrong_of(error)),
    }
}

/// What a value asks for.
fn ask_at(alloc: Global, doc: &Doc<'_>, n: Node) -> Result<Ask, AskErr>
    requires { IsNode doc.now n }
    ensures { (value : Value) → IsAt doc.now n value → Gives result (ask_in (bytes_read doc.now) value) }
{
    match parts_at(doc, n) {
        Ok(parts) => owned(alloc, parts),
        Err(what) => Err(AskErr::Malformed { what }),
    }
}

/// The parts as values of their own.
fn owned(alloc: Global, parts: Parts<'_>) -> Result<Ask, AskErr>
    ensures { Gives result (Ok (parts_shown parts.entry)) }
{
    match (
        Blob::from_bytes(alloc, parts.path),
        Blob::from_bytes(alloc, parts.sent),
    ) {
        (Ok(path), Ok(body)) => Ok(Ask {
            method: parts.method,
            path,
            body,
        }),
        _ => Err(AskErr::NoMemory),
    }
}

/// The parts of a value.
fn parts_at<'r>(doc: &'r Doc<'_>, n: Node) -> Result<Parts<'r>, Wrong>
    requires { IsNode doc.now n }
    ensures { (value : Value) → IsAt doc.now n value → Says parts_shown result (ask_in (bytes_read doc.now) value) }
{
    if !doc.is_map(n) {
        return Err(Wrong::Shape);
    }
    match needed(doc, member(doc, n, b"operation")) {
        Ok(word) => parts_behind(doc, n, word),
        Err(what) => Err(what),
    }
}

/// The parts of a map with this operation.
fn parts_behind<'r>(doc: &'r Doc<'_>, n: Node, word: &[u8]) -> Result<Parts<'r>, Wrong>
    requires { IsNode doc.now n }
    ensures { (value : Value) → IsAt doc.now n value → Says parts_shown result (after_word (bytes_read doc.now) value word.now) }
{
    match path_in(doc, member(doc, n, b"metadata")) {
        Ok(path) => parts_with(doc, n, word, path),
        Err(what) => Err(what),
    }
}

/// The parts of a map with this operation and this path.
fn parts_with<'r>(
    doc: &'r Doc<'_>,
    n: Node,
    word: &[u8],
    path: &'r [u8],
) -> Result<Parts<'r>, Wrong>
    requires { IsNode doc.now n }
    ensures { (value : Value) → IsAt doc.now n value → Says parts_shown result (after_path (bytes_read doc.now) value word.now path.now) }
{
    let sent = sent_of(doc, last_member(doc, n, b"data"));
    match method_of(word) {
        Ok(method) => Ok(Parts { method, path, sent }),
        Err(what) => Err(what),
    }
}

/// The method that a word names, in any case of its letters.
fn method_of(word: &[u8]) -> Result<Method, Wrong>
    ensures { result ≡ method_of word.now }
{
    if is_same_word(word, b"create") || is_same_word(word, b"post") {
        Ok(Method::Post)
    } else {
        other_method_of(word)
    }
}

/// The method that a word names, but for those of a post.
fn other_method_of(word: &[u8]) -> Result<Method, Wrong>
    ensures { result ≡ other_method_of word.now }
{
    if is_same_word(word, b"get") {
        Ok(Method::Get)
    } else if is_same_word(word, b"head") {
        Ok(Method::Head)
    } else if is_same_word(word, b"put") {
        Ok(Method::Put)
    } else if is_same_word(word, b"patch") {
        Ok(Method::Patch)
    } else if is_same_word(word, b"delete") {
        Ok(Method::Delete)
    } else if is_same_word(word, b"options") {
        Ok(Method::Options)
    } else {
        Err(Wrong::Operation)
    }
}
