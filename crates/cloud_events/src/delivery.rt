//! What the reply to a delivery says of it.
ghost use Rattle.std.specs.Prelude.{◌≡◌, codes, option_copied};
ghost use Rattle.json_text.specs.Doc.{IsNode, IsRoot, OfNode, bytes_read};
ghost use Rattle.json_text.specs.Unescape.{text_shown};
ghost use Rattle.cloud_events.specs.Verdict.{IsText, IsVerdict, by_member, by_reply, by_status, by_value, by_word, is_good};
ghost use Rattle.cloud_events.specs.Members.{last_of};

use crate::outcome::Verdict;
use json_text::{Doc, Kind, Node};

/// The verdict of a reply on the delivery: its status, and its body where that is a JSON text. A status from 200 to 299 is
/// `Success`, unless the body is a map whose last member `status` says otherwise: `SUCCESS`, the empty text and null are `Success`,
/// `DROP` is `Drop`, and any other value is `Retry`. 404 is `Drop`, and any other status `Retry`.
pub fn verdict(status: u16, reply: Option<&Doc<'_>>) -> Verdict
    ensures { IsVerdict status (option_copied reply.entry) result }
{
    match reply {
        Some(doc) => by_reply(status, doc),
        None => by_status(status),
    }
}

fn by_reply(status: u16, doc: &Doc<'_>) -> Verdict
    ensures { (root : Node) → IsRoot root → OfNode doc.now root (λ spot children later. result ≡ by_reply status (bytes_read doc.now) children) }
{
    if is_good(status) {
        by_member(doc)
    } else {
        by_status(status)
    }
}

fn by_member(doc: &Doc<'_>) -> Verdict
    ensures { (root : Node) → IsRoot root → OfNode doc.now root (λ spot children later. result ≡ by_member (bytes_read doc.now) (last_of (bytes_read doc.now) (codes "status") children)) }
{
    match doc.member(doc.root(), b"status") {
        Some(n) => by_value(doc, n),
        None => Verdict::Success,
    }
}

fn by_value(doc: &Doc<'_>, n: Node) -> Verdict
    requires { IsNode doc.now n }
    ensures { OfNode doc.now n (λ spot children later. result ≡ by_value spot.kind (text_shown (bytes_read doc.now) spot)) }
{
    match doc.kind(n) {
        Kind::Null => Verdict::Success,
        Kind::Text => by_word(doc, n),
        Kind::Flag { .. } => Verdict::Retry,
        Kind::Number => Verdict::Retry,
        Kind::List => Verdict::Retry,
        Kind::Map => Verdict::Retry,
    }
}

fn by_word(doc: &Doc<'_>, n: Node) -> Verdict
    requires { IsNode doc.now n }
    ensures { OfNode doc.now n (λ spot children later. IsText spot.kind → result ≡ by_word (text_shown (bytes_read doc.now) spot)) }
{
    if doc.text_is(n, b"SUCCESS") || doc.text_is(n, b"") {
        return Verdict::Success;
    }
    if doc.text_is(n, b"DROP") {
        return Verdict::Drop;
    }
    Verdict::Retry
}

fn by_status(status: u16) -> Verdict
    ensures { result ≡ by_status status }
{
    if is_good(status) {
        Verdict::Success
    } else if status == 404 {
        Verdict::Drop
    } else {
        Verdict::Retry
    }
}

fn is_good(status: u16) -> bool
    ensures { result ≡ is_good status }
{
    200 <= status && status <= 299
}
