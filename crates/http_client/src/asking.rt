//! A request, and the reply to it.
ghost use Rattle.std.specs.Prelude.{◌≡◌, ◌≤◌, Some, IfOk, IfErr, OnOk};
ghost use Rattle.side_world.specs.Link.{IsReply};
ghost use Rattle.http_client.specs.Asked.{is_to_head, Sent, CountsWhy, IsUnanswered};
ghost use Rattle.http_client.specs.Replies.{IsReplyOf};
ghost use Rattle.http_client.specs.Written.{prepared};

use crate::incoming::ReplyErr;
use crate::reply::{Reply, read_reply};
use crate::written::{Prepared, send_prepared};
use side_base::{LinkRequest, Method};
use side_world::{Failed, Sink, Source};
use std::alloc::Global;

/// Why a request has no reply.
#[derive(Clone, Copy, Debug, PartialEq, Eq)]
pub enum AskErr {
    /// A write failed: a prefix of the request was sent.
    Unsent,
    /// It was sent, and no reply was read.
    Unanswered { why: ReplyErr },
}

/// Sends a request that was prepared, and reads the reply to it. Nothing is sent twice, and nothing else is sent.
pub fn ask<S: Source, N: Sink>(
    alloc: Global,
    ready: &Prepared,
    request: &LinkRequest,
    source: S,
    sink: &mut N,
) -> (Result<Reply, AskErr>, S)
    requires { prepared request.now ≡ Some ready.now }
    ensures sent { Sent request.now result.0 (N.contents sink.old) (N.contents sink.new) }
    ensures is { IfOk result.0 (IsReplyOf (is_to_head request.now.method) (S.left source) (S.left result.1)) }
    ensures reply { IfOk result.0 (λ reply. IsReply reply.response) }
    ensures no_fault { OnOk result.0 (S.faults result.1 ≡ S.faults source) }
    ensures sent_well { OnOk result.0 (N.faults sink.new ≡ N.faults sink.old) }
    ensures failed { IfErr result.0 (CountsWhy (S.faults source) (S.faults result.1) (N.faults sink.old) (N.faults sink.new)) }
{
    match send_prepared(sink, ready, request) {
        Ok(()) => answered(alloc, source, is_to_head(request.method)),
        Err(Failed) => (Err(AskErr::Unsent), source),
    }
}

/// The reply that comes.
fn answered<S: Source>(alloc: Global, source: S, to_head: bool) -> (Result<Reply, AskErr>, S)
    ensures is { IfOk result.0 (IsReplyOf to_head (S.left source) (S.left result.1)) }
    ensures reply { IfOk result.0 (λ reply. IsReply reply.response) }
    ensures no_fault { OnOk result.0 (S.faults result.1 ≡ S.faults source) }
    ensures unanswered { IfErr result.0 (IsUnanswered (S.faults source) (S.faults result.1)) }
{
    let (reply, source) = read_reply(alloc, source, to_head);
    match reply {
        Ok(reply) => (Ok(reply), source),
        Err(why) => (Err(AskErr::Unanswered { why }), source),
    }
}

/// Whether the reply to this method has no content.
fn is_to_head(method: Method) -> bool
    ensures { result ≡ is_to_head method }
{
    matches!(method, Method::Head)
}
