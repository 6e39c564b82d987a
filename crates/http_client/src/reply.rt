//! A reply, out of the bytes that come.
ghost use Rattle.std.specs.Prelude.{◌≡◌, ◌≤◌, ◌<◌, ◌||◌, ℕ, List, length, take, IfOk, IfErr, OnOk};
ghost use Rattle.side_world.specs.Faults.{Rose};
ghost use Rattle.side_world.specs.Told.{Took, IsDrained};
ghost use Rattle.side_world.specs.Link.{IsReply};
ghost use Rattle.http_client.specs.declared.incoming.ReplyErr.TheVariants.{SourceFailed};
ghost use Rattle.http_chunks.specs.Chunked.{BODY_LIMIT};
ghost use Rattle.http_client.specs.Replies.{ahead, kept, says_close, may_persist, IsReplyOf, IsContent};
ghost use Rattle.http_client.specs.Taken.{IsReplyTaken};

use crate::framing::{Framing, framing_of, listed, lists_close, may_persist, own_fields};
use crate::head::Head;
use crate::incoming::{Incoming, Pending, ReplyErr};
use http_chunks::BODY_LIMIT;
use side_base::{Blob, NoMemory, Response};
use side_world::Source;
use std::alloc::Global;

/// A reply, and what becomes of its connection.
#[derive(Debug, Drop)]
pub struct Reply {
    /// Its status is from 200 to 599. Of its fields, those that speak of the connection alone are left out.
    pub response: Response,
    /// Whether the connection may be used again: not behind HTTP/1.0, `Connection: close` of any of its heads, content to the end of the input,
    /// or where bytes came behind the reply.
    pub persists: bool,
}

/// Reads a reply from the front of a source: interim heads, which are let go, its head, and its content of at most 4,194,304
/// bytes. `to_head`: it replies to HEAD. The source comes back with it; what was read behind the reply is let go.
pub fn read_reply<S: Source>(
    alloc: Global,
    source: S,
    to_head: bool,
) -> (Result<Reply, ReplyErr>, S)
    ensures is { IfOk result.0 (IsReplyOf to_head (S.left source) (S.left result.1)) }
    ensures reply { IfOk result.0 (λ reply. IsReply reply.response) }
    ensures no_fault { OnOk result.0 (S.faults result.1 ≡ S.faults source) }
    ensures failed { IfErr result.0 (λ why. why ≡ SourceFailed → Rose (S.faults source) (S.faults result.1)) }
{
    let mut incoming = Incoming {
        source,
        pending: Pending::new(alloc),
    };
    let reply = incoming.take_reply(alloc, to_head);
    (reply, incoming.source)
}

impl<S: Source> Incoming<S> {
    /// Takes a reply: interim heads, which are let go, its head, and its content of at most 4,194,304 bytes. `to_head`: it replies to HEAD.
    ///
    /// Its status is from 200 to 599, and the fields that speak of the connection alone are left out.
    fn take_reply(&mut self, alloc: Global, to_head: bool) -> Result<Reply, ReplyErr>
        ensures took { IfOk result (IsReplyTaken to_head (ahead self.old.pending (S.left self.old.source)) self.new.pending (ahead self.new.pending (S.left self.new.source))) }
        ensures reply { IfOk result (λ reply. IsReply reply.response) }
        ensures no_fault { OnOk result (S.faults self.new.source ≡ S.faults self.old.source) }
        ensures failed { IfErr result (λ why. why ≡ SourceFailed → Rose (S.faults self.old.source) (S.faults self.new.source)) }
    {
        let head = self.take_final_head(alloc)?;
        match framing_of(to_head, head.status, head.minor, &head.fields) {
            Some(framing) => {
                let body = self.take_content(alloc, framing)?;
                match reply_of(alloc, head, framing, body, self.pending.bytes()) {
                    Ok(reply) => Ok(reply),
                    Err(_) => Err(ReplyErr::NoMemory),
                }
            }
            None => Err(ReplyErr::Bad),
        }
    }

    /// Takes the content that is framed so.
    fn take_content(&mut self, alloc: Global, framing: Framing) -> Result<Blob, ReplyErr>
        ensures took { IfOk result (λ body. (text : List ℕ) × Took (ahead self.old.pending (S.left self.old.source)) (ahead self.new.pending (S.left self.new.source)) text × IsContent framing text body) }
        ensures short { IfOk result (λ body. length body ≤ BODY_LIMIT) }
        ensures all { OnOk result (framing ≡ Framing.ToEnd → IsDrained (ahead self.new.pending (S.left self.new.source))) }
        ensures no_fault { OnOk result (S.faults self.new.source ≡ S.faults self.old.source) }
        ensures failed { IfErr result (λ why. why ≡ SourceFailed → Rose (S.faults self.old.source) (S.faults self.new.source)) }
    {
        match framing {
            Framing::Nothing => Ok(Blob::new(alloc)),
            Framing::Length { len } => self.take_length(alloc, len),
            Framing::Chunks => self.take_chunks(alloc),
            Framing::ToEnd => self.take_to_end(alloc),
        }
    }

    /// Takes so many bytes.
    fn take_length(&mut self, alloc: Global, len: u64) -> Result<Blob, ReplyErr>
        ensures took { IfOk result (λ body. Took (ahead self.old.pending (S.left self.old.source)) (ahead self.new.pending (S.left self.new.source)) body) }
        ensures counts { IfOk result (λ body. length body ≡ len) }
        ensures short { OnOk result (len ≤ BODY_LIMIT) }
        ensures no_fault { OnOk result (S.faults self.new.source ≡ S.faults self.old.source) }
        ensures failed { IfErr result (λ why. why ≡ SourceFailed → Rose (S.faults self.old.source) (S.faults self.new.source)) }
    {
        if len > BODY_LIMIT {
            return Err(ReplyErr::Bad);
        }
        let there = self.fill_to(len as usize)?;
        if !there {
            return Err(ReplyErr::Bad);
        }
        self.take_front(alloc, len as usize)
    }

    /// Takes all bytes to the end of the input.
    fn take_to_end(&mut self, alloc: Global) -> Result<Blob, ReplyErr>
        ensures took { IfOk result (λ body. Took (ahead self.old.pending (S.left self.old.source)) (ahead self.new.pending (S.left self.new.source)) body) }
        ensures short { IfOk result (λ body. length body ≤ BODY_LIMIT) }
        ensures all { OnOk result (IsDrained (ahead self.new.pending (S.left self.new.source))) }
        ensures no_fault { OnOk result (S.faults self.new.source ≡ S.faults self.old.source) }
        ensures failed { IfErr result (λ why. why ≡ SourceFailed → Rose (S.faults self.old.source) (S.faults self.new.source)) }
    {
        let more = self.fill_to(BODY_LIMIT as usize + 1)?;
        if more {
            return Err(ReplyErr::Bad);
        }
        let len = self.pending.bytes().len();
        self.take_front(alloc, len)
    }

    /// Takes so many bytes, which are there.
    fn take_front(&mut self, alloc: Global, len: usize) -> Result<Blob, ReplyErr>
        requires { len ≤ length self.old.pending }
        ensures took { IfOk result (λ body. Took (ahead self.old.pending (S.left self.old.source)) (ahead self.new.pending (S.left self.new.source)) body) }
        ensures counts { IfOk result (λ body. length body ≡ len) }
        ensures left { OnOk result (S.left self.new.source ≡ S.left self.old.source) }
        ensures no_fault { OnOk result (S.faults self.new.source ≡ S.faults self.old.source) }
        ensures failed { IfErr result (λ why. why ≡ SourceFailed → Rose (S.faults self.old.source) (S.faults self.new.source)) }
    {
        match Blob::from_bytes(alloc, &self.pending.bytes()[..len]) {
            Ok(body) => {
                self.skip(len);
                Ok(body)
            }
            Err(_) => Err(ReplyErr::NoMemory),
        }
    }
}

/// The reply of this head and this content, which is framed so and behind which these bytes came.
#[tactic(auto, unfolding(crate::specs::Replies::kept))]
fn reply_of(
    alloc: Global,
    head: Head,
    framing: Framing,
    body: Blob,
    came: &[u8],
) -> Result<Reply, NoMemory>
    ensures status { IfOk result (λ reply. reply.response.status ≡ head.status) }
    ensures fields { IfOk result (λ reply. reply.response.fields ≡ kept head.fields) }
    ensures body { IfOk result (λ reply. reply.response.body ≡ body) }
    ensures again { IfOk result (λ reply. reply.persists ≡ may_persist head.minor (head.closing || says_close head.fields) framing came.now) }
{
    let names = listed(alloc, &head.fields)?;
    let closes = head.closing || lists_close(names.bytes());
    let persists = may_persist(head.minor, closes, framing, came);
    let fields = own_fields(alloc, names.bytes(), head.fields)?;
    Ok(Reply {
        response: Response {
            status: head.status,
            fields,
            body,
        },
        persists,
    })
}
