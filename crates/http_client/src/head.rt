//! The head of a reply.
ghost use Rattle.std.specs.Prelude.{◌≡◌, ◌≢◌, ◌<◌, ◌≤◌, ◌||◌, ℕ, List, length, map, All, IfOk, IfErr, OnOk};
ghost use Rattle.side_world.specs.Faults.{Rose};
ghost use Rattle.side_world.specs.Told.{Took};
ghost use Rattle.httparse.specs.Spans.{IsHeaderWithin, IsResponseWithin, IsResponseOf};
ghost use Rattle.http_client.specs.declared.incoming.ReplyErr.TheVariants.{SourceFailed};
ghost use Rattle.http_client.specs.Replies.{ahead, says_close};
ghost use Rattle.http_client.specs.Taken.{header_field, is_interim, IsHead, IsFinal};

use crate::framing::{listed, lists_close};
use crate::incoming::{HEAD_LIMIT, Incoming, ReplyErr};
use httparse::Status;
use httparse::spans::{EMPTY_HEADER_SPAN, HeaderSpan, ResponseSpans, parse_response};
use side_base::{Blob, Field, Fields, Sequence, Text, TextErr};
use side_world::Source;
use std::alloc::Global;

/// The most fields of a head.
const FIELD_LIMIT: usize = 128;
/// The most heads of a reply, its own and the interim ones before it.
const HEADS_LIMIT: usize = 16;

const CR: u8 = b'\r';

const LF: u8 = b'\n';

/// The head of a reply.
#[derive(Debug, Drop)]
pub(crate) struct Head {
    pub(crate) status: u16,
    pub(crate) minor: u8,
    pub(crate) fields: Fields,
    /// An interim head before it says that the connection closes.
    pub(crate) closing: bool,
}

impl<S: Source> Incoming<S> {
    /// Takes the head of a reply whose status is from 200 to 599, and all interim heads before it.
    pub(crate) fn take_final_head(&mut self, alloc: Global) -> Result<Head, ReplyErr>
        ensures took { IfOk result (λ head. (text : List ℕ) × Took (ahead self.old.pending (S.left self.old.source)) (ahead self.new.pending (S.left self.new.source)) text × IsFinal text head) }
        ensures from { IfOk result (λ head. 200 ≤ head.status) }
        ensures known { IfOk result (λ head. head.status ≤ 599) }
        ensures no_fault { OnOk result (S.faults self.new.source ≡ S.faults self.old.source) }
        ensures failed { IfErr result (λ why. why ≡ SourceFailed → Rose (S.faults self.old.source) (S.faults self.new.source)) }
    {
        let mut headers = [EMPTY_HEADER_SPAN; FIELD_LIMIT];
        let mut closing = false;
        for _ in 0..HEADS_LIMIT {
            let spans = self.fill_head(&mut headers)?;
            let head = self.take_head(alloc, &spans, &headers, closing)?;
            if !is_interim(head.status) {
                return known(head);
            }
            closing = closes_behind(alloc, &head)?;
        }
        Err(ReplyErr::Bad)
    }

    /// Reads until a whole head is there, and gives where its parts are.
    fn fill_head(&mut self, headers: &mut [HeaderSpan]) -> Result<ResponseSpans, ReplyErr>
        ensures same { OnOk result (ahead self.new.pending (S.left self.new.source) ≡ ahead self.old.pending (S.left self.old.source)) }
        ensures within { IfOk result (λ spans. IsResponseWithin self.new.pending headers.new spans) }
        ensures head { IfOk result (λ spans. IsResponseOf self.new.pending headers.new spans) }
        ensures no_fault { OnOk result (S.faults self.new.source ≡ S.faults self.old.source) }
        ensures failed { IfErr result (λ why. why ≡ SourceFailed → Rose (S.faults self.old.source) (S.faults self.new.source)) }
    {
        loop {
            match parse_response(self.pending.bytes(), headers) {
                Ok(Status::Complete(spans)) if spans.len <= HEAD_LIMIT => return Ok(spans),
                Ok(Status::Partial) => self.fill_lines()?,
                _ => return Err(ReplyErr::Bad),
            }
        }
    }

    /// Reads on until an empty line ends what may be a head, which no head is whole without. So a head that comes in small pieces is not read anew with each.
    fn fill_lines(&mut self) -> Result<(), ReplyErr>
        ensures same { OnOk result (ahead self.new.pending (S.left self.new.source) ≡ ahead self.old.pending (S.left self.old.source)) }
        ensures below { OnOk result (length self.old.pending < 16384) }
        ensures more { OnOk result (length self.old.pending < length self.new.pending) }
        ensures no_fault { OnOk result (S.faults self.new.source ≡ S.faults self.old.source) }
        ensures failed { IfErr result (λ why. why ≡ SourceFailed → Rose (S.faults self.old.source) (S.faults self.new.source)) }
    {
        let mut line = line_behind(Line::Before, self.pending.bytes());
        loop {
            let seen = self.pending.bytes().len();
            self.fill_more()?;
            line = line_behind(line, &self.pending.bytes()[seen..]);
            if is_empty_line(line) {
                return Ok(());
            }
        }
    }

    /// Takes the head that is there. `closing`: an interim head before it says that the connection closes.
    fn take_head(
        &mut self,
        alloc: Global,
        spans: &ResponseSpans,
        headers: &[HeaderSpan],
        closing: bool,
    ) -> Result<Head, ReplyErr>
        requires within { IsResponseWithin self.old.pending headers.now spans.now }
        requires head { IsResponseOf self.old.pending headers.now spans.now }
        ensures took { IfOk result (λ head. (text : List ℕ) × Took (ahead self.old.pending (S.left self.old.source)) (ahead self.new.pending (S.left self.new.source)) text × IsHead closing text head) }
        ensures no_fault { OnOk result (S.faults self.new.source ≡ S.faults self.old.source) }
        ensures failed { IfErr result (λ why. why ≡ SourceFailed → Rose (S.faults self.old.source) (S.faults self.new.source)) }
    {
        let fields = fields_of(alloc, self.pending.bytes(), &headers[..spans.headers])?;
        self.skip(spans.len);
        Ok(Head {
            status: spans.code,
            minor: spans.version,
            fields,
            closing,
        })
    }
}

/// The head of a reply, where its status is from 200 to 599.
fn known(head: Head) -> Result<Head, ReplyErr>
    ensures same { IfOk result (λ it. it ≡ head) }
    ensures from { IfOk result (λ it. 200 ≤ it.status) }
    ensures known { IfOk result (λ it. it.status ≤ 599) }
    ensures unread { IfErr result (λ why. why ≢ SourceFailed) }
{
    if head.status < 200 || head.status > 599 {
        return Err(ReplyErr::Bad);
    }
    Ok(head)
}

/// Whether an interim head, or one before it, says that the connection closes.
fn closes_behind(alloc: Global, head: &Head) -> Result<bool, ReplyErr>
    ensures is { IfOk result (λ closes. closes ≡ (head.now.closing || says_close head.now.fields)) }
    ensures unread { IfErr result (λ why. why ≢ SourceFailed) }
{
    match listed(alloc, &head.fields) {
        Ok(names) => Ok(head.closing || lists_close(names.bytes())),
        Err(_) => Err(ReplyErr::NoMemory),
    }
}

/// How the bytes end of which a head may come. It tells when a look at them is worth it, so no clause speaks of it.
#[derive(Clone, Copy, Debug)]
enum Line {
    /// With line ends alone.
    Before,
    /// Inside a line.
    Inside,
    /// With the end of a line.
    Ended,
    /// An empty line stands behind a line.
    Empty,
}

fn is_empty_line(line: Line) -> bool {
    match line {
        Line::Empty => true,
        Line::Before | Line::Inside | Line::Ended => false,
    }
}

/// The same with one byte more. A carriage return may stand in each line end.
fn line_after(line: Line, byte: u8) -> Line {
    match line {
        Line::Empty => Line::Empty,
        Line::Before => match byte {
            LF | CR => Line::Before,
            _ => Line::Inside,
        },
        Line::Inside => match byte {
            LF => Line::Ended,
            _ => Line::Inside,
        },
        Line::Ended => match byte {
            LF => Line::Empty,
            CR => Line::Ended,
            _ => Line::Inside,
        },
    }
}

/// The same with more bytes.
fn line_behind(line: Line, bytes: &[u8]) -> Line {
    let mut line = line;
    for byte in bytes {
        line = line_after(line, *byte);
    }
    line
}

/// Whether the reply follows behind a head with this status.
fn is_interim(status: u16) -> bool
    ensures { result ≡ is_interim status }
{
    100 <= status && status < 200 && status != 101
}

/// The fields that the spans cover.
fn fields_of(alloc: Global, text: &[u8], headers: &[HeaderSpan]) -> Result<Fields, ReplyErr>
    requires { All (IsHeaderWithin (length text.now)) headers.now }
    ensures fields { IfOk result (λ fields. fields ≡ map (header_field text.now) headers.now) }
    ensures unread { IfErr result (λ why. why ≢ SourceFailed) }
{
    let mut fields = Sequence::new(alloc);
    for header in headers {
        match fields.push(field_of(alloc, text, header)?) {
            Ok(()) => {}
            Err(_) => return Err(ReplyErr::NoMemory),
        }
    }
    Ok(fields)
}

/// The field that a span's two parts cover. A name is a token, and so a text.
fn field_of(alloc: Global, text: &[u8], header: &HeaderSpan) -> Result<Field, ReplyErr>
    requires { IsHeaderWithin (length text.now) header.now }
    ensures field { IfOk result (λ field. field ≡ header_field text.now header.now) }
    ensures unread { IfErr result (λ why. why ≢ SourceFailed) }
{
    let name = match Text::from_bytes(alloc, header.name.of(text)) {
        Ok(name) => name,
        Err(TextErr::NotUtf8 { at: _ }) => return Err(ReplyErr::Bad),
        Err(TextErr::NoMemory) => return Err(ReplyErr::NoMemory),
    };
    match Blob::from_bytes(alloc, header.value.of(text)) {
        Ok(value) => Ok(Field { name, value }),
        Err(_) => Err(ReplyErr::NoMemory),
    }
}
