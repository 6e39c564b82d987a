ghost use Rattle.std.specs.Prelude.{◌≡◌, ◌≤◌, OnOk, OnErr};
ghost use Rattle.conn_serve.specs.Ends.{Cut, Sent, sink_at};
ghost use Rattle.sidecar_cli.specs.Status.{code_of, held_over, line_of, name_of, text_of, together, spent_in, status_after, status_of};
ghost use Rattle.sidecar_cli.specs.Note.{IsNoted};

use crate::noting::part;
use conn_serve::Ended;
use http_frames::FrameErr;
use itoa::Buffer;
use side_base::Blob;
use side_world::{Failed, Sink};
use sidecar_core::Drained;

/// Why the input of a run on standard input is bad.
#[derive(Clone, Copy, Debug, PartialEq, Eq)]
pub enum Input {
    /// It ends inside a request.
    Cut,
    /// A request is refused, and was answered so.
    Refused(FrameErr),
}

/// A part of the outside that can fail.
#[derive(Clone, Copy, Debug, PartialEq, Eq)]
pub enum Device {
    Source,
    Sink,
    Files,
    Disk,
    Acceptor,
    Outside,
    Link,
}

/// How a run ended.
#[derive(Debug, Drop)]
pub enum Status {
    /// 0: the input ended between two requests, or the last request that was answered closed the connection or asked for the end; or a
    /// check is done.
    Ok,
    /// 1: the input is bad.
    BadInput(Input),
    /// 2: the words of the command line are refused; nothing was read.
    Usage,
    /// 3: a resource file, a journal or the list of the app is refused: which one, and why.
    BadResources { text: Blob },
    /// 4: the count of faults of this part of the outside rose, or that of expiries of the link.
    OutsideFailed(Device),
    /// 5: there was no memory.
    NoMemory,
    /// 6: the last request that a connection may have, the 100,000th, was answered.
    Limit,
    /// 7: a cell has no ticket left; `count` was read in it.
    Spent { count: u64 },
}

impl Status {
    /// The exit status of the process.
    pub fn code(&self) -> u8
        ensures { result ≡ code_of self.now }
    {
        match self {
            Status::Ok => 0,
            Status::BadInput(_) => 1,
            Status::Usage => 2,
            Status::BadResources { .. } => 3,
            Status::OutsideFailed(_) => 4,
            Status::NoMemory => 5,
            Status::Limit => 6,
            Status::Spent { .. } => 7,
        }
    }

    /// Writes the line of the status to the note, if it has one. Faults of the note change nothing.
    pub fn tell<E: Sink>(&self, note: &mut E)
        ensures { IsNoted (sink_at E.Sink note.old) (sink_at E.Sink note.new) (text_of self.now) }
    {
        match self {
            Status::Ok => {}
            Status::BadInput(Input::Cut) => line(note, b"input: ", b"cut"),
            Status::BadInput(Input::Refused(why)) => line(note, b"input: ", why.name().as_bytes()),
            Status::Usage => line(note, b"", b"usage"),
            Status::BadResources { text } => line(note, b"resources: ", text.bytes()),
            Status::OutsideFailed(device) => line(note, b"outside: ", name_of(*device)),
            Status::NoMemory => line(note, b"", b"no memory"),
            Status::Limit => line(note, b"", b"limit"),
            Status::Spent { count } => line(
                note,
                b"spent ",
                Buffer::new().format(*count).as_bytes(),
            ),
        }
    }
}

/// The name of a part of the outside.
fn name_of(device: Device) -> &'static [u8]
    ensures { result.now ≡ name_of device }
{
    match device {
        Device::Source => b"source",
        Device::Sink => b"sink",
        Device::Files => b"files",
        Device::Disk => b"disk",
        Device::Acceptor => b"acceptor",
        Device::Outside => b"outside",
        Device::Link => b"link",
    }
}

/// Writes a line of two parts. Faults of the note change nothing.
fn line<E: Sink>(note: &mut E, front: &[u8], rest: &[u8])
    ensures { IsNoted (sink_at E.Sink note.old) (sink_at E.Sink note.new) (line_of front.now rest.now) }
{
    let _ = parts(front, rest, note);
}

/// Writes a line of two parts, up to where the note fails.
fn parts<E: Sink>(front: &[u8], rest: &[u8], note: &mut E) -> Result<(), Failed>
    ensures sent { OnOk result (Sent (line_of front.now rest.now) (sink_at E.Sink note.old) (sink_at E.Sink note.new)) }
    ensures cut { OnErr result (Cut (line_of front.now rest.now) (sink_at E.Sink note.old) (sink_at E.Sink note.new)) }
    ensures no_fewer { E.faults note.old ≤ E.faults note.new }
{
    part(front, note)?;
    part(rest, note)?;
    part(b"\n", note)
}

/// How a run ended whose one connection ended so.
fn status_of(ended: Ended) -> Status
    ensures { result ≡ status_of ended }
{
    match ended {
        Ended::Done | Ended::Closed | Ended::Asked => Status::Ok,
        Ended::ClosedByPeer => Status::BadInput(Input::Cut),
        Ended::Refused(why) => Status::BadInput(Input::Refused(why)),
        Ended::Limit => Status::Limit,
        Ended::Spent { count } => Status::Spent { count },
        Ended::SourceFailed => Status::OutsideFailed(Device::Source),
        Ended::SinkFailed => Status::OutsideFailed(Device::Sink),
        Ended::NoMemory => Status::NoMemory,
    }
}

/// How a run ended whose one connection ended so, where this was read in an exhausted cell, if one is.
pub(crate) fn status_after(ended: Ended, spent: Option<u64>) -> Status
    ensures { result ≡ status_after ended spent }
{
    match spent_in(ended).or(spent) {
        Some(count) => Status::Spent { count },
        None => status_of(ended),
    }
}

/// How ticks and the deliveries behind them ended: for want of memory where either found none, and else as the deliveries did.
pub(crate) fn together(ticked: Drained, delivered: Drained) -> Drained
    ensures { result ≡ together ticked delivered }
{
    match ticked {
        Drained::Held => Drained::Held,
        Drained::Done | Drained::Spent { .. } | Drained::UsedUp => delivered,
    }
}

/// How a run ended that would have ended so, where ticks and deliveries behind its connection ended so.
pub(crate) fn held_over(drained: Drained, status: Status) -> Status
    ensures { result ≡ held_over drained status }
{
    match (drained, status) {
        (Drained::Held, Status::Ok) => Status::NoMemory,
        (_, status) => status,
    }
}

/// What was read in the cell that ended a connection, if one did.
fn spent_in(ended: Ended) -> Option<u64>
    ensures { result ≡ spent_in ended }
{
    match ended {
        Ended::Spent { count } => Some(count),
        Ended::Done
        | Ended::Closed
        | Ended::Asked
        | Ended::ClosedByPeer
        | Ended::Refused(_)
        | Ended::Limit
        | Ended::SourceFailed
        | Ended::SinkFailed
        | Ended::NoMemory => None,
    }
}
