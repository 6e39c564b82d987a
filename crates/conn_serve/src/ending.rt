ghost use Rattle.std.specs.Prelude.{◌≡◌, ◌++◌, ℕ, List, [], OnOk, OnErr};
ghost use Rattle.api_error.specs.NoMemory.{no_memory_response};
ghost use Rattle.conn_serve.specs.Session.{refused_bytes, spent_bytes, IsSpentAnswer};
ghost use Rattle.conn_serve.specs.Ends.{Sent, Cut, IsFinish, sink_at};
ghost use Rattle.conn_serve.specs.Answering.{FinishesRefused};

use crate::Ended;
use crate::buffers::empty;
use api_error::{Code, error_response, no_memory_response};
use http_frames::{FrameErr, push_response};
use side_base::{Blob, NoMemory};
use side_world::{Failed, Sink, send};
use std::alloc::Global;

/// Sends what was gathered.
pub(crate) fn flush<N: Sink>(alloc: Global, out: &mut Blob, sink: &mut N) -> Result<(), Failed>
    ensures sent { OnOk result (Sent out.old (sink_at N.Sink sink.old) (sink_at N.Sink sink.new)) }
    ensures bare { OnOk result (out.new ≡ []) }
    ensures cut { OnErr result (Cut out.old (sink_at N.Sink sink.old) (sink_at N.Sink sink.new)) }
{
    send(sink, out.bytes())?;
    empty(alloc, out);
    Ok(())
}

/// Sends what was gathered, with which the session ends so.
pub(crate) fn finish<N: Sink>(ended: Ended, out: &Blob, sink: &mut N) -> Ended
    ensures { IsFinish ended out.now (sink_at N.Sink sink.old) (sink_at N.Sink sink.new) result }
{
    match send(sink, out.bytes()) {
        Ok(()) => ended,
        Err(Failed) => Ended::SinkFailed,
    }
}

/// Sends what was gathered, and then the response that takes no memory, with which the session ends so.
pub(crate) fn finish_without_memory<N: Sink>(ended: Ended, out: &Blob, sink: &mut N) -> Ended
    ensures { IsFinish ended (out.now ++ no_memory_response) (sink_at N.Sink sink.old) (sink_at N.Sink sink.new) result }
{
    match send(sink, out.bytes()) {
        Ok(()) => match send(sink, no_memory_response()) {
            Ok(()) => ended,
            Err(Failed) => Ended::SinkFailed,
        },
        Err(Failed) => Ended::SinkFailed,
    }
}

/// Ends the session with the response to bytes that are refused so; it is sent whole whatever their method.
pub(crate) fn finish_refused<N: Sink>(
    alloc: Global,
    why: FrameErr,
    out: &mut Blob,
    sink: &mut N,
) -> Ended
    ensures { FinishesRefused why out.old (sink_at N.Sink sink.old) (sink_at N.Sink sink.new) result }
{
    match push_refused(alloc, why, out) {
        Ok(()) => finish(Ended::Refused(why), out, sink),
        Err(NoMemory) => finish_without_memory(Ended::NoMemory, out, sink),
    }
}

fn push_refused(alloc: Global, why: FrameErr, out: &mut Blob) -> Result<(), NoMemory>
    ensures ok { OnOk result (out.new ≡ out.old ++ refused_bytes why) }
    ensures err { OnErr result (out.new ≡ out.old) }
{
    let response = error_response(alloc, why.status(), Code::BadRequest, why.name())?;
    push_response(out, &response, false, true)
}

/// Ends the session with the response to a request that met an exhausted cell, or with the one that takes no memory in its place.
pub(crate) fn finish_spent<N: Sink>(
    alloc: Global,
    head_only: bool,
    count: u64,
    out: &mut Blob,
    sink: &mut N,
) -> Ended
    ensures { (answer : List ℕ) × IsSpentAnswer head_only count answer × IsFinish (Ended.Spent count) (out.old ++ answer) (sink_at N.Sink sink.old) (sink_at N.Sink sink.new) result }
{
    match push_spent(alloc, head_only, count, out) {
        Ok(()) => finish(Ended::Spent { count }, out, sink),
        Err(NoMemory) => finish_without_memory(Ended::Spent { count }, out, sink),
    }
}

fn push_spent(alloc: Global, head_only: bool, count: u64, out: &mut Blob) -> Result<(), NoMemory>
    ensures ok { OnOk result (out.new ≡ out.old ++ spent_bytes head_only count) }
    ensures err { OnErr result (out.new ≡ out.old) }
{
    let message = format!(in alloc; "calls {count}")?;
    let response = error_response(alloc, 500, Code::Spent, message.as_str())?;
    push_response(out, &response, head_only, true)
}
