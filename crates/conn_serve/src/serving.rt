ghost use Rattle.std.specs.Prelude.{◌≡◌, ◌<◌, None};
ghost use Rattle.conn_serve.specs.Ends.{sink_at, source_at};
ghost use Rattle.conn_serve.specs.Going.{Continues, EndsBy, TakeLeads, TurnLeads, stage};
ghost use Rattle.conn_serve.specs.Served.{Served};

use crate::answering::answer;
use crate::buffers::empty;
use crate::ending::{finish_refused, finish_without_memory};
use crate::wanting::want;
use crate::{Buffers, Ended, Handler};
use http_frames::laws::{answers_go_on, between_requests_nothing_is_left, bytes_go_on};
use http_frames::{FrameErr, Framer, Step, continue_bytes};
use side_base::Blob;
use side_world::{Sink, Source};
use std::alloc::Global;
use std::sync::Wait;

/// How far a connection has come.
#[derive(Drop)]
struct Progress {
    framer: Framer,
    /// How many requests were answered.
    answered: u32,
}

/// Serves one connection: reads requests from `source`, answers each by `handler`, in order, and writes the responses to `sink`.
///
/// Responses to requests that came together go out together, before more is read. Nothing of what the buffers hold is served, and they are lent to one connection
/// after the other.
pub fn serve<H: Handler, S: Source, N: Sink, W: Wait>(
    rt: &W,
    alloc: Global,
    buffers: &mut Buffers,
    handler: &mut H,
    source: &mut S,
    sink: &mut N,
) -> Ended
    requires { H.ready handler.old }
    ensures { Served (H.exchange handler.old) (λ xs. H.did handler.old xs handler.new) (H.shows handler.new) (source_at S.Source source.old) (source_at S.Source source.new) (sink_at N.Sink sink.old) (sink_at N.Sink sink.new) result }
{
    bytes_go_on();
    empty(alloc, &mut buffers.out);
    let mut progress = Progress {
        framer: Framer::new(alloc),
        answered: 0,
    };
    for _ in rt.forever() {
        if let Some(ended) = turn(rt, alloc, &mut progress, buffers, handler, source, sink) {
            empty(alloc, &mut buffers.out);
            return ended;
        }
    }
    unreachable!()
}

/// Takes the next step of the stream, and says how the session ends, if it does.
fn turn<H: Handler, S: Source, N: Sink, W: Wait>(
    rt: &W,
    alloc: Global,
    progress: &mut Progress,
    buffers: &mut Buffers,
    handler: &mut H,
    source: &mut S,
    sink: &mut N,
) -> Option<Ended>
    requires ready { H.ready handler.old }
    requires below { progress.old.answered < 100000 }
    ensures ready { H.ready handler.new }
    ensures below { result ≡ None → progress.new.answered < 100000 }
    ensures after { TurnLeads H.exchange H.did H.shows handler.old handler.new (stage S.Source N.Sink progress.old buffers.old.out source.old sink.old) (stage S.Source N.Sink progress.new buffers.new.out source.new sink.new) result }
{
    bytes_go_on();
    answers_go_on();
    between_requests_nothing_is_left();
    match progress.framer.next() {
        Ok(step) => take(rt, alloc, progress, buffers, step, handler, source, sink),
        Err(why) => Some(refuse(alloc, why, &mut buffers.out, sink)),
    }
}

/// Goes on with a step of the stream.
fn take<H: Handler, S: Source, N: Sink, W: Wait>(
    rt: &W,
    alloc: Global,
    progress: &mut Progress,
    buffers: &mut Buffers,
    step: Step,
    handler: &mut H,
    source: &mut S,
    sink: &mut N,
) -> Option<Ended>
    requires ready { H.ready handler.old }
    requires below { progress.old.answered < 100000 }
    ensures ready { H.ready handler.new }
    ensures below { result ≡ None → progress.new.answered < 100000 }
    ensures after { TakeLeads H.exchange H.did H.shows handler.old handler.new (stage S.Source N.Sink progress.old buffers.old.out source.old sink.old) (stage S.Source N.Sink progress.new buffers.new.out source.new sink.new) result step }
{
    bytes_go_on();
    answers_go_on();
    between_requests_nothing_is_left();
    match step {
        Step::Request(request) => {
            progress.answered += 1;
            let number = progress.answered;
            answer(rt, alloc, handler, number, &request, &mut buffers.out, sink)
        }
        Step::Continue => gather_continue(&mut buffers.out, sink),
        Step::Need => want(
            alloc,
            &mut progress.framer,
            &mut buffers.piece,
            &mut buffers.out,
            source,
            sink,
        ),
    }
}

/// Gathers the response that asks for the content of a request.
fn gather_continue<N: Sink>(out: &mut Blob, sink: &mut N) -> Option<Ended>
    ensures { Continues out.old out.new (sink_at N.Sink sink.old) (sink_at N.Sink sink.new) result }
{
    match out.push(continue_bytes()) {
        Ok(()) => None,
        Err(_) => Some(finish_without_memory(Ended::NoMemory, out, sink)),
    }
}

/// Ends the session with bytes that are refused, or for want of memory.
fn refuse<N: Sink>(alloc: Global, why: FrameErr, out: &mut Blob, sink: &mut N) -> Ended
    ensures { EndsBy why out.old (sink_at N.Sink sink.old) (sink_at N.Sink sink.new) result }
{
    match why {
        FrameErr::NoMemory => finish_without_memory(Ended::NoMemory, out, sink),
        _ => finish_refused(alloc, why, out, sink),
    }
}
