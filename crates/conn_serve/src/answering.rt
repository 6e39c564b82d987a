ghost use Rattle.std.specs.Prelude.{◌≡◌, ◌⊎◌};
ghost use Rattle.http.specs.StatusCode.{IsStatusCode};
ghost use Rattle.conn_serve.specs.Exchanged.{IsStop, is_head};
ghost use Rattle.conn_serve.specs.Ends.{sink_at};
ghost use Rattle.conn_serve.specs.Answering.{Answers, IsSaid, LacksRoom, MakesRoom, Responded, Went};

use crate::ending::{finish, finish_spent, finish_without_memory, flush};
use crate::{Ended, Handler};
use api_routes::is_shutdown;
use http_frames::{closes, push_response};
use side_base::{Blob, Method, Request, Response};
use side_world::{Failed, Sink};
use std::alloc::Global;
use std::sync::Wait;
use turn_cell::ApiErr;

/// How many requests of one connection are answered.
pub(crate) const MOST_REQUESTS: u32 = 100_000;

/// Responses are gathered as long as they have fewer bytes.
const GATHERED: usize = 65_536;

/// Answers the request of this number, counted from 1, and says how the session ends with it, if it does.
pub(crate) fn answer<H: Handler, N: Sink, W: Wait>(
    rt: &W,
    alloc: Global,
    handler: &mut H,
    number: u32,
    request: &Request,
    out: &mut Blob,
    sink: &mut N,
) -> Option<Ended>
    requires { H.ready handler.old }
    ensures answered { Responded H.exchange H.did H.shows handler.old handler.new request.now (λ reply. Answers number request.now out.old out.new (sink_at N.Sink sink.old) (sink_at N.Sink sink.new) reply result) }
{
    match handler.respond(rt, request) {
        Ok(response) => say(alloc, number, request, &response, out, sink),
        Err(ApiErr::NoMemory) => Some(finish_without_memory(Ended::NoMemory, out, sink)),
        Err(ApiErr::Exhausted { count }) => Some(finish_spent(
            alloc,
            is_head(request.method),
            count,
            out,
            sink,
        )),
    }
}

/// Gathers the response to the request of this number, and sends what is gathered where the session ends with it, or where it is much.
fn say<N: Sink>(
    alloc: Global,
    number: u32,
    request: &Request,
    response: &Response,
    out: &mut Blob,
    sink: &mut N,
) -> Option<Ended>
    requires { IsStatusCode response.now.status }
    ensures { IsSaid number request.now response.now out.old out.new (sink_at N.Sink sink.old) (sink_at N.Sink sink.new) result ⊎ LacksRoom out.old (sink_at N.Sink sink.old) (sink_at N.Sink sink.new) result }
{
    let stop = stop_after(number, request);
    if push_response(out, response, is_head(request.method), stop.is_some()).is_err() {
        return Some(finish_without_memory(Ended::NoMemory, out, sink));
    }
    go_on(alloc, stop, out, sink)
}

/// Sends what is gathered where the session ends, or where it is much.
fn go_on<N: Sink>(alloc: Global, stop: Option<Ended>, out: &mut Blob, sink: &mut N) -> Option<Ended>
    ensures { Went stop out.old out.new (sink_at N.Sink sink.old) (sink_at N.Sink sink.new) result }
{
    match stop {
        Some(ended) => Some(finish(ended, out, sink)),
        None => make_room(alloc, out, sink),
    }
}

/// Sends what is gathered where it is much.
fn make_room<N: Sink>(alloc: Global, out: &mut Blob, sink: &mut N) -> Option<Ended>
    ensures { MakesRoom out.old out.new (sink_at N.Sink sink.old) (sink_at N.Sink sink.new) result }
{
    if out.len() < GATHERED {
        return None;
    }
    match flush(alloc, out, sink) {
        Ok(()) => None,
        Err(Failed) => Some(Ended::SinkFailed),
    }
}

/// Whether the head of the response alone is sent.
fn is_head(method: Method) -> bool
    ensures { result ≡ is_head method }
{
    match method {
        Method::Head => true,
        _ => false,
    }
}

/// How the session ends with the request of this number, if it does: a shutdown comes first, then a request that closes the connection, and
/// then the last one that a connection may have.
fn stop_after(number: u32, request: &Request) -> Option<Ended>
    ensures { IsStop number request.now result }
{
    if is_shutdown(request.method, request.target.bytes()) {
        return Some(Ended::Asked);
    }
    if closes(request) {
        return Some(Ended::Closed);
    }
    if number == MOST_REQUESTS {
        return Some(Ended::Limit);
    }
    None
}
