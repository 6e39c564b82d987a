ghost use Rattle.std.specs.Prelude.{◌≡◌, None, Some, All, IfOk};
ghost use Rattle.side_world.specs.Link.{IsReply};
ghost use Rattle.http_client.specs.Written.{prepared};
ghost use Rattle.net_edge.specs.CallTimes.{KeepsWhere};
ghost use Rattle.net_edge.specs.Calls.{IsTo, IsReady, IsElsewhere, IsOutcome, Answers, AreAmong, KeepsOwn};

use crate::call_connection::CallConnection;
use crate::call_time::{CallTime, Caller};
use crate::kept_connections::KeptConnections;
use crate::waiting::now_ms;
use host_devices::FaultCount;
use http_client::{AskErr, Prepared, Reply, ReplyErr, ask, prepare};
use side_base::{LinkRequest, Response};
use side_world::{Failed, Link, LinkErr};
use std::alloc::Global;
use std::net::{Net, TcpListener, TcpStream};

/// A link that calls other programs by HTTP/1.1 over TCP. It tells no calls.
///
/// A connection is kept for the next call to its host and port, one to each and eight at most: not behind a reply of HTTP/1.0, one that says
/// `Connection: close` or goes on to the end of the input, one behind which bytes came, or behind a call that failed or expired. One that has
/// idled for a second isn't used: it is closed when the link's next call begins, wherever that goes, and not by a clock. Before it is used again
/// it is looked at, and let go where it has ended, or bytes came that nobody asked for. Nothing is sent twice: a call whose connection ends
/// within it has failed, whatever was sent. Where a host has many addresses, the next is tried only where no connection was made; each has its
/// part of the time that is left, so that a silent one doesn't take all of it.
///
/// The limit holds for the whole call: finding the host's addresses, connecting, writing and reading. A call without one has
/// 60,000 ms. Once all workers leave their door, all their calls have 5,000 ms more at most. The system's resolver has a limit of its own,
/// which may be longer; a call that it held up beyond the limit expires behind it.
///
/// A fault, besides those of the host, is: a method that is `Other`, or a host, target or field with a byte that it may not
/// have, for which nothing is sent; a head of a reply with more than 16,384 bytes or 128 fields; more than 15
/// interim replies; status 101, or none from 200 to 599; lengths or codings of the content that contradict each other, or a
/// coding other than `chunked`; content of more than 4,194,304 bytes; and an end of the input before the content's. The reply's
/// fields are given in order, but those that speak of the connection alone.
#[derive(Drop)]
pub struct TcpLink<R> {
    rt: R,
    caller: Caller,
    kept: KeptConnections,
    faults: FaultCount,
    expiries: FaultCount,
}

impl<R: Net<Listener = TcpListener, Stream = TcpStream> + AllocGlobal + Drop> TcpLink<R> {
    /// A link of nobody who works at a door, of which no call has failed or expired.
    pub fn new(rt: R) -> Self
        ensures no_faults { ⟦<TcpLink<R> as Link>⟧.faults result ≡ 0 }
        ensures no_expiries { ⟦<TcpLink<R> as Link>⟧.expiries result ≡ 0 }
    {
        TcpLink::of_caller(rt, Caller::nobody())
    }

    /// The same of this caller.
    pub(crate) fn of_caller(rt: R, caller: Caller) -> Self
        ensures no_faults { ⟦<TcpLink<R> as Link>⟧.faults result ≡ 0 }
        ensures no_expiries { ⟦<TcpLink<R> as Link>⟧.expiries result ≡ 0 }
    {
        let kept = KeptConnections::new(rt.alloc());
        TcpLink {
            rt,
            caller,
            kept,
            faults: FaultCount::none(),
            expiries: FaultCount::none(),
        }
    }
}

impl<R: Net<Listener = TcpListener, Stream = TcpStream> + AllocGlobal + Drop> Link for TcpLink<R> {
    ghost calls = { λ _. None };

    ghost faults = { λ l. l.faults };

    ghost expiries = { λ l. l.expiries };

    fn call(&mut self, request: &LinkRequest, limit_ms: u64) -> Result<Response, LinkErr> {
        self.caller.begin_call();
        let answer = attempt(&self.rt, &self.caller, &mut self.kept, request, limit_ms);
        self.caller.end_call();
        match answer {
            Ok(response) => Ok(response),
            Err(LinkErr::Failed) => {
                let Failed = self.faults.fail();
                Err(LinkErr::Failed)
            }
            Err(LinkErr::Expired) => {
                let Failed = self.expiries.fail();
                Err(LinkErr::Expired)
            }
            Err(LinkErr::NoMemory) => Err(LinkErr::NoMemory),
        }
    }
}

/// Asks once.
fn attempt<R: Net<Listener = TcpListener, Stream = TcpStream> + AllocGlobal>(
    rt: &R,
    caller: &Caller,
    kept: &mut KeptConnections,
    request: &LinkRequest,
    limit_ms: u64,
) -> Result<Response, LinkErr>
    ensures reply { IfOk result IsReply }
    ensures keeps { KeepsOwn request.now result kept.old.kept.items kept.new.kept.items }
{
    let ready = match prepare(rt.alloc(), request) {
        Ok(Some(ready)) => ready,
        Ok(None) => return Err(LinkErr::Failed),
        Err(_) => return Err(LinkErr::NoMemory),
    };
    let time = CallTime::of(now_ms(), limit_ms);
    let connection = connection_to(rt, caller, kept, request, time)?;
    let (answer, left) = ask_over(rt.alloc(), connection, &ready, request);
    if let Some(connection) = left {
        kept.put(connection, now_ms());
    }
    answer
}

/// A connection to the target of a request, for a call of this time: the one that is kept, where it is quiet, or a new one.
fn connection_to<R: Net<Listener = TcpListener, Stream = TcpStream> + AllocGlobal>(
    rt: &R,
    caller: &Caller,
    kept: &mut KeptConnections,
    request: &LinkRequest,
    time: CallTime,
) -> Result<CallConnection, LinkErr>
    ensures ready { IfOk result (IsReady request.now time.begin time.end) }
    ensures others { All (IsElsewhere request.now.host request.now.port) kept.new.kept.items }
    ensures among { AreAmong kept.old.kept.items kept.new.kept.items }
{
    if let Some(connection) = kept.take(&request.host, request.port, time.begin) {
        if connection.is_quiet() {
            let mut connection = connection;
            connection.begin(time.end);
            return Ok(connection);
        }
    }
    CallConnection::open(rt, caller, request, time)
}

/// Asks over a connection, which comes back where it may be used again.
fn ask_over(
    alloc: Global,
    connection: CallConnection,
    ready: &Prepared,
    request: &LinkRequest,
) -> (Result<Response, LinkErr>, Option<CallConnection>)
    requires ready { prepared request.now ≡ Some ready.now }
    requires target { IsTo request.now connection }
    ensures reply { IfOk result.0 IsReply }
    ensures outcome { IsOutcome request.now result.0 result.1 }
{
    let (reply, connection) = connection.ask(alloc, ready, request);
    answer_of(reply, connection)
}

/// What a call answers to which the reply is this, and its connection where it may be used again.
fn answer_of(
    reply: Result<Reply, AskErr>,
    connection: CallConnection,
) -> (Result<Response, LinkErr>, Option<CallConnection>)
    requires { IfOk reply (λ it. IsReply it.response) }
    ensures reply { IfOk result.0 IsReply }
    ensures answers { Answers connection reply result.0 }
    ensures kept { KeepsWhere reply connection result.1 }
{
    match reply {
        Ok(reply) => {
            let left = if reply.persists {
                Some(connection)
            } else {
                None
            };
            (Ok(reply.response), left)
        }
        Err(AskErr::Unsent) => (Err(connection.sink.cause), None),
        Err(AskErr::Unanswered { why }) => (
            Err(cause_of_reply(why, connection.source.cause)),
            None,
        ),
    }
}

/// Why a call has no answer that was sent; `cause`: why the last read of its connection failed.
fn cause_of_reply(why: ReplyErr, cause: LinkErr) -> LinkErr
    ensures bad { why ≡ ReplyErr.Bad → result ≡ LinkErr.Failed }
    ensures read { why ≡ ReplyErr.SourceFailed → result ≡ cause }
    ensures lacks { why ≡ ReplyErr.NoMemory → result ≡ LinkErr.NoMemory }
{
    match why {
        ReplyErr::Bad => LinkErr::Failed,
        ReplyErr::SourceFailed => cause,
        ReplyErr::NoMemory => LinkErr::NoMemory,
    }
}
