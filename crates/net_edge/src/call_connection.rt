//! Connections to other programs.
ghost use Rattle.std.specs.Prelude.{◌≡◌, ◌↔◌, Some, true, IfOk};
ghost use Rattle.side_world.specs.Link.{IsReply};
ghost use Rattle.http_client.specs.Written.{prepared};
ghost use Rattle.net_edge.specs.Calls.{IsReady};

use crate::call_stream::{CallSink, CallSource, cause_of};
use crate::call_time::{CallTime, Caller, share_end};
use crate::waiting::{is_quiet, now_ms};
use http_client::{AskErr, Prepared, Reply, ask};
use side_base::{Blob, LinkRequest, Text};
use side_world::LinkErr;
use std::alloc::Global;
use std::io::{self, ErrorKind};
use std::net::{Net, SocketAddr, TcpListener, TcpStream, ToSocketAddrs};
use std::os::fd::AsRawFd;
use std::sync::Arc;
use std::time::Duration;

/// How often one address is tried at most within a call.
const TRIES: u32 = u32::MAX;

/// A connection to another program.
#[derive(Drop)]
pub(crate) struct CallConnection {
    pub(crate) host: Blob,
    pub(crate) port: u16,
    /// The moment at which its last call ended, or at which it was opened, in milliseconds.
    pub(crate) since: u64,
    pub(crate) source: CallSource,
    pub(crate) sink: CallSink,
}

impl CallConnection {
    /// A new one to the target of this request, for a call that begins now and is over at that moment.
    pub(crate) fn open<R: Net<Listener = TcpListener, Stream = TcpStream> + AllocGlobal>(
        rt: &R,
        caller: &Caller,
        request: &LinkRequest,
        time: CallTime,
    ) -> Result<Self, LinkErr>
        ensures { IfOk result (IsReady request.now time.begin time.end) }
    {
        let Ok(host) = Blob::from_bytes(rt.alloc(), request.host.bytes()) else {
            return Err(LinkErr::NoMemory);
        };
        let stream = connect(rt, caller, request.host.as_str(), request.port, time.end)?;
        match CallConnection::of_stream(rt.alloc(), caller, (host, request.port), stream, time) {
            Ok(connection) => Ok(connection),
            Err(error) => Err(cause_of(&error)),
        }
    }

    /// The one of this stream to this host and port.
    fn of_stream(
        alloc: Global,
        caller: &Caller,
        target: (Blob, u16),
        stream: TcpStream,
        time: CallTime,
    ) -> io::Result<Self>
        ensures host { IfOk result (λ it. it.host ≡ target.0) }
        ensures port { IfOk result (λ it. it.port ≡ target.1) }
        ensures new { IfOk result (λ it. it.since ≡ time.begin) }
        ensures reads { IfOk result (λ it. it.source.end ≡ time.end) }
        ensures writes { IfOk result (λ it. it.sink.end ≡ time.end) }
    {
        stream.set_nodelay(true)?;
        let stream = Arc::new(alloc, stream)?;
        let other = Arc::try_clone(&stream)?;
        let (host, port) = target;
        Ok(CallConnection {
            host,
            port,
            since: time.begin,
            source: CallSource::new(caller.share()?, stream, time.end),
            sink: CallSink::new(caller.share()?, other, time.end),
        })
    }

    /// A call begins on it that is over at this moment.
    pub(crate) fn begin(&mut self, end: u64)
        ensures source { self.new.source ≡ record self.old.source { end = end } }
        ensures sink { self.new.sink ≡ record self.old.sink { end = end } }
        ensures host { self.new.host ≡ self.old.host }
        ensures port { self.new.port ≡ self.old.port }
        ensures since { self.new.since ≡ self.old.since }
    {
        self.source.begin(end);
        self.sink.begin(end);
    }

    /// Asks once over it.
    pub(crate) fn ask(
        self,
        alloc: Global,
        ready: &Prepared,
        request: &LinkRequest,
    ) -> (Result<Reply, AskErr>, Self)
        requires { prepared request.now ≡ Some ready.now }
        ensures reply { IfOk result.0 (λ it. IsReply it.response) }
        ensures host { result.1.host ≡ self.host }
        ensures port { result.1.port ≡ self.port }
    {
        let CallConnection {
            host,
            port,
            since,
            source,
            mut sink,
        } = self;
        let (reply, source) = ask(alloc, ready, request, source, &mut sink);
        let connection = CallConnection {
            host,
            port,
            since,
            source,
            sink,
        };
        (reply, connection)
    }

    /// Whether it goes to this target.
    pub(crate) fn is_to(&self, host: &Text, port: u16) -> bool
        ensures { result ≡ true ↔ ((self.now.host ≡ host.now) × (self.now.port ≡ port)) }
    {
        self.port == port && self.host.bytes() == host.bytes()
    }

    /// Whether nothing has come on it, and it hasn't ended.
    pub(crate) fn is_quiet(&self) -> bool {
        is_quiet(self.source.stream().as_raw_fd())
    }
}

/// Connects to the addresses of the host in turn, until one can be connected to. Each has its part of the time that is left, and the last all of
/// it.
fn connect<R: Net<Listener = TcpListener, Stream = TcpStream>>(
    rt: &R,
    caller: &Caller,
    host: &str,
    port: u16,
    end: u64,
) -> Result<TcpStream, LinkErr> {
    let mut last = LinkErr::Failed;
    let addresses = match (host, port).to_socket_addrs(rt) {
        Ok(addresses) => addresses,
        Err(error) => return Err(cause_of(&error)),
    };
    let mut left = addresses.len();
    for address in addresses {
        match connect_to(rt, caller, address, share_end(now_ms(), end, left)) {
            Ok(stream) => return Ok(stream),
            Err(cause) => last = cause,
        }
        left = left.saturating_sub(1);
    }
    Err(last)
}

/// Connects to an address before this moment. A try takes no longer than a call has once all workers leave.
fn connect_to<R: Net<Listener = TcpListener, Stream = TcpStream>>(
    rt: &R,
    caller: &Caller,
    address: SocketAddr,
    end: u64,
) -> Result<TcpStream, LinkErr> {
    for _ in 0..TRIES {
        let ms = caller.connect_ms(end);
        if ms == 0 {
            return Err(LinkErr::Expired);
        }
        match rt.connect_timeout(address, Duration::from_millis(ms)) {
            Ok(stream) => return Ok(stream),
            Err(error) if matches!(error.kind(), ErrorKind::TimedOut) => {}
            Err(error) => return Err(cause_of(&error)),
        }
    }
    Err(LinkErr::Expired)
}
