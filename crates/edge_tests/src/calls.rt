//! Calls of a link to listeners of the tests' own.
use crate::clients::add_halves;
use crate::scene::serve_to_the_end;
use crate::slow::answered_in_time;
use crate::tests::patient;
use net_edge::{TcpAcceptor, TcpDoor, TcpLink};
use side_base::{Blob, LinkRequest, Method, NoMemory, Response, Sequence, Text};
use side_world::{Acceptor, Link, LinkErr};
use std::alloc::Global;
use std::io::{self, Read, Write};
use std::net::{Ipv4Addr, Net, SocketAddrV4, TcpListener, TcpStream};
use std::process::Abort;
use std::sync::Wait;
use std::test::Fail;
use std::thread::{Threads, join, sleep};
use std::time::{Clock, Duration};

/// The limit of a call that is to be answered, in milliseconds: only a test that fails waits so long.
const LONG_MS: u64 = 20_000;

/// The limit of a call that is to expire, and for how long its server waits.
const SHORT_MS: u64 = 100;

const SLOW_MS: u64 = 300;

/// For how long a link idles between two calls, where its connection is to be found closed.
const PAUSE_MS: u64 = 50;

/// A listener at this port, at any free one where it is 0, and its port.
fn listen_at<R: Net<Listener = TcpListener, Stream = TcpStream>>(
    rt: &R,
    port: u16,
) -> io::Result<(TcpListener, u16)> {
    let listener = TcpListener::bind(rt, SocketAddrV4::new(Ipv4Addr::LOCALHOST, port))?;
    let port = listener.local_addr()?.port();
    Ok((listener, port))
}

fn listen<R: Net<Listener = TcpListener, Stream = TcpStream>>(
    rt: &R,
) -> io::Result<(TcpListener, u16)> {
    listen_at(rt, 0)
}

/// Reads the head of a request; whether there was a whole one.
fn has_read_head(stream: &mut TcpStream) -> bool {
    let mut head = [0u8; 1_024];
    let mut len = 0;
    for _ in 0..1_024u32 {
        if len >= head.len() || head[..len].ends_with(b"\r\n\r\n") {
            return len > 0;
        }
        match stream.read(&mut head[len..]) {
            Ok(n) if n > 0 => len += n,
            _ => return false,
        }
    }
    false
}

/// What a server does with a request: it sends the reply, at once or late, and then closes the connection or not.
#[derive(Clone, Copy)]
struct Deed<'a> {
    is_late: bool,
    closes: bool,
    reply: &'a str,
}

/// The deed that a text says: behind `=` stands a reply, behind `!` one after which the connection is closed, and behind `~` one that is late.
fn deed_of(text: &str) -> Deed<'_> {
    let (is_late, closes, reply) = match text.split_at_checked(1) {
        Some(("!", reply)) => (false, true, reply),
        Some(("~", reply)) => (true, false, reply),
        Some(("=", reply)) => (false, false, reply),
        _ => (false, false, text),
    };
    Deed {
        is_late,
        closes,
        reply,
    }
}

/// Serves the requests of one connection by these deeds, from this one on; how many there were.
fn serve_one<R: Clock>(rt: &R, stream: &mut TcpStream, deeds: &[&str], first: usize) -> usize {
    let mut count = 0usize;
    for text in deeds.iter().skip(first) {
        if !has_read_head(stream) {
            return count;
        }
        count = count.saturating_add(1);
        let deed = deed_of(text);
        if deed.is_late {
            sleep(rt, Duration::from_millis(SLOW_MS));
        }
        if stream.write_all(deed.reply.as_bytes()).is_err() || deed.closes {
            return count;
        }
    }
    // The peer goes before the server does.
    has_read_head(stream);
    count
}

/// Serves connections by these deeds until one comes on which nothing is asked. How many requests each had, as a text.
fn serve<R: Clock + AllocGlobal>(
    rt: &R,
    listener: &TcpListener,
    deeds: &[&str],
) -> io::Result<Text> {
    let mut counts = Text::new(rt.alloc());
    let mut done = 0usize;
    for _ in 0..1_000_000u32 {
        let (mut stream, _) = listener.accept()?;
        stream.set_nodelay(true)?;
        let count = serve_one(rt, &mut stream, deeds, done);
        if count == 0 {
            break;
        }
        done = done.saturating_add(count);
        let piece = format!(in rt.alloc(); " {count}")?;
        counts.push(piece.as_str())?;
    }
    Ok(counts)
}

/// A request to this port.
fn request_to(alloc: Global, port: u16, method: Method) -> Result<LinkRequest, NoMemory> {
    Ok(LinkRequest {
        host: Text::from_static(alloc, "127.0.0.1"),
        port,
        method,
        target: Blob::from_bytes(alloc, b"/")?,
        fields: Sequence::new(alloc),
        body: Blob::new(alloc),
    })
}

/// A reply as a text: its status and its content.
fn reply_text(alloc: Global, reply: &Response) -> Result<Text, NoMemory> {
    let body = str::from_utf8(reply.body.bytes()).unwrap_or("?");
    Ok(Text::from_string(format!(in alloc; "{} {body}", reply.status)?))
}

/// What a link answers to a request, as a text: the reply, or why there is none.
fn told<L: Link>(
    link: &mut L,
    alloc: Global,
    request: &LinkRequest,
    limit_ms: u64,
) -> Result<Text, NoMemory> {
    match link.call(request, limit_ms) {
        Ok(reply) => reply_text(alloc, &reply),
        Err(error) => Ok(Text::from_string(format!(in alloc; "{error}")?)),
    }
}

/// What a link answers to calls that are served by these deeds, each behind a pause, as a text.
fn told_all<L: Link, R: Clock + AllocGlobal>(
    rt: &R,
    link: &mut L,
    request: &LinkRequest,
    deeds: &[&str],
    pause_ms: u64,
) -> Result<Text, NoMemory> {
    let mut all = Text::new(rt.alloc());
    for text in deeds {
        let limit_ms = if deed_of(text).is_late {
            SHORT_MS
        } else {
            LONG_MS
        };
        let told = told(link, rt.alloc(), request, limit_ms)?;
        all.push(told.as_str())?;
        all.push("; ")?;
        sleep(rt, Duration::from_millis(pause_ms));
    }
    Ok(all)
}

/// The same of a new link, which is let go; then comes a client that asks nothing.
fn told_by_new<
    R: Threads
        + Net<Listener = TcpListener, Stream = TcpStream>
        + Clock
        + Abort
        + Wait
        + AllocGlobal
        + Copy
        + Drop,
>(rt: R, port: u16, deeds: &[&str], pause_ms: u64) -> io::Result<Text> {
    let request = request_to(rt.alloc(), port, Method::Get)?;
    let mut link = TcpLink::new(rt);
    let all = told_all(&rt, &mut link, &request, deeds, pause_ms);
    drop(link);
    TcpStream::connect(&rt, SocketAddrV4::new(Ipv4Addr::LOCALHOST, port))?;
    Ok(all?)
}

/// What a link answers to calls that a server serves by these deeds, as a text, and behind it how many requests each connection had.
fn played<
    R: Threads
        + Net<Listener = TcpListener, Stream = TcpStream>
        + Clock
        + Abort
        + Wait
        + AllocGlobal
        + Copy
        + Drop
        + Send
        + Sync,
>(rt: R, deeds: &[&str], pause_ms: u64) -> io::Result<Text> {
    let (listener, port) = listen(&rt)?;
    let (counts, answers) = join(
        &rt,
        || serve(&rt, &listener, deeds),
        || told_by_new(rt, port, deeds, pause_ms),
    );
    let mut all = answers?;
    all.push("on")?;
    all.push(counts?.as_str())?;
    Ok(all)
}

/// Checks what comes of deeds.
fn check_deeds<
    R: Threads
        + Net<Listener = TcpListener, Stream = TcpStream>
        + Clock
        + Abort
        + Wait
        + AllocGlobal
        + Copy
        + Drop
        + Send
        + Sync,
>(rt: R, cases: &[(&[&str], &str)], pause_ms: u64) -> io::Result<()> {
    for case in cases {
        let (deeds, wanted) = *case;
        let found = played(rt, deeds, pause_ms)?;
        assert_eq!(rt; found.as_str(), wanted, "{wanted}");
    }
    Ok(())
}

/// A reply, and one whose connection is closed behind it.
const HI: &str = "=HTTP/1.1 200 OK\r\nContent-Length: 2\r\n\r\nhi";

const LAST_HI: &str = "!HTTP/1.1 200 OK\r\nContent-Length: 2\r\n\r\nhi";

#[test]
fn a_connection_is_kept_where_its_reply_lets_it(rt: HostRuntime) -> Result<(), Fail> {
    let chunks =
        "=HTTP/1.1 200 OK\r\nTransfer-Encoding: chunked\r\n\r\n1\r\nh\r\n1\r\ni\r\n0\r\n\r\n";
    let interim = "=HTTP/1.1 100 Continue\r\n\r\nHTTP/1.1 204 No Content\r\n\r\n";
    let closing = "=HTTP/1.1 200 OK\r\nConnection: x, Close\r\nContent-Length: 2\r\n\r\nhi";
    let old = "=HTTP/1.0 200 OK\r\nContent-Length: 2\r\n\r\nhi";
    let to_end = "!HTTP/1.1 404 Not Found\r\nETag: a\r\n\r\nto the end";
    let behind =
        "=HTTP/1.1 200 OK\r\nContent-Length: 2\r\n\r\nhiHTTP/1.1 200 OK\r\nContent-Length: 3\r\n\r\nbad";
    let cases: [(&[&str], &str); 7] = [
        (&[HI, HI, HI], "200 hi; 200 hi; 200 hi; on 3"),
        (&[chunks, HI], "200 hi; 200 hi; on 2"),
        (&[interim, HI], "204 ; 200 hi; on 2"),
        (&[closing, HI], "200 hi; 200 hi; on 1 1"),
        (&[old, HI], "200 hi; 200 hi; on 1 1"),
        (&[to_end, HI], "404 to the end; 200 hi; on 1 1"),
        (&[behind, HI], "200 hi; 200 hi; on 1 1"),
    ];
    Ok(check_deeds(rt, &cases, 0)?)
}

#[test]
fn a_call_fails_once_where_there_is_no_reply(rt: HostRuntime) -> Result<(), Fail> {
    let short = "!HTTP/1.1 200 OK\r\nContent-Length: 3\r\n\r\nhi";
    let long = "=HTTP/1.1 200 OK\r\nContent-Length: 4194305\r\n\r\n";
    let garbage = "=garbage\r\n\r\n";
    let nothing = "!";
    let cases: [(&[&str], &str); 4] = [
        (&[short, HI], "the call failed; 200 hi; on 1 1"),
        (&[long, HI], "the call failed; 200 hi; on 1 1"),
        (&[garbage, HI], "the call failed; 200 hi; on 1 1"),
        (
            &[HI, nothing, HI],
            "200 hi; the call failed; 200 hi; on 2 1",
        ),
    ];
    Ok(check_deeds(rt, &cases, 0)?)
}

#[test]
fn a_connection_that_was_closed_is_not_used(rt: HostRuntime) -> Result<(), Fail> {
    let cases: [(&[&str], &str); 1] = [(&[LAST_HI, LAST_HI], "200 hi; 200 hi; on 1 1")];
    Ok(check_deeds(rt, &cases, PAUSE_MS)?)
}

#[test]
fn a_connection_that_idles_is_let_go(rt: HostRuntime) -> Result<(), Fail> {
    let cases: [(&[&str], &str); 1] = [(&[HI, HI], "200 hi; 200 hi; on 1 1")];
    Ok(check_deeds(rt, &cases, 1_100)?)
}

#[test]
fn no_late_reply_is_met(rt: HostRuntime) -> Result<(), Fail> {
    let late = "~HTTP/1.1 200 OK\r\nContent-Length: 4\r\n\r\nlate";
    let cases: [(&[&str], &str); 2] = [
        (&[late, HI], "the call expired; 200 hi; on 1 1"),
        (&[HI, late, HI], "200 hi; the call expired; 200 hi; on 2 1"),
    ];
    Ok(check_deeds(rt, &cases, 0)?)
}

#[test]
fn a_thousand_calls_go_over_one_connection(rt: HostRuntime) -> Result<(), Fail> {
    let deeds = [HI; 1_000];
    let found = played(rt, &deeds, 0)?;
    assert!(rt; found.as_str().ends_with("; on 1000"));
    Ok(())
}

/// A port at which nobody listens.
fn free_port<R: Net<Listener = TcpListener, Stream = TcpStream>>(rt: &R) -> io::Result<u16> {
    let (_, port) = listen(rt)?;
    Ok(port)
}

/// How a call of this method to this port ends, which is not answered.
fn end_of_call<
    R: Threads
        + Net<Listener = TcpListener, Stream = TcpStream>
        + Clock
        + Abort
        + Wait
        + AllocGlobal
        + Copy
        + Drop,
>(rt: R, port: u16, method: Method) -> Result<Option<LinkErr>, NoMemory> {
    let request = request_to(rt.alloc(), port, method)?;
    let mut link = TcpLink::new(rt);
    Ok(link.call(&request, LONG_MS).err())
}

#[test]
fn a_call_that_reaches_nobody_fails(rt: HostRuntime) -> Result<(), Fail> {
    let port = free_port(&rt)?;
    assert_eq!(rt; end_of_call(rt, port, Method::Get)?, Some(LinkErr::Failed));
    Ok(())
}

#[test]
fn a_request_of_no_method_fails(rt: HostRuntime) -> Result<(), Fail> {
    let (_listener, port) = listen(&rt)?;
    assert_eq!(rt;
        end_of_call(rt, port, Method::Other)?,
        Some(LinkErr::Failed)
    );
    Ok(())
}

/// Takes a connection, reads so many bytes of what comes, and closes it.
fn take_some(listener: &TcpListener, count: usize) -> io::Result<()> {
    let (mut stream, _) = listener.accept()?;
    let mut piece = [0u8; 1_024];
    stream.read(&mut piece[..count.min(1_024)])?;
    Ok(())
}

/// The same, and then serves another connection; how many requests came whole.
fn take_some_and_serve<R: Clock + AllocGlobal>(rt: &R, listener: &TcpListener) -> io::Result<Text> {
    take_some(listener, 100)?;
    serve(rt, listener, &[HI])
}

/// A request to this port with content of so many bytes.
fn request_with(alloc: Global, port: u16, len: usize) -> Result<LinkRequest, NoMemory> {
    let content: Vec<u8> = vec![in alloc; b'x'; len]?;
    let mut request = request_to(alloc, port, Method::Post)?;
    request.body.push(content.as_slice())?;
    Ok(request)
}

/// What a link answers to a long request and to a short one.
fn told_of_long<
    R: Threads
        + Net<Listener = TcpListener, Stream = TcpStream>
        + Clock
        + Abort
        + Wait
        + AllocGlobal
        + Copy
        + Drop,
>(rt: R, port: u16) -> io::Result<Text> {
    let long = request_with(rt.alloc(), port, 4_194_304)?;
    let mut link = TcpLink::new(rt);
    let mut all = told(&mut link, rt.alloc(), &long, LONG_MS)?;
    let request = request_to(rt.alloc(), port, Method::Get)?;
    let second = told(&mut link, rt.alloc(), &request, LONG_MS)?;
    drop(link);
    TcpStream::connect(&rt, SocketAddrV4::new(Ipv4Addr::LOCALHOST, port))?;
    all.push("; ")?;
    all.push(second.as_str())?;
    Ok(all)
}

/// The same of a peer that takes some of the long one, and closes its connection.
fn told_of_half<
    R: Threads
        + Net<Listener = TcpListener, Stream = TcpStream>
        + Clock
        + Abort
        + Wait
        + AllocGlobal
        + Copy
        + Drop
        + Send
        + Sync,
>(rt: R) -> io::Result<(Text, Text)> {
    let (listener, port) = listen(&rt)?;
    let (counts, answers) = join(
        &rt,
        || take_some_and_serve(&rt, &listener),
        || told_of_long(rt, port),
    );
    Ok((answers?, counts?))
}

#[test]
fn a_peer_that_takes_half_a_request_gets_no_other(rt: HostRuntime) -> Result<(), Fail> {
    let (answers, counts) = told_of_half(rt)?;
    assert_eq!(rt; answers.as_str(), "the call failed; 200 hi");
    assert_eq!(rt; counts.as_str(), " 1");
    Ok(())
}

/// What a link answers while one connection is served at this port, by a listener that goes then.
fn told_once<
    R: Threads
        + Net<Listener = TcpListener, Stream = TcpStream>
        + Clock
        + Abort
        + Wait
        + AllocGlobal
        + Copy
        + Drop
        + Send
        + Sync,
    L: Link + Send,
>(rt: R, link: &mut L, port: u16) -> io::Result<(Text, u16)> {
    let (listener, port) = listen_at(&rt, port)?;
    let request = request_to(rt.alloc(), port, Method::Get)?;
    let alloc = rt.alloc();
    let (_, answer) = join(
        &rt,
        || take_and_reply(&listener),
        || told(link, alloc, &request, LONG_MS),
    );
    Ok((answer?, port))
}

/// Replies to one request, and closes its connection.
fn take_and_reply(listener: &TcpListener) -> io::Result<()> {
    let (mut stream, _) = listener.accept()?;
    has_read_head(&mut stream);
    stream.write_all(deed_of(HI).reply.as_bytes())
}

/// What a link answers before and after its program is started anew.
fn told_by_restarted<
    R: Threads
        + Net<Listener = TcpListener, Stream = TcpStream>
        + Clock
        + Abort
        + Wait
        + AllocGlobal
        + Copy
        + Drop
        + Send
        + Sync,
>(rt: R) -> io::Result<(Text, Text)> {
    let mut link = TcpLink::new(rt);
    let (first, port) = told_once(rt, &mut link, 0)?;
    sleep(&rt, Duration::from_millis(PAUSE_MS));
    let (second, _) = told_once(rt, &mut link, port)?;
    Ok((first, second))
}

#[test]
fn a_program_may_be_started_anew_between_two_calls(rt: HostRuntime) -> Result<(), Fail> {
    let (first, second) = told_by_restarted(rt)?;
    assert_eq!(rt; first.as_str(), "200 hi");
    assert_eq!(rt; second.as_str(), "200 hi");
    Ok(())
}

/// How many programs there are where one more than are kept is called, and which of them is called last.
const PROGRAMS: usize = 9;

const LAST_PROGRAM: usize = PROGRAMS - 1;

/// Listeners at free ports, and their ports.
fn listen_all<
    R: Threads
        + Net<Listener = TcpListener, Stream = TcpStream>
        + Clock
        + Abort
        + Wait
        + AllocGlobal
        + Copy
        + Drop,
>(rt: &R) -> io::Result<(Vec<TcpListener>, Vec<u16>)> {
    let mut listeners = Vec::new(rt.alloc());
    let mut ports = Vec::new(rt.alloc());
    for _ in 0..PROGRAMS {
        let (listener, port) = listen(rt)?;
        listeners.push(listener)?;
        ports.push(port)?;
    }
    Ok((listeners, ports))
}

/// Replies to one request of this connection; whether there was one.
fn has_replied(stream: &mut TcpStream) -> bool {
    has_read_head(stream) && stream.write_all(deed_of(HI).reply.as_bytes()).is_ok()
}

/// Replies to one request on a new connection of this listener, which is put into the list.
fn serve_new(listener: &TcpListener, streams: &mut Vec<TcpStream>) -> io::Result<()> {
    let (mut stream, _) = listener.accept()?;
    has_replied(&mut stream);
    streams.push(stream)?;
    Ok(())
}

/// Replies to a request on a new connection of each listener, once more of the first, and to one on that of the last.
fn serve_in_turn<R: AllocGlobal>(rt: &R, listeners: &[TcpListener]) -> io::Result<bool> {
    let mut streams = Vec::new(rt.alloc());
    for listener in listeners {
        serve_new(listener, &mut streams)?;
    }
    if let Some(first) = listeners.first() {
        serve_new(first, &mut streams)?;
    }
    Ok(match streams.get_mut(LAST_PROGRAM) {
        Some(last) => has_replied(last),
        None => false,
    })
}

/// What a new link answers to a call of each program, one more of the first, and one of the last; then a client comes to the first.
fn told_in_turn<
    R: Threads
        + Net<Listener = TcpListener, Stream = TcpStream>
        + Clock
        + Abort
        + Wait
        + AllocGlobal
        + Copy
        + Drop,
>(rt: R, ports: &[u16]) -> io::Result<Text> {
    let mut link = TcpLink::new(rt);
    let mut all = Text::new(rt.alloc());
    for i in 0..PROGRAMS + 2 {
        let at = if i > PROGRAMS {
            LAST_PROGRAM
        } else {
            i % PROGRAMS
        };
        let port = ports.get(at).copied().unwrap_or(0);
        let request = request_to(rt.alloc(), port, Method::Get)?;
        all.push(told(&mut link, rt.alloc(), &request, 2_000)?.as_str())?;
        all.push(";")?;
    }
    drop(link);
    let first = ports.first().copied().unwrap_or(0);
    TcpStream::connect(&rt, SocketAddrV4::new(Ipv4Addr::LOCALHOST, first))?;
    Ok(all)
}

/// The same where the programs serve so, and whether the last found both its requests on one connection.
fn played_in_turn<
    R: Threads
        + Net<Listener = TcpListener, Stream = TcpStream>
        + Clock
        + Abort
        + Wait
        + AllocGlobal
        + Copy
        + Drop
        + Send
        + Sync,
>(rt: R) -> io::Result<(Text, bool)> {
    let (listeners, ports) = listen_all(&rt)?;
    let (served, answers) = join(
        &rt,
        || serve_in_turn(&rt, listeners.as_slice()),
        || told_in_turn(rt, ports.as_slice()),
    );
    Ok((answers?, served?))
}

#[test]
fn eight_connections_are_kept(rt: HostRuntime) -> Result<(), Fail> {
    let (answers, is_kept) = played_in_turn(rt)?;
    assert_eq!(rt;
        answers.as_str(),
        "200 hi;200 hi;200 hi;200 hi;200 hi;200 hi;200 hi;200 hi;200 hi;200 hi;200 hi;"
    );
    assert!(rt; is_kept);
    Ok(())
}

/// How many bytes a client is answered while another has sent half a request; then the program at this listener goes, and the door is shut.
fn answered_beside_half<
    R: Threads
        + Net<Listener = TcpListener, Stream = TcpStream>
        + Clock
        + Abort
        + Wait
        + AllocGlobal
        + Copy
        + Drop,
>(rt: &R, door: &TcpDoor, listener: TcpListener) -> io::Result<usize> {
    let mut clients = Vec::new(rt.alloc());
    let port = door.port()?;
    add_halves(rt, port, 1, &mut clients)?;
    sleep(rt, Duration::from_millis(SLOW_MS));
    let answered = answered_in_time(rt, port);
    drop(listener);
    door.shut();
    answered
}

/// The same while this worker serves.
fn answered_beside<
    R: Threads
        + Net<Listener = TcpListener, Stream = TcpStream>
        + Clock
        + Abort
        + Wait
        + AllocGlobal
        + Copy
        + Drop
        + Send
        + Sync,
>(
    rt: &R,
    door: &TcpDoor,
    serving: &mut TcpAcceptor<R>,
    listener: TcpListener,
) -> io::Result<usize> {
    let (_, answered) = join(
        rt,
        || serve_to_the_end(serving),
        || answered_beside_half(rt, door, listener),
    );
    answered
}

/// The same while another worker calls a program that says nothing, and what comes of its call.
fn answered_beside_call<
    R: Threads
        + Net<Listener = TcpListener, Stream = TcpStream>
        + Clock
        + Abort
        + Wait
        + AllocGlobal
        + Copy
        + Drop
        + Send
        + Sync,
>(rt: R) -> io::Result<(usize, Text)> {
    let door = TcpDoor::open_within(&rt, 0, patient())?;
    let calling = door.acceptor(rt)?;
    let mut link = door.link(rt, &calling)?;
    let mut serving = door.acceptor(rt)?;
    let (listener, port) = listen(&rt)?;
    let request = request_to(rt.alloc(), port, Method::Get)?;
    let alloc = rt.alloc();
    let (told, answered) = join(
        &rt,
        || told(&mut link, alloc, &request, LONG_MS),
        || answered_beside(&rt, &door, &mut serving, listener),
    );
    Ok((answered?, told?))
}

#[test]
fn a_worker_that_calls_leaves_no_other_to_half_a_request(rt: HostRuntime) -> Result<(), Fail> {
    let (answered, told) = answered_beside_call(rt)?;
    assert_eq!(rt; answered, 6);
    assert_eq!(rt; told.as_str(), "the call failed");
    Ok(())
}

/// Has a worker leave its door soon.
fn leave_soon<
    R: Threads
        + Net<Listener = TcpListener, Stream = TcpStream>
        + Clock
        + Abort
        + Wait
        + AllocGlobal
        + Copy
        + Drop,
>(rt: &R, leaving: &mut TcpAcceptor<R>) {
    sleep(rt, Duration::from_millis(SHORT_MS));
    leaving.leave();
}

/// What comes of a call without a limit to a program that says nothing, while another worker leaves.
fn told_while_all_leave<
    R: Threads
        + Net<Listener = TcpListener, Stream = TcpStream>
        + Clock
        + Abort
        + Wait
        + AllocGlobal
        + Copy
        + Drop
        + Send
        + Sync,
>(rt: R) -> io::Result<Text> {
    let door = TcpDoor::open(&rt, 0)?;
    let calling = door.acceptor(rt)?;
    let mut link = door.link(rt, &calling)?;
    let mut leaving = door.acceptor(rt)?;
    let (_listener, port) = listen(&rt)?;
    let request = request_to(rt.alloc(), port, Method::Get)?;
    let alloc = rt.alloc();
    let (told, _) = join(
        &rt,
        || told(&mut link, alloc, &request, 0),
        || leave_soon(&rt, &mut leaving),
    );
    Ok(told?)
}

// A call without a limit lasts as long as a test may.
#[test]
fn a_call_expires_once_all_workers_leave(rt: HostRuntime) -> Result<(), Fail> {
    let told = told_while_all_leave(rt)?;
    assert_eq!(rt; told.as_str(), "the call expired");
    Ok(())
}
