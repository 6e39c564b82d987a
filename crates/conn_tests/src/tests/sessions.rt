use super::{Session, list, message};
use conn_serve::Buffers;
use side_base::NoMemory;
use std::alloc::Global;
use std::process::Abort;
use std::sync::Wait;
use std::test::Fail;

// A line: the end, how many bytes the reads give, the reads that fail, how many bytes the writes take, the writes that fail, the
// bytes that come in and those that go out. Where `*` stands for the reads, the session is played byte by byte and cut at each
// place into two pieces. `-` is an empty list, and a semicolon is CR LF. A line that begins with `#` says what those below it show.

/// Sessions that are the same however they are cut, whatever the writes take.
const ENDS: &str = "\
# nothing comes
Done|*|-|-|-||
# one request, and one with content
Done|*|-|1,2,3|-|GET /ok HTTP/1.1;Host: a;;|HTTP/1.1 204 No Content;;
Done|*|-|1,2,3|-|POST /echo HTTP/1.1;Host: a;Content-Length: 3;;abc|HTTP/1.1 200 OK;Content-Length: 3;;abc
# content in chunks, in a pipeline with a HEAD, whose response has no content
Done|*|-|7|-|PUT /echo HTTP/1.1;Host: a;Transfer-Encoding: chunked;;3;abc;2;de;0;;\
HEAD /echo HTTP/1.1;Host: a;Content-Length: 3;;xyz\
GET /ok HTTP/1.1;Host: a;;|\
HTTP/1.1 200 OK;Content-Length: 5;;abcde\
HTTP/1.1 200 OK;Content-Length: 3;;\
HTTP/1.1 204 No Content;;
# content that is asked for, whether or not it came with its head; an empty one is not
Done|*|-|-|-|POST /echo HTTP/1.1;Host: a;Expect: 100-Continue;Content-Length: 2;;hiGET /ok HTTP/1.1;Host: a;;|\
HTTP/1.1 100 Continue;;HTTP/1.1 200 OK;Content-Length: 2;;hiHTTP/1.1 204 No Content;;
Done|*|-|-|-|POST /echo HTTP/1.1;Host: a;Expect: 100-continue;Content-Length: 0;;|HTTP/1.1 200 OK;Content-Length: 0;;
# a request that closes, and one of HTTP/1.0: what comes behind it is not answered
Closed|*|-|1,2,3|-|GET /ok HTTP/1.1;Host: a;;GET /ok HTTP/1.1;Host: a;Connection: Close;;GET /ok HTTP/1.1;Host: a;;|\
HTTP/1.1 204 No Content;;HTTP/1.1 204 No Content;Connection: close;;
Closed|*|-|-|-|POST /echo HTTP/1.0;Content-Length: 1;;xGET /ok HTTP/1.1;Host: a;;|\
HTTP/1.1 200 OK;Content-Length: 1;Connection: close;;x
# a shutdown, also one that closes
Asked|*|-|1,2,3|-|POST /v1.0/shutdown HTTP/1.1;Host: a;;GET /ok HTTP/1.1;Host: a;;|\
HTTP/1.1 204 No Content;Connection: close;;
Asked|*|-|-|-|POST /v1.0/shutdown HTTP/1.0;;|HTTP/1.1 204 No Content;Connection: close;;
# another method than POST is no shutdown
Done|*|-|-|-|GET /v1.0/shutdown HTTP/1.1;Host: a;;|HTTP/1.1 204 No Content;;
# the input ends in a head, in content, and in content that was asked for
ClosedByPeer|*|-|-|-|GET /ok HTTP/1.1;Host: a;;GET /ok HTT|HTTP/1.1 204 No Content;;
ClosedByPeer|*|-|-|-|POST /echo HTTP/1.1;Host: a;Content-Length: 3;;ab|
ClosedByPeer|*|-|-|-|POST /echo HTTP/1.1;Host: a;Expect: 100-continue;Content-Length: 3;;ab|HTTP/1.1 100 Continue;;
# bytes that are refused, by their head and by their content
Refused(BothLengths)|*|-|1,2,3|-|GET /ok HTTP/1.1;Host: a;;\
POST /echo HTTP/1.1;Host: a;Content-Length: 5;Transfer-Encoding: chunked;;GET /ok HTTP/1.1;Host: a;;|\
HTTP/1.1 204 No Content;;\
HTTP/1.1 400 Bad Request;Content-Type: application/json;Content-Length: 55;Connection: close;;\
{\"errorCode\":\"ERR_BAD_REQUEST\",\"message\":\"BothLengths\"}
Refused(Coding)|*|-|-|-|POST /echo HTTP/1.1;Host: a;Content-Encoding: gzip;Content-Length: 1;;x|\
HTTP/1.1 415 Unsupported Media Type;Content-Type: application/json;Content-Length: 50;Connection: close;;\
{\"errorCode\":\"ERR_BAD_REQUEST\",\"message\":\"Coding\"}
Refused(BadChunk)|*|-|-|-|POST /echo HTTP/1.1;Host: a;Expect: 100-continue;Transfer-Encoding: chunked;;zz;|\
HTTP/1.1 100 Continue;;\
HTTP/1.1 400 Bad Request;Content-Type: application/json;Content-Length: 52;Connection: close;;\
{\"errorCode\":\"ERR_BAD_REQUEST\",\"message\":\"BadChunk\"}
# a cell that has no ticket left
Spent { count: 4611686018427387904 }|*|-|1,2,3|-|GET /ok HTTP/1.1;Host: a;;\
POST /spent HTTP/1.1;Host: a;Expect: 100-continue;Content-Length: 1;;xGET /ok HTTP/1.1;Host: a;;|\
HTTP/1.1 204 No Content;;HTTP/1.1 100 Continue;;\
HTTP/1.1 500 Internal Server Error;Content-Type: application/json;Content-Length: 63;Connection: close;;\
{\"errorCode\":\"ERR_SPENT\",\"message\":\"calls 4611686018427387904\"}
Spent { count: 4611686018427387904 }|*|-|-|-|HEAD /spent HTTP/1.1;Host: a;;|\
HTTP/1.1 500 Internal Server Error;Content-Type: application/json;Content-Length: 63;Connection: close;;
# want of memory
NoMemory|*|-|1,2,3|-|GET /ok HTTP/1.1;Host: a;;GET /none HTTP/1.1;Host: a;;GET /ok HTTP/1.1;Host: a;;|\
HTTP/1.1 204 No Content;;\
HTTP/1.1 503 Service Unavailable;Content-Type: application/json;Content-Length: 52;Connection: close;;\
{\"errorCode\":\"ERR_NO_MEMORY\",\"message\":\"no memory\"} ";

/// Sessions in which a read or a write fails.
const FAULTS: &str = "\
# each read in turn, where each gives a request
SourceFailed|29,29|0|-|-|GET /ok HTTP/1.1;Host: a;;GET /ok HTTP/1.1;Host: a;;|
SourceFailed|29,29|1|-|-|GET /ok HTTP/1.1;Host: a;;GET /ok HTTP/1.1;Host: a;;|HTTP/1.1 204 No Content;;
SourceFailed|29,29|2|-|-|GET /ok HTTP/1.1;Host: a;;GET /ok HTTP/1.1;Host: a;;|HTTP/1.1 204 No Content;;HTTP/1.1 204 No Content;;
# in a head, and behind one that asks for its content
SourceFailed|9|1|-|-|GET /ok HTTP/1.1;Host: a;;|
SourceFailed|73|1|-|-|POST /echo HTTP/1.1;Host: a;Expect: 100-continue;Content-Length: 3;;abc|HTTP/1.1 100 Continue;;
# each write in turn, where each takes a response
SinkFailed|29,29|-|-|0|GET /ok HTTP/1.1;Host: a;;GET /ok HTTP/1.1;Host: a;;|
SinkFailed|29,29|-|-|1|GET /ok HTTP/1.1;Host: a;;GET /ok HTTP/1.1;Host: a;;|HTTP/1.1 204 No Content;;
# inside a response, and inside two that are sent together
SinkFailed|-|-|5|1|GET /ok HTTP/1.1;Host: a;;|HTTP/
SinkFailed|-|-|30|1|GET /ok HTTP/1.1;Host: a;;GET /ok HTTP/1.1;Host: a;;|HTTP/1.1 204 No Content;;HTT
# the response with which a session ends
SinkFailed|-|-|-|0|GET /ok HTTP/1.0;;|
SinkFailed|-|-|8|1|POST /v1.0/shutdown HTTP/1.1;Host: a;;|HTTP/1.1
SinkFailed|-|-|8|1|GET /ok HTTP/1.1;;|HTTP/1.1
SinkFailed|-|-|8|1|GET /spent HTTP/1.1;Host: a;;|HTTP/1.1
SinkFailed|-|-|-|0|GET /none HTTP/1.1;Host: a;;|
SinkFailed|-|-|-|1|GET /ok HTTP/1.1;Host: a;;GET /none HTTP/1.1;Host: a;;|HTTP/1.1 204 No Content;;
# the request for content
SinkFailed|73|-|-|0|POST /echo HTTP/1.1;Host: a;Expect: 100-continue;Content-Length: 3;;abc|
SinkFailed|73|-|-|1|POST /echo HTTP/1.1;Host: a;Expect: 100-continue;Content-Length: 3;;abc|HTTP/1.1 100 Continue;;";

/// What stands before the first bar of a text, and what stands behind it.
fn cut(text: &str) -> (&str, &str) {
    text.split_once('|').unwrap_or((text, ""))
}

/// Plays the session of a line.
fn plays_line<R: Abort + Wait>(
    rt: &R,
    alloc: Global,
    buffers: &mut Buffers,
    line: &str,
) -> Result<(), NoMemory> {
    let (ended, rest) = cut(line);
    let (reads, rest) = cut(rest);
    let (failing_reads, rest) = cut(rest);
    let (writes, rest) = cut(rest);
    let (failing_writes, rest) = cut(rest);
    let (input, output) = cut(rest);
    let session = Session {
        ended,
        failing_reads,
        writes,
        failing_writes,
        input: message(alloc, input)?,
        output: message(alloc, output)?,
    };
    if reads == "*" {
        return session.plays_however_cut(rt, alloc, buffers);
    }
    session.plays(rt, alloc, buffers, list(alloc, reads)?)
}

/// Plays a text, whose sessions have the same buffers one after the other.
fn plays<R: Abort + Wait>(rt: &R, alloc: Global, text: &str) -> Result<(), NoMemory> {
    let mut buffers = Buffers::new(alloc);
    for line in text.lines() {
        if !line.starts_with('#') {
            plays_line(rt, alloc, &mut buffers, line)?;
        }
    }
    Ok(())
}

#[test]
fn sessions_end_as_they_must_however_they_are_cut(rt: HostRuntime) -> Result<(), Fail> {
    Ok(plays(&rt, rt.alloc(), ENDS)?)
}

#[test]
fn a_fault_leaves_what_was_answered_before(rt: HostRuntime) -> Result<(), Fail> {
    Ok(plays(&rt, rt.alloc(), FAULTS)?)
}
