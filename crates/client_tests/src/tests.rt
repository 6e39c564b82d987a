use http_client::{AskErr, Reply, ReplyErr, ask, prepare, read_reply};
use side_base::{Blob, Field, Fields, LinkRequest, Method, NoMemory, Sequence, Text};
use side_world::{BytesSource, Failed, Sink, Source};
use std::alloc::Global;
use std::test::Fail;

/// A reply as a text: its status, the names of its fields, and its content; `+` before it says that its connection may be used again.
fn spelled(alloc: Global, reply: &Reply) -> Result<Text, NoMemory> {
    let response = &reply.response;
    let sign = if reply.persists { "+" } else { "" };
    let mut text = Text::from_string(format!(in alloc; "{sign}{}", response.status)?);
    for i in 0..response.fields.len() {
        text.push(" ")?;
        text.push(response.fields.at(i).name.as_str())?;
    }
    text.push(": ")?;
    text.push(str::from_utf8(response.body.bytes()).unwrap_or("?"))?;
    Ok(text)
}

/// The reply that these bytes are, as a text.
fn told(alloc: Global, bytes: &[u8], to_head: bool) -> Result<Text, ReplyErr> {
    let source = BytesSource::new(Blob::from_bytes(alloc, bytes)?);
    let (reply, _) = read_reply(alloc, source, to_head);
    Ok(spelled(alloc, &reply?)?)
}

/// A source in memory whose bytes come one at a time.
#[derive(Drop)]
struct OneByOne {
    bytes: BytesSource,
}

impl Source for OneByOne {
    ghost use Rattle.std.specs.Prelude.{Some};

    ghost left = { λ s. Some s.bytes.left };

    ghost taken = { λ s. Some s.bytes.taken };

    ghost earlier = { λ s. Some s.bytes.earlier };

    ghost ended = { λ s. s.bytes.ended };

    ghost faults = { λ _. 0 };

    fn read(&mut self, into: &mut [u8]) -> Result<usize, Failed> {
        self.bytes.read(&mut into[..1])
    }
}

/// The reply that these bytes are, which come one at a time, as a text.
fn told_one_by_one(alloc: Global, bytes: &[u8]) -> Result<Text, ReplyErr> {
    let source = OneByOne {
        bytes: BytesSource::new(Blob::from_bytes(alloc, bytes)?),
    };
    let (reply, _) = read_reply(alloc, source, false);
    Ok(spelled(alloc, &reply?)?)
}

/// Whether the text is read as this reply; an empty one is for a text that is no reply.
fn is(alloc: Global, text: &str, wanted: &str) -> bool {
    match told(alloc, text.as_bytes(), false) {
        Ok(found) => found.as_str() == wanted,
        Err(error) => error == ReplyErr::Bad && wanted.is_empty(),
    }
}

#[test]
fn replies_are_read(rt: HostRuntime) -> Result<(), Fail> {
    let replies = [
        (
            "HTTP/1.1 200 OK\r\nContent-Length: 2\r\n\r\nhi and more",
            "200: hi",
        ),
        ("HTTP/1.1 200 OK\r\nContent-Length: 2\r\n\r\nhi", "+200: hi"),
        (
            "HTTP/1.0 200 OK\r\nConnection: keep-alive\r\nContent-Length: 2\r\n\r\nhi",
            "200: hi",
        ),
        (
            "HTTP/1.1 200 OK\r\nConnection: x\r\nConnection: y, CLOSE\r\nContent-Length: 2\r\n\r\nhi",
            "200: hi",
        ),
        (
            "HTTP/1.1 200 OK\r\nConnection: closed\r\nContent-Length: 2\r\n\r\nhi",
            "+200: hi",
        ),
        ("HTTP/1.1 200 OK\r\n\r\nhi", "200: hi"),
        (
            "HTTP/1.1 201 Created\r\nETag: a\r\nTransfer-Encoding: Chunked\r\nDate: b\r\n\r\n2\r\nhi\r\nB;x=y\r\n, all there\r\n0\r\nA: b\r\n\r\n",
            "+201 ETag Date: hi, all there",
        ),
        (
            "HTTP/1.0 404 Not Found\r\nServer: x\r\n\r\nto the end",
            "404 Server: to the end",
        ),
        (
            "HTTP/1.1 100 Continue\r\n\r\nHTTP/1.1 103 Early Hints\r\nLink: x\r\n\r\nHTTP/1.1 200 OK\r\nContent-Length: 1\r\n\r\nx",
            "+200: x",
        ),
        (
            "HTTP/1.1 103 Early Hints\r\nConnection: x, close\r\n\r\nHTTP/1.1 100 Continue\r\n\r\nHTTP/1.1 200 OK\r\nContent-Length: 1\r\n\r\nx",
            "200: x",
        ),
        (
            "HTTP/1.1 204 No Content\r\nContent-Length: 2\r\n\r\nhi",
            "204: ",
        ),
        (
            "HTTP/1.1 304 Not Modified\r\nETag: a\r\nTransfer-Encoding: gzip\r\n\r\n",
            "+304 ETag: ",
        ),
        (
            "HTTP/1.1 599 Own\r\nConnection: X-Hop, close\r\nKeep-Alive: a\r\nx-hop: b\r\nProxy-Connection: c\r\nTE: d\r\nTrailer: e\r\nUpgrade: f\r\nVia: g\r\nContent-Length: 0\r\n\r\n",
            "599 Via: ",
        ),
    ];
    for (text, wanted) in replies {
        assert!(rt; is(rt.alloc(), text, wanted), "{text}");
    }
    Ok(())
}

#[test]
fn what_is_no_reply_is_refused(rt: HostRuntime) -> Result<(), Fail> {
    let texts = [
        "",
        "garbage\r\n\r\n",
        "HTTP/1.1 200 OK\r\nContent-Length: 2\r\n",
        "HTTP/1.1 200 OK\r\nContent-Length: 2\r\n\r\nh",
        "HTTP/1.1 200 OK\r\nContent-Length: 4194305\r\n\r\n",
        "HTTP/1.1 200 OK\r\nContent-Length: 2\r\nContent-Length: 2\r\n\r\nhi",
        "HTTP/1.1 200 OK\r\nContent-Length: +2\r\n\r\nhi",
        "HTTP/1.1 200 OK\r\nContent-Length: 2\r\nTransfer-Encoding: chunked\r\n\r\n0\r\n\r\n",
        "HTTP/1.1 200 OK\r\nTransfer-Encoding: gzip, chunked\r\n\r\n0\r\n\r\n",
        "HTTP/1.0 200 OK\r\nTransfer-Encoding: chunked\r\n\r\n0\r\n\r\n",
        "HTTP/1.1 200 OK\r\nTransfer-Encoding: chunked\r\n\r\n2\r\nhi",
        "HTTP/1.1 200 OK\r\nTransfer-Encoding: chunked\r\n\r\n2\r\nhixx0\r\n\r\n",
        "HTTP/1.1 200 OK\r\nTransfer-Encoding: chunked\r\n\r\n400001\r\n",
        "HTTP/1.1 200 OK\r\nTransfer-Encoding: chunked\r\n\r\n0\r\nA: b\r\n",
        "HTTP/1.1 101 Switching Protocols\r\n\r\nHTTP/1.1 200 OK\r\n\r\n",
        "HTTP/1.1 600 Unknown\r\n\r\n",
        "HTTP/1.1 099 Unknown\r\n\r\n",
        "HTTP/1.1 100 Continue\r\n\r\n",
    ];
    for text in texts {
        assert!(rt; is(rt.alloc(), text, ""), "{text}");
    }
    Ok(())
}

#[test]
fn a_reply_to_head_has_no_content(rt: HostRuntime) -> Result<(), Fail> {
    let text = b"HTTP/1.1 200 OK\r\nContent-Length: 2\r\n\r\n";
    let reply = told(rt.alloc(), text, true)?;
    assert_eq!(rt; reply.as_str(), "+200: ");
    Ok(())
}

#[test]
fn a_reply_may_come_byte_by_byte(rt: HostRuntime) -> Result<(), Fail> {
    let text =
        b"HTTP/1.1 100 Continue\n\nHTTP/1.1 200 OK\r\nA: b\nTransfer-Encoding: chunked\r\n\r\n2\r\nhi\r\n0\r\nC: d\r\n\r\n";
    let reply = told_one_by_one(rt.alloc(), text)?;
    assert_eq!(rt; reply.as_str(), "+200 A: hi");
    let text = b"HTTP/1.1 200 OK\r\nA b\r\n\r\n";
    let refused = told_one_by_one(rt.alloc(), text).err();
    assert_eq!(rt; refused, Some(ReplyErr::Bad));
    Ok(())
}

/// The length of content of so many bytes to the end of the input, as it is read.
fn read_to_the_end(alloc: Global, len: usize) -> Result<usize, ReplyErr> {
    let content: Vec<u8> = vec![in alloc; b'x'; len]?;
    let mut bytes = Blob::from_bytes(alloc, b"HTTP/1.1 200 OK\r\n\r\n")?;
    bytes.push(content.as_slice())?;
    let (reply, _) = read_reply(alloc, BytesSource::new(bytes), false);
    Ok(reply?.response.body.len())
}

#[test]
fn content_has_at_most_4_mib(rt: HostRuntime) -> Result<(), Fail> {
    assert_eq!(rt; read_to_the_end(rt.alloc(), 4_194_304), Ok(4_194_304));
    assert_eq!(rt; read_to_the_end(rt.alloc(), 4_194_305), Err(ReplyErr::Bad));
    Ok(())
}

/// The reply in chunks behind which so many trailers of six bytes come, as a text.
fn read_trailers(alloc: Global, count: usize) -> Result<Text, ReplyErr> {
    let mut bytes = Blob::from_bytes(
        alloc,
        b"HTTP/1.1 200 OK\r\nTransfer-Encoding: chunked\r\n\r\n2\r\nhi\r\n0\r\n",
    )?;
    for _ in 0..count {
        bytes.push(b"A: b\r\n")?;
    }
    bytes.push(b"\r\n")?;
    let (reply, _) = read_reply(alloc, BytesSource::new(bytes), false);
    Ok(spelled(alloc, &reply?)?)
}

#[test]
fn trailers_have_at_most_16_kib(rt: HostRuntime) -> Result<(), Fail> {
    let reply = read_trailers(rt.alloc(), 2730)?;
    assert_eq!(rt; reply.as_str(), "+200: hi");
    assert!(rt; read_trailers(rt.alloc(), 2731).is_err());
    Ok(())
}

/// Fields of which only the first is not the link's to say.
fn some_fields(alloc: Global) -> Result<Fields, NoMemory> {
    let mut fields = Sequence::new(alloc);
    let all = [
        ("Accept", "*/*"),
        ("host", "another"),
        ("Connection", "close"),
        ("keep-alive", "max=1"),
        ("Proxy-Connection", "close"),
        ("TE", "trailers"),
        ("Trailer", "A"),
        ("Transfer-Encoding", "chunked"),
        ("UPGRADE", "h2c"),
        ("Content-Length", "1"),
    ];
    for (name, value) in all {
        fields.push(Field {
            name: Text::from_static(alloc, name),
            value: Blob::from_bytes(alloc, value.as_bytes())?,
        })?;
    }
    Ok(fields)
}

/// A request to this port.
fn request_to(
    alloc: Global,
    port: u16,
    method: Method,
    target: &str,
) -> Result<LinkRequest, NoMemory> {
    Ok(LinkRequest {
        host: Text::from_static(alloc, "127.0.0.1"),
        port,
        method,
        target: Blob::from_bytes(alloc, target.as_bytes())?,
        fields: some_fields(alloc)?,
        body: Blob::new(alloc),
    })
}

/// A sink in memory that fails at a write of this number, counted from 0, and keeps how often it was written to.
#[derive(Drop)]
struct Counted {
    bytes: Blob,
    writes: usize,
    fails_at: usize,
    faults: u64,
}

impl Sink for Counted {
    ghost use Rattle.std.specs.Prelude.{None};

    ghost contents = { λ _. None };

    ghost faults = { λ s. s.faults };

    fn write(&mut self, piece: &[u8]) -> Result<usize, Failed> {
        let fails = self.writes == self.fails_at;
        self.writes = self.writes.saturating_add(1);
        if fails || self.bytes.push(piece).is_err() {
            self.faults = self.faults.saturating_add(1);
            return Err(Failed);
        }
        Ok(piece.len())
    }
}

/// A sink that fails at the write of this number.
fn failing_at(alloc: Global, fails_at: usize) -> Counted {
    Counted {
        bytes: Blob::new(alloc),
        writes: 0,
        fails_at,
        faults: 0,
    }
}

/// What a request is answered where its peer sends these bytes, which are a text; none where it may not be sent.
fn asked(
    alloc: Global,
    request: &LinkRequest,
    sink: &mut Counted,
    reply: &str,
) -> Result<Option<Result<Reply, AskErr>>, NoMemory> {
    let source = BytesSource::new(Blob::from_bytes(alloc, reply.as_bytes())?);
    match prepare(alloc, request)? {
        Some(ready) => {
            let (answer, _) = ask(alloc, &ready, request, source, sink);
            Ok(Some(answer))
        }
        None => Ok(None),
    }
}

/// A reply.
const HI: &str = "HTTP/1.1 200 OK\r\nContent-Length: 2\r\n\r\nhi";

/// Whether this is sent for a request, and answered; an empty text is for nothing.
fn sends(alloc: Global, method: Method, target: &str, wanted: &str) -> Result<bool, NoMemory> {
    let request = request_to(alloc, 80, method, target)?;
    let mut sink = failing_at(alloc, usize::MAX);
    let is_answered = matches!(asked(alloc, &request, &mut sink, HI)?, Some(Ok(_)));
    Ok(sink.bytes.bytes() == wanted.as_bytes() && is_answered != wanted.is_empty())
}

#[test]
fn requests_are_written(rt: HostRuntime) -> Result<(), Fail> {
    let requests = [
        (
            Method::Get,
            "/do?x=1",
            "GET /do?x=1 HTTP/1.1\r\nHost: 127.0.0.1:80\r\nAccept: */*\r\n\r\n",
        ),
        (
            Method::Put,
            "/",
            "PUT / HTTP/1.1\r\nHost: 127.0.0.1:80\r\nAccept: */*\r\nContent-Length: 0\r\n\r\n",
        ),
        (Method::Other, "/", ""),
        (Method::Get, "/ HTTP/1.1\r\n\r\nGET /", ""),
        (Method::Get, "", ""),
    ];
    for (method, target, wanted) in requests {
        assert!(rt; sends(rt.alloc(), method, target, wanted)?, "{target}");
    }
    Ok(())
}

/// How many writes a request with content of so many bytes takes, and how many bytes they have, where that of this number fails; and what
/// is answered then.
fn written(
    alloc: Global,
    len: usize,
    fails_at: usize,
) -> Result<(usize, usize, Option<AskErr>), NoMemory> {
    let content: Vec<u8> = vec![in alloc; b'x'; len]?;
    let mut request = request_to(alloc, 80, Method::Post, "/")?;
    request.body.push(content.as_slice())?;
    let mut sink = failing_at(alloc, fails_at);
    let answer = match asked(alloc, &request, &mut sink, HI)? {
        Some(answer) => answer.err(),
        None => None,
    };
    Ok((sink.writes, sink.bytes.len(), answer))
}

#[test]
fn a_request_goes_out_by_one_write_or_two(rt: HostRuntime) -> Result<(), Fail> {
    let alloc = rt.alloc();
    // The head has 71 bytes, and one with a number of five digits 75.
    assert_eq!(rt; written(alloc, 0, usize::MAX)?, (1, 71, None));
    assert_eq!(rt; written(alloc, 16_309, usize::MAX)?, (1, 16_384, None));
    assert_eq!(rt; written(alloc, 16_310, usize::MAX)?, (2, 16_385, None));
    Ok(())
}

#[test]
fn a_request_that_fails_is_not_sent_again(rt: HostRuntime) -> Result<(), Fail> {
    let alloc = rt.alloc();
    assert_eq!(rt; written(alloc, 0, 0)?, (1, 0, Some(AskErr::Unsent)));
    assert_eq!(rt; written(alloc, 16_310, 1)?, (2, 75, Some(AskErr::Unsent)));
    Ok(())
}
