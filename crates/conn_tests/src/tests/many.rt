use super::{Session, message, single_bytes};
use conn_serve::Buffers;
use side_base::{Blob, NoMemory};
use side_memory::Sizes;
use std::alloc::Global;
use std::test::Fail;

/// A text so many times.
fn repeated(alloc: Global, text: &str, count: usize) -> Result<Blob, NoMemory> {
    let once = message(alloc, text)?;
    let mut bytes = Blob::new(alloc);
    for _ in 0..count {
        bytes.push(once.bytes())?;
    }
    Ok(bytes)
}

/// So many requests on one connection, whose responses are these bytes.
fn pipeline(
    alloc: Global,
    ended: &'static str,
    count: usize,
    output: Blob,
) -> Result<Session<'static>, NoMemory> {
    Ok(Session {
        ended,
        failing_reads: "",
        writes: "",
        failing_writes: "",
        input: repeated(alloc, "GET /ok HTTP/1.1;Host: a;;", count)?,
        output,
    })
}

/// A request whose response has more than 64 KiB, and a short one that comes with its end; the second write fails.
fn long_then_short(alloc: Global) -> Result<Session<'static>, NoMemory> {
    let content = repeated(alloc, "x", 70_000)?;
    let mut input = message(alloc, "POST /echo HTTP/1.1;Host: a;Content-Length: 70000;;")?;
    input.push(content.bytes())?;
    input.push(b"GET /ok HTTP/1.1\r\nHost: a\r\n\r\n")?;
    let mut output = message(alloc, "HTTP/1.1 200 OK;Content-Length: 70000;;")?;
    output.push(content.bytes())?;
    Ok(Session {
        ended: "SinkFailed",
        failing_reads: "",
        writes: "",
        failing_writes: "1",
        input,
        output,
    })
}

#[test]
fn long_responses_are_not_gathered(rt: HostRuntime) -> Result<(), Fail> {
    let alloc = rt.alloc();
    let session = long_then_short(alloc)?;
    let mut buffers = Buffers::new(alloc);
    Ok(session.plays(&rt, alloc, &mut buffers, Sizes::new(alloc))?)
}

#[test]
fn a_pipeline_is_answered_in_one_piece_and_byte_by_byte(rt: HostRuntime) -> Result<(), Fail> {
    let alloc = rt.alloc();
    let output = repeated(alloc, "HTTP/1.1 204 No Content;;", 1_000)?;
    let session = pipeline(alloc, "Done", 1_000, output)?;
    let mut buffers = Buffers::new(alloc);
    session.plays(&rt, alloc, &mut buffers, Sizes::new(alloc))?;
    Ok(session.plays(&rt, alloc, &mut buffers, single_bytes(alloc, 29_000)?)?)
}

// The 100,000th request is the last one that is answered, and its response says so.
#[test]
fn a_connection_has_at_most_100_000_requests(rt: HostRuntime) -> Result<(), Fail> {
    let alloc = rt.alloc();
    let mut output = repeated(alloc, "HTTP/1.1 204 No Content;;", 99_999)?;
    output.push(message(alloc, "HTTP/1.1 204 No Content;Connection: close;;")?.bytes())?;
    let session = pipeline(alloc, "Limit", 100_001, output)?;
    let mut buffers = Buffers::new(alloc);
    Ok(session.plays(&rt, alloc, &mut buffers, Sizes::new(alloc))?)
}
