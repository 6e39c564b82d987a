//! What is measured of requests, and written as lines of standard error.
use crate::rows::{PARTS, Part, ROWS, Row, is_wanted, together};
use crate::work::{Desk, count_framed, count_heads, response};
use api_routes::Routers;
use http_frames::Framer;
use httparse::spans::EMPTY_HEADER_SPAN;
use side_base::Blob;
use std::alloc::Global;
use std::io;
use std::rt::Clock;

/// Reads the heads of a piece so many times, and answers how many there were.
fn heads(piece: &[u8], behind: usize, times: u32) -> u64 {
    let mut headers = [EMPTY_HEADER_SPAN; 64];
    let mut done: u64 = 0;
    for _ in 0..times {
        done = done.saturating_add(count_heads(piece, behind, &mut headers));
    }
    done
}

/// Does a part of the work with a piece so many times, and answers with how many requests it was done.
fn frames(desk: Desk<'_>, part: Part, piece: &[u8], times: u32) -> u64 {
    let mut framer = Framer::new(desk.alloc);
    let mut out = Blob::new(desk.alloc);
    let mut done: u64 = 0;
    for _ in 0..times {
        done = done.saturating_add(count_framed(desk, part, &mut framer, &mut out, piece));
    }
    done
}

/// With how many requests a part of the work was done, of a piece that comes so many times.
fn work(desk: Desk<'_>, part: Part, piece: &[u8], behind: usize, times: u32) -> u64 {
    if part.is_framed {
        frames(desk, part, piece, times)
    } else {
        heads(piece, behind, times)
    }
}

/// What is measured: rows and parts of these names, or of all where there is none, and so many requests of each.
#[derive(Clone, Copy)]
struct Wanted<'a> {
    words: &'a [String],
    requests: u32,
}

/// What a clock shows, in nanoseconds; 0 where it fails.
fn now<R: Clock>(rt: &R) -> u64 {
    match rt.monotonic() {
        Ok(time) => u64::try_from(time.as_nanos()).unwrap_or(u64::MAX),
        Err(_) => 0,
    }
}

/// Measures a part of a row, and writes what a request costs; those that come together are these bytes.
fn tell_part<R: Clock + Eprint>(
    rt: &R,
    desk: Desk<'_>,
    row: &Row,
    part: &Part,
    piece: &[u8],
    requests: u32,
) -> io::Result<()> {
    let times = requests / row.group.max(1);
    let begin = now(rt);
    let done = work(desk, *part, piece, row.content, times);
    let each = now(rt).saturating_sub(begin) / done.max(1);
    let (whole, rest) = (each / 1000, each % 1000);
    let (row, part) = (row.name, part.name);
    eprintln!(rt; "{row}, {part}: {whole}.{rest:03} microseconds a request; {done} requests")
}

fn tell_parts<R: Clock + Eprint>(
    rt: &R,
    desk: Desk<'_>,
    row: &Row,
    parts: &[Part],
    piece: &[u8],
    wanted: Wanted<'_>,
) -> io::Result<()> {
    for part in parts {
        if is_wanted(wanted.words, 3, part.name) {
            tell_part(rt, desk, row, part, piece, wanted.requests)?;
        }
    }
    Ok(())
}

fn tell_row<R: Clock + Eprint>(
    rt: &R,
    desk: Desk<'_>,
    row: &Row,
    wanted: Wanted<'_>,
) -> io::Result<()> {
    let piece = together(desk.alloc, row)?;
    tell_parts(rt, desk, row, PARTS, &piece, wanted)
}

fn tell_rows<R: Clock + Eprint>(
    rt: &R,
    desk: Desk<'_>,
    rows: &[Row],
    wanted: Wanted<'_>,
) -> io::Result<()> {
    for row in rows {
        if is_wanted(wanted.words, 2, row.name) {
            tell_row(rt, desk, row, wanted)?;
        }
    }
    Ok(())
}

/// Measures with a response of its own.
fn tell_with<R: Clock + Eprint>(
    rt: &R,
    alloc: Global,
    routers: &Routers,
    wanted: Wanted<'_>,
) -> io::Result<()> {
    let response = response(alloc)?;
    let desk = Desk {
        alloc,
        routers,
        response: &response,
    };
    tell_rows(rt, desk, ROWS, wanted)
}

/// Measures so many requests of each row and part that the words name, or of all where there is none.
pub(crate) fn tell_all<R: Clock + Eprint>(
    rt: &R,
    alloc: Global,
    words: &[String],
    requests: u32,
) -> io::Result<()> {
    let routers = Routers::new(alloc)?;
    tell_with(rt, alloc, &routers, Wanted { words, requests })
}
