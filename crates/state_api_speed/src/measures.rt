//! What is measured, and written as lines of standard error.
ghost use Rattle.state_api.specs.Response.{IsCut};

use crate::asked::{Kind, asked, request};
use crate::replied::ran_of;
use side_base::{Blob, NoMemory, Request, Text};
use state_api::response;
use state_core::{Cmd, Prefix};
use std::alloc::Global;
use std::io::{self, ErrorKind};
use std::rt::Clock;
use std::time::Instant;

/// What is made again and again.
#[derive(Clone, Copy)]
pub enum Part {
    /// A command of a request.
    Command,
    /// A reply alone.
    Reply,
    /// A reply, and a response of it.
    Response,
}

/// A row of what is measured.
#[derive(Clone, Copy)]
pub struct Row {
    pub name: &'static str,
    pub part: Part,
    pub kind: Kind,
}

/// An error of what can't be measured.
fn unfit() -> io::Error {
    io::Error::from(ErrorKind::InvalidData)
}

/// Makes a command so often.
fn commands(
    alloc: Global,
    kind: Kind,
    request: &Request,
    prefix: &Prefix,
    times: u32,
) -> io::Result<()> {
    for _ in 0..times {
        if asked(alloc, kind, request, prefix).is_err() {
            return Err(unfit());
        }
    }
    Ok(())
}

/// Makes a reply so often.
fn replies(alloc: Global, cmd: &Cmd, value: &Blob, times: u32) -> Result<(), NoMemory> {
    for _ in 0..times {
        ran_of(alloc, cmd, value)?;
    }
    Ok(())
}

/// Makes a reply and its response so often.
fn responses(alloc: Global, cmd: &Cmd, value: &Blob, times: u32) -> Result<(), NoMemory>
    requires { IsCut cmd.now }
{
    for _ in 0..times {
        response(alloc, cmd, ran_of(alloc, cmd, value)?)?;
    }
    Ok(())
}

/// A value of 100 bytes.
fn value(alloc: Global) -> Result<Blob, NoMemory> {
    let mut value = Blob::new(alloc);
    value.push(b"\"")?;
    for _ in 0..98 {
        value.push(b"x")?;
    }
    value.push(b"\"")?;
    Ok(value)
}

fn made(
    alloc: Global,
    row: Row,
    request: &Request,
    prefix: &Prefix,
    value: &Blob,
    times: u32,
) -> io::Result<()> {
    match asked(alloc, row.kind, request, prefix) {
        Ok(cmd) => match row.part {
            Part::Command => commands(alloc, row.kind, request, prefix, times),
            Part::Reply => Ok(replies(alloc, &cmd, value, times)?),
            Part::Response => Ok(responses(alloc, &cmd, value, times)?),
        },
        Err(_) => Err(unfit()),
    }
}

/// Measures a row by so many rounds, and writes what one of them takes.
pub(crate) fn tell<R: Clock + Eprint>(
    rt: &R,
    alloc: Global,
    row: Row,
    times: u32,
) -> io::Result<()> {
    let request = request(alloc, row.kind)?;
    let value = value(alloc)?;
    let prefix = Prefix {
        text: Some(Text::from_static(alloc, "shop")),
    };
    let begin = Instant::now(rt)?;
    made(alloc, row, &request, &prefix, &value, times)?;
    let took = begin.elapsed(rt)?;
    let each = took.as_nanos() / u128::from(times.max(1));
    let (whole, part) = (each / 1000, each % 1000);
    eprintln!(rt;
        "{}: {whole}.{part:03} microseconds, {times} times",
        row.name
    )
}
