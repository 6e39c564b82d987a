//! The program: makes the real devices, runs the command that its words ask for, and ends with its status.
#![tactic(auto)]

use host_devices::{HostClock, HostFiles, StdSink, StdSource};
use net_edge::{HostOutside, TcpLink};
use side_base::{NoMemory, Text};
use side_world::Sink;
use sidecar_cli::{Device, Status, World, sidecar_main};
use std::env;
use std::io::ErrorKind;
use std::process::ExitCode;
use std::rt::Env;

fn main(rt: HostRuntime) -> ExitCode {
    let mut note = StdSink::new(rt.stderr());
    let (Ok(clock), Ok(outside)) = (HostClock::new(rt), HostOutside::new(rt)) else {
        return end(Status::OutsideFailed(Device::Outside), &mut note);
    };
    let Ok(words) = words(&rt) else {
        return end(Status::NoMemory, &mut note);
    };
    let mut world = World {
        source: StdSource::new(rt.stdin()),
        sink: StdSink::new(rt.stdout()),
        note,
        files: HostFiles::new(rt),
        link: TcpLink::new(rt),
        clock,
        outside,
    };
    ExitCode::from(sidecar_main(&rt, rt.alloc(), &words, &mut world).code())
}

/// Ends a run that didn't begin.
fn end<E: Sink>(status: Status, note: &mut E) -> ExitCode {
    status.tell(note);
    ExitCode::from(status.code())
}

/// The words of the command line behind the program's name; none where one of them is not UTF-8, which no command is.
fn words<R: Env + AllocGlobal>(rt: &R) -> Result<Vec<Text>, NoMemory> {
    let mut words = Vec::new(rt.alloc());
    let all = match env::args(rt) {
        Ok(all) => all,
        Err(error) if error.kind() == ErrorKind::OutOfMemory => return Err(NoMemory),
        Err(_) => return Ok(words),
    };
    for word in all.skip(1) {
        words.push(Text::from_str(rt.alloc(), word.as_str())?)?;
    }
    Ok(words)
}
