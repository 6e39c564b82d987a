//! Scenes at a door, and clients that hold its workers, each a line of a text.
use crate::scene::{number, plays};
use crate::slow::{Slow, answered};
use net_edge::DoorLimits;
use std::io::{self, ErrorKind};
use std::net::{Net, TcpListener, TcpStream};
use std::process::Abort;
use std::sync::Wait;
use std::test::Fail;
use std::thread::Threads;
use std::time::Clock;

/// Limits of a door that is soon out of patience.
fn short() -> DoorLimits {
    DoorLimits {
        places: 200,
        idle_ms: 60_000,
        crowded_ms: 20,
        patience_ms: 60,
        pressed_ms: 20,
        held_ms: 200,
        left_to_worker: 0,
        left_to_disks: 0,
    }
}

/// The same of one that is patient with those that say something.
pub(crate) fn patient() -> DoorLimits {
    DoorLimits {
        patience_ms: 600_000,
        ..short()
    }
}

/// The limits that a word names, if it names some.
fn limits_of(word: &str) -> io::Result<DoorLimits> {
    match word {
        "standard" => Ok(DoorLimits::standard()),
        "short" => Ok(short()),
        "patient" => Ok(patient()),
        "soon-idle" => Ok(DoorLimits {
            idle_ms: 1,
            ..short()
        }),
        "small" => Ok(DoorLimits {
            places: 40,
            ..short()
        }),
        "small-and-patient" => Ok(DoorLimits {
            places: 40,
            crowded_ms: 60_000,
            ..patient()
        }),
        _ => Err(io::Error::from(ErrorKind::InvalidInput)),
    }
}

/// The clients that hold workers which a word names, if it names some.
fn slow_of(word: &str) -> io::Result<Slow> {
    match word {
        "drips" => Ok(Slow::Drips),
        "floods" => Ok(Slow::Floods),
        "floods-alone" => Ok(Slow::FloodsAlone),
        "whole" => Ok(Slow::Whole),
        "left" => Ok(Slow::Left),
        count => Ok(Slow::Halves(count_of(count)? as usize)),
    }
}

/// The first word of a line, and what stands behind it.
fn cut(line: &str) -> (&str, &str) {
    line.split_once(' ').unwrap_or((line, ""))
}

/// The number, one at least, that a word writes, if it writes one.
fn count_of(word: &str) -> io::Result<u32> {
    match word.parse() {
        Ok(count) if count > 0 => Ok(count),
        _ => Err(io::Error::from(ErrorKind::InvalidInput)),
    }
}

/// Plays the steps behind the limits of a door and its workers.
fn play_line<
    R: Net<Listener = TcpListener, Stream = TcpStream> + Abort + Wait + AllocGlobal + Copy + Drop,
>(rt: R, line: &str) -> io::Result<()> {
    let (limits, rest) = cut(line);
    let (workers, steps) = cut(rest);
    plays(rt, limits_of(limits)?, count_of(workers)?, steps)
}

/// How many bytes are answered, by a line: behind the limits of a door and its workers stand the clients that hold these.
fn answered_by_line<
    R: Threads
        + Net<Listener = TcpListener, Stream = TcpStream>
        + Clock
        + Abort
        + Wait
        + AllocGlobal
        + Copy
        + Drop
        + Send
        + Sync,
>(rt: R, line: &str) -> io::Result<usize> {
    let (limits, rest) = cut(line);
    let (workers, slow) = cut(rest);
    answered(rt, limits_of(limits)?, count_of(workers)?, slow_of(slow)?)
}

/// What is shown, behind `#`, and a line that is played.
const SCENES: &str = "\
# A connection comes back with each request, to any worker.
standard 2 0+ 0>@first. a=7 0<6 0>@second. b=8 0<6 0>@third. b=7 0<6 0>@last. a=6 0<6
# Two connections are served by one worker.
standard 2 0+ 1+ 0>@first. a=7 1>@second. a=8 1>@third. a=7 0>@last. a=6 0<12 1<12
# A connection that its client closed comes to its end.
standard 2 0+ 0>@first. a=7 0<6 0x b=0 1+ 1>@second. b=8 1<6
# The rest of a request is not awaited for ever.
short 2 0+ 0>@half a=5 0<0 1+ 1>@half b=5 1<0 2+ 2>@whole. a=7 2<6
# Other work is told, but not twice in a row.
standard 2 0+ 0>@first. a^ b~ a^ b=7 b~ 0<6
# All workers but one do other work at a time, whatever waits.
standard 2 a~ a^ a^ 0+ 0>@first. b:7 0<6 a~
standard 3 a~ b~ a^ a^ 0+ 0>@first. c:7 0<6 b~
# What a worker has looked for and not found is not told again.
standard 1 a~ a^ a^ a~ a. 0+ 0>@first. a:7 0<6 0>@second. a:8 0<6
# What is told since is.
standard 1 a~ a^ a~ a^ a. 0+ 0>@first. a:7 0<6 0>@second. a~ a:8 0<6
# What has fallen due is told once.
standard 1 a~ a, 0+ 0>@first. a:7 0<6 0>@second. a~ a:8 0<6 0>@third. a:7 0<6
# Who is refused amid a request may go on sending, and reads the answer.
standard 1 a~ 0+ 0*500 a% 0*500 a^ a~ a^ a~ 0*500 a^ a~ 0<6 0<0
# Where a worker leaves, the others find an end, who rests is let go, and another door can be opened at the port.
standard 2 0+ 0>@first. a=7 0<6 a/ b# 0<0 ?
# Half a request of HTTP holds no worker: it waits at the door, whether some of its head lacks, or of its content.
patient 1 a~ 0+ 0[20 a=0 1+ 1>@quick. a=7 1<6 0]20 a=43 0<6
patient 1 a~ 0+ 0[38 a=0 1+ 1>@quick. a=7 1<6 0]38 a=43 0<6
patient 1 a~ 0+ 0{50 a=0 1+ 1>@quick. a=7 1<6 0}50 a=62 0<6
# Nor does it where it stands behind a whole one.
patient 1 a~ 0+ 0[43 0[38 a=43 0<6 1+ 1>@quick. a=7 1<6 0]38 a=43 0<6
# It is read on with its connection's end, and is closed where it waits too long.
patient 1 a~ 0+ 0[20 a=0 0| a=20 0<0 1+ 1[20 1| a=20 1<0
short 1 a~ 0+ 0[20 a=0 a~ a~ 0<0
# A shut door is told to all.
standard 2 0+ 0>@first. a=7 0<6 ! a# b# b# a#
# What idles too long is closed.
soon-idle 2 0+ 0>@first. a=7 0<6 a~ a~ 0<0
# There are more connections than places; the last client may be refused at first.
small 1 +40 - 0+ 0>@first. a@7 0<6
# Half a request does not hold up other work that was heard of.
patient 1 *1 a^ a~ a^ a:5 a~
# Half a request does not hold up those who wait to connect: the first of sixty finds no place, and the others wait.
small-and-patient 1 a~ 0+ a~ *60 0>@half a:5
# A client that sends no more is answered, and its connection closed.
standard 2 0+ 0>@first. 0| a=7 0<6 0<0 1+ 1>@second. 1| b=8 1<6 1<0
# What comes while a worker serves is not lost.
standard 2 0+ 0>@first. &@second. 0<6 b:8 0<6";

#[test]
fn each_scene_comes_true(rt: HostRuntime) -> Result<(), Fail> {
    for line in SCENES.lines() {
        if !line.starts_with('#') {
            play_line(rt, line)?;
        }
    }
    Ok(())
}

/// What is shown, behind `#`, and a line that is played, with the bytes that are answered behind its `=`.
const HELD: &str = "\
# Four half requests leave a worker to a fifth client, and sixty.
standard 4 4=6
standard 4 60=6
# Four slow requests do.
standard 4 drips=6
# Four requests without an end do.
standard 4 floods=6
# Steady senders keep their workers where nobody else wants one.
standard 4 floods-alone=24
# Half a request does not hold up the end.
patient 1 left=0
# A request in halves is followed by others.
standard 1 whole=18";

#[test]
fn clients_that_hold_workers_hold_up_nobody_else(rt: HostRuntime) -> Result<(), Fail> {
    for line in HELD.lines() {
        if !line.starts_with('#') {
            let (line, wanted) = line.split_once('=').unwrap_or((line, ""));
            let bytes = answered_by_line(rt, line)?;
            assert_eq!(rt; bytes, number(wanted.as_bytes()), "{line}");
        }
    }
    Ok(())
}
