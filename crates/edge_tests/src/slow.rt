//! Clients that hold the workers of a door, and what they and others are answered while each worker serves in a thread of its own.
use crate::clients::{add_halves, connect, piece_of, sends};
use crate::scene::{Scene, serve_to_the_end};
use net_edge::{DoorLimits, TcpAcceptor, TcpDoor};
use side_world::Acceptor;
use std::io::{self, Write};
use std::net::{Net, TcpListener, TcpStream};
use std::process::Abort;
use std::sync::Wait;
use std::thread::{Threads, for_each_mut, join, sleep};
use std::time::{Clock, Duration};

/// Clients that hold workers. Each has sent half a request.
#[derive(Clone, Copy)]
pub(crate) enum Slow {
    /// So many, beside one more.
    Halves(usize),
    /// Four that go on sending, a few bytes a millisecond, for three seconds, beside one more.
    Drips,
    /// Four that send as much as is taken, without an end of a request, for some seconds, beside one more.
    Floods,
    /// The same for two seconds, and then the end of a request each, and nobody else.
    FloodsAlone,
    /// One that sends the other half, and then two requests more.
    Whole,
    /// One, while a worker leaves.
    Left,
}

/// How clients go on sending: so many pieces in each round of a millisecond, and so many rounds before another client asks and behind that.
#[derive(Clone, Copy)]
struct Pace {
    pieces: u32,
    before: u32,
    behind: u32,
}

const DRIPS: Pace = Pace {
    pieces: 1,
    before: 300,
    behind: 2_700,
};

const FLOODS: Pace = Pace {
    pieces: 200,
    before: 250,
    behind: 2_250,
};

/// How many rounds those send that flood alone.
const ROUNDS_ALONE: u32 = 2_000;

/// For how long clients hold their workers before anything else comes, in milliseconds.
const HELD_MS: u64 = 300;

/// Sends a piece so many times, or fewer where there is no room for more, or the connection was closed.
fn send_pieces(client: &mut TcpStream, piece: &[u8], times: u32) {
    for _ in 0..times {
        if !sends(client, piece) {
            return;
        }
    }
}

/// Has each of these clients send a piece so many times in each of so many rounds of a millisecond.
fn send_on<R: Clock>(rt: &R, clients: &mut [TcpStream], piece: &[u8], times: u32, rounds: u32) {
    for _ in 0..rounds {
        for client in clients.iter_mut() {
            send_pieces(client, piece, times);
        }
        sleep(rt, Duration::from_millis(1));
    }
}

/// Has the clients wait from now on where there is nothing to read and no room to send, or not.
fn set_waiting(clients: &mut [TcpStream], waits: bool) -> io::Result<()> {
    for client in clients.iter_mut() {
        client.set_nonblocking(!waits)?;
    }
    Ok(())
}

/// How many bytes one client more is answered within ten seconds.
pub(crate) fn answered_in_time<R: Net<Listener = TcpListener, Stream = TcpStream>>(
    rt: &R,
    port: u16,
) -> io::Result<usize> {
    let mut whole = connect(rt, port)?;
    whole.set_read_timeout(Some(Duration::from_millis(10_000)))?;
    whole.write_all(b"@whole.")?;
    piece_of(&mut whole)
}

/// How many bytes one client more is answered by the time at which these have sent all their pieces.
fn answered_beside<R: Net<Listener = TcpListener, Stream = TcpStream> + Clock>(
    rt: &R,
    port: u16,
    clients: &mut [TcpStream],
    piece: &[u8],
    pace: Pace,
) -> io::Result<usize> {
    let mut whole = connect(rt, port)?;
    send_on(rt, clients, piece, pace.pieces, pace.before);
    whole.write_all(b"@whole.")?;
    send_on(rt, clients, piece, pace.pieces, pace.behind);
    whole.set_nonblocking(true)?;
    piece_of(&mut whole)
}

/// How many bytes a client is answered in all that sends these one after the other, and waits for an answer behind each.
fn answered_to(client: &mut TcpStream, rests: &[&str]) -> io::Result<usize> {
    let mut all = 0usize;
    for rest in rests {
        client.write_all(rest.as_bytes())?;
        all = all.saturating_add(piece_of(client)?);
    }
    Ok(all)
}

/// The same of all these clients.
fn all_answered_to(clients: &mut [TcpStream], rests: &[&str]) -> io::Result<usize> {
    let mut all = 0usize;
    for client in clients.iter_mut() {
        all = all.saturating_add(answered_to(client, rests)?);
    }
    Ok(all)
}

/// Has one worker more leave the door.
fn leave<R: Wait + AllocGlobal + Copy + Drop>(rt: &R, door: &TcpDoor) -> io::Result<()> {
    let mut last = door.acceptor(*rt)?;
    last.leave();
    Ok(())
}

/// How many bytes are answered to the one more, or to these where there is none.
fn answered_behind<
    R: Net<Listener = TcpListener, Stream = TcpStream> + Clock + Wait + AllocGlobal + Copy + Drop,
>(rt: &R, door: &TcpDoor, port: u16, slow: Slow, halves: &mut [TcpStream]) -> io::Result<usize> {
    match slow {
        Slow::Halves(_) => {
            sleep(rt, Duration::from_millis(HELD_MS));
            answered_in_time(rt, port)
        }
        Slow::Drips => answered_beside(rt, port, halves, b"@half", DRIPS),
        Slow::Floods => {
            set_waiting(halves, false)?;
            answered_beside(rt, port, halves, &[b'a'; 4096], FLOODS)
        }
        Slow::FloodsAlone => {
            set_waiting(halves, false)?;
            send_on(rt, halves, &[b'a'; 4096], FLOODS.pieces, ROUNDS_ALONE);
            set_waiting(halves, true)?;
            all_answered_to(halves, &["rest."])
        }
        Slow::Whole => {
            sleep(rt, Duration::from_millis(HELD_MS));
            all_answered_to(halves, &["rest.", "@next.", "@last."])
        }
        Slow::Left => {
            sleep(rt, Duration::from_millis(HELD_MS));
            leave(rt, door)?;
            all_answered_to(halves, &[""])
        }
    }
}

/// The same of new ones, which are put into the list.
fn answered_to_new<
    R: Net<Listener = TcpListener, Stream = TcpStream> + Clock + Wait + AllocGlobal + Copy + Drop,
>(rt: &R, door: &TcpDoor, slow: Slow, halves: &mut Vec<TcpStream>) -> io::Result<usize> {
    let count = match slow {
        Slow::Halves(count) => count,
        Slow::Drips | Slow::Floods | Slow::FloodsAlone => 4,
        Slow::Whole | Slow::Left => 1,
    };
    let port = door.port()?;
    add_halves(rt, port, count, halves)?;
    answered_behind(rt, door, port, slow, halves.as_mut_slice())
}

/// How many bytes are answered at a door, which is shut then.
fn answered_at<
    R: Net<Listener = TcpListener, Stream = TcpStream> + Clock + Wait + AllocGlobal + Copy + Drop,
>(rt: &R, door: &TcpDoor, slow: Slow) -> io::Result<usize> {
    let mut halves = Vec::new(rt.alloc());
    let answered = answered_to_new(rt, door, slow, &mut halves);
    door.shut();
    answered
}

/// Has each of these workers serve until the door is shut.
fn serve_all<R: Threads + Wait + AllocGlobal + Send + Sync>(
    rt: &R,
    workers: &mut [TcpAcceptor<R>],
) {
    let threads = workers.len();
    if threads > 0 {
        for_each_mut(rt, workers, threads, &|_, worker| serve_to_the_end(worker));
    }
}

/// How many bytes are answered while these workers serve.
fn answered_by<
    R: Threads
        + Net<Listener = TcpListener, Stream = TcpStream>
        + Clock
        + Wait
        + AllocGlobal
        + Copy
        + Drop
        + Send
        + Sync,
>(rt: &R, door: &TcpDoor, workers: &mut [TcpAcceptor<R>], slow: Slow) -> io::Result<usize> {
    let (_, answered) = join(
        rt,
        || serve_all(rt, workers),
        || answered_at(rt, door, slow),
    );
    answered
}

/// How many bytes are answered at the door of a scene, with so many workers more.
fn answered_in<
    R: Threads
        + Net<Listener = TcpListener, Stream = TcpStream>
        + Clock
        + Abort
        + Wait
        + AllocGlobal
        + Copy
        + Drop
        + Send
        + Sync,
>(scene: &mut Scene<R>, workers: u32, slow: Slow) -> io::Result<usize> {
    scene.add_workers(workers)?;
    answered_by(&scene.rt, &scene.door, scene.workers.as_mut_slice(), slow)
}

/// How many bytes the one more is answered, or the slow ones are where there is none, at a door within these limits that so many workers
/// serve.
pub(crate) fn answered<
    R: Threads
        + Net<Listener = TcpListener, Stream = TcpStream>
        + Clock
        + Abort
        + Wait
        + AllocGlobal
        + Copy
        + Drop
        + Send
        + Sync,
>(rt: R, limits: DoorLimits, workers: u32, slow: Slow) -> io::Result<usize> {
    let mut scene = Scene::open(rt, limits)?;
    answered_in(&mut scene, workers, slow)
}
