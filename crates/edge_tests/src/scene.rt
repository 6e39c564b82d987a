//! Clients and workers of one door, and the steps of a text that are played with them.
use crate::clients::{add_halves, connect, piece_of, sends, sends_many};
use net_edge::{DoorLimits, TcpAcceptor, TcpDoor, TcpSink, TcpSource};
use side_base::{MOMENT_LIMIT, Moment};
use side_world::{Accepted, Acceptor, Sink, Source};
use std::io::{self, Write};
use std::net::{Net, Shutdown, TcpListener, TcpStream};
use std::process::Abort;
use std::sync::Wait;

/// How often an acceptor is asked for a connection: it waits a second at most each time.
const ASKED: u32 = 40;

/// How many pieces a stretch has at most.
const PIECES: u32 = 1_000_000_000;

/// What is answered to each request.
const ANSWER: &[u8] = b"answer";

/// Requests of HTTP, one whose content has a length, and one whose content comes in chunks.
const COUNTED: &[u8] = b"POST / HTTP/1.1\r\nContent-Length: 5\r\n\r\ndone.";

const CHUNKED: &[u8] =
    b"POST / HTTP/1.1\r\nTransfer-Encoding: chunked\r\n\r\n5\r\ndone.\r\n0\r\n\r\n";

/// Whether this piece ends a request: its last byte is a full stop, or it ends with an empty line.
fn is_whole(piece: &[u8]) -> bool {
    piece.last() == Some(&b'.') || piece.ends_with(b"\r\n\r\n")
}

/// Answers each request of a stretch until it ends. How many bytes came.
fn visit(source: &mut TcpSource, sink: &mut TcpSink) -> usize {
    let mut piece = [0u8; 100];
    let mut all = 0usize;
    source.between(true);
    for _ in 0..PIECES {
        let n = match source.read(&mut piece) {
            Ok(n) if n > 0 && n <= piece.len() => n,
            _ => return all,
        };
        all = all.saturating_add(n);
        let whole = is_whole(&piece[..n]);
        source.between(whole);
        if whole && sink.write(ANSWER).is_err() {
            return all;
        }
    }
    all
}

/// What an acceptor gives.
#[derive(Clone, Copy, PartialEq, Eq)]
enum Given {
    /// A connection, which was served: so many bytes came.
    Conn(usize),
    Idle,
    Closed,
    Failed,
}

/// What an acceptor gives next. A connection is served and goes back.
fn next_of<R: Wait + AllocGlobal>(acceptor: &mut TcpAcceptor<R>) -> Given {
    match acceptor.accept() {
        Accepted::Conn {
            mut source,
            mut sink,
        } => {
            let all = visit(&mut source, &mut sink);
            acceptor.end(source, sink);
            Given::Conn(all)
        }
        Accepted::Idle => Given::Idle,
        Accepted::Closed => Given::Closed,
        Accepted::Failed => Given::Failed,
    }
}

/// Serves until the door is shut.
pub(crate) fn serve_to_the_end<R: Wait + AllocGlobal>(worker: &mut TcpAcceptor<R>) {
    for _ in 0..100_000u32 {
        if matches!(next_of(worker), Given::Closed | Given::Failed) {
            return;
        }
    }
}

/// What an acceptor gives after all its waits for nothing.
fn next_but_idle<R: Wait + AllocGlobal>(acceptor: &mut TcpAcceptor<R>) -> Given {
    for _ in 0..ASKED {
        let given = next_of(acceptor);
        if given != Given::Idle {
            return given;
        }
    }
    Given::Idle
}

/// Whether an acceptor gives this in the end, whatever it gives before.
fn gives_at_last<R: Wait + AllocGlobal>(acceptor: &mut TcpAcceptor<R>, wanted: Given) -> bool {
    (0..ASKED).any(|_| next_of(acceptor) == wanted)
}

/// Serves a request, and answers what another worker is given for what the client sends before the connection is put back.
fn given_meanwhile<R: Wait + AllocGlobal>(
    source: &mut TcpSource,
    sink: &mut TcpSink,
    other: &mut TcpAcceptor<R>,
    client: &mut TcpStream,
    word: &[u8],
) -> Given {
    let mut piece = [0u8; 100];
    source.between(true);
    let has_read = source.read(&mut piece).is_ok();
    let has_written = sink.write(ANSWER).is_ok();
    let rests = matches!(source.read(&mut piece), Ok(0));
    if has_read && has_written && rests && sends(client, word) {
        next_of(other)
    } else {
        Given::Failed
    }
}

/// The same of the next connection of a worker, which is put back then.
fn given_to_another<R: Wait + AllocGlobal>(
    worker: &mut TcpAcceptor<R>,
    other: &mut TcpAcceptor<R>,
    client: &mut TcpStream,
    word: &[u8],
) -> Given {
    for _ in 0..ASKED {
        match worker.accept() {
            Accepted::Conn {
                mut source,
                mut sink,
            } => {
                let given = given_meanwhile(&mut source, &mut sink, other, client, word);
                worker.end(source, sink);
                return given;
            }
            Accepted::Idle => {}
            Accepted::Closed | Accepted::Failed => return Given::Closed,
        }
    }
    Given::Closed
}

/// The clients and the workers of one door, each numbered as it came.
#[derive(Drop)]
pub(crate) struct Scene<R> {
    pub(crate) rt: R,
    pub(crate) door: TcpDoor,
    clients: Vec<TcpStream>,
    pub(crate) workers: Vec<TcpAcceptor<R>>,
}

/// Plays the steps of a text at a door within these limits, with so many workers: each step must come true.
///
/// A step is who, what, and a word: `0+` connects client 0; `0>word` has it send the word, which ends a request where it
/// ends in a full stop, and is none of HTTP where it begins with `@`; `0[20` has it send 20 bytes of a request of HTTP, and `0]20` those behind
/// them, `0{20` and `0}20` of one in chunks; `0*99` has it send so many bytes that end none; `0<6` has it read 6 bytes in one piece, and `0<0` find its connection
/// closed; `0x` has it close its own, and `0|` only say that it sends no more. `*60` connects 60 clients more, each of which sends half a
/// request, and `+40` 40 that say nothing, after each of which worker `a` finds other work alone; `-` has all clients go. `a=9` has worker `a`
/// serve the next connection, on which 9 bytes come; `a:9` has it do so at once, and `a@9` after others; `a%` has it refuse the next one
/// after one read; `a~` and `a#` have it find other work and a shut door; `a^` has it tell of other work, `a,` of some that is due, and `a.` of
/// none before the end of days; `a/` has it leave. `&word` has worker `a` serve a request, and worker `b` find other work, after client 0
/// has sent the word and before its connection is put back. `!` shuts the door. `?` has nobody listen at its port, and opens another there.
pub(crate) fn plays<
    R: Net<Listener = TcpListener, Stream = TcpStream> + Abort + Wait + AllocGlobal + Copy + Drop,
>(rt: R, limits: DoorLimits, workers: u32, steps: &str) -> io::Result<()> {
    let mut scene = Scene::open(rt, limits)?;
    scene.play(workers, steps)
}

impl<
    R: Net<Listener = TcpListener, Stream = TcpStream> + Abort + Wait + AllocGlobal + Copy + Drop,
> Scene<R> {
    /// A door within these limits, at which nobody is yet.
    pub(crate) fn open(rt: R, limits: DoorLimits) -> io::Result<Self> {
        Ok(Scene {
            door: TcpDoor::open_within(&rt, 0, limits)?,
            rt,
            clients: Vec::new(rt.alloc()),
            workers: Vec::new(rt.alloc()),
        })
    }

    /// So many workers more.
    pub(crate) fn add_workers(&mut self, count: u32) -> io::Result<()> {
        for _ in 0..count {
            self.workers.push(self.door.acceptor(self.rt)?)?;
        }
        Ok(())
    }

    /// Plays the steps with so many workers more.
    fn play(&mut self, workers: u32, steps: &str) -> io::Result<()> {
        self.add_workers(workers)?;
        for step in steps.split(' ') {
            let told = if self.comes_true(step.as_bytes())? {
                step
            } else {
                "another thing"
            };
            assert_eq!(self.rt; told, step, "{steps}");
        }
        Ok(())
    }

    /// Plays one step, and answers whether it came true.
    fn comes_true(&mut self, step: &[u8]) -> io::Result<bool> {
        match step {
            [b'!'] => {
                self.door.shut();
                Ok(true)
            }
            [b'-'] => {
                self.clients.clear();
                Ok(true)
            }
            [b'?'] => self.is_left(),
            [b'*', count @ ..] => self.add_halves(number(count)),
            [b'+', count @ ..] => self.add_crowd(number(count)),
            [b'&', word @ ..] => self.hear(word),
            [_, b'+'] => self.add_client(),
            [who @ b'a'..=b'c', what, word @ ..] => {
                Ok(self.works(usize::from(*who - b'a'), *what, word))
            }
            [who @ b'0'..=b'9', what, word @ ..] => {
                match self.clients.get_mut(usize::from(*who - b'0')) {
                    Some(client) => ask(client, *what, word),
                    None => Ok(false),
                }
            }
            _ => Ok(false),
        }
    }

    /// One client more.
    fn add_client(&mut self) -> io::Result<bool> {
        self.clients.push(connect(&self.rt, self.door.port()?)?)?;
        Ok(true)
    }

    /// So many clients more, each of which has sent half a request.
    fn add_halves(&mut self, count: usize) -> io::Result<bool> {
        let port = self.door.port()?;
        add_halves(&self.rt, port, count, &mut self.clients)?;
        Ok(true)
    }

    /// So many clients more that say nothing; whether worker `a` finds other work alone after each.
    fn add_crowd(&mut self, count: usize) -> io::Result<bool> {
        for _ in 0..count {
            self.add_client()?;
            if !self.works(0, b'^', b"") || !self.works(0, b'~', b"") {
                return Ok(false);
            }
        }
        Ok(true)
    }

    /// Whether nobody listens at the door's port, so that a client is refused, and another door can be opened there.
    fn is_left(&self) -> io::Result<bool> {
        let port = self.door.port()?;
        let is_refused = connect(&self.rt, port).is_err();
        let again = TcpDoor::open(&self.rt, port)?;
        Ok(is_refused && again.port()? == port)
    }

    /// Plays a step of the worker of this number, and answers whether it came true.
    fn works(&mut self, number: usize, what: u8, word: &[u8]) -> bool {
        match self.workers.get_mut(number) {
            Some(worker) => work(worker, what, word),
            None => false,
        }
    }

    /// Whether the last worker finds other work while the first serves a request, and client 0 has sent the word.
    fn hear(&mut self, word: &[u8]) -> io::Result<bool> {
        let Some(mut last) = self.workers.pop() else {
            return Ok(false);
        };
        let given = self.given_to(&mut last, word);
        self.workers.push(last)?;
        Ok(given == Given::Idle)
    }

    /// What a worker is given while the first serves a request, and client 0 has sent the word.
    fn given_to(&mut self, other: &mut TcpAcceptor<R>, word: &[u8]) -> Given {
        let Some(worker) = self.workers.first_mut() else {
            return Given::Failed;
        };
        match self.clients.first_mut() {
            Some(client) => given_to_another(worker, other, client, word),
            None => Given::Failed,
        }
    }
}

/// A step of a worker.
fn work<R: Wait + AllocGlobal>(worker: &mut TcpAcceptor<R>, what: u8, word: &[u8]) -> bool {
    match what {
        b'=' => next_but_idle(worker) == Given::Conn(number(word)),
        b':' => next_of(worker) == Given::Conn(number(word)),
        b'@' => gives_at_last(worker, Given::Conn(number(word))),
        b'~' => next_of(worker) == Given::Idle,
        b'#' => next_of(worker) == Given::Closed,
        b'%' => has_refused(worker),
        _ => tell(worker, what),
    }
}

/// What a worker says to its door: whether it is one of these.
fn tell<R: Wait + AllocGlobal>(worker: &mut TcpAcceptor<R>, what: u8) -> bool {
    match what {
        b'^' => worker.wake(),
        b',' => return tell_due(worker, 0),
        b'.' => return tell_due(worker, MOMENT_LIMIT - 1),
        b'/' => worker.leave(),
        _ => return false,
    }
    true
}

/// Has a worker say that other work falls due so many milliseconds after the beginning of 1970, if there is such a moment.
fn tell_due<R: Wait + AllocGlobal>(worker: &mut TcpAcceptor<R>, ms: u64) -> bool {
    match Moment::at(ms) {
        Some(moment) => {
            worker.due(moment);
            true
        }
        None => false,
    }
}

/// Has a worker answer the next connection after one read, and end it there.
fn has_refused<R: Wait + AllocGlobal>(worker: &mut TcpAcceptor<R>) -> bool {
    let mut piece = [0u8; 100];
    for _ in 0..ASKED {
        match worker.accept() {
            Accepted::Conn {
                mut source,
                mut sink,
            } => {
                let has_read = matches!(source.read(&mut piece), Ok(n) if n > 0);
                let has_written = sink.write(ANSWER).is_ok();
                worker.end(source, sink);
                return has_read && has_written;
            }
            Accepted::Idle => {}
            Accepted::Closed | Accepted::Failed => return false,
        }
    }
    false
}

/// The first bytes of a request of HTTP, or those behind them.
fn part_of_request(what: u8, count: usize) -> &'static [u8] {
    let request = match what {
        b'[' | b']' => COUNTED,
        _ => CHUNKED,
    };
    let (first, rest) = request.split_at_checked(count).unwrap_or((request, b""));
    match what {
        b'[' | b'{' => first,
        _ => rest,
    }
}

/// A step of a client that is connected.
fn ask(client: &mut TcpStream, what: u8, word: &[u8]) -> io::Result<bool> {
    match what {
        b'>' => client.write_all(word)?,
        b'*' => return Ok(sends_many(client, number(word))),
        b'[' | b'{' | b']' | b'}' => client.write_all(part_of_request(what, number(word)))?,
        b'<' => return Ok(piece_of(client)? == number(word)),
        b'x' => client.shutdown(Shutdown::Both)?,
        b'|' => client.shutdown(Shutdown::Write)?,
        _ => return Ok(false),
    }
    Ok(true)
}

/// The number that a word writes; a great one where it writes none.
pub(crate) fn number(word: &[u8]) -> usize {
    match str::from_utf8(word) {
        Ok(text) => text.parse().unwrap_or(usize::MAX),
        Err(_) => usize::MAX,
    }
}
