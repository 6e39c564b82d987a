ghost use Rattle.std.specs.Prelude.{◌≡◌, ◌↔◌, None, IsOk, true};

use crate::call_time::Caller;
use crate::connection::part_with;
use crate::door::{Door, Look};
use crate::other_work::REST_MS;
use crate::places::Taken;
use crate::tcp_sink::TcpSink;
use crate::tcp_source::TcpSource;
use crate::waiting::now_ms;
use host_devices::FaultCount;
use side_base::Moment;
use side_world::{Accepted, Acceptor, Failed, Sink, Source};
use std::io;
use std::net::TcpStream;
use std::sync::{Arc, Wait};

/// A worker's place at a door: it gives a connection on which something is there to read, whichever worker served it last. It
/// tells no answers.
///
/// A connection whose stretch ended between two requests goes back to the door, unless all workers end, and any other ends: where its peer may
/// send still, the door reads on for a second and 16,777,216 bytes at most, so that the peer reads the last response, and closes it then.
/// Only a door that can't be waited at any more is a fault.
///
/// `Idle` is answered at first, to other work, and after a second without anything, but only while others are left to connections: all
/// workers but one do other work at a time at most, or the one that there is. `Closed` is answered once all workers end.
#[derive(Drop)]
pub struct TcpAcceptor<R> {
    rt: R,
    door: Arc<Door>,
    /// The worker's bit among those of all workers of the door.
    worker: u64,
    /// What the last connection had of the door, for the next one: all workers would count in one place otherwise.
    spare: Option<Doors>,
    /// The last answer was `Idle`.
    was_idle: bool,
    /// Some answer was `Idle`.
    has_begun: bool,
    /// How many pieces of other work had been told before the last answer, where that was `Idle` and the worker told of none since; else 0.
    told: u64,
    faults: FaultCount,
}

/// The door, for a source and for a sink.
#[derive(Drop)]
struct Doors {
    of_source: Arc<Door>,
    of_sink: Arc<Door>,
}

/// What comes next for a worker: a connection, other work, or nothing any more.
#[derive(Drop)]
enum Next {
    Conn {
        taken: Taken,
        other_stream: Arc<TcpStream>,
        doors: Doors,
        has_ended: bool,
    },
    Idle,
    Closed,
}

impl<R: Wait + AllocGlobal> TcpAcceptor<R> {
    ghost use Rattle.std.specs.Prelude.{◌≡◌};

    /// One more worker of this door.
    pub(crate) fn new(rt: R, door: Arc<Door>) -> Self
        ensures { ⟦<TcpAcceptor<R> as Acceptor>⟧.faults result ≡ 0 }
    {
        let worker = door.add_worker();
        TcpAcceptor {
            rt,
            door,
            worker,
            spare: None,
            was_idle: false,
            has_begun: false,
            told: 0,
            faults: FaultCount::none(),
        }
    }

    /// Its worker, as it calls other programs.
    pub(crate) fn caller(&self) -> io::Result<Caller> {
        Ok(Caller::worker(Arc::try_clone(&self.door)?, self.worker))
    }

    /// How often it has failed.
    pub(crate) fn faults(&self) -> &FaultCount
        ensures { result.now ≡ ⟦<TcpAcceptor<R> as Acceptor>⟧.faults self.now }
    {
        &self.faults
    }

    /// Waits for what comes next: other work that it may do, but not twice in a row where a connection is ready, or a connection. After a second
    /// without either it looks for other work.
    fn await_next(&self, spare: &mut Option<Doors>) -> io::Result<Next> {
        self.door.end_work(self.worker);
        let until = now_ms().saturating_add(REST_MS);
        let mut rests = !self.was_idle || !self.door.has_open_work();
        let mut looks = !self.has_begun;
        for _ in self.rt.forever() {
            if self.door.is_over() {
                return Ok(Next::Closed);
            }
            if rests && self.door.begin_work(self.worker, looks) {
                return Ok(Next::Idle);
            }
            match self.look(rests, until)? {
                Look::Conn { taken, has_ended } => {
                    self.door.call_another();
                    return self.shared(taken, has_ended, spare);
                }
                Look::Quiet => rests = true,
                Look::Went => {}
            }
            looks = looks || now_ms() >= until;
        }
        unreachable!()
    }

    /// Looks at the door, and rests there, to this moment or for another second behind it.
    fn look(&self, rests: bool, until: u64) -> io::Result<Look> {
        if !rests {
            return self.door.look(&self.rt, 0);
        }
        let now = now_ms();
        let until = if until > now {
            until
        } else {
            now.saturating_add(REST_MS)
        };
        self.door.rest(&self.rt, self.worker, until)
    }

    /// A connection, for its source and its sink.
    fn shared(&self, taken: Taken, has_ended: bool, spare: &mut Option<Doors>) -> io::Result<Next> {
        Ok(Next::Conn {
            other_stream: Arc::try_clone(&taken.stream)?,
            taken,
            doors: self.doors(spare)?,
            has_ended,
        })
    }

    /// The door, for one more connection.
    fn doors(&self, spare: &mut Option<Doors>) -> io::Result<Doors> {
        match spare.take() {
            Some(doors) => Ok(doors),
            None => Ok(Doors {
                of_source: Arc::try_clone(&self.door)?,
                of_sink: Arc::try_clone(&self.door)?,
            }),
        }
    }
}

impl<R: Wait + AllocGlobal> Acceptor for TcpAcceptor<R> {
    type From = TcpSource;

    type Into = TcpSink;

    ghost told = { λ _. None };

    ghost faults = { λ a. a.faults };

    fn accept(&mut self) -> Accepted<TcpSource, TcpSink> {
        let mut spare = self.spare.take();
        let next = self.await_next(&mut spare);
        self.spare = spare;
        self.was_idle = false;
        self.told = 0;
        match self.faults.counted(next) {
            Ok(
                Next::Conn {
                    taken,
                    other_stream,
                    doors,
                    has_ended,
                },
            ) => Accepted::Conn {
                source: TcpSource::new(doors.of_source, self.worker, taken, has_ended),
                sink: TcpSink::new(doors.of_sink, self.worker, other_stream),
            },
            Ok(Next::Idle) => {
                self.was_idle = true;
                self.has_begun = true;
                self.told = self.door.told();
                Accepted::Idle
            }
            Ok(Next::Closed) => Accepted::Closed,
            Err(Failed) => Accepted::Failed,
        }
    }

    fn end(&mut self, source: TcpSource, sink: TcpSink) {
        let is_awaited = source.is_awaited();
        let may_send = source.may_send();
        match after_stretch(source, sink, &mut self.spare) {
            Ok(taken) => self.door.let_rest(&self.rt, taken, is_awaited),
            Err(taken) if may_send => self.door.part(&self.rt, taken.stream),
            Err(taken) => {
                part_with(&taken.stream);
            }
        }
    }

    fn wake(&mut self) {
        self.told = 0;
        self.door.wake(self.worker);
    }

    fn due(&mut self, moment: Moment) {
        self.door.tell_due(self.told, moment.ms());
    }

    fn leave(&mut self) {
        self.door.leave(&self.rt);
    }
}

/// The connection: `Ok` exactly where it goes on, since its stretch ended between two requests and nothing failed.
fn after_stretch(
    source: TcpSource,
    sink: TcpSink,
    spare: &mut Option<Doors>,
) -> Result<Taken, Taken>
    ensures { IsOk result ↔ ((source.rests ≡ true) × (source.faults ≡ 0) × (sink.faults ≡ 0)) }
{
    let (of_sink, has_failed) = sink.close();
    let ((of_source, taken), rests) = source.into_parts();
    *spare = Some(Doors { of_source, of_sink });
    if rests && !has_failed {
        Ok(taken)
    } else {
        Err(taken)
    }
}
