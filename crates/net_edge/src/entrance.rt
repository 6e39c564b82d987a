//! Where connections come in.
ghost use Rattle.std.specs.Prelude.{◌≡◌};
ghost use Rattle.net_edge.specs.Turns.{rest_until};

use crate::other_work::{NEVER, rest_until};
use crate::places::Places;
use crate::ready_set::{ReadySet, When};
use crate::waiting::now_ms;
use std::io::{self, ErrorKind};
use std::net::{Ipv4Addr, Net, SocketAddrV4, TcpListener, TcpStream};
use std::os::fd::AsRawFd;
use std::sync::atomic::{AtomicU64, Ordering};
use std::sync::{Arc, Mutex, Wait};

/// What the set reports the listener by: no number of a connection.
pub(crate) const LISTENER: u64 = u64::MAX;

/// How many connections may wait to be accepted.
const BACKLOG: i32 = 4_096;

/// How many are accepted before others have their turn.
const ADMITTED_AT_ONCE: u32 = 64;

/// For how long none is accepted where there was no room for one, in milliseconds.
const PAUSE_MS: u64 = 100;

/// The listener of a door, which closes before all else where it ends.
#[derive(Drop)]
pub(crate) struct Entrance {
    listener: Mutex<Option<TcpListener>>,
    port: u16,
    /// The moment at which accepting begins again; `NEVER` where it goes on.
    resumes_at: AtomicU64,
}

/// What became of a connection that was to be accepted.
#[derive(Clone, Copy)]
enum Admission {
    /// It is awaited, or had gone.
    Went,
    /// There is none.
    Nobody,
    /// There is no room for it.
    NoRoom,
}

impl Entrance {
    /// An entrance at this port of 127.0.0.1, at any free one where it is 0, which the set reports.
    pub(crate) fn open<R: Net<Listener = TcpListener, Stream = TcpStream>>(
        rt: &R,
        port: u16,
        set: &ReadySet,
    ) -> io::Result<Self> {
        let listener = TcpListener::bind(rt, SocketAddrV4::new(Ipv4Addr::LOCALHOST, port))?;
        listener.set_nonblocking(true)?;
        // Where it fails, as many may wait as std lets wait.
        libc::net::listen(listener.as_raw_fd(), BACKLOG);
        set.add(listener.as_raw_fd(), LISTENER, When::Once)?;
        let port = listener.local_addr()?.port();
        Ok(Entrance {
            listener: Mutex::new(Some(listener)),
            port,
            resumes_at: AtomicU64::new(NEVER),
        })
    }

    /// Its port.
    pub(crate) fn port(&self) -> u16 {
        self.port
    }

    /// Nobody comes in any more: who tries to is refused, and another program may listen at the port.
    pub(crate) fn close<R: Wait>(&self, rt: &R) {
        let mut place = self.listener.lock(rt);
        drop(place.take());
    }

    /// Accepts those that wait, and has them awaited by the set at their places, below `most`. Whether there was room for all.
    pub(crate) fn admit<R: Wait + AllocGlobal>(
        &self,
        rt: &R,
        set: &ReadySet,
        places: &Places,
        most: usize,
    ) -> io::Result<bool> {
        let place = self.listener.lock(rt);
        let Some(listener) = place.as_ref() else {
            return Ok(true);
        };
        for _ in 0..ADMITTED_AT_ONCE {
            match admit_one(rt, listener, set, places, most) {
                Admission::Went => {}
                Admission::Nobody => break,
                Admission::NoRoom => {
                    self.pause();
                    return Ok(false);
                }
            }
        }
        set.arm(listener.as_raw_fd(), LISTENER, When::Once)?;
        Ok(true)
    }

    /// Accepts none for a while.
    fn pause(&self) {
        self.resumes_at
            .store(now_ms().saturating_add(PAUSE_MS), Ordering::SeqCst);
    }

    /// Accepts again where a pause is over. Where somebody else has the listener, the next look does.
    pub(crate) fn resume(&self, set: &ReadySet) -> io::Result<()> {
        let at = self.resumes_at.load(Ordering::SeqCst);
        if at == NEVER || at > now_ms() {
            return Ok(());
        }
        let Some(place) = self.listener.try_lock() else {
            return Ok(());
        };
        if self.resumes_at.swap(NEVER, Ordering::SeqCst) == NEVER {
            return Ok(());
        }
        match place.as_ref() {
            Some(listener) => set.arm(listener.as_raw_fd(), LISTENER, When::Once),
            None => Ok(()),
        }
    }

    /// Whether none is accepted for a while.
    pub(crate) fn is_paused(&self) -> bool {
        self.resumes_at.load(Ordering::SeqCst) != NEVER
    }

    /// For how many milliseconds from this moment on that goes on, `REST_MS` at most.
    pub(crate) fn rest_ms(&self, now: u64) -> u64 {
        rest_until(now, self.resumes_at.load(Ordering::SeqCst))
    }
}

fn admit_one<R: Wait + AllocGlobal>(
    rt: &R,
    listener: &TcpListener,
    set: &ReadySet,
    places: &Places,
    most: usize,
) -> Admission {
    match listener.accept() {
        Ok((stream, _)) => welcome(rt, stream, set, places, most),
        Err(error) => match error.kind() {
            ErrorKind::WouldBlock => Admission::Nobody,
            ErrorKind::ConnectionAborted | ErrorKind::Interrupted => Admission::Went,
            _ => Admission::NoRoom,
        },
    }
}

fn welcome<R: Wait + AllocGlobal>(
    rt: &R,
    stream: TcpStream,
    set: &ReadySet,
    places: &Places,
    most: usize,
) -> Admission {
    if stream.set_nonblocking(true).is_err() || stream.set_nodelay(true).is_err() {
        return Admission::Went;
    }
    let Ok(stream) = Arc::new(rt.alloc(), stream) else {
        return Admission::NoRoom;
    };
    if places.admit(rt, set, stream, most, now_ms()) {
        Admission::Went
    } else {
        Admission::NoRoom
    }
}
