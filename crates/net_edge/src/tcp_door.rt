use crate::door::Door;
use crate::door_limits::DoorLimits;
use crate::{TcpAcceptor, TcpLink};
use libc::EMFILE;
use side_world::{Acceptor, Link};
use std::io;
use std::net::{Net, TcpListener, TcpStream};
use std::sync::{Arc, Wait};

/// A port of 127.0.0.1 at which connections wait for up to 64 workers.
///
/// A connection, as its acceptors give it, is a stretch of a TCP connection: from a moment at which something is there to read
/// until one at which, between two requests, nothing more is, or it is others' turn, after 64 reads or 100 milliseconds. Then it waits
/// at the door again, and takes no worker's time.
///
/// It has as many connections as the process may have descriptors, 16,384 at most, less what stands open, nine for the calls of each worker, and one
/// for each disk. One that comes beyond that is closed at once, and so is what has idled for a second then; for 100 milliseconds none is
/// accepted.
///
/// A request that comes in pieces waits at the door, and takes no worker's time, until all of it may be there, or 65,536 bytes of it, or its
/// peer sends no more; 67,108,864 bytes wait at all connections together, and what comes beyond goes to a worker. It has 30 seconds from its
/// first byte, and a second where there is no room for a new connection.
///
/// How long a peer may keep a worker is bounded ([`DoorLimits`]): one that says nothing for 60 seconds between two requests is closed,
/// and so is one for which a worker has waited for 30 seconds in one stretch, of which each byte that came then gave a millisecond
/// back. Where peers hold all workers and something else wants one of them, these are 100 milliseconds, of which 1,024 bytes give
/// one back, and a second at most for what it sends, also without a pause, and a second for what it takes, beside the answers to what
/// one read asked for.
#[derive(Drop)]
pub struct TcpDoor {
    door: Arc<Door>,
}

impl TcpDoor {
    ghost use Rattle.std.specs.Prelude.{◌≡◌, IfOk};

    /// A door at this port, at any free one where it is 0.
    pub fn open<R: Net<Listener = TcpListener, Stream = TcpStream> + AllocGlobal>(
        rt: &R,
        port: u16,
    ) -> io::Result<Self>
        ensures idle { IfOk result (λ it. it.door.value.limits.idle_ms ≡ 60000) }
        ensures crowded { IfOk result (λ it. it.door.value.limits.crowded_ms ≡ 1000) }
        ensures patience { IfOk result (λ it. it.door.value.limits.patience_ms ≡ 30000) }
        ensures pressed { IfOk result (λ it. it.door.value.limits.pressed_ms ≡ 100) }
        ensures held { IfOk result (λ it. it.door.value.limits.held_ms ≡ 1000) }
    {
        TcpDoor::open_within(rt, port, DoorLimits::standard())
    }

    /// The same within these limits in place of the program's.
    pub fn open_within<R: Net<Listener = TcpListener, Stream = TcpStream> + AllocGlobal>(
        rt: &R,
        port: u16,
        limits: DoorLimits,
    ) -> io::Result<Self>
        ensures { IfOk result (λ it. it.door.value.limits ≡ limits) }
    {
        Ok(TcpDoor {
            door: Arc::new(rt.alloc(), Door::open(rt, port, limits)?)?,
        })
    }

    /// The port at which it listens.
    pub fn port(&self) -> io::Result<u16> {
        Ok(self.door.port())
    }

    /// The acceptor of one worker more, which has no faults. It is an error where the workers leave no descriptor to connections.
    pub fn acceptor<R: Wait + AllocGlobal + Drop>(&self, rt: R) -> io::Result<TcpAcceptor<R>>
        ensures { IfOk result (λ a. ⟦<TcpAcceptor<R> as Acceptor>⟧.faults a ≡ 0) }
    {
        let acceptor = TcpAcceptor::new(rt, Arc::try_clone(&self.door)?);
        if !self.door.has_room() {
            return Err(io::Error::from_raw_os_error(EMFILE));
        }
        Ok(acceptor)
    }

    /// The link of the worker of this acceptor, of which no call has failed or expired.
    pub fn link<R: Net<Listener = TcpListener, Stream = TcpStream> + Wait + AllocGlobal + Drop>(
        &self,
        rt: R,
        acceptor: &TcpAcceptor<R>,
    ) -> io::Result<TcpLink<R>>
        ensures no_faults { IfOk result (λ it. ⟦<TcpLink<R> as Link>⟧.faults it ≡ 0) }
        ensures no_expiries { IfOk result (λ it. ⟦<TcpLink<R> as Link>⟧.expiries it ≡ 0) }
    {
        Ok(TcpLink::of_caller(rt, acceptor.caller()?))
    }

    /// Its acceptors answer `Closed` from now on.
    pub fn shut(&self) {
        self.door.shut();
    }
}
