ghost use Rattle.std.specs.Prelude.{◌≡◌, None};

use crate::connection::write_in_time;
use crate::door::Door;
use crate::pace::Pace;
use host_devices::FaultCount;
use side_world::{Failed, Sink};
use std::net::TcpStream;
use std::sync::Arc;

/// What is sent to the peer of a connection. It tells no content.
///
/// A write waits for a peer that doesn't read, up to a limit of time. Each error of the connection is a fault, and so is a write
/// of which nothing was taken in time.
pub struct TcpSink {
    door: Arc<Door>,
    /// The bit of its worker.
    worker: u64,
    stream: Arc<TcpStream>,
    /// How the peer takes what it is sent.
    pace: Pace,
    pub(crate) faults: FaultCount,
}

impl TcpSink {
    ghost use Rattle.std.specs.Prelude.{◌≡◌, ◌≢◌, ◌↔◌, true};

    /// To the peer of this connection, which the worker with this bit serves.
    pub(crate) fn new(door: Arc<Door>, worker: u64, stream: Arc<TcpStream>) -> Self
        ensures { ⟦<TcpSink as Sink>⟧.faults result ≡ 0 }
    {
        TcpSink {
            door,
            worker,
            stream,
            pace: Pace::new(),
            faults: FaultCount::none(),
        }
    }

    /// Lets its share of the connection go, and gives that of the door back; whether it has failed.
    pub(crate) fn close(self) -> (Arc<Door>, bool)
        ensures { result.1 ≡ true ↔ self.faults ≢ 0 }
    {
        let TcpSink {
            door,
            worker: _,
            stream: _,
            pace: _,
            faults,
        } = self;
        (door, !faults.is_none())
    }
}

impl Sink for TcpSink {
    ghost contents = { λ _. None };

    ghost faults = { λ s. s.faults };

    fn write(&mut self, piece: &[u8]) -> Result<usize, Failed> {
        match write_in_time(&self.door, self.worker, &self.stream, &mut self.pace, piece) {
            Ok(n) if n > 0 => {
                self.pace.note(n);
                Ok(n)
            }
            _ => Err(self.faults.fail()),
        }
    }
}
