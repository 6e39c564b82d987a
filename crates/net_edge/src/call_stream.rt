//! The two directions of a connection to another program, and the time that a call has for them.
ghost use Rattle.std.specs.Prelude.{◌≡◌, ◌≢◌, ◌≤◌, None, false, length, IfOk};
ghost use Rattle.std.specs.IoError.{error_kind};
ghost use Rattle.side_world.specs.declared.link.LinkErr.TheVariants.{Expired, NoMemory};
ghost use Rattle.side_world.specs.Faults.{Rose};

use crate::call_time::Caller;
use crate::connection::is_not_yet;
use host_devices::FaultCount;
use side_world::{Failed, LinkErr, Sink, Source};
use std::io::{self, ErrorKind, Read, Write};
use std::net::TcpStream;
use std::sync::Arc;
use std::time::Duration;

/// How often a program is waited for within one read or write.
const LOOKS: u32 = u32::MAX;

/// What a program sends that is called. It tells no content.
///
/// A read waits to the end of the call, and fails then; each error of the connection is a fault, too.
#[derive(Drop)]
pub(crate) struct CallSource {
    caller: Caller,
    stream: Arc<TcpStream>,
    /// The moment at which the call is over.
    pub(crate) end: u64,
    /// For how many milliseconds a read of the socket waits; 0 where that wasn't said.
    waits_ms: u64,
    ended: bool,
    /// Why the last read that failed did.
    pub(crate) cause: LinkErr,
    faults: FaultCount,
}

impl CallSource {
    /// Of a new connection.
    pub(crate) fn new(caller: Caller, stream: Arc<TcpStream>, end: u64) -> Self
        ensures { result.end ≡ end }
    {
        CallSource {
            caller,
            stream,
            end,
            waits_ms: 0,
            ended: false,
            cause: LinkErr::Failed,
            faults: FaultCount::none(),
        }
    }

    /// A call begins that is over at this moment.
    pub(crate) fn begin(&mut self, end: u64)
        ensures { self.new ≡ record self.old { end = end } }
    {
        self.end = end;
    }

    /// The connection.
    pub(crate) fn stream(&self) -> &TcpStream {
        &self.stream
    }

    /// Has a read of the socket wait for so long.
    fn set_wait(&mut self, ms: u64) -> io::Result<()>
        ensures ended { self.new.ended ≡ self.old.ended }
        ensures faults { self.new.faults ≡ self.old.faults }
    {
        if ms != self.waits_ms {
            self.stream
                .set_read_timeout(Some(Duration::from_millis(ms)))?;
            self.waits_ms = ms;
        }
        Ok(())
    }

    /// Reads what comes to the end of the call.
    fn read_in_time(&mut self, into: &mut [u8]) -> Result<usize, LinkErr>
        ensures within { IfOk result (λ n. n ≤ length into.new) }
        ensures ended { self.new.ended ≡ self.old.ended }
        ensures faults { self.new.faults ≡ self.old.faults }
    {
        for _ in 0..LOOKS {
            let ms = self.caller.wait_ms(self.end);
            if ms == 0 {
                return Err(LinkErr::Expired);
            }
            if let Err(error) = self.set_wait(ms) {
                return Err(cause_of(&error));
            }
            match read_once(&self.stream, into) {
                Ok(n) => return Ok(n),
                Err(error) if is_not_yet(&error) => {}
                Err(error) => return Err(cause_of(&error)),
            }
        }
        Err(LinkErr::Expired)
    }
}

impl Source for CallSource {
    ghost left = { λ _. None };

    ghost taken = { λ _. None };

    ghost earlier = { λ _. None };

    ghost ended = { λ s. s.ended };

    ghost faults = { λ s. s.faults };

    fn read(&mut self, into: &mut [u8]) -> Result<usize, Failed> {
        match self.read_in_time(into) {
            Ok(n) => {
                self.ended = self.ended || n == 0;
                Ok(n)
            }
            Err(cause) => {
                self.cause = cause;
                Err(self.faults.fail())
            }
        }
    }
}

/// What is sent to a program that is called. It tells no content.
///
/// A write waits to the end of the call, and fails then; each error of the connection is a fault, too, and so is a write of which nothing was
/// taken.
#[derive(Drop)]
pub(crate) struct CallSink {
    caller: Caller,
    stream: Arc<TcpStream>,
    /// The moment at which the call is over.
    pub(crate) end: u64,
    /// For how many milliseconds a write to the socket waits; 0 where that wasn't said.
    waits_ms: u64,
    /// Why the last write that failed did.
    pub(crate) cause: LinkErr,
    faults: FaultCount,
}

impl CallSink {
    /// Of a new connection.
    pub(crate) fn new(caller: Caller, stream: Arc<TcpStream>, end: u64) -> Self
        ensures { result.end ≡ end }
    {
        CallSink {
            caller,
            stream,
            end,
            waits_ms: 0,
            cause: LinkErr::Failed,
            faults: FaultCount::none(),
        }
    }

    /// A call begins that is over at this moment.
    pub(crate) fn begin(&mut self, end: u64)
        ensures { self.new ≡ record self.old { end = end } }
    {
        self.end = end;
    }

    /// Has a write to the socket wait for so long.
    fn set_wait(&mut self, ms: u64) -> io::Result<()>
        ensures faults { self.new.faults ≡ self.old.faults }
    {
        if ms != self.waits_ms {
            self.stream
                .set_write_timeout(Some(Duration::from_millis(ms)))?;
            self.waits_ms = ms;
        }
        Ok(())
    }

    /// Writes what is taken to the end of the call.
    fn write_in_time(&mut self, piece: &[u8]) -> Result<usize, LinkErr>
        ensures within { IfOk result (λ n. n ≤ length piece.now) }
        ensures faults { self.new.faults ≡ self.old.faults }
    {
        for _ in 0..LOOKS {
            let ms = self.caller.wait_ms(self.end);
            if ms == 0 {
                return Err(LinkErr::Expired);
            }
            if let Err(error) = self.set_wait(ms) {
                return Err(cause_of(&error));
            }
            match write_once(&self.stream, piece) {
                Ok(n) => return Ok(n),
                Err(error) if is_not_yet(&error) => {}
                Err(error) => return Err(cause_of(&error)),
            }
        }
        Err(LinkErr::Expired)
    }
}

impl Sink for CallSink {
    ghost contents = { λ _. None };

    ghost faults = { λ s. s.faults };

    fn write(&mut self, piece: &[u8]) -> Result<usize, Failed> {
        match self.write_in_time(piece) {
            Ok(n) if n > 0 => Ok(n),
            Ok(_) => {
                self.cause = LinkErr::Failed;
                Err(self.faults.fail())
            }
            Err(cause) => {
                self.cause = cause;
                Err(self.faults.fail())
            }
        }
    }
}

fn read_once(stream: &TcpStream, into: &mut [u8]) -> io::Result<usize>
    ensures { IfOk result (λ n. n ≤ length into.new) }
{
    let mut stream = stream;
    stream.read(into)
}

fn write_once(stream: &TcpStream, piece: &[u8]) -> io::Result<usize>
    ensures { IfOk result (λ n. n ≤ length piece.now) }
{
    let mut stream = stream;
    stream.write(piece)
}

/// What an error of the host means for a call: want of memory where it is that, and else a failure. None is an expiry, which only the end of the
/// call's time is.
pub(crate) fn cause_of(error: &io::Error) -> LinkErr
    ensures no_expiry { result ≢ Expired }
    ensures lacks { result ≡ NoMemory → error_kind error.now ≡ ErrorKind.OutOfMemory }
{
    match error.kind() {
        ErrorKind::OutOfMemory => LinkErr::NoMemory,
        _ => LinkErr::Failed,
    }
}
