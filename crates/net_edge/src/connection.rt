ghost use Rattle.std.specs.Prelude.{◌≡◌, ◌≤◌, ◌↔◌, ◌⊎◌, true, length, IfOk, IfSome};
ghost use Rattle.std.specs.IoError.{error_kind};

use crate::door::Door;
use crate::pace::Pace;
use crate::waiting::{now_ms, wait_for_bytes, wait_for_room};
use std::io::{self, ErrorKind, Read, Write};
use std::net::{Shutdown, TcpStream};
use std::os::fd::AsRawFd;

/// How often a peer is looked for within one read or write.
const LOOKS: u32 = 100_000;

/// How many pieces of unread input are read before a connection is closed, so that the peer gets the last response and no reset. One
/// of which more is there at that moment than these 65,536 bytes, or that sends more afterwards, may get the reset first.
const PIECES_DROPPED: u32 = 16;

/// Reads what is there; `None` where nothing is yet. No bytes are the end of the input.
pub(crate) fn read_now(stream: &TcpStream, into: &mut [u8]) -> io::Result<Option<usize>>
    ensures { IfOk result (λ found. IfSome found (λ n. n ≤ length into.new)) }
{
    let mut stream = stream;
    match stream.read(into) {
        Ok(n) => Ok(Some(n)),
        Err(error) if is_not_yet(&error) => Ok(None),
        Err(error) => Err(error),
    }
}

/// Reads what comes in time from a peer that keeps this pace; nothing where it doesn't. The worker with this bit waits for it.
pub(crate) fn read_in_time(
    door: &Door,
    worker: u64,
    stream: &TcpStream,
    pace: &mut Pace,
    into: &mut [u8],
) -> io::Result<usize>
    ensures { IfOk result (λ n. n ≤ length into.new) }
{
    if let Some(n) = read_now(stream, into)? {
        return Ok(n);
    }
    door.begin_wait(worker, stream);
    let outcome = await_bytes(door, stream, pace, into);
    door.end_wait(worker);
    outcome
}

fn await_bytes(
    door: &Door,
    stream: &TcpStream,
    pace: &mut Pace,
    into: &mut [u8],
) -> io::Result<usize>
    ensures { IfOk result (λ n. n ≤ length into.new) }
{
    for _ in 0..LOOKS {
        let ms = door.patience(pace);
        if ms == 0 {
            return Ok(0);
        }
        let begin = now_ms();
        wait_for_bytes(stream.as_raw_fd(), ms);
        pace.wait(now_ms().saturating_sub(begin));
        if let Some(n) = read_now(stream, into)? {
            return Ok(n);
        }
    }
    Ok(0)
}

/// Writes what there is room for; `None` where there is none yet.
fn write_now(stream: &TcpStream, piece: &[u8]) -> io::Result<Option<usize>>
    ensures { IfOk result (λ taken. IfSome taken (λ n. n ≤ length piece.now)) }
{
    let mut stream = stream;
    match stream.write(piece) {
        Ok(n) => Ok(Some(n)),
        Err(error) if is_not_yet(&error) => Ok(None),
        Err(error) => Err(error),
    }
}

/// Writes what the peer takes in time, which keeps this pace; nothing where it doesn't take any. The worker with this bit waits
/// for it.
pub(crate) fn write_in_time(
    door: &Door,
    worker: u64,
    stream: &TcpStream,
    pace: &mut Pace,
    piece: &[u8],
) -> io::Result<usize>
    ensures { IfOk result (λ n. n ≤ length piece.now) }
{
    if let Some(n) = write_now(stream, piece)? {
        return Ok(n);
    }
    door.begin_wait(worker, stream);
    let outcome = await_room(door, stream, pace, piece);
    door.end_wait(worker);
    outcome
}

fn await_room(door: &Door, stream: &TcpStream, pace: &mut Pace, piece: &[u8]) -> io::Result<usize>
    ensures { IfOk result (λ n. n ≤ length piece.now) }
{
    for _ in 0..LOOKS {
        let ms = door.patience(pace);
        if ms == 0 {
            return Ok(0);
        }
        let begin = now_ms();
        wait_for_room(stream.as_raw_fd(), ms);
        pace.wait(now_ms().saturating_sub(begin));
        if let Some(n) = write_now(stream, piece)? {
            return Ok(n);
        }
    }
    Ok(0)
}

/// Ends what is sent, and drops some of what the peer still sends. Whether it may send more.
pub(crate) fn part_with(stream: &TcpStream) -> bool {
    if stream.shutdown(Shutdown::Write).is_err() {
        return false;
    }
    let mut piece = [0u8; 4096];
    for _ in 0..PIECES_DROPPED {
        match read_now(stream, &mut piece) {
            Ok(Some(n)) if n > 0 => {}
            Ok(None) => return true,
            _ => return false,
        }
    }
    true
}

/// Whether nothing was there, or a signal came before: no other error of a connection is tried again.
pub(crate) fn is_not_yet(error: &io::Error) -> bool
    ensures { result ≡ true ↔ ((error_kind error.now ≡ ErrorKind.WouldBlock) ⊎ (error_kind error.now ≡ ErrorKind.Interrupted)) }
{
    matches!(error.kind(), ErrorKind::WouldBlock | ErrorKind::Interrupted)
}
