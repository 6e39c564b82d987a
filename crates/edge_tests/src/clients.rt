//! Clients of a door, one by one.
use std::io::{self, Read, Write};
use std::net::{Ipv4Addr, Net, SocketAddrV4, TcpListener, TcpStream};
use std::time::Duration;

/// For how long a client waits for an answer, in milliseconds: only a test that fails waits so long.
const ANSWER_LIMIT_MS: u64 = 20_000;

/// A client of a door.
pub(crate) fn connect<R: Net<Listener = TcpListener, Stream = TcpStream>>(
    rt: &R,
    port: u16,
) -> io::Result<TcpStream> {
    let client = TcpStream::connect(rt, SocketAddrV4::new(Ipv4Addr::LOCALHOST, port))?;
    client.set_read_timeout(Some(Duration::from_millis(ANSWER_LIMIT_MS)))?;
    client.set_nodelay(true)?;
    Ok(client)
}

/// A client that has sent half a request.
fn connect_with_half<R: Net<Listener = TcpListener, Stream = TcpStream>>(
    rt: &R,
    port: u16,
) -> io::Result<TcpStream> {
    let mut client = connect(rt, port)?;
    client.write_all(b"@half")?;
    Ok(client)
}

/// Adds so many clients, each of which has sent half a request.
pub(crate) fn add_halves<R: Net<Listener = TcpListener, Stream = TcpStream>>(
    rt: &R,
    port: u16,
    count: usize,
    clients: &mut Vec<TcpStream>,
) -> io::Result<()> {
    for _ in 0..count {
        clients.push(connect_with_half(rt, port)?)?;
    }
    Ok(())
}

/// Whether all of these bytes were sent.
pub(crate) fn sends(client: &mut TcpStream, bytes: &[u8]) -> bool {
    client.write_all(bytes).is_ok()
}

/// Whether so many bytes were sent.
pub(crate) fn sends_many(client: &mut TcpStream, count: usize) -> bool {
    for _ in 0..count {
        if !sends(client, b"@") {
            return false;
        }
    }
    true
}

/// How many bytes a client reads, in one piece.
pub(crate) fn piece_of(client: &mut TcpStream) -> io::Result<usize> {
    let mut piece = [0u8; 100];
    client.read(&mut piece)
}
