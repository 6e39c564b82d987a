//! Clients over loopback.
use net_edge::TcpDoor;
use std::alloc::Global;
use std::io::{self, ErrorKind, Read, Write};
use std::net::{Ipv4Addr, Net, SocketAddrV4, TcpListener, TcpStream};
use std::thread::sleep;
use std::time::{Clock, Duration};

/// For how long a client waits for an answer, in milliseconds: only a test that fails waits so long.
const ANSWER_LIMIT_MS: u64 = 20_000;

/// How often a client tries to connect, 5 milliseconds apart.
const TRIES: u32 = 4_000;

/// A port at which nobody listens.
pub(crate) fn free_port<R: Net<Listener = TcpListener, Stream = TcpStream> + AllocGlobal>(
    rt: &R,
) -> io::Result<u16> {
    TcpDoor::open(rt, 0)?.port()
}

/// A client of a program that begins to listen at this port by and by.
fn connect<R: Net<Listener = TcpListener, Stream = TcpStream> + Clock>(
    rt: &R,
    port: u16,
) -> io::Result<TcpStream> {
    for _ in 0..TRIES {
        if let Ok(client) = TcpStream::connect(rt, SocketAddrV4::new(Ipv4Addr::LOCALHOST, port)) {
            client.set_read_timeout(Some(Duration::from_millis(ANSWER_LIMIT_MS)))?;
            client.set_nodelay(true)?;
            return Ok(client);
        }
        sleep(rt, Duration::from_millis(5));
    }
    Err(io::Error::from(ErrorKind::ConnectionRefused))
}

/// So many clients.
pub(crate) fn crowd<R: Net<Listener = TcpListener, Stream = TcpStream> + Clock>(
    rt: &R,
    alloc: Global,
    port: u16,
    count: u32,
) -> io::Result<Vec<TcpStream>> {
    let mut clients = Vec::new(alloc);
    for _ in 0..count {
        clients.push(connect(rt, port)?)?;
    }
    Ok(clients)
}

/// Has each client send this request.
pub(crate) fn all_send(clients: &mut [TcpStream], request: &[u8]) -> io::Result<()> {
    for client in clients {
        client.write_all(request)?;
    }
    Ok(())
}

/// How many clients are answered so, each of which waits for its answer.
pub(crate) fn all_read(clients: &mut [TcpStream], answer: &[u8]) -> io::Result<u32> {
    let mut answered = 0u32;
    for client in clients {
        if reads(client, answer)? {
            answered = answered.saturating_add(1);
        }
    }
    Ok(answered)
}

/// Whether a client is answered so, by 100 bytes at most.
fn reads(client: &mut TcpStream, answer: &[u8]) -> io::Result<bool> {
    let mut piece = [0u8; 100];
    let room = &mut piece[..answer.len().min(100)];
    client.read_exact(room)?;
    Ok(&*room == answer)
}
