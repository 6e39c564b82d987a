//! How a connection ends whose peer sends still: what it sends is read and dropped, so that it reads the last response and no reset.
use crate::connection::read_now;
use std::net::TcpStream;

/// How many pieces are read at once, before others have their turn.
const PIECES_AT_ONCE: u32 = 16;

/// What became of a connection that has ended.
#[derive(Clone, Copy)]
pub(crate) enum Parted {
    /// Its peer sends no more, or enough was read of it.
    Over,
    /// Nothing more is there now.
    Quiet { left: u64 },
    /// There is more at once.
    More { left: u64 },
}

/// Reads and drops some of what the peer of a connection sends, of which so many bytes more are to be read at most.
pub(crate) fn read_on(stream: &TcpStream, left: u64) -> Parted {
    let mut piece = [0u8; 16384];
    let mut left = left;
    for _ in 0..PIECES_AT_ONCE {
        match read_now(stream, &mut piece) {
            Ok(Some(n)) if n > 0 && (n as u64) < left => left -= n as u64,
            Ok(None) => return Parted::Quiet { left },
            _ => return Parted::Over,
        }
    }
    Parted::More { left }
}
