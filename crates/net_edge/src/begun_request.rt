//! What a peer has sent of a request of which more has to come.
ghost use Rattle.std.specs.Prelude.{◌≡◌, ◌≤◌, length};
ghost use Rattle.net_edge.specs.AtHand.{IfWaits};

use crate::connection::read_now;
use crate::request_at_hand::{lacks_rest, whole_part};
use std::alloc::Global;
use std::net::TcpStream;

/// The most bytes of it that wait at a door.
const MOST: usize = 65_536;

/// How many bytes are read at once.
const PIECE: usize = 16_384;

/// How many pieces are read at once, before others have their turn.
const PIECES_AT_ONCE: u32 = 4;

/// The bytes that came, some of which a reader has by now.
#[derive(Drop)]
pub(crate) struct BegunRequest {
    alloc: Global,
    bytes: Vec<u8>,
    given: usize,
    ghost within: { given ≤ length bytes.items },
}

/// What became of a connection whose request has begun.
#[derive(Clone, Copy)]
pub(crate) enum Begun {
    /// A worker has to read on: the request may be whole, or is long, or its peer sends no more.
    AtHand,
    /// More has to come.
    Quiet,
    /// More has to come, and some of it may be there.
    More,
    /// There was no memory for what came.
    Lost,
}

impl BegunRequest {
    /// None has begun.
    pub(crate) fn none(alloc: Global) -> Self {
        BegunRequest {
            alloc,
            bytes: Vec::new(alloc),
            given: 0,
        }
    }

    /// Whether none has begun, or a reader has all of it.
    pub(crate) fn is_none(&self) -> bool {
        self.bytes.is_empty()
    }

    /// How many bytes there are.
    pub(crate) fn len(&self) -> usize {
        self.bytes.len()
    }

    /// Lets it go. How many bytes there were.
    pub(crate) fn let_go(&mut self) -> u64 {
        let count = self.bytes.len() as u64;
        if count > 0 {
            *self = BegunRequest::none(self.alloc);
        }
        count
    }

    /// Takes the last request of a piece back from its reader where more of it has to come. How many bytes before it are for the reader now.
    pub(crate) fn take_back(&mut self, piece: &[u8]) -> usize
        ensures { result ≤ length piece.now }
    {
        let count = whole_part(piece);
        if self.bytes.is_empty() && self.bytes.extend_from_slice(&piece[count..]).is_ok() {
            count
        } else {
            piece.len()
        }
    }

    /// Gives a reader what comes next.
    pub(crate) fn give(&mut self, into: &mut [u8]) -> usize
        ensures { result ≤ length into.new }
    {
        let rest = &self.bytes[self.given..];
        let count = rest.len().min(into.len());
        into[..count].copy_from_slice(&rest[..count]);
        if count == rest.len() {
            *self = BegunRequest::none(self.alloc);
        } else {
            self.given += count;
        }
        count
    }

    /// Reads on what the peer sends.
    pub(crate) fn read_on(&mut self, stream: &TcpStream) -> Begun
        ensures { IfWaits result (length self.new.bytes.items ≤ 65536) }
    {
        for _ in 0..PIECES_AT_ONCE {
            match self.read_piece(stream) {
                Begun::More => {}
                other => return other,
            }
        }
        self.unless_long(Begun::More)
    }

    /// Reads on once.
    fn read_piece(&mut self, stream: &TcpStream) -> Begun
        ensures { IfWaits result (length self.new.bytes.items ≤ 65536) }
    {
        let mut piece = [0u8; PIECE];
        match read_now(stream, &mut piece) {
            Ok(Some(n)) if n > 0 => self.add(&piece[..n]),
            Ok(None) => self.unless_long(Begun::Quiet),
            _ => Begun::AtHand,
        }
    }

    /// Adds a piece.
    fn add(&mut self, piece: &[u8]) -> Begun
        ensures { IfWaits result (length self.new.bytes.items ≤ 65536) }
    {
        let seen = self.bytes.len();
        if self.bytes.extend_from_slice(piece).is_err() {
            return Begun::Lost;
        }
        if !lacks_rest(&self.bytes, seen) {
            return Begun::AtHand;
        }
        if piece.len() < PIECE {
            self.unless_long(Begun::Quiet)
        } else {
            self.unless_long(Begun::More)
        }
    }

    /// What becomes of it, but where it is too long to wait.
    fn unless_long(&self, begun: Begun) -> Begun
        ensures { IfWaits result (length self.now.bytes.items ≤ 65536) }
    {
        if self.bytes.len() > MOST {
            Begun::AtHand
        } else {
            begun
        }
    }
}
