ghost use Rattle.std.specs.Prelude.{◌≡◌, []};

use side_base::Blob;
use std::alloc::Global;

/// How many bytes are read at once.
const PIECE: usize = 16_384;

/// Where more responses were gathered than this, their room is given back with them.
const MOST_ROOM: usize = 131_072;

/// What is kept from one connection to the next, so that it need not be made for each: where bytes are read to, and the room of responses.
///
/// Whatever it holds, no connection has anything of it. While no connection is served it has only little room.
#[derive(Drop)]
pub struct Buffers {
    /// Where bytes are read to.
    pub(crate) piece: [u8; PIECE],
    /// Responses that are not sent yet.
    pub(crate) out: Blob,
}

impl Buffers {
    /// Buffers without room for responses; takes no memory.
    pub fn new(alloc: Global) -> Buffers {
        Buffers {
            piece: [0; PIECE],
            out: Blob::new(alloc),
        }
    }
}

/// Removes all responses, and gives a large room back.
pub(crate) fn empty(alloc: Global, out: &mut Blob)
    ensures { out.new ≡ [] }
{
    if out.len() > MOST_ROOM {
        *out = Blob::new(alloc);
    } else {
        out.clear();
    }
}
