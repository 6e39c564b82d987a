ghost use Rattle.std.specs.Prelude.{◌≡◌, ◌+◌, ◌<◌, ◌≤◌, ◌^◌};
ghost use Rattle.ledger_core.specs.Size.{exceeds, new_rows, new_bytes};

use crate::Aims;

/// The greatest number of rows of a ledger.
pub const MOST_ROWS: u128 = 65_536;

/// The greatest number of bytes of the events and paths of all rows of a ledger; an event counts once for each of its rows.
pub const MOST_BYTES: u128 = 268_435_456;

/// What rows take.
#[derive(Clone, Copy, Debug)]
pub(crate) struct Size {
    pub(crate) rows: u128,
    pub(crate) bytes: u128,
}

impl Size {
    /// Whether a ledger may not have that much.
    pub(crate) fn is_over(&self) -> bool
        ensures { result ≡ exceeds self.now.rows self.now.bytes }
    {
        self.rows > MOST_ROWS || self.bytes > MOST_BYTES
    }

    /// With the rows of these aims for an event of so many bytes besides.
    pub(crate) fn with(&self, event_len: usize, aims: &Aims) -> Size
        requires event { event_len < 2 ^ 63 }
        requires rows { self.now.rows ≤ 65536 }
        requires bytes { self.now.bytes ≤ 268435456 }
        ensures rows { result.rows ≡ self.now.rows + new_rows aims.now }
        ensures bytes { result.bytes ≡ self.now.bytes + new_bytes event_len aims.now }
    {
        let mut rows = self.rows;
        let mut bytes = self.bytes;
        for i in 0..aims.len() {
            if let Some(path) = &aims.at(i).path {
                rows += 1;
                bytes += event_len as u128 + path.bytes().len() as u128;
            }
        }
        Size { rows, bytes }
    }
}
