ghost use Rattle.std.specs.Prelude.{◌≡◌, IfOk};

use side_base::{Blob, NoMemory};

/// What a key has, lent by its keeper.
#[derive(Clone, Copy, Debug)]
pub struct RowView<'a> {
    /// The value, byte for byte.
    pub value: &'a [u8],
    /// The number of the write that stored it, from 1, which no other write of the store has.
    pub version: u64,
    /// The moment from which on the row is no longer live, in milliseconds since 1970; 0 is never. It may lie past the greatest
    /// `Moment`.
    pub until: u64,
    /// The value as it is kept.
    pub(crate) kept: &'a Blob,
    ghost same: { kept.now ≡ value.now },
}

impl RowView<'_> {
    /// A copy of the value; one of 4 KiB or more is shared, and costs the same whatever its length.
    pub fn copy_value(&self) -> Result<Blob, NoMemory>
        ensures { IfOk result (λ copy. copy ≡ self.now.value.now) }
    {
        self.kept.copy()
    }
}
