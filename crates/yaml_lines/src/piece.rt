ghost use Rattle.std.specs.Prelude.{◌≡◌, ◌≤◌, length};

/// At most four bytes of a text.
#[derive(Clone, Copy)]
pub(crate) struct Piece {
    pub bytes: [u8; 4],
    pub len: usize,
    ghost short: { len ≤ 4 },
    ghost room: { length bytes ≡ 4 },
}
