/// What holds rows: a file its documents, a mapping its members, a sequence its items.
#[derive(Clone, Copy, Debug, PartialEq, Eq)]
pub enum Holder {
    File,
    Mapping,
    Sequence,
}

/// A part that is open, with the column of its rows.
#[derive(Clone, Copy, Debug)]
pub struct Open {
    pub holder: Holder,
    pub column: usize,
}

/// What the last row has so far: nothing, a plain scalar, or another value.
#[derive(Clone, Copy, Debug)]
pub enum Tip {
    Absent,
    Plain,
    Other,
}
