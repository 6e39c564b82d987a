use json_lexemes::Kind;

/// The bytes from place `start` up to place `end`.
#[derive(Clone, Copy, Debug)]
pub struct Span {
    pub start: usize,
    pub end: usize,
}

/// A value without what it holds: its kind, its bytes and, for a member of a map, the bytes of its name with the quotes.
#[derive(Clone, Copy, Debug)]
pub struct Spot {
    pub kind: Kind,
    pub span: Span,
    pub name: Option<Span>,
}

/// A value in the list of all: how many lists and maps it stands in, and how many values it makes with all that it holds.
#[derive(Clone, Copy, Debug)]
pub struct Entry {
    pub spot: Spot,
    pub depth: usize,
    pub size: usize,
}
