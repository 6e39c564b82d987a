/// What a part of a file is.
#[derive(Clone, Copy, Debug, PartialEq, Eq)]
pub enum PartKind {
    /// A text: plain, quoted or a literal block.
    Scalar,
    /// Items in order.
    Sequence,
    /// Values under names.
    Mapping,
    /// A value that is absent, `~` or plain `null`.
    Empty,
}
