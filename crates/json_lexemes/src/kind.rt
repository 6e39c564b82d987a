/// What a value is (RFC 8259, section 3).
#[derive(Clone, Copy, Debug, PartialEq, Eq)]
pub enum Kind {
    /// `null`.
    Null,
    /// `true` or `false`.
    Flag { on: bool },
    /// A number, whose spelling is its span.
    Number,
    /// A string.
    Text,
    /// An array.
    List,
    /// An object.
    Map,
}
