/// What a rule answers of an event.
#[derive(Clone, Copy, Debug, PartialEq, Eq)]
pub enum Truth {
    /// Its value is true.
    Yes,
    /// Its value is false.
    No,
    /// Its value is no truth value.
    Error,
}
