/// What becomes of a message that was delivered.
#[derive(Clone, Copy, Debug, PartialEq, Eq)]
pub enum Verdict {
    /// It is done.
    Success,
    /// It is delivered again.
    Retry,
    /// It is given up.
    Drop,
}
