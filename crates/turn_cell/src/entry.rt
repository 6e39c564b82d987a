/// One step of an object, as its history has it. It stands in contracts alone: no program makes one.
pub struct Entry<C, R> {
    /// The number of the seat that called.
    pub seat: u64,
    /// The command.
    pub cmd: C,
    /// The reply that the caller got.
    pub reply: R,
    /// What the object's `mark` was after the step.
    pub mark: u64,
}
