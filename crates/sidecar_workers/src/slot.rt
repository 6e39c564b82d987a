use crate::{Exit, StopSeat};

/// A worker: its number, its work, its seat of the stop word, and how it ended.
#[derive(Drop)]
pub struct Slot<W> {
    pub number: u32,
    pub work: W,
    pub seat: StopSeat,
    /// `None` until it has run.
    pub exit: Option<Exit>,
}
