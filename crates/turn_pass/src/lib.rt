//! Passes: a seat of each cell of a list, all of them started, split off, met and closed together; and whether one of them found its cell exhausted.
#![tactic(auto)]

mod closing;
mod counting;
mod meeting;
mod splitting;
mod starting;

pub use closing::close_each;
pub use counting::count_shown;
pub use meeting::meet_each;
pub use splitting::split_each;
pub use starting::start_each;
