//! The outside as the other crates see it: where bytes come from and where they go, with a count of faults for each.
#![tactic(auto)]

mod acceptor;
mod bytes_source;
mod clock;
mod disk;
mod failed;
mod files;
mod gate;
mod link;
mod names;
mod outside;
mod reading;
mod sending;
mod sink;
mod source;

pub use acceptor::{Accepted, Acceptor};
pub use bytes_source::BytesSource;
pub use clock::{Clock, Tick};
pub use disk::Disk;
pub use failed::Failed;
pub use files::{Files, FilesCall, FilesErr};
pub use gate::{FreeGate, Gate, Point};
pub use link::{Link, LinkCall, LinkErr};
pub use names::yaml_names;
pub use outside::{Outside, OutsideCall, WorkerParts};
pub use reading::{GatherErr, gather};
pub use sending::send;
pub use sink::Sink;
pub use source::Source;
