//! A disk in memory: it notes each write and sync, so that it tells what a crash may leave at each moment. And which calls of a device in
//! memory fail, and how many bytes the others move, for this device and those that stand on it.
//!
//! - What a read gives, and what a crash may leave, are said of the notes (`specs/DiskNotes.antt`).
//! - Which calls fail is said by a plan (`specs/Plan.antt`).
#![tactic(auto)]

mod memory_disk;
mod note;
mod noting;
mod overwriting;
mod schedule;

pub use memory_disk::MemoryDisk;
pub use overwriting::Tear;
pub use schedule::{Schedule, Sizes};
