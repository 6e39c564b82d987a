//! The outside in memory, for tests and trials: devices that tell everything, and fail at the calls that they are told to.
#![tactic(auto)]

mod copying;
mod disk_places;
mod file_search;
mod memory_acceptor;
mod memory_clock;
mod memory_files;
mod memory_link;
mod memory_outside;
mod memory_sink;
mod memory_source;
mod notes;
mod worker_backs;
mod worker_script;

pub use disk_memory::{MemoryDisk, Sizes, Tear};
pub use memory_acceptor::{
    AcceptorAnswer, AcceptorAnswers, AcceptorNote, MemoryAcceptor, Visit, Visited,
};
pub use memory_clock::{MemoryClock, Steps};
pub use memory_files::MemoryFiles;
pub use memory_link::{LinkAnswers, MemoryLink};
pub use memory_outside::{MemoryOutside, Numbers};
pub use memory_sink::MemorySink;
pub use memory_source::MemorySource;
pub use worker_script::{MemoryParts, WorkerScript};
