//! The devices of the host: thin forms over std of what the other crates see of its files, its clock, and its standard input and output.
//! They tell no content.
#![tactic(auto)]

mod fault_count;
mod host_clock;
mod host_disk;
mod host_files;
mod no_link;
mod std_sink;
mod std_source;

pub use fault_count::FaultCount;
pub use host_clock::HostClock;
pub use host_disk::HostDisk;
pub use host_files::HostFiles;
pub use no_link::NoLink;
pub use std_sink::StdSink;
pub use std_source::StdSource;
