//! The program: its words become a command, which is run over the world that is given to it.
//!
//! - `world` is all that a run has of the outside, and `status` how it ends, with the line that the note gets.
//! - `running` runs the command: `configuring` reads what is configured, `subscribing` asks the app for its list, `checking` says how much that is, and `playing` answers the requests
//!   of one connection, and delivers what is due behind them, over the objects that `starting` made; `drilling` answers generated ones; behind it `counting` tells the note what each ledger counts. `noting` writes a part of a line.
//! - `laws` are what holds of a run, as functions whose contract is the law.
#![tactic(auto)]

mod checking;
mod configuring;
mod counting;
mod drilling;
pub mod laws;
mod noting;
mod playing;
mod running;
mod serving;
mod starting;
mod status;
mod subscribing;
mod world;

pub use running::sidecar_main;
pub use status::{Device, Input, Status};
pub use world::World;
