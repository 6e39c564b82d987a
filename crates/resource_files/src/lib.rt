//! A folder of resource files becomes what its files say together.
//!
//! The files are read in the order of their names. Of each file the documents are read first, then its components, then its
//! policies, then its subscriptions if they are asked for, each joined to those of the files before it. The first refusal decides, and nothing is read behind it.
#![tactic(auto)]

mod adding;
mod defaults;
mod reading;
mod resources;
mod telling;

pub use defaults::usual_resources;
pub use reading::read_resources;
pub use resources::{Refusal, Resources, ResourcesErr};
pub use telling::refusal_text;
