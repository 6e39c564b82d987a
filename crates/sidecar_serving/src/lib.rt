//! Serving: workers over the connections of an outside, each with a pass of its own over the shared objects.
//!
//! - `serving` is what one worker works with, `due` what it has to do next, and `working` makes a work of it; `ending` says how it goes on after a connection or a
//!   turn.
//! - `opening` makes the workers, `running` runs them, and `meeting` takes them back; `server` does one after the other, and `end` is how that ended.
#![tactic(auto)]

mod due;
mod end;
mod ending;
mod meeting;
mod opening;
mod running;
mod server;
mod serving;
mod telling;
mod working;

pub use end::End;
pub use server::serve;
