//! The objects that all requests share, each in a cell of its own; passes over them; and what is done by a pass, as events.
//!
//! - `objects` has the cells, and a pass: a seat of each; `passing` starts the cells, splits passes off, meets them and ends the cells.
//! - `doing` has what is done for a request, as events, and `kinds` what the objects are, as contracts see them.
//!
//! In contracts an object is known by its kind and its place among those of its kind (`specs/Kind.antt`), and what is said of a pass is said of each kind.
#![tactic(auto)]

mod doing;
mod kinds;
mod objects;
mod passing;

pub use doing::{Doing, SlotStep};
pub use kinds::ObjectKinds;
pub use objects::{Objects, Pass};
