//! The value of a routing rule over an event.
//!
//! - A rule is a tree (`specs/Trees.antt`), and its value goes by the tree's structure (`specs/Values.antt`).
//! - It is kept as steps that compute that value (`specs/Codes.antt`), operands before what is made of them.
#![tactic(auto)]

mod answer;
mod compare;
mod expr;
mod op;
mod operand;
mod part;
mod stack;
mod truth;
mod value;
pub mod whole;

pub use answer::matches;
pub use expr::Expr;
pub use op::{Op, Path};
pub use operand::next_of;
pub use part::{Call, Part, Relation, Seen, Whole, Word};
pub use truth::Truth;
