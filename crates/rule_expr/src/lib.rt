//! Routing rules of subscriptions: a text is read as a rule, and a rule has one of three values over an event.
//!
//! - Which texts are rules say the productions of `rule_value/specs/Trees.antt` and `IsRule`; where another text leaves them say the table
//!   of `specs/Places.antt` and `IsRefused`. A text that is a rule is refused nowhere, and none is refused twice (`laws`).
//! - The value of a rule is that of its tree, and stands in the crate below (`rule_value/specs/Values.antt`).
#![tactic(auto)]

mod error;
pub mod laws;
mod parser;
mod place;
mod productions;
mod quotes;
mod rule_text;
mod seen;
mod stop;

pub use error::RuleErr;
pub use rule_text::parse;
pub use rule_value::{Expr, Truth, matches};
