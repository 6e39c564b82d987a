//! JSON read exactly (RFC 8259): where a text goes wrong, and what it holds as spans of its own bytes.
#![tactic(auto)]

mod commas;
mod cursor;
mod doc;
mod error;
mod kinds;
mod last;
pub mod laws;
mod levels;
mod packed;
mod parse;
mod part;
mod reader;
mod shown;
mod spot;
mod told;

pub use commas::push_comma;
pub use doc::{Doc, Node};
pub use error::JsonErr;
pub use json_lexemes::{Kind, TextBytes, push_string, push_string_of};
pub use last::{Member, Members};
pub use parse::read;
