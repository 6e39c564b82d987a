//! Cases: texts that say what is given and what must come of it. A case begins on a line with `== ` and what it shows, and each of
//! its sections on a line with `-- ` and what it is; their texts are the lines below. Escapes in them are undone.
//!
//! - `piece` cuts a text at marked lines, `section` a case into its sections, `escape` undoes escapes.
//! - `laws` are theorems on the definitions that the contracts cite.
//! - `lines` is what is said of a case that differs.
//! - `tally` counts the cases, and keeps what is said of those that differ.
//! - `player` plays the cases of files, whole or line by line.
//! - `words` has small functions that several programs use.
#![tactic(auto)]

mod escape;
pub mod laws;
mod lines;
mod piece;
mod player;
mod section;
mod tally;
mod words;

pub use escape::unescaped;
pub use lines::Lines;
pub use piece::{Piece, pieces, without_blank_end};
pub use player::{Answerer, Player, play_cases, play_lines};
pub use section::{Section, add_broken, joined_text, name_in, said, sections, text_of};
pub use tally::Tally;
pub use words::{first_word, long_number_in, number_in, push_numbered, push_times};

/// What the line of a case begins with.
pub const CASE: &[u8] = b"== ";

/// What the line of a section begins with.
const SECTION: &[u8] = b"-- ";
