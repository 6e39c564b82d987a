//! The words of the command line, and what they mean.
//!
//! An option is `--name`, and its value is the next word, which then begins with no `-`, or follows `=` in the same word. Each
//! name stands at most once, in any order.
//!
//! | option | value | without it |
//! |---|---|---|
//! | `--app-id` | 1 to 64 ASCII letters, digits, `-` or `_` | refused |
//! | `--resources-path` | a folder, not empty | none; `--check` needs it |
//! | `--dapr-http-port` | 1 to 65535, in decimal digits without a leading zero | 3500 |
//! | `--workers` | 1 to 64, likewise | 4 |
//! | `--peers` | 1 to 256 items `id=host:port`, joined by `,`: ids as `--app-id` has them, each once and none of them this app's; hosts of 1 to 253 ASCII letters, digits, `.` or `-` | no peers |
//! | `--drill` | `a,n` in decimal digits: `a` below 2^64, and `n` at most 99,999 | no drill |
//! | `--stdio`, `--check` or `--drill` | at most one of the three stands; the first two have no value | serving |
#![tactic(auto)]

mod checking;
mod command;
mod drilling;
mod given;
pub mod laws;
mod reading;

pub use given::{Mode, Words, WordsErr};
pub use reading::read_words;
