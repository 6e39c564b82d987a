//! What the programs that play calls have in common: the link, the clock and the random words of a case in memory, what is bound to the target of
//! its calls, and what came as a text.
//!
//! - `script` and `world` make the link and the clock by what a case says that they answer; `same_word` is one random word for ever.
//! - `bound` has timeouts, retries and a breaker's policy.
//! - `another` has a breaker let another caller's call through.
//! - `told` tells responses, what was asked of the link, and where the clock stands.
//! - `words` has what single words say.
#![tactic(auto)]

mod another;
mod bound;
mod same_word;
mod script;
mod told;
mod words;
mod world;

pub use another::let_another_out;
pub use bound::{bound_in, breaker_in};
pub use same_word::SameWord;
pub use script::body_of;
pub use told::{add_answer, add_asked, add_asked_briefly, add_clock};
pub use words::{moment, number, number_named, request_fields, text};
pub use world::World;
