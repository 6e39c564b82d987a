//! Requests and responses of HTTP/1.1 as bytes (RFC 9112).
//!
//! - `framer` takes requests out of a stream of bytes, in whatever pieces they come; `step` and `refusal` are its answers.
//!   - `turn` takes the next step of a stream: a head, its `100 Continue`, its content.
//!   - `head` reads the head at the front of the bytes, `lines` only what follows its whole lines, `rules` refuses what it may not say, and `target` tells where the
//!     bytes end inside a request target.
//!   - `progress` reads the content that came, by its length or in chunks, as `http_chunks` reads them.
//! - `connection` tells whether the connection ends after a request.
//! - `response` writes a response.
//! - `laws` has what holds of all bytes: that they are one stream in one way, that the answers of a framer are that stream however the bytes were cut, that what
//!   it has given begins the bytes at each moment, and that a request that is written is one whole request.
#![tactic(auto)]

mod connection;
mod framer;
mod head;
pub mod laws;
mod lines;
mod progress;
mod refusal;
mod response;
mod rules;
mod step;
mod target;
mod turn;

pub use connection::closes;
pub use framer::Framer;
pub use refusal::FrameErr;
pub use response::{continue_bytes, push_response};
pub use step::Step;
