//! One connection: the requests of a stream of bytes are answered in order.
//!
//! - `handler` is what answers a request, and `serving` the way of a connection over any handler, source and sink.
//!   - `answering` answers one request, and `wanting` reads more bytes.
//!   - `ending` sends what is left where a session ends.
//! - `buffers` is what is kept from one connection to the next.
#![tactic(auto)]

mod answering;
mod buffers;
mod ended;
mod ending;
mod handler;
mod serving;
mod wanting;

pub use buffers::Buffers;
pub use ended::Ended;
pub use handler::Handler;
pub use serving::serve;
