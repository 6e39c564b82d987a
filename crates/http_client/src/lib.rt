//! The client's side of HTTP/1.1: the bytes of a request, and a reply out of the bytes that come.
#![tactic(auto)]

mod asking;
mod chunks;
mod framing;
mod head;
mod incoming;
mod reply;
mod written;

pub use asking::{AskErr, ask};
pub use incoming::ReplyErr;
pub use reply::{Reply, read_reply};
pub use written::{Prepared, prepare};
