//! The other apps that may be called by their ids: where each of them is reached, and the text that lists them.
//!
//! - `peer` is an app with its host and its port, the list of them, and the look-up by an id.
//! - `reading` reads the list out of `id=host:port` items that are joined by `,`.
#![tactic(auto)]

mod peer;
mod reading;

pub use peer::{Peer, PeerList, peer_of};
pub use reading::{PEERS_LIMIT, PeersErr, read_peers};
