ghost use Rattle.std.specs.Prelude.{◌≡◌, option_copied};
ghost use Rattle.app_peers.specs.Peers.{peer_of};

use side_base::{Sequence, Text};

/// Another app, and where it is reached.
#[derive(Debug, Drop)]
pub struct Peer {
    /// Its id: 1 to 64 ASCII letters, digits, `-` or `_`.
    pub id: Text,
    /// A host name or an IP address: 1 to 253 ASCII letters, digits, `.` or `-`.
    pub host: Text,
    /// Its port, 1 to 65535.
    pub port: u16,
}

/// A list of apps, in the order in which they were given.
pub type PeerList = Sequence<Peer>;

/// The first app of this id; `None` exactly where there is none. Takes no memory.
#[tactic(auto, unfolding(crate::specs::Peers::peer_of))]
pub fn peer_of<'a>(peers: &'a PeerList, id: &[u8]) -> Option<&'a Peer>
    ensures { option_copied result ≡ peer_of peers.now id.now }
{
    for i in 0..peers.len() {
        let peer = peers.at(i);
        if peer.id.bytes() == id {
            return Some(peer);
        }
    }
    None
}
