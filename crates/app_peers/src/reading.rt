ghost use Rattle.std.specs.Prelude.{◌≡◌, ◌≢◌, ◌↔◌, ◌≤◌, ◌<◌, ℕ, List, [], ◌∷◌, ◌++◌, All, length, IfOk, OnOk, IfSome, IfNone, IsErrOf, IsTrue, option_copied, Ok};
ghost use Rattle.std.specs.List.{slice_split};
ghost use Rattle.app_peers.specs.declared.peer.Peer.{Peer as PeerRecord};
ghost use Rattle.app_peers.specs.declared.reading.PeersErr.TheVariants as errors;
ghost use Rattle.app_peers.specs.Peers.{IsPeers, Writes, IsId, IsHost, IsPort, is_id_byte, is_host_byte, is_comma, items_behind};
ghost use Rattle.app_peers.specs.Parts.{AreParts, IsCut, IsNew, IsPlace, Lacks, WritesPlace};

use crate::{Peer, PeerList};
use side_base::Text;
use std::alloc::{AllocError, Global};
use std::error::Error;
use std::fmt;

/// The most apps that a list may have.
pub const PEERS_LIMIT: usize = 256;

const ID_LIMIT: usize = 64;

const HOST_LIMIT: usize = 253;

/// Why a list of apps was not read.
#[derive(Clone, Copy, Debug, PartialEq, Eq)]
pub enum PeersErr {
    /// The text lists no apps: an item isn't of the form, an id stands twice or is the own one, or there are more than `PEERS_LIMIT`.
    NoList,
    /// There is no memory.
    NoMemory,
}

impl fmt::Display for PeersErr {
    fn fmt<W: fmt::Write>(&self, f: &mut fmt::Formatter<W>) -> fmt::Result {
        f.write_str(match self {
            PeersErr::NoList => "no list of apps",
            PeersErr::NoMemory => "no memory",
        })
    }
}

impl Error for PeersErr {}

impl From<AllocError> for PeersErr {
    ghost from_gives = { λ _ error. error ≡ errors.NoMemory };

    fn from(_error: AllocError) -> PeersErr {
        PeersErr::NoMemory
    }
}

/// What an item writes, as parts of it.
#[derive(Clone, Copy)]
struct Parts<'a> {
    id: &'a str,
    host: &'a str,
    port: u16,
}

/// The apps that `text` lists: 1 to 256 items `id=host:port`, joined by `,`, no two of one id and none of the id `own`.
///
/// A text that lists apps is read, and any other is `NoList`; want of memory may stand in place of either.
pub fn read_peers(alloc: Global, own: &str, text: &str) -> Result<PeerList, PeersErr>
    ensures ok { IfOk result (IsPeers own.now text.now) }
    ensures only { (peers : List PeerRecord) → IsPeers own.now text.now peers → IfOk result (λ read. read ≡ peers) }
    ensures no_list { IsErrOf result PeersErr.NoList → (peers : List PeerRecord) → ¬ IsPeers own.now text.now peers }
{
    let mut peers = PeerList::new(alloc);
    let mut rest = Some(text);
    while let Some(left) = rest {
        let (item, behind) = first_item(left);
        if peers.len() == PEERS_LIMIT {
            return Err(PeersErr::NoList);
        }
        match add(alloc, own, item, &mut peers) {
            Ok(()) => rest = behind,
            Err(error) => return Err(error),
        }
    }
    Ok(peers)
}

/// What stands before the first comma, and what stands behind it; `None` where there is no comma.
fn first_item(text: &str) -> (&str, Option<&str>)
    ensures items { slice_split is_comma text.now ≡ result.0.now ∷ items_behind (option_copied result.1) }
    ensures shorter { IfSome result.1 (λ behind. length behind.now < length text.now) }
{
    match cut_at(text, ',') {
        Some(parts) => (parts.front, Some(parts.back)),
        None => (text, None),
    }
}

/// What stands before a mark and behind it.
#[derive(Clone, Copy)]
struct Cut<'a> {
    front: &'a str,
    back: &'a str,
}

/// Cuts a text at its first ASCII character of this kind; `None` where there is none.
fn cut_at(text: &str, mark: char) -> Option<Cut<'_>>
    requires { mark < 128 }
    ensures some { IfSome result (IsCut mark text.now) }
    ensures none { IfNone result (Lacks mark text.now) }
{
    match text.split_once(mark) {
        Some((front, back)) => Some(Cut { front, back }),
        None => None,
    }
}

/// Adds the app that an item writes, where it is a new one.
fn add(alloc: Global, own: &str, item: &str, peers: &mut PeerList) -> Result<(), PeersErr>
    ensures ok { OnOk result ((peer : PeerRecord) × Writes item.now peer × IsNew own.now peers.old peer.id × (peers.new ≡ peers.old ++ peer ∷ [])) }
    ensures no_list { IsErrOf result PeersErr.NoList → (peer : PeerRecord) → Writes item.now peer → ¬ IsNew own.now peers.old peer.id }
{
    let parts = match parts_of(item) {
        Some(parts) => parts,
        None => return Err(PeersErr::NoList),
    };
    if !is_new(own, peers, parts.id) {
        return Err(PeersErr::NoList);
    }
    peers.push(Peer {
        id: Text::from_str(alloc, parts.id)?,
        host: Text::from_str(alloc, parts.host)?,
        port: parts.port,
    })?;
    Ok(())
}

/// Whether an id isn't the own one, and stands in none of these.
fn is_new(own: &str, peers: &PeerList, id: &str) -> bool
    ensures { IsTrue result ↔ IsNew own.now peers.now id.now }
{
    for i in 0..peers.len() {
        if peers.at(i).id.bytes() == id.as_bytes() {
            return false;
        }
    }
    id != own
}

/// What an item writes.
fn parts_of(item: &str) -> Option<Parts<'_>>
    ensures some { IfSome result (AreParts item.now) }
    ensures none { IfNone result ((peer : PeerRecord) → ¬ Writes item.now peer) }
{
    let named = match cut_at(item, '=') {
        Some(named) => named,
        None => return None,
    };
    if !is_id(named.front.as_bytes()) {
        return None;
    }
    place_of(named.front, named.back)
}

/// What `host:port` behind an id writes.
fn place_of<'a>(id: &'a str, place: &'a str) -> Option<Parts<'a>>
    ensures some { IfSome result (IsPlace id.now place.now) }
    ensures none { IfNone result ((host digits : List ℕ) (port : ℕ) → ¬ WritesPlace place.now host digits port) }
{
    let parts = match cut_at(place, ':') {
        Some(parts) => parts,
        None => return None,
    };
    if !is_host(parts.front.as_bytes()) {
        return None;
    }
    match port(parts.back) {
        Some(port) => Some(Parts {
            id,
            host: parts.front,
            port,
        }),
        None => None,
    }
}

fn is_id(text: &[u8]) -> bool
    ensures { IsTrue result ↔ IsId text.now }
{
    !text.is_empty() && text.len() <= ID_LIMIT && text.iter().all(|byte| is_id_byte(*byte))
}

fn is_id_byte(byte: u8) -> bool
    ensures { result ≡ is_id_byte byte }
{
    byte.is_ascii_alphanumeric() || byte == b'-' || byte == b'_'
}

fn is_host(text: &[u8]) -> bool
    ensures { IsTrue result ↔ IsHost text.now }
{
    !text.is_empty() && text.len() <= HOST_LIMIT && text.iter().all(|byte| is_host_byte(*byte))
}

fn is_host_byte(byte: u8) -> bool
    ensures { result ≡ is_host_byte byte }
{
    byte.is_ascii_alphanumeric() || byte == b'.' || byte == b'-'
}

/// The port that digits write.
fn port(digits: &str) -> Option<u16>
    ensures some { IfSome result (IsPort digits.now) }
    ensures none { IfNone result ((port : ℕ) → ¬ IsPort digits.now port) }
{
    let bytes = digits.as_bytes();
    if bytes.is_empty() || bytes[0] == b'0' || bytes[0] == b'+' {
        return None;
    }
    match digits.parse::<u16>() {
        Ok(port) if port >= 1 => Some(port),
        _ => None,
    }
}
