//! Connections to other programs that are kept for the next call.
ghost use Rattle.std.specs.Prelude.{◌≡◌, ◌≤◌, ◌<◌, ◌-◌, All, IfSome, IfNone, if◌then◌else◌, [], length, slice_index_or};
ghost use Rattle.net_edge.specs.Calls.{IsElsewhere, AreSingle, AreAmong, young, with_room, with_one_more};

use crate::call_connection::CallConnection;
use side_base::Text;
use std::alloc::Global;

/// How many connections are kept.
const MOST_KEPT: usize = 8;

/// For how many milliseconds one is kept on which there is no call.
const KEPT_MS: u64 = 1_000;

/// Connections that may be used again, at most one to each target, the one that was used last at the end.
#[derive(Drop)]
pub(crate) struct KeptConnections {
    pub(crate) kept: Vec<CallConnection>,
    ghost few: { length kept.items ≤ 8 },
    ghost single: { AreSingle kept.items },
}

impl KeptConnections {
    /// None yet.
    pub(crate) fn new(alloc: Global) -> Self
        ensures { result.kept.items ≡ [] }
    {
        KeptConnections {
            kept: Vec::new(alloc),
        }
    }

    /// Takes the one to this target, if there is one that has idled for less than a second by now. The others that haven't stay.
    #[tactic(auto, using(crate::proofs::KeptLemmas::among_on, crate::proofs::KeptLemmas::among_young, crate::proofs::KeptLemmas::elsewhere_of))]
    pub(crate) fn take(&mut self, host: &Text, port: u16, now: u64) -> Option<CallConnection>
        ensures host { IfSome result (λ it. it.host ≡ host.now) }
        ensures port { IfSome result (λ it. it.port ≡ port) }
        ensures young { IfSome result (λ it. now - it.since < 1000) }
        ensures none { IfNone result (self.new.kept.items ≡ young now self.old.kept.items) }
        ensures others { All (IsElsewhere host.now port) self.new.kept.items }
        ensures among { AreAmong self.old.kept.items self.new.kept.items }
    {
        self.let_go(now);
        match self.place_of(host, port) {
            Some(at) => Some(self.take_at(at)),
            None => None,
        }
    }

    /// Takes the one at this place.
    #[tactic(auto, using(crate::proofs::KeptLemmas::elsewhere_left, crate::proofs::KeptLemmas::single_left, crate::proofs::KeptLemmas::among_removed))]
    fn take_at(&mut self, at: usize) -> CallConnection
        requires { at < length self.old.kept.items }
        ensures it { result ≡ slice_index_or self.old.kept.items at result }
        ensures others { All (IsElsewhere result.host result.port) self.new.kept.items }
        ensures among { AreAmong self.old.kept.items self.new.kept.items }
    {
        self.kept.remove(at)
    }

    /// The place of the one to this target.
    fn place_of(&self, host: &Text, port: u16) -> Option<usize>
        ensures within { IfSome result (λ at. at < length self.now.kept.items) }
        ensures host { IfSome result (λ at. (it : CallConnection) → (slice_index_or self.now.kept.items at it).host ≡ host.now) }
        ensures port { IfSome result (λ at. (it : CallConnection) → (slice_index_or self.now.kept.items at it).port ≡ port) }
        ensures none { IfNone result (All (IsElsewhere host.now port) self.now.kept.items) }
    {
        for at in 0..self.kept.len() {
            if self.kept[at].is_to(host, port) {
                return Some(at);
            }
        }
        None
    }

    /// Lets those go that have idled for a second.
    fn let_go(&mut self, now: u64)
        ensures { self.new.kept.items ≡ young now self.old.kept.items }
    {
        self.kept
            .retain(|it| now.saturating_sub(it.since) < KEPT_MS);
    }

    /// Keeps one whose call ends now, to a target to which none is kept, but for want of memory; whether it is kept. Where there are eight, the one
    /// that was used first is let go.
    #[tactic(auto, using(crate::proofs::KeptLemmas::single_put))]
    pub(crate) fn put(&mut self, connection: CallConnection, now: u64) -> bool
        requires { All (IsElsewhere connection.host connection.port) self.old.kept.items }
        ensures { self.new.kept.items ≡ (if result then with_one_more connection now self.old.kept.items else with_room self.old.kept.items) }
    {
        let mut connection = connection;
        connection.since = now;
        self.make_room();
        self.kept.push(connection).is_ok()
    }

    /// Where there are eight, the one that was used first is let go.
    #[tactic(auto, unfolding(crate::specs::Calls::with_room), using(crate::proofs::KeptLemmas::single_left))]
    fn make_room(&mut self)
        ensures exact { self.new.kept.items ≡ with_room self.old.kept.items }
        ensures room { length self.new.kept.items < 8 }
    {
        if self.kept.len() >= MOST_KEPT {
            drop(self.kept.remove(0));
        }
    }
}
