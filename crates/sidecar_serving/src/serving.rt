ghost use Rattle.sidecar_objects.specs.Pass.{cells_of, seats_of};
ghost use Rattle.std.proofs.Props.{props};
ghost use Rattle.sidecar_serving.specs.Passes.{IsOwnPass, ticks_set, turns_set};

use crate::due::Due;
use conn_serve::Buffers;
use keeper_core::Keeper;
use rand_core::Rng;
use side_world::{Acceptor, Clock, Link};
use sidecar_core::{Pass, Shared};
use sidecar_workers::Exit;

/// What one worker works with: a pass of its own over the shared objects, buffers, an acceptor, a link, a clock and random words.
pub(crate) struct Serving<'a, K: Keeper, A: Acceptor, L: Link, C: Clock, R: Rng> {
    pub(crate) shared: &'a Shared<K>,
    pub(crate) pass: Pass<K>,
    /// Lent to one connection after the other.
    pub(crate) buffers: Buffers,
    pub(crate) acceptor: A,
    pub(crate) link: L,
    pub(crate) clock: C,
    pub(crate) rng: R,
    pub(crate) due: Due<A::From, A::Into>,
    /// How it ended, if a connection or a turn of its own ended it.
    pub(crate) exit: Option<Exit>,
    ghost of: { IsOwnPass (cells_of shared.now.objects) (seats_of pass) } by { Prim.hlevel (turns_set, ticks_set, props) },
}
