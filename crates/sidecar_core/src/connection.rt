ghost use Rattle.sidecar_core.specs.Connection.{Serves};
ghost use Rattle.sidecar_objects.specs.Passes.{IsPassOf};
ghost use Rattle.sidecar_objects.specs.Pass.{cells_of, seats_of};

use crate::Shared;
use crate::desk::Desk;
use conn_serve::{Buffers, Ended, serve};
use keeper_core::Keeper;
use rand_core::Rng;
use side_world::{Clock, Link, Sink, Source};
use sidecar_objects::{ObjectKinds, Pass};
use state_core::Store;
use std::sync::Wait;

/// Serves one connection over the shared objects: its requests are answered in order, each by its exchange, whatever other passes do
/// meanwhile, and the responses are written as a session has them. The buffers are lent, and nothing of what they hold is served.
pub fn serve_connection<K: Keeper, S: Source, N: Sink, L: Link, C: Clock, R: Rng, W: Wait>(
    rt: &W,
    shared: &Shared<K>,
    pass: &mut Pass<K>,
    buffers: &mut Buffers,
    source: &mut S,
    sink: &mut N,
    link: &mut L,
    clock: &mut C,
    rng: &mut R,
) -> Ended
    requires pass { IsPassOf (cells_of shared.now.objects) (seats_of pass.old) }
    ensures served { Serves ⟦<Store<K> as ObjectKinds>⟧.kinds L.Link C.Clock R.stream S.Source N.Sink shared.now pass.old pass.new link.old link.new clock.old clock.new rng.old rng.new source.old source.new sink.old sink.new result }
    ensures pass { IsPassOf (cells_of shared.now.objects) (seats_of pass.new) }
{
    let mut desk = Desk {
        shared,
        pass,
        link,
        clock,
        rng,
    };
    serve(rt, shared.alloc, buffers, &mut desk, source, sink)
}
