use crate::{Shared, respond};
use conn_serve::Handler;
use keeper_core::Keeper;
use rand_core::Rng;
use side_base::{Request, Response};
use side_world::{Clock, Link};
use sidecar_objects::{Doing, ObjectKinds, Pass};
use state_core::Store;
use std::sync::Wait;
use turn_cell::ApiErr;

/// What answers the requests of one connection after the other: a pass over the shared objects, with a link, a clock and random words.
#[derive(Drop)]
pub(crate) struct Desk<'s, 'p, 'l, 'c, 'r, K: Keeper, L: Link, C: Clock, R: Rng> {
    pub(crate) shared: &'s Shared<K>,
    pub(crate) pass: &'p mut Pass<K>,
    pub(crate) link: &'l mut L,
    pub(crate) clock: &'c mut C,
    pub(crate) rng: &'r mut R,
}

impl<K: Keeper, L: Link, C: Clock, R: Rng> Handler for Desk<'_, '_, '_, '_, '_, K, L, C, R> {
    ghost use Rattle.std.specs.Prelude.{◌≡◌};
    ghost use Rattle.std.proofs.Common.{subst};
    ghost use Rattle.sidecar_objects.specs.Passes.{IsPassOf};
    ghost use Rattle.sidecar_objects.specs.Pass.{cells_of, seats_of, standing};
    ghost use Rattle.sidecar_core.specs.Exchange.{Exchange};
    ghost use Rattle.sidecar_core.specs.Shown.{ShownFor};
    ghost use Rattle.sidecar_core.specs.Desk.{Goes, goes_nowhere, goes_on, stays_there, unsaid};

    type Event = Doing;

    ghost ready = { λ desk. IsPassOf (cells_of desk.shared.now.objects) (seats_of desk.pass.now) };

    ghost exchange = { λ desk request events answer. Exchange desk.shared.now.config request events answer };

    ghost did = { λ desk events after. Goes ⟦<Store<K> as ObjectKinds>⟧.kinds (λ shared. cells_of shared.objects) desk.shared.now (record { pass = desk.pass.ghost_name; link = desk.link.ghost_name; clock = desk.clock.ghost_name; rng = desk.rng.ghost_name }) (standing L.Link C.Clock desk.pass.now desk.link.now desk.clock.now (R.stream desk.rng.now)) events after.shared.now (record { pass = after.pass.ghost_name; link = after.link.ghost_name; clock = after.clock.ghost_name; rng = after.rng.ghost_name }) (standing L.Link C.Clock after.pass.now after.link.now after.clock.now (R.stream after.rng.now)) };

    ghost shows = { λ desk request count. ShownFor desk.shared.now.config (seats_of desk.pass.now) request count };

    fn respond<W: Wait>(&mut self, rt: &W, request: &Request) -> Result<Response, ApiErr> {
        respond(
            rt,
            self.shared,
            self.pass,
            request,
            self.link,
            self.clock,
            self.rng,
        )
    }

    ghost none = { λ a ready. goes_nowhere ⟦<Store<K> as ObjectKinds>⟧.kinds (λ shared. cells_of shared.objects) a.shared.now _ _ };

    ghost more = { λ a b c xs ys first second. goes_on ⟦<Store<K> as ObjectKinds>⟧.kinds (λ shared. cells_of shared.objects) a.shared.now _ _ xs b.shared.now _ _ ys c.shared.now _ _ first second };

    ghost stays = { λ a b xs ready did. stays_there ⟦<Store<K> as ObjectKinds>⟧.kinds (λ shared. cells_of shared.objects) a.shared.now _ _ xs b.shared.now _ _ ready did };

    ghost alike = { λ a b xs did request events answer exchanged. subst (λ shared. Exchange shared.config request events answer) did.same exchanged };

    ghost unsaid = { λ a request events response exchanged. unsaid a.shared.now.config request events response exchanged };
}
