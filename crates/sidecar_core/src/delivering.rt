//! What a sidecar does of itself, beside answering requests.
ghost use Rattle.std.specs.Prelude.{◌≡◌, ◌<◌, ℕ, length, Err};
ghost use Rattle.sidecar_objects.specs.Passes.{IsPassOf};
ghost use Rattle.sidecar_objects.specs.Shown.{Shows, ShowsAt};
ghost use Rattle.sidecar_objects.specs.Pass.{DoesAlone, DoesBy, cells_of, seats_of};
ghost use Rattle.sidecar_turns.specs.Counting.{Counted};
ghost use Rattle.sidecar_core.specs.Delivery.{DrainsIn, IdlesIn, TakesTicksIn, TicksIn};

use crate::Shared;
use keeper_core::Keeper;
use ledger_core::LedgerReply;
use rand_core::Rng;
use side_base::Moment;
use side_world::{Clock, Link};
use sidecar_objects::{ObjectKinds, Pass};
use sidecar_turns::{Drained, Duties, IdleTurn, TickTurn};
use state_core::Store;
use std::sync::Wait;
use turn_cell::Exhausted;

impl<K: Keeper> Shared<K> {
    /// How many deliveries of each status the ledger at a place has, by one step of it; the ledgers stand in the order of their components.
    ///
    /// `Exhausted` makes no step; the seat then shows its count.
    pub fn counts<W: Wait>(
        &self,
        rt: &W,
        place: usize,
        pass: &mut Pass<K>,
    ) -> Result<LedgerReply, Exhausted>
        requires pass { IsPassOf (cells_of self.now.objects) (seats_of pass.old) }
        requires place { place < length self.now.objects.ledgers.items }
        ensures does { DoesAlone ⟦<Store<K> as ObjectKinds>⟧.kinds self.now.objects pass.old pass.new (Counted place) result }
        ensures shows { (count : ℕ) → result ≡ Err (record { count = count }) → ShowsAt place count pass.new.ledgers.items }
    {
        sidecar_turns::counts(rt, &self.objects, pass, place)
    }
}

/// Takes the tick that is due first, of the cron components, and calls the app for it under what is bound to what comes from its component. A sidecar without an app
/// port takes none: it makes no step, and is idle.
pub fn tick<K: Keeper, L: Link, C: Clock, R: Rng, W: Wait>(
    rt: &W,
    shared: &Shared<K>,
    pass: &mut Pass<K>,
    link: &mut L,
    clock: &mut C,
    rng: &mut R,
) -> TickTurn
    requires pass { IsPassOf (cells_of shared.now.objects) (seats_of pass.old) }
    ensures does { DoesBy ⟦<Store<K> as ObjectKinds>⟧.kinds L.Link C.Clock R.stream shared.now.objects pass.old pass.new link.old link.new clock.old clock.new rng.old rng.new (TicksIn shared.now.config) result }
    ensures shows { (count : ℕ) → result ≡ TickTurn.Exhausted count → Shows (seats_of pass.new) count }
{
    sidecar_turns::tick(rt, &shared.crons, &shared.objects, pass, link, clock, rng)
}

/// What a worker does when no connection came: the tick that is due first, of the cron components, and then one turn of delivery, on the first ledger that isn't
/// idle, in the order of their components. A sidecar without an app port has neither: it makes no step, and is idle.
pub fn idle_turn<K: Keeper, L: Link, C: Clock, R: Rng, W: Wait>(
    rt: &W,
    shared: &Shared<K>,
    pass: &mut Pass<K>,
    link: &mut L,
    clock: &mut C,
    rng: &mut R,
) -> IdleTurn
    requires pass { IsPassOf (cells_of shared.now.objects) (seats_of pass.old) }
    ensures does { DoesBy ⟦<Store<K> as ObjectKinds>⟧.kinds L.Link C.Clock R.stream shared.now.objects pass.old pass.new link.old link.new clock.old clock.new rng.old rng.new (IdlesIn shared.now.config) result }
    ensures shows { (count : ℕ) → result ≡ IdleTurn.Exhausted count → Shows (seats_of pass.new) count }
{
    let duties = Duties {
        crons: &shared.crons,
        brokers: &shared.brokers,
        subs: &shared.config.subs,
    };
    sidecar_turns::idle_turn(rt, &duties, &shared.objects, pass, link, clock, rng)
}

/// Takes the ticks that are due, in at most 4,096 turns, and calls the app for each.
pub fn take_ticks<K: Keeper, L: Link, C: Clock, R: Rng, W: Wait>(
    rt: &W,
    shared: &Shared<K>,
    pass: &mut Pass<K>,
    link: &mut L,
    clock: &mut C,
    rng: &mut R,
) -> Drained
    requires pass { IsPassOf (cells_of shared.now.objects) (seats_of pass.old) }
    ensures does { DoesBy ⟦<Store<K> as ObjectKinds>⟧.kinds L.Link C.Clock R.stream shared.now.objects pass.old pass.new link.old link.new clock.old clock.new rng.old rng.new (TakesTicksIn shared.now.config) result }
    ensures shows { (count : ℕ) → result ≡ Drained.Spent count → Shows (seats_of pass.new) count }
{
    sidecar_turns::take_ticks(rt, &shared.crons, &shared.objects, pass, link, clock, rng)
}

/// Delivers what is due, and waits for what will be due within 60,000 ms of the moment `began`, in at most 4,096 turns.
pub fn drain<K: Keeper, L: Link, C: Clock, R: Rng, W: Wait>(
    rt: &W,
    shared: &Shared<K>,
    pass: &mut Pass<K>,
    began: Moment,
    link: &mut L,
    clock: &mut C,
    rng: &mut R,
) -> Drained
    requires pass { IsPassOf (cells_of shared.now.objects) (seats_of pass.old) }
    ensures does { DoesBy ⟦<Store<K> as ObjectKinds>⟧.kinds L.Link C.Clock R.stream shared.now.objects pass.old pass.new link.old link.new clock.old clock.new rng.old rng.new (DrainsIn shared.now.config began) result }
    ensures shows { (count : ℕ) → result ≡ Drained.Spent count → Shows (seats_of pass.new) count }
{
    sidecar_turns::drain(
        rt,
        &shared.brokers,
        &shared.config.subs,
        &shared.objects,
        pass,
        began,
        link,
        clock,
        rng,
    )
}
