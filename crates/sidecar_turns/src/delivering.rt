ghost use Rattle.std.specs.Prelude.{◌≡◌, ℕ, Some, All, length};
ghost use Rattle.retry_core.specs.Bound.{IsWithinLimit};
ghost use Rattle.delivery_turn.specs.declared.ending.Turn.TheVariants as ended;
ghost use Rattle.sidecar_objects.specs.Passes.{IsPassOf};
ghost use Rattle.sidecar_objects.specs.Pass.{DoesBy, cells_of, seats_of};
ghost use Rattle.sidecar_turns.specs.Brokers.{AreOf, Sites};
ghost use Rattle.sidecar_turns.specs.Delivering.{Delivers, DeliversEach, ShowsOne, earlier};

use crate::Brokers;
use crate::at_ledger::turn_at;
use delivery_turn::{Deliveries, Turn};
use keeper_core::Keeper;
use rand_core::Rng;
use retry_core::Bound;
use side_world::{Clock, Link};
use sidecar_objects::{ObjectKinds, Objects, Pass};
use state_core::Store;
use std::alloc::Global;
use std::sync::Wait;
use topic_spec::Subs;

/// Takes one turn on the first ledger, in the order of their brokers, that isn't idle; where all are, the answer tells when the first
/// delivery will be due. A sidecar without an app port has nothing to deliver: it makes no step, and is idle.
///
/// The cells are those of the brokers, and the subscriptions those for which the ledgers were made.
pub fn deliver<K: Keeper, L: Link, C: Clock, R: Rng, W: Wait>(
    rt: &W,
    brokers: &Brokers,
    subs: &Subs,
    objects: &Objects<K>,
    pass: &mut Pass<K>,
    link: &mut L,
    clock: &mut C,
    rng: &mut R,
) -> Turn
    requires pass { IsPassOf (cells_of objects.now) (seats_of pass.old) }
    requires cells { AreOf (cells_of objects.now) brokers.now subs.now }
    ensures does { DoesBy ⟦<Store<K> as ObjectKinds>⟧.kinds L.Link C.Clock R.stream objects.now pass.old pass.new link.old link.new clock.old clock.new rng.old rng.new (Delivers brokers.now subs.now) result }
    ensures shows { (count : ℕ) → result ≡ ended.Exhausted count → ShowsOne brokers.now.inbound (seats_of pass.new) count }
{
    match brokers.app_port() {
        None => Turn::Idle { next: None },
        Some(port) => {
            let app = App {
                alloc: brokers.alloc,
                port,
                subs,
                inbound: brokers.inbound(),
            };
            deliver_each(rt, &app, objects, pass, link, clock, rng)
        }
    }
}

/// The app to which is delivered, with its subscriptions, and what is bound to what comes from each broker.
#[derive(Clone, Copy)]
struct App<'a> {
    alloc: Global,
    port: u16,
    subs: &'a Subs,
    inbound: &'a [Bound],
}

/// Takes one turn on the first ledger that isn't idle.
fn deliver_each<K: Keeper, L: Link, C: Clock, R: Rng, W: Wait>(
    rt: &W,
    app: &App<'_>,
    objects: &Objects<K>,
    pass: &mut Pass<K>,
    link: &mut L,
    clock: &mut C,
    rng: &mut R,
) -> Turn
    requires pass { IsPassOf (cells_of objects.now) (seats_of pass.old) }
    requires cells { AreOf (cells_of objects.now) (record { port = Some app.now.port; inbound = app.now.inbound.now }) app.now.subs.now }
    requires limits { All IsWithinLimit app.now.inbound.now }
    ensures does { DoesBy ⟦<Store<K> as ObjectKinds>⟧.kinds L.Link C.Clock R.stream objects.now pass.old pass.new link.old link.new clock.old clock.new rng.old rng.new (DeliversEach app.now.port app.now.subs.now app.now.inbound.now) result }
    ensures shows { (count : ℕ) → result ≡ ended.Exhausted count → ShowsOne app.now.inbound.now (seats_of pass.new) count }
{
    let mut next = None;
    for place in 0..app.inbound.len() {
        let what = Deliveries {
            alloc: app.alloc,
            port: app.port,
            subs: app.subs,
            bound: &app.inbound[place],
        };
        match turn_at(rt, &what, objects, pass, place, link, clock, rng) {
            Turn::Idle { next: later } => next = earlier(next, later),
            turn => return turn,
        }
    }
    Turn::Idle { next }
}

/// The earlier of two moments, where there are any.
pub(crate) fn earlier(one: Option<u64>, other: Option<u64>) -> Option<u64>
    ensures { result ≡ earlier one other }
{
    match one {
        None => other,
        Some(a) => Some(match other {
            None => a,
            Some(b) => a.min(b),
        }),
    }
}
