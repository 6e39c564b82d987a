// The brokers of a case: each pub/sub component with a ledger of its own.
ghost use Rattle.std.specs.Prelude.{◌≡◌, is_some};
ghost use Rattle.std.specs.Option.{ForSome};
ghost use Rattle.retry_core.specs.Bound.{IsWithinLimit};
ghost use Rattle.retry_core.specs.RetryPolicy.{IsWithinLimit as IsRetryWithinLimit};
ghost use Rattle.ledger_core.specs.Plan.{AreWithinLimit};
ghost use Rattle.ledger_core.specs.Ledger.{plans_of};

use crate::given::Common;
use crate::stepping::{Broker, Scene, steps};
use case_text::Section;
use ledger_core::{Ledger, Plan, Plans};
use policy_run::Guard;
use retry_core::RetryPolicy;
use std::alloc::Global;
use std::sync::Wait;
use topic_spec::Subs;
use turn_cell::{Object, TurnCell};

// One plan for each subscription.
fn plans_for(alloc: Global, subs: &Subs, retry: Option<RetryPolicy>) -> Plans
    requires { ForSome retry IsRetryWithinLimit }
    ensures { AreWithinLimit result }
{
    let mut plans = Plans::new(alloc);
    for place in 0..subs.len() {
        let _ = plans.push(Plan {
            retry,
            dead: subs.at(place).dead.is_some(),
        });
    }
    plans
}

fn ledger_of(alloc: Global, plans: Plans) -> Ledger
    requires { AreWithinLimit plans }
    ensures plans { plans_of result ≡ plans }
    ensures unused { ⟦<Ledger as Object>⟧.used result ≡ 0 }
{
    Ledger::new(alloc, plans)
}

// Plays the sections that name a broker.
fn play_broker<G: Guard, W: Wait>(
    rt: &W,
    broker: &Broker<'_, '_, '_>,
    guard: &mut G,
    scene: &mut Scene,
)
    requires limits { IsWithinLimit broker.now.common.now.bound }
    requires breaker { G.there guard.old ≡ is_some broker.now.common.now.bound.breaker }
    requires guard { G.ready guard.old }
    ensures there { G.there guard.new ≡ G.there guard.old }
    ensures guard { G.ready guard.new }
{
    let common = broker.common;
    let plans = plans_for(common.alloc, &common.subs, common.bound.retry);
    if plans.len() != common.subs.len() {
        scene.told.lack();
        return;
    }
    match TurnCell::start(common.alloc, ledger_of(common.alloc, plans)) {
        Ok((cell, mut seat)) => steps(rt, broker, &cell, &mut seat, guard, scene),
        Err(_) => scene.told.lack(),
    }
}

/// Plays the sections of a case, for one broker after the other.
pub(crate) fn play_brokers<G: Guard, W: Wait>(
    rt: &W,
    common: &Common,
    sections: &[Section<'_>],
    guard: &mut G,
    scene: &mut Scene,
)
    requires limits { IsWithinLimit common.now.bound }
    requires breaker { G.there guard.old ≡ is_some common.now.bound.breaker }
    requires guard { G.ready guard.old }
{
    for place in 0..common.components.len() {
        let component = common.components.at(place);
        let broker = Broker {
            common,
            component,
            sections,
        };
        play_broker(rt, &broker, guard, scene);
    }
}
