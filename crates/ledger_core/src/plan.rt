ghost use Rattle.std.specs.Prelude.{◌≡◌, ◌<◌, length};
ghost use Rattle.std.specs.Option.{ForSome};
ghost use Rattle.std.specs.List.{All};
ghost use Rattle.retry_core.specs.RetryPolicy.{IsWithinLimit};
ghost use Rattle.ledger_core.specs.Plan.{plan_at};

use retry_core::RetryPolicy;
use side_base::{Sequence, Text};
use std::marker::Model;

/// How deliveries to one subscription go on when they fail.
#[derive(Clone, Copy, Debug, PartialEq, Eq)]
pub struct Plan {
    /// When a failing delivery is made again; `None` is 1,000 ms later each time, without an end.
    pub retry: Option<RetryPolicy>,
    /// Whether the subscription has a dead-letter topic.
    pub dead: bool,
}

/// One plan for each subscription, in their order.
pub type Plans = Sequence<Plan>;

/// A subscription that a message matches.
#[derive(Debug, Drop)]
pub struct Aim {
    /// The place of the subscription in the list of plans, counted from 0.
    pub sub: u32,
    /// Where the event is to be delivered; without a path it is dropped at once.
    pub path: Option<Text>,
}

/// The subscriptions that one message matches, none of them twice.
pub type Aims = Sequence<Aim>;

/// Plans whose milliseconds are those of a duration.
#[derive(Debug, Drop)]
pub(crate) struct PlanTable {
    plans: Plans,
}

impl Model for PlanTable {
    ghost use Rattle.std.specs.Prelude.{List};
    ghost use Rattle.ledger_core.specs.declared.plan.Plan.{Plan};

    ghost Value = { List Plan };

    ghost use Rattle.ledger_core.specs.Plan.{AreWithinLimit};

    ghost view = { λ a. a.plans };

    ghost invariant = { λ a. AreWithinLimit a.plans };
}

impl PlanTable {
    ghost use Rattle.ledger_core.specs.Plan.{AreWithinLimit};

    pub(crate) fn new(plans: Plans) -> PlanTable
        requires { AreWithinLimit plans }
        ensures { result ≡ plans }
    {
        PlanTable { plans }
    }

    /// The plan of a subscription.
    pub(crate) fn at(&self, sub: u32) -> Plan
        requires { sub < length self.now }
        ensures plan { result ≡ plan_at self.now sub }
        ensures limit { ForSome result.retry IsWithinLimit }
    {
        *self.plans.at(sub as usize)
    }
}
