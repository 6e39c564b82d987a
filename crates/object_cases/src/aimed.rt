// Which commands of a ledger may be given.
ghost use Rattle.std.specs.Prelude.{◌≢◌, ◌<◌, ℕ, length, slice_index_or, IsTrue};
ghost use Rattle.ledger_core.specs.Aims.{AreAims, IsGiven};
ghost use Rattle.ledger_core.specs.declared.plan.Aim.{Aim};

use ledger_core::{Aims, LedgerCmd};

// Whether no aim before this one is of its subscription.
fn is_new(aims: &Aims, place: usize) -> bool
    requires { place < length aims.now }
    ensures { IsTrue result → (i : ℕ) (d : Aim) → i < place → (slice_index_or aims.now i d).sub ≢ (slice_index_or aims.now place d).sub }
{
    for i in 0..place {
        if aims.at(i).sub == aims.at(place).sub {
            return false;
        }
    }
    true
}

// Whether aims are of different subscriptions, each of which has a plan.
fn are_aims(aims: &Aims, plans: usize) -> bool
    ensures { IsTrue result → AreAims plans aims.now }
{
    for place in 0..aims.len() {
        if aims.at(place).sub as usize >= plans || !is_new(aims, place) {
            return false;
        }
    }
    true
}

/// Whether a command may be given where there are so many plans.
pub(crate) fn is_given(cmd: &LedgerCmd, plans: usize) -> bool
    ensures { IsTrue result → IsGiven plans cmd.now }
{
    match cmd {
        LedgerCmd::Accept { aims, .. } => are_aims(aims, plans),
        LedgerCmd::Settle { dead_aims, .. } => are_aims(dead_aims, plans),
        LedgerCmd::Take { .. } | LedgerCmd::Counts => true,
    }
}
