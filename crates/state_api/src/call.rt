ghost use Rattle.std.specs.Prelude.{◌≡◌};
ghost use Rattle.state_api.specs.Call.{answer_of};

use keeper_core::Keeper;
use policy_run::{Attempt, Operation};
use side_world::Clock;
use state_core::laws::replies_fit;
use state_core::{Cmd, Reply, Store};
use std::sync::Wait;
use turn_cell::{Exhausted, Object, Seat, TurnCell};

/// What an attempt that did not fail came to.
#[derive(Debug, Drop)]
pub enum StateAnswer {
    /// The store replied.
    Replied(Reply),
    /// The store's cell has no ticket left; `count` was read in it, and its seat shows it.
    Exhausted { count: u64 },
}

/// A state call: each attempt is one step of the store with this command, at the moment of the attempt.
#[derive(Drop)]
pub struct StoreCall<'a, K: Keeper> {
    pub cell: &'a TurnCell<Store<K>>,
    pub seat: &'a mut Seat<Store<K>>,
    pub cmd: &'a mut Cmd,
}

impl<K: Keeper> Operation for StoreCall<'_, K> {
    ghost use Rattle.turn_cell.specs.Sitting.{IsSeatOf};
    ghost use Rattle.state_core.specs.History.{Step};
    ghost use Rattle.state_core.specs.Taken.{IsTaken};
    ghost use Rattle.state_api.specs.Call.{Makes, Did, Shows, alike, did_none, did_more, did_seated, same_taken};

    type Good = StateAnswer;

    type Bad = ();

    type Own = turn_cell::Entry<Cmd, Reply>;

    ghost ready = { λ call. IsSeatOf call.cell.now call.seat.now × IsTaken call.cmd.now };

    ghost makes = { λ call limit. Makes call.cmd.now };

    ghost did = { λ call steps after. Did ⟦<Store<K> as Object>⟧ call.cell.now call.seat.ghost_name call.cmd.ghost_name call.seat.now call.cmd.now steps after.cell.now after.seat.ghost_name after.cmd.ghost_name after.seat.now after.cmd.now };

    ghost shown = { λ call. Shows call.seat.now.count };

    fn attempt<W: Wait, C: Clock>(
        &mut self,
        rt: &W,
        _limit: u64,
        clock: &mut C,
    ) -> Attempt<StateAnswer, ()> {
        replies_fit::<K>();
        self.cmd.set_now(clock.now());
        match self.cell.call(rt, self.seat, self.cmd) {
            Ok(reply) => answer_of(reply),
            Err(Exhausted { count }) => Attempt::Good(StateAnswer::Exhausted { count }),
        }
    }

    ghost none = { λ a _. did_none ⟦<Store<K> as Object>⟧ a.cell.now a.seat.ghost_name a.cmd.ghost_name a.seat.now a.cmd.now };

    ghost more = { λ a b c xs ys. did_more ⟦<Store<K> as Object>⟧ a.cell.now a.seat.ghost_name a.cmd.ghost_name a.seat.now a.cmd.now xs b.cell.now b.seat.ghost_name b.cmd.ghost_name b.seat.now b.cmd.now ys c.cell.now c.seat.ghost_name c.cmd.ghost_name c.seat.now c.cmd.now };

    ghost stays = { λ a b xs ready did. (did_seated ⟦<Store<K> as Object>⟧ a.cell.now a.seat.ghost_name a.cmd.ghost_name a.seat.now a.cmd.now xs b.cell.now b.seat.ghost_name b.cmd.ghost_name b.seat.now b.cmd.now ready.0 did, same_taken a.cmd.now b.cmd.now did.same_cmd ready.1) };

    ghost alike = { λ a b xs did limit answer events. alike a.cmd.now b.cmd.now answer events did.same_cmd };
}

/// What a reply means for the attempt: only a store that failed is a failing attempt.
fn answer_of(reply: Reply) -> Attempt<StateAnswer, ()>
    ensures { result ≡ answer_of reply }
{
    match reply {
        Reply::Failed => Attempt::Bad(()),
        Reply::NoMemory => Attempt::NoMemory,
        other => Attempt::Good(StateAnswer::Replied(other)),
    }
}
