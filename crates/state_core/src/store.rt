ghost use Rattle.std.specs.Prelude.{◌≡◌, ◌<◌};
ghost use Rattle.side_base.specs.declared.moment.TheConstants.{MOMENT_LIMIT};

use crate::answer::{answered, moment_of};
use crate::{Cmd, Reply};
use keeper_core::Keeper;
use std::alloc::Global;
use turn_cell::Object;

/// A store of rows. Each command is one step of its history.
#[derive(Debug, Drop)]
pub struct Store<K: Keeper> {
    alloc: Global,
    pub(crate) keeper: K,
    /// The greatest moment so far, in milliseconds since 1970.
    pub(crate) latest: u64,
    pub(crate) used: u64,
    ghost within: { latest < MOMENT_LIMIT },
    ghost fresh: { used ≡ 0 → latest ≡ 0 },
}

impl<K: Keeper> Store<K> {
    ghost use Rattle.std.specs.Prelude.{◌≡◌};
    ghost use Rattle.state_core.specs.Store.{keeper_of};

    /// A store of the keeper's rows, whose history is empty. Takes no memory.
    pub fn new(alloc: Global, keeper: K) -> Store<K>
        ensures keeper { keeper_of result ≡ keeper }
        ensures unused { ⟦<Store<K> as Object>⟧.used result ≡ 0 }
    {
        Store {
            alloc,
            keeper,
            latest: 0,
            used: 0,
        }
    }

    /// The keeper, as the last command left it. Takes no memory.
    pub fn into_keeper(self) -> K
        ensures { result ≡ keeper_of self }
    {
        self.keeper
    }
}

impl<K: Keeper> Object for Store<K> {
    ghost use Rattle.std.specs.Prelude.{◌≡◌};
    ghost use Rattle.state_core.specs.History.{IsStep};
    ghost use Rattle.state_core.specs.Taken.{IsTaken};
    ghost use Rattle.state_core.specs.Store.{Stands, opens, held_by};

    type Cmd = Cmd;

    type Reply = Reply;

    ghost takes = { λ _ cmd. IsTaken cmd };

    ghost steps = { λ first history entry. IsStep (held_by K.Keeper first) (K.faults first.keeper) history entry };

    ghost stands = { Stands K.Keeper };

    ghost used = { λ store. store.used };

    ghost mark = { λ store. K.faults store.keeper };

    fn apply(&mut self, cmd: &Cmd) -> Reply {
        let now = self.latest.max(moment_of(cmd));
        let reply = answered(self.alloc, &mut self.keeper, cmd, now);
        self.latest = now;
        self.used += 1;
        reply
    }

    fn used(&self) -> u64 {
        self.used
    }

    ghost opens = { λ first unused. opens first unused (K.at_rest first.keeper) };

    ghost counts = { λ first history store stands. stands.used };
}
