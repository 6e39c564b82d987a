ghost use Rattle.std.specs.Prelude.{◌≤◌};
ghost use Rattle.actor_turns.specs.Fresh.{IsFresh};

use crate::lines::Lines;
use crate::turning::{close, join, look};
use crate::{TurnsCmd, TurnsReply};
use side_base::Text;
use std::alloc::Global;
use std::collections::BTreeMap;
use turn_cell::Object;

/// The open tickets of actors. A step costs what the tickets of its own actor cost, and the search for its actor and its ticket.
#[derive(Drop)]
pub struct Turns {
    pub(crate) alloc: Global,
    /// The actor of each open ticket.
    pub(crate) actors: BTreeMap<u64, Text>,
    pub(crate) lines: Lines,
    /// The ticket that was given last; 0 where none was.
    pub(crate) given: u64,
    pub(crate) used: u64,
    ghost counted: { given ≤ used },
    ghost fresh: { IsFresh actors lines given used },
}

impl Turns {
    ghost use Rattle.std.specs.Prelude.{◌≡◌};

    /// No ticket is open, and none was given. Takes no memory.
    pub fn new(alloc: Global) -> Turns
        ensures { ⟦<Turns as Object>⟧.used result ≡ 0 }
    {
        Turns {
            alloc,
            actors: BTreeMap::new(alloc),
            lines: BTreeMap::new(alloc),
            given: 0,
            used: 0,
        }
    }
}

impl Object for Turns {
    ghost use Rattle.std.specs.Prelude.{◌≡◌};
    ghost use Rattle.actor_turns.specs.Course.{IsStep};
    ghost use Rattle.actor_turns.specs.Turns.{Stands, opens};

    type Cmd = TurnsCmd;

    type Reply = TurnsReply;

    ghost takes = { λ _ _. Unit {0} };

    ghost steps = { λ _ history entry. IsStep history entry };

    ghost stands = { Stands };

    ghost used = { λ turns. turns.used };

    ghost mark = { λ _. 0 };

    fn apply(&mut self, cmd: &TurnsCmd) -> TurnsReply {
        self.used += 1;
        match cmd {
            TurnsCmd::Join { actor } => join(self, actor),
            TurnsCmd::Look { ticket } => look(self, *ticket),
            TurnsCmd::Leave { ticket } => close(self, *ticket),
        }
    }

    fn used(&self) -> u64 {
        self.used
    }

    ghost opens = { opens };

    ghost counts = { λ first history turns stands. stands.used };
}
