//! A store in memory, and commands to it, one after the other.
ghost use Rattle.std.specs.Prelude.{All};
ghost use Rattle.state_core.specs.Taken.{IsTaken};

use keeper_core::MemoryKeeper;
use side_base::Places;
use state_core::{Cmd, Reply, Store};
use std::alloc::Global;
use std::marker::Model;
use turn_cell::Object;

/// A store in memory, to which some history leads.
#[derive(Drop)]
pub(crate) struct Shop {
    store: Store<MemoryKeeper>,
}

impl Model for Shop {
    ghost use Rattle.keeper_core.specs.contracts.memory_keeper.MemoryKeeperKeeper.TheImpl.{ghosts};
    ghost use Rattle.state_core.specs.Store.{IsReached};

    ghost Value = { Unit {0} };

    ghost view = { λ _. tt };

    ghost invariant = { λ shop. IsReached ghosts shop.store };
}

/// Whether the reply is that of a save or a get that found what it asks for.
fn is_good(reply: &Reply) -> bool {
    matches!(reply, Reply::Saved | Reply::Value { .. })
}

impl Shop {
    /// A store without rows.
    pub(crate) fn new(alloc: Global) -> Shop {
        let keeper = MemoryKeeper::new(alloc, u64::MAX, Places::new(alloc), [0; 16]);
        let store = Store::new(alloc, keeper);
        Shop { store }
    }

    /// Whether the store has what was asked for, or has stored it. One that was asked 2^62 times is asked no more.
    pub(crate) fn ask(&mut self, cmd: &Cmd) -> bool
        requires { IsTaken cmd.now }
    {
        if self.store.used() >= 1 << 62 {
            return false;
        }
        let reply = self.store.apply(cmd);
        let is_good = is_good(&reply);
        drop(reply);
        is_good
    }

    /// The same of a command that is given once.
    pub(crate) fn ask_once(&mut self, cmd: Cmd) -> bool
        requires { IsTaken cmd }
    {
        let is_good = self.ask(&cmd);
        drop(cmd);
        is_good
    }

    /// How many of the commands the store answered as they were meant.
    pub(crate) fn ask_all(&mut self, cmds: &[Cmd]) -> u32
        requires { All IsTaken cmds.now }
    {
        let mut good: u32 = 0;
        for cmd in cmds {
            good = good.wrapping_add(u32::from(self.ask(cmd)));
        }
        good
    }
}
