//! The reply to each command, for what the keeper holds.
ghost use Rattle.std.specs.Prelude.{◌≡◌, ◌<◌};
ghost use Rattle.side_base.specs.declared.moment.TheConstants.{MOMENT_LIMIT};
ghost use Rattle.state_core.specs.Taken.{IsTaken};
ghost use Rattle.state_core.specs.Reply.{held};
ghost use Rattle.keeper_core.specs.Commits.{HasMade};
ghost use Rattle.state_core.specs.Written.{IsAnswered};
ghost use Rattle.state_core.specs.History.{moment_of};

use crate::reading::{bulk, get};
use crate::writing::{delete, save, transact};
use crate::{Cmd, Reply};
use keeper_core::Keeper;
use std::alloc::Global;

/// The reply to a command at a moment, for what the keeper holds.
pub(crate) fn answered<K: Keeper>(alloc: Global, keeper: &mut K, cmd: &Cmd, now: u64) -> Reply
    requires moment { now < MOMENT_LIMIT }
    requires taken { IsTaken cmd.now }
    ensures { IsAnswered (HasMade K.Keeper keeper.old keeper.new) (held K.Keeper keeper.old) (held K.Keeper keeper.new) (K.faults keeper.old) (K.faults keeper.new) now cmd.now result }
{
    match cmd {
        Cmd::Get { key, .. } => get(keeper, key, now),
        Cmd::Bulk { keys, .. } => bulk(alloc, keeper, keys, now),
        Cmd::Save { items, .. } => save(alloc, keeper, items, now),
        Cmd::Delete {
            key,
            etag,
            mode,
            ..
        } => delete(alloc, keeper, key, etag, *mode, now),
        Cmd::Transact { ops, .. } => transact(alloc, keeper, ops, now),
    }
}

/// The moment of a command, in milliseconds since 1970.
pub(crate) fn moment_of(cmd: &Cmd) -> u64
    ensures moment { result ≡ moment_of cmd.now }
    ensures limit { result < MOMENT_LIMIT }
{
    match cmd {
        Cmd::Get { now, .. }
        | Cmd::Save { now, .. }
        | Cmd::Delete { now, .. }
        | Cmd::Bulk { now, .. }
        | Cmd::Transact { now, .. } => now.ms(),
    }
}
