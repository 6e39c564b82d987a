//! The commands that write.
ghost use Rattle.std.specs.Prelude.{◌≡◌, ◌<◌, ℕ, List};
ghost use Rattle.std.specs.List.{All};
ghost use Rattle.side_base.specs.declared.moment.TheConstants.{MOMENT_LIMIT};
ghost use Rattle.state_core.specs.Taken.{IsTtl, HasTtl};
ghost use Rattle.state_core.specs.Reply.{held, verdict};
ghost use Rattle.keeper_core.specs.Commits.{HasMade};
ghost use Rattle.state_core.specs.Written.{IsAnswered};

use crate::commit::commit;
use crate::judging::{Stop, judge_delete, judge_items, judge_ops};
use crate::{Cmd, Item, Items, Mode, Ops, Reply};
use keeper_core::Keeper;
use side_base::{Places, Text};
use std::alloc::Global;

/// The reply to a `Save`.
pub(crate) fn save<K: Keeper>(alloc: Global, keeper: &mut K, items: &Items, moment: u64) -> Reply
    requires moment { moment < MOMENT_LIMIT }
    requires ttl { All (λ item. IsTtl item.ttl) items.now }
    ensures { (now : ℕ) → IsAnswered (HasMade K.Keeper keeper.old keeper.new) (held K.Keeper keeper.old) (held K.Keeper keeper.new) (K.faults keeper.old) (K.faults keeper.new) moment (Cmd.Save items.now now) result }
{
    match judge_items(alloc, keeper, items, moment) {
        Ok((batch, refused)) => match commit(alloc, keeper, batch, moment) {
            Ok(()) => saved(refused),
            Err(reply) => reply,
        },
        Err(_) => Reply::NoMemory,
    }
}

/// The reply where items at these places are refused, and the others are stored.
fn saved(refused: Places) -> Reply
    ensures { (items : List Item) (now : ℕ) → result ≡ verdict (Cmd.Save items now) refused }
{
    if refused.is_empty() {
        Reply::Saved
    } else {
        Reply::SomeRefused { places: refused }
    }
}

/// The reply to a `Delete`.
pub(crate) fn delete<K: Keeper>(
    alloc: Global,
    keeper: &mut K,
    key: &Text,
    etag: &Option<Text>,
    mode: Mode,
    moment: u64,
) -> Reply
    requires { moment < MOMENT_LIMIT }
    ensures { (now : ℕ) → IsAnswered (HasMade K.Keeper keeper.old keeper.new) (held K.Keeper keeper.old) (held K.Keeper keeper.new) (K.faults keeper.old) (K.faults keeper.new) moment (Cmd.Delete key.now etag.now mode now) result }
{
    match judge_delete(alloc, keeper, key, etag, mode, moment) {
        Ok((batch, true)) => match commit(alloc, keeper, batch, moment) {
            Ok(()) => Reply::Deleted,
            Err(reply) => reply,
        },
        Ok((_, false)) => Reply::Mismatch { place: 0 },
        Err(_) => Reply::NoMemory,
    }
}

/// The reply to a `Transact`.
pub(crate) fn transact<K: Keeper>(alloc: Global, keeper: &mut K, ops: &Ops, moment: u64) -> Reply
    requires moment { moment < MOMENT_LIMIT }
    requires ttl { All HasTtl ops.now }
    ensures { (now : ℕ) → IsAnswered (HasMade K.Keeper keeper.old keeper.new) (held K.Keeper keeper.old) (held K.Keeper keeper.new) (K.faults keeper.old) (K.faults keeper.new) moment (Cmd.Transact ops.now now) result }
{
    match judge_ops(alloc, keeper, ops, moment) {
        Ok(batch) => match commit(alloc, keeper, batch, moment) {
            Ok(()) => Reply::Committed,
            Err(reply) => reply,
        },
        Err(Stop::Mismatch { place }) => Reply::Mismatch { place },
        Err(Stop::NoMemory) => Reply::NoMemory,
    }
}
