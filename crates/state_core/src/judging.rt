//! Items and operations are judged in order, each by the rows as the passing ones before it leave them.
ghost use Rattle.std.specs.Prelude.{◌≡◌, ◌<◌, ◌≤◌, ◌+◌, ◌^◌, ℕ, [], map, IfOk, OnOk, Err};
ghost use Rattle.std.specs.List.{All};
ghost use Rattle.side_base.specs.declared.moment.TheConstants.{MOMENT_LIMIT};
ghost use Rattle.state_core.specs.Taken.{IsTtl, HasTtl};
ghost use Rattle.state_core.specs.Batch.{HasJudged, JudgesNext, HasJudgedAll, HasStopped};

use crate::batch::{Batch, judge_removal, judge_upsert};
use crate::{Items, Mode, Op, Ops};
use keeper_core::Keeper;
use side_base::{NoMemory, Places, Text};
use std::alloc::Global;

/// Why operations were not all judged.
pub(crate) enum Stop {
    /// The operation at this place is the first that is not current.
    Mismatch { place: u32 },
    NoMemory,
}

/// What the items of a save are to change, and the places of those that are refused. A place is a `u32`, so that there is no
/// memory for 2^32 items.
pub(crate) fn judge_items<'a, K: Keeper>(
    alloc: Global,
    keeper: &K,
    items: &'a Items,
    moment: u64,
) -> Result<(Batch<'a>, Places), NoMemory>
    requires moment { moment < MOMENT_LIMIT }
    requires ttl { All (λ item. IsTtl item.ttl) items.now }
    ensures { IfOk result (λ judged. HasJudgedAll (K.rows keeper.now) (K.next keeper.now) moment (map (λ item. Op.Upsert item) items.now) judged.0 judged.1) }
{
    let Ok(count) = u32::try_from(items.len()) else {
        return Err(NoMemory);
    };
    let mut batch = Batch::new(alloc, keeper.next_version());
    let mut refused = Places::new(alloc);
    for place in 0..count {
        if !judge_upsert(keeper, &mut batch, items.at(place as usize), moment)? {
            refused.push(place)?;
        }
    }
    Ok((batch, refused))
}

/// What a removal is to change, and whether it passes.
pub(crate) fn judge_delete<'a, K: Keeper>(
    alloc: Global,
    keeper: &K,
    key: &'a Text,
    etag: &Option<Text>,
    mode: Mode,
    moment: u64,
) -> Result<(Batch<'a>, bool), NoMemory>
    ensures { IfOk result (λ judged. HasJudged (K.rows keeper.now) (K.next keeper.now) moment [] (Op.Remove key.now etag.now mode) judged.1 judged.0) }
{
    let mut batch: Batch<'a> = Batch::new(alloc, keeper.next_version());
    let passes = judge_removal(keeper, &mut batch, key, etag, mode, moment)?;
    Ok((batch, passes))
}

/// What the operations of a transaction are to change, or the first that is not current. A place is a `u32`, so that there is no
/// memory for 2^32 operations.
pub(crate) fn judge_ops<'a, K: Keeper>(
    alloc: Global,
    keeper: &K,
    ops: &'a Ops,
    moment: u64,
) -> Result<Batch<'a>, Stop>
    requires moment { moment < MOMENT_LIMIT }
    requires ttl { All HasTtl ops.now }
    ensures all { IfOk result (λ batch. HasJudgedAll (K.rows keeper.now) (K.next keeper.now) moment ops.now batch []) }
    ensures stopped { (place : ℕ) → result ≡ Err (Stop.Mismatch place) → HasStopped (K.rows keeper.now) (K.next keeper.now) moment ops.now place }
{
    let Ok(count) = u32::try_from(ops.len()) else {
        return Err(Stop::NoMemory);
    };
    let mut batch = Batch::new(alloc, keeper.next_version());
    for place in 0..count {
        match judge_op(keeper, &mut batch, ops.at(place as usize), moment) {
            Ok(true) => {}
            Ok(false) => return Err(Stop::Mismatch { place }),
            Err(_) => return Err(Stop::NoMemory),
        }
    }
    Ok(batch)
}

/// Judges an operation. One that passes makes a further change of the batch, if it is a write.
fn judge_op<'a, K: Keeper>(
    keeper: &K,
    batch: &mut Batch<'a>,
    op: &'a Op,
    moment: u64,
) -> Result<bool, NoMemory>
    requires room { batch.old.next < 2 ^ 63 }
    requires moment { moment < MOMENT_LIMIT }
    requires ttl { HasTtl op.now }
    ensures judged { JudgesNext (K.rows keeper.now) (K.next keeper.now) moment op.now batch.old batch.new result }
    ensures room { OnOk result (batch.new.next ≤ batch.old.next + 1) }
{
    match op {
        Op::Upsert(item) => judge_upsert(keeper, batch, item, moment),
        Op::Remove { key, etag, mode } => judge_removal(keeper, batch, key, etag, *mode, moment),
    }
}
