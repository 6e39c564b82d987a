//! How the changes of a command are made, and rows that are not live are swept away with them.
ghost use Rattle.std.specs.Prelude.{◌≡◌, ◌<◌, ◌++◌, ℕ, List, IfOk};
ghost use Rattle.state_core.specs.Write.{Write, numbered, sweep};
ghost use Rattle.state_core.specs.Written.{refusal_of};
ghost use Rattle.state_core.specs.Batch.{IsBatch, CommitsBatch};

use crate::Reply;
use crate::batch::{Batch, push_last};
use keeper_core::{Change, Changes, KeepErr, Keeper};
use side_base::{Blob, NoMemory, Sequence};
use std::alloc::Global;

/// The greatest version that is given is one less.
const NEXT_LIMIT: u64 = 1 << 62;

/// How many rows that are not live a commit removes at most.
const SWEEP_LIMIT: usize = 1024;

/// Makes the changes of a batch, which are writes at a moment, or gives the reply that tells why not.
pub(crate) fn commit<K: Keeper>(
    alloc: Global,
    keeper: &mut K,
    batch: Batch<'_>,
    moment: u64,
) -> Result<(), Reply>
    requires { (writes : List Write) × IsBatch (K.rows keeper.old) (K.next keeper.old) moment writes batch }
    ensures { CommitsBatch K.Keeper keeper.old keeper.new moment batch.entry result }
{
    if batch.is_empty() {
        return Ok(());
    }
    if batch.next > NEXT_LIMIT {
        return Err(Reply::Spent {
            next: keeper.next_version(),
        });
    }
    match swept(alloc, keeper, &batch, moment) {
        Ok(changes) => match keeper.commit(changes) {
            Ok(()) => Ok(()),
            Err(error) => Err(refusal(error)),
        },
        Err(_) => Err(Reply::NoMemory),
    }
}

/// The reply for changes that the keeper did not make.
fn refusal(error: KeepErr) -> Reply
    ensures { result ≡ refusal_of error }
{
    match error {
        KeepErr::Failed => Reply::Failed,
        KeepErr::Full { len } => Reply::Full { len },
        KeepErr::NoMemory => Reply::NoMemory,
    }
}

/// The sweep at a moment, and then the changes of a batch.
fn swept<K: Keeper>(
    alloc: Global,
    keeper: &K,
    batch: &Batch<'_>,
    moment: u64,
) -> Result<Changes, NoMemory>
    ensures list { (writes : List Write) → IsBatch (K.rows keeper.now) (K.next keeper.now) moment writes batch.now → IfOk result (λ changes. changes.list ≡ numbered (K.next keeper.now) (sweep (K.rows keeper.now) moment ++ writes)) }
    ensures next { IfOk result (λ changes. changes.next ≡ batch.now.next) }
{
    let mut changes = sweep(alloc, keeper, moment)?;
    for pending in &batch.earlier {
        changes.push(pending.copied(alloc)?)?;
    }
    push_last(alloc, &mut changes, batch)?;
    Ok(Changes {
        list: Sequence::from_vec(changes),
        next: batch.next,
    })
}

/// The removals of the first keys, in byte order, whose rows are not live at a moment, 1,024 at most.
fn sweep<K: Keeper>(alloc: Global, keeper: &K, moment: u64) -> Result<Vec<Change>, NoMemory>
    ensures { (next : ℕ) → IfOk result (λ changes. changes.items ≡ numbered next (sweep (K.rows keeper.now) moment)) }
{
    let mut changes = Vec::new(alloc);
    let mut after = None;
    for _ in 0..SWEEP_LIMIT {
        match keeper.next_lapsed(after, moment) {
            None => return Ok(changes),
            Some(key) => {
                changes.push(Change::Remove {
                    key: Blob::from_bytes(alloc, key)?,
                })?;
                after = Some(key);
            }
        }
    }
    Ok(changes)
}
