//! The changes that a command is to make, and what they make of the rows.
ghost use Rattle.std.specs.Prelude.{◌≡◌, ◌<◌, ◌≤◌, ◌+◌, ◌^◌, ◌++◌, ◌↔◌, ℕ, List, [], map, IsTrue, IfOk, OnOk};
ghost use Rattle.keeper_core.specs.Rows.{Rows};
ghost use Rattle.state_core.specs.Write.{Write};
ghost use Rattle.state_core.specs.Judged.{version_in};
ghost use Rattle.state_core.specs.Current.{is_current};
ghost use Rattle.state_core.specs.Batch.{IsBatch, IsPassing, HasAdded, HasPut, HasRemoved, JudgesNext, version_at, changes_of, last_of};
ghost use Rattle.state_core.specs.Pending.{change_of, key_of, version_of};
ghost use Rattle.state_core.specs.Taken.{IsTtl};
ghost use Rattle.state_core.specs.Current.{until_of};
ghost use Rattle.side_base.specs.declared.moment.TheConstants.{MOMENT_LIMIT};

use crate::current::{is_current, is_current_for_all};
use crate::reading::live_version;
use crate::{Item, Mode, Op};
use keeper_core::{Change, Keeper};
use side_base::{Blob, NoMemory, Text};
use std::alloc::Global;
use std::collections::BTreeMap;

/// A change that a command is to make, by what the command has; nothing is copied before a commit is due.
#[derive(Clone, Copy)]
pub(crate) enum Pending<'a> {
    /// The item is stored, and lives up to `until`, in milliseconds since 1970, or for ever where that is 0.
    Put {
        item: &'a Item,
        version: u64,
        until: u64,
    },
    /// The row of the key is removed.
    Remove {
        key: &'a Text,
    },
}

impl<'a> Pending<'a> {
    /// The change as a keeper gets it, copied.
    pub(crate) fn copied(self, alloc: Global) -> Result<Change, NoMemory>
        ensures { IfOk result (λ change. change ≡ change_of self.entry) }
    {
        match self {
            Pending::Put {
                item,
                version,
                until,
            } => Ok(Change::Put {
                key: Blob::from_bytes(alloc, item.key.bytes())?,
                value: item.value.copy()?,
                version,
                until,
            }),
            Pending::Remove { key } => Ok(Change::Remove {
                key: Blob::from_bytes(alloc, key.bytes())?,
            }),
        }
    }

    /// The key that it changes.
    fn key(self) -> &'a str
        ensures { result.now ≡ key_of self.entry }
    {
        match self {
            Pending::Put { item, .. } => item.key.as_str(),
            Pending::Remove { key } => key.as_str(),
        }
    }

    /// The version that its key has then; `None` where it leaves no row.
    fn version(self) -> Option<u64>
        ensures { result ≡ version_of self.entry }
    {
        match self {
            Pending::Put { version, .. } => Some(version),
            Pending::Remove { .. } => None,
        }
    }
}

/// Changes that a command is to make. The last one stands in no list and no tree, so that one change takes no memory.
#[derive(Drop)]
pub(crate) struct Batch<'a> {
    /// The changes before the last.
    pub(crate) earlier: Vec<Pending<'a>>,
    pub(crate) last: Option<Pending<'a>>,
    /// The version that the next write gets after them.
    pub(crate) next: u64,
    /// The version of each key that the changes before the last change; `None` where they leave no row.
    pub(crate) versions: BTreeMap<&'a str, Option<u64>>,
}

impl<'a> Batch<'a> {
    /// No changes, over a keeper whose next write gets this version. Takes no memory.
    pub(crate) fn new(alloc: Global, next: u64) -> Batch<'a>
        ensures { (rows : Rows) (moment : ℕ) → IsBatch rows next moment [] result }
    {
        Batch {
            earlier: Vec::new(alloc),
            last: None,
            next,
            versions: BTreeMap::new(alloc),
        }
    }

    /// Whether there is no change.
    pub(crate) fn is_empty(&self) -> bool
        ensures { IsTrue result ↔ (changes_of self.now ≡ []) }
    {
        self.earlier.is_empty() && self.last.is_none()
    }

    /// One more change: an item is stored, and lives up to `until`, in milliseconds since 1970, or for ever where that is 0.
    fn put(&mut self, item: &'a Item, until: u64) -> Result<(), NoMemory>
        requires { self.old.next < 2 ^ 63 }
        ensures { OnOk result (HasPut self.old self.new item.now.key item.now.value until) }
    {
        self.add(Pending::Put {
            item,
            version: self.next,
            until,
        })?;
        self.next += 1;
        Ok(())
    }

    /// One more change: the row of a key is removed.
    fn remove(&mut self, key: &'a Text) -> Result<(), NoMemory>
        ensures { OnOk result (HasRemoved self.old self.new key.now) }
    {
        self.add(Pending::Remove { key })
    }

    /// One more change.
    fn add(&mut self, pending: Pending<'a>) -> Result<(), NoMemory>
        ensures { OnOk result (HasAdded self.old self.new pending.entry) }
    {
        let Some(before) = self.last else {
            self.last = Some(pending);
            return Ok(());
        };
        self.versions.insert(before.key(), before.version())?;
        self.earlier.push(before)?;
        self.last = Some(pending);
        Ok(())
    }

    /// The version that the changes give a key; `None` where none is of this key.
    fn version(&self, key: &str) -> Option<Option<u64>>
        ensures { result ≡ version_at self.now key.now }
    {
        match self.last {
            Some(last) if last.key() == key => Some(last.version()),
            _ => self.versions.get(key).copied(),
        }
    }
}

/// The version that a key has after the changes, where its row is live.
fn version_in<K: Keeper>(keeper: &K, batch: &Batch<'_>, key: &str, moment: u64) -> Option<u64>
    ensures { (writes : List Write) → IsBatch (K.rows keeper.now) (K.next keeper.now) moment writes batch.now → result ≡ version_in (K.rows keeper.now) (K.next keeper.now) moment writes key.now }
{
    match batch.version(key) {
        Some(version) => version,
        None => live_version(keeper, key, moment),
    }
}

/// Whether an item is current for what its key has after the changes. That is looked up only where it decides.
fn passes<K: Keeper>(keeper: &K, batch: &Batch<'_>, item: &Item, moment: u64) -> bool
    ensures { IsPassing (K.rows keeper.now) (K.next keeper.now) moment batch.now item.now result }
{
    if is_current_for_all(item.mode, &item.etag) {
        return true;
    }
    let version = version_in(keeper, batch, item.key.as_str(), moment);
    is_current(item.mode, &item.etag, version)
}

/// Judges an item. One that passes is stored by a further change of the batch.
pub(crate) fn judge_upsert<'a, K: Keeper>(
    keeper: &K,
    batch: &mut Batch<'a>,
    item: &'a Item,
    moment: u64,
) -> Result<bool, NoMemory>
    requires room { batch.old.next < 2 ^ 63 }
    requires moment { moment < MOMENT_LIMIT }
    requires ttl { IsTtl item.now.ttl }
    ensures judged { JudgesNext (K.rows keeper.now) (K.next keeper.now) moment (Op.Upsert item.now) batch.old batch.new result }
    ensures room { OnOk result (batch.new.next ≤ batch.old.next + 1) }
{
    let passes = passes(keeper, batch, item, moment);
    if passes {
        batch.put(item, until_of(moment, item.ttl))?;
    }
    Ok(passes)
}

/// Judges a removal. One that passes is a further change of the batch, where there is a row.
pub(crate) fn judge_removal<'a, K: Keeper>(
    keeper: &K,
    batch: &mut Batch<'a>,
    key: &'a Text,
    etag: &Option<Text>,
    mode: Mode,
    moment: u64,
) -> Result<bool, NoMemory>
    ensures judged { JudgesNext (K.rows keeper.now) (K.next keeper.now) moment (Op.Remove key.now etag.now mode) batch.old batch.new result }
    ensures room { OnOk result (batch.new.next ≡ batch.old.next) }
{
    let version = version_in(keeper, batch, key.as_str(), moment);
    let passes = is_current(mode, etag, version);
    if passes && version.is_some() {
        batch.remove(key)?;
    }
    Ok(passes)
}

/// Appends the last of the changes, copied, where there is one.
pub(crate) fn push_last(
    alloc: Global,
    changes: &mut Vec<Change>,
    batch: &Batch<'_>,
) -> Result<(), NoMemory>
    ensures { OnOk result (changes.new.items ≡ changes.old.items ++ map change_of (last_of batch.now)) }
{
    match batch.last {
        Some(last) => {
            changes.push(last.copied(alloc)?)?;
            Ok(())
        }
        None => Ok(()),
    }
}

/// From when on a row that is stored at a moment is no longer live, by its seconds to live; 0 is never.
fn until_of(moment: u64, ttl: Option<u64>) -> u64
    requires moment { moment < MOMENT_LIMIT }
    requires ttl { IsTtl ttl }
    ensures { result ≡ until_of moment ttl }
{
    match ttl {
        None => 0,
        Some(seconds) => moment + 1000 * seconds,
    }
}
