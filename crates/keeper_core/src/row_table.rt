ghost use Rattle.std.specs.Prelude.{◌≡◌, ◌≤◌, ◌<◌, ◌+◌, ◌-◌, ◌^◌, min, ℕ, length, option_map, is_some, IfOk};
ghost use Rattle.std.specs.FinMap.{empty, find, insert, remove};
ghost use Rattle.keeper_core.specs.Rows.{row_at, next_lapsed, seen, byte_order, bytes_in, IsCounted};
ghost use Rattle.keeper_core.specs.Growth.{bytes_at, bytes_put, key_of};
ghost use Rattle.keeper_core.specs.Changes.{after_change, after_changes, VersionsAreBelow};
ghost use Rattle.keeper_core.specs.Prepared.{change_of, IsReady, IsEndOf};
ghost use Rattle.keeper_core.specs.Ends.{end_of};
ghost use Rattle.keeper_core.specs.Table.{row_of, fed};
ghost use Rattle.keeper_core.specs.Tree.{with_end, without};

use crate::end_tree::EndTree;
use crate::hashed_rows::HashedRows;
use crate::links::NONE;
use crate::prepared::{Step, StoredRow};
use crate::{ChangeList, Prepared, RowView};
use side_base::NoMemory;
use std::alloc::Global;
use std::marker::Model;

/// Rows by their keys, and the room for further keys. Contracts see the rows as a finite map, and the hasher that keys are fed to.
///
/// A look-up goes to one place of a table, and among many rows waits longer for memory. A change of a row that has an end, or that gets one, and the look for a
/// lapsed row cost a logarithm of the rows that have an end.
#[derive(Drop)]
pub struct RowTable {
    rows: HashedRows,
    /// The ends of those rows that have one.
    ends: EndTree,
}

impl Model for RowTable {
    ghost use Rattle.keeper_core.specs.Table.{Table, table_code};

    ghost Value = { Table };

    ghost coded = { table_code };

    ghost use Rattle.keeper_core.specs.Table.{Keeps};
    ghost use Rattle.std.specs.Prelude.{min};

    ghost view = { λ a. record { rows = a.rows.rows; room = min a.rows.room a.ends.room; hasher = a.rows.hasher } };

    ghost invariant = { λ a. Keeps a.rows.rows a.ends.ends };
}

impl RowTable {
    /// No rows; takes no memory. `secret` are random bytes, for the hash of keys.
    pub fn new(alloc: Global, secret: [u8; 16]) -> RowTable
        ensures rows { result.rows ≡ empty }
        ensures counted { IsCounted result.rows 1 }
        ensures hasher { result.hasher ≡ fed secret }
    {
        RowTable {
            rows: HashedRows::new(alloc, secret),
            ends: EndTree::new(alloc),
        }
    }

    /// What a key has; takes no memory.
    pub fn find(&self, key: &[u8]) -> Option<RowView<'_>>
        ensures { seen result ≡ row_at self.now.rows key.now }
    {
        match self.rows.get(key) {
            Some(row) => Some(RowView {
                value: row.value.bytes(),
                version: row.version,
                until: row.until,
                kept: &row.value,
            }),
            None => None,
        }
    }

    /// The first key in byte order, of those behind `after` where it is given, whose row is not live at `moment`, in
    /// milliseconds since 1970. Takes no memory.
    pub fn next_lapsed(&self, after: Option<&[u8]>, moment: u64) -> Option<&[u8]>
        ensures { option_map (λ key. key.now) result ≡ next_lapsed self.now.rows (option_map (λ key. key.now) after.entry) moment }
    {
        self.ends.next_lapsed(after, moment)
    }

    /// Takes the memory for changes; values are moved.
    pub fn prepare(&mut self, alloc: Global, list: ChangeList) -> Result<Prepared, NoMemory>
        ensures rows { self.new.rows ≡ self.old.rows }
        ensures prepared { IfOk result (λ prepared. prepared ≡ list) }
        ensures room { IfOk result (λ prepared. length prepared ≤ self.new.room) }
        ensures hasher { self.new.hasher ≡ self.old.hasher }
    {
        self.rows.reserve(list.len())?;
        self.ends.reserve(alloc, list.len())?;
        Prepared::new(alloc, list)
    }

    /// Makes prepared changes, in order, and answers how many bytes went with the rows that they replaced and removed, at most 2^128 - 1;
    /// takes no memory.
    pub fn apply(&mut self, prepared: Prepared) -> u128
        requires { length prepared ≤ self.old.room }
        ensures rows { self.new.rows ≡ after_changes self.old.rows prepared }
        ensures freed { result ≡ min (bytes_in self.old.rows + bytes_put prepared - bytes_in self.new.rows) (2 ^ 128 - 1) }
        ensures hasher { self.new.hasher ≡ self.old.hasher }

        // Where the versions put are below a later next version, all are.
        ensures counted { (next later : ℕ) → IsCounted self.old.rows next → next ≤ later → later ≤ 2 ^ 62 → VersionsAreBelow later prepared → IsCounted self.new.rows later }
    {
        let mut steps = prepared.steps;
        let mut freed: u128 = 0;
        while let Some(step) = steps.take_first() {
            freed = freed.saturating_add(self.make(step));
        }
        freed
    }

    /// Makes a change, and answers what its key took before.
    fn make(&mut self, step: Step) -> u128
        requires room { 0 < self.old.room }
        requires ready { IsReady step }
        ensures rows { self.new.rows ≡ after_change self.old.rows (change_of step) }
        ensures room { self.old.room ≤ self.new.room + 1 }
        ensures took { result ≡ bytes_at self.old.rows (key_of (change_of step)) }
        ensures hasher { self.new.hasher ≡ self.old.hasher }
    {
        match step {
            Step::Place { key, row, end } => self.place(key, row, end),
            Step::TakeOut(key) => self.take_out(key.bytes()),
        }
    }

    /// Gives a key a row, and answers what it took before.
    fn place(&mut self, key: Vec<u8>, row: StoredRow, end: Option<Vec<u8>>) -> u128
        requires room { 0 < self.old.room }
        requires ready { IsEndOf key.items row.until end }
        ensures rows { self.new.rows ≡ insert self.old.rows key.items (row_of row) }
        ensures room { self.old.room ≤ self.new.room + 1 }
        ensures took { result ≡ bytes_at self.old.rows key.items }
        ensures hasher { self.new.hasher ≡ self.old.hasher }
    {
        let kept = self.kept_end(&key);
        let mut row = row;
        row.end = with_end(&mut self.ends, kept, &key, row.until, end);
        self.rows.insert(key, row)
    }

    /// Takes a key and its row out, where it has one, and answers what it took.
    fn take_out(&mut self, key: &[u8]) -> u128
        ensures rows { self.new.rows ≡ remove self.old.rows key.now }
        ensures room { self.old.room ≤ self.new.room }
        ensures took { result ≡ bytes_at self.old.rows key.now }
        ensures hasher { self.new.hasher ≡ self.old.hasher }
    {
        let kept = self.kept_end(key);
        without(&mut self.ends, kept, key);
        self.rows.remove(key)
    }

    /// What a key's row has of an end. Where no key has one, the row is not looked up.
    fn kept_end(&self, key: &[u8]) -> KeptEnd
        ensures { result.ended ≡ is_some (end_of (row_at self.now.rows key.now)) }
    {
        if self.ends.is_empty() {
            return NO_END;
        }
        match self.rows.get(key) {
            Some(row) => KeptEnd {
                ended: row.until != 0,
                hint: row.end,
            },
            None => NO_END,
        }
    }
}

/// What a key's row has of an end.
#[derive(Clone, Copy)]
struct KeptEnd {
    /// Whether the row has an end.
    ended: bool,
    /// The place that it may have among the ends.
    hint: usize,
}

const NO_END: KeptEnd = KeptEnd {
    ended: false,
    hint: NONE,
};

/// Gives a key this end, whatever it had, and answers the place that it may have.
fn with_end(
    ends: &mut EndTree,
    kept: KeptEnd,
    key: &[u8],
    until: u64,
    end: Option<Vec<u8>>,
) -> usize
    requires room { 0 < ends.old.room }
    requires ended { kept.ended ≡ is_some (find byte_order key.now ends.old.ends) }
    requires ready { IsEndOf key.now until end }
    ensures ends { ends.new.ends ≡ with_end key.now until ends.old.ends }
    ensures room { ends.old.room ≤ ends.new.room + 1 }
{
    match end {
        Some(end) => ends.give(kept.hint, end, until),
        None => {
            without(ends, kept, key);
            kept.hint
        }
    }
}

/// Takes the end of a key away, where it has one.
fn without(ends: &mut EndTree, kept: KeptEnd, key: &[u8])
    requires ended { kept.ended ≡ is_some (find byte_order key.now ends.old.ends) }
    ensures ends { ends.new.ends ≡ without key.now ends.old.ends }
    ensures room { ends.old.room ≤ ends.new.room }
{
    if kept.ended {
        ends.take(kept.hint, key);
    }
}
