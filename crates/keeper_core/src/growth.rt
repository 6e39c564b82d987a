//! What changes make of the bytes that rows take.
ghost use Rattle.std.specs.Prelude.{◌≡◌, ◌≢◌, ◌+◌, ◌-◌, ◌<◌, ◌≤◌, ◌^◌, ℕ, List, Option, length, unwrap_or, option_map, IfOk, OnOk, Err};
ghost use Rattle.keeper_core.specs.Rows.{bytes_in};
ghost use Rattle.keeper_core.specs.Changes.{after_change, after_changes};
ghost use Rattle.keeper_core.specs.Growth.{found_bytes, bytes_at, bytes_after, bytes_put, key_of};
ghost use Rattle.keeper_core.specs.Table.{row_of};

use crate::prepared::StoredRow;
use crate::{Change, KeepErr, RowTable};
use side_base::NoMemory;
use std::alloc::Global;
use std::collections::BTreeMap;

/// What a row takes beside its key and its value.
const ROW_BYTES: u128 = 8;

/// What changes put: of each put its key, its value and 8 bytes.
pub(crate) fn bytes_put(changes: &[Change]) -> u128
    ensures exact { result ≡ bytes_put changes.now }
    ensures limit { result < 2 ^ 128 - 2 ^ 64 }
{
    let mut put = 0;
    for change in changes {
        put += bytes_after(change);
    }
    put
}

/// Whether the rows of a table of this `size` keep to a limit after changes that put so many bytes. Only where what is put doesn't fit
/// beside what is there, what is replaced and removed is reckoned, and a note of each key takes memory.
pub(crate) fn keep_to(
    alloc: Global,
    table: &RowTable,
    size: u64,
    put: u128,
    limit: u64,
    changes: &[Change],
) -> Result<(), KeepErr>
    requires size { size ≡ bytes_in table.now.rows }
    requires put { put ≡ bytes_put changes.now }
    requires few { put < 2 ^ 128 - 2 ^ 64 }
    ensures fits { OnOk result (bytes_in (after_changes table.now.rows changes.now) ≤ limit) }
    ensures full { (len : ℕ) → result ≡ Err (KeepErr.Full len) → (len ≡ bytes_in (after_changes table.now.rows changes.now)) × (limit < len) }
    ensures failed { result ≢ Err KeepErr.Failed }
{
    if u128::from(size) + put <= u128::from(limit) {
        return Ok(());
    }
    let Ok(len) = size_after(alloc, table, size, changes) else {
        return Err(KeepErr::NoMemory);
    };
    if len > u128::from(limit) {
        return Err(KeepErr::Full { len });
    }
    Ok(())
}

/// What the rows of a table of this `size` take after changes: of each its key, its value and 8 bytes.
fn size_after(
    alloc: Global,
    table: &RowTable,
    size: u64,
    changes: &[Change],
) -> Result<u128, NoMemory>
    requires { size ≡ bytes_in table.now.rows }
    ensures { IfOk result (λ len. len ≡ bytes_in (after_changes table.now.rows changes.now)) }
{
    if let [only] = changes {
        return Ok(size_after_one(table, size, only));
    }
    let mut len = u128::from(size);
    // What each key takes that was changed so far.
    let mut taken: BTreeMap<&[u8], u128> = BTreeMap::new(alloc);
    for change in changes {
        let key = key_of(change);
        let after = bytes_after(change);
        let noted = taken.insert(key, after)?;
        let before = noted_or_kept(noted, table, key);
        len = len - before + after;
    }
    Ok(len)
}

/// What the rows of a table of this `size` take after one change.
fn size_after_one(table: &RowTable, size: u64, change: &Change) -> u128
    requires { size ≡ bytes_in table.now.rows }
    ensures { result ≡ bytes_in (after_change table.now.rows change.now) }
{
    u128::from(size) - bytes_at(table, key_of(change)) + bytes_after(change)
}

/// What was noted, or else what a key takes among the rows of a table.
fn noted_or_kept(noted: Option<u128>, table: &RowTable, key: &[u8]) -> u128
    ensures { result ≡ unwrap_or noted (bytes_at table.now.rows key.now) }
{
    match noted {
        Some(noted) => noted,
        None => bytes_at(table, key),
    }
}

/// What a key takes among the rows of a table.
fn bytes_at(table: &RowTable, key: &[u8]) -> u128
    ensures { result ≡ bytes_at table.now.rows key.now }
{
    match table.find(key) {
        Some(row) => row_bytes(key, row.value),
        None => 0,
    }
}

/// What its key takes after a change.
fn bytes_after(change: &Change) -> u128
    ensures exact { result ≡ bytes_after change.now }
    ensures limit { result < 2 ^ 64 + 8 }
{
    match change {
        Change::Put { key, value, .. } => row_bytes(key.bytes(), value.bytes()),
        Change::Remove { .. } => 0,
    }
}

/// What a key of this length takes with the row that it has.
pub(crate) fn found_bytes(key_len: usize, found: &Option<StoredRow>) -> u128
    ensures { (key : List ℕ) → length key ≡ key_len → result ≡ found_bytes key (option_map row_of found.now) }
{
    match found {
        Some(row) => key_len as u128 + row.value.len() as u128 + ROW_BYTES,
        None => 0,
    }
}

fn row_bytes(key: &[u8], value: &[u8]) -> u128
    ensures exact { result ≡ length key.now + length value.now + 8 }
    ensures limit { result < 2 ^ 64 + 8 }
{
    key.len() as u128 + value.len() as u128 + ROW_BYTES
}

fn key_of(change: &Change) -> &[u8]
    ensures { result.now ≡ key_of change.now }
{
    match change {
        Change::Put { key, .. } | Change::Remove { key } => key.bytes(),
    }
}
