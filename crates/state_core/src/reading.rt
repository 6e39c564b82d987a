//! What keys have at a moment, as a store answers it.
ghost use Rattle.std.specs.Prelude.{◌≡◌, ◌⊎◌, ◌<◌, ◌^◌, [], ◌∷◌, ◌++◌, IfOk, OnOk, option_map};
ghost use Rattle.keeper_core.specs.Rows.{seen};
ghost use Rattle.state_core.specs.Current.{live_at, version_of};
ghost use Rattle.state_core.specs.Reply.{reading, found_of, value_len, bulk_reading};

use crate::{BulkRow, Found, Keys, Reply, Rows};
use keeper_core::{Keeper, RowView};
use side_base::{NoMemory, Text};
use std::alloc::Global;

/// The row of a key, where it is live at a moment.
pub(crate) fn live_row<'a, K: Keeper>(keeper: &'a K, key: &str, moment: u64) -> Option<RowView<'a>>
    ensures { seen result ≡ live_at (K.rows keeper.now) moment key.now }
{
    let row = keeper.find(key.as_bytes())?;
    if row.until == 0 || moment < row.until {
        Some(row)
    } else {
        None
    }
}

/// The version of the row of a key, where it is live at a moment.
pub(crate) fn live_version<K: Keeper>(keeper: &K, key: &str, moment: u64) -> Option<u64>
    ensures { result ≡ version_of (live_at (K.rows keeper.now) moment key.now) }
{
    match live_row(keeper, key, moment) {
        Some(row) => Some(row.version),
        None => None,
    }
}

/// The reply to a `Get`.
pub(crate) fn get<K: Keeper>(keeper: &K, key: &Text, moment: u64) -> Reply
    ensures { (result ≡ reading (live_at (K.rows keeper.now) moment key.now)) ⊎ (result ≡ Reply.NoMemory) }
{
    match live_row(keeper, key.as_str(), moment) {
        None => Reply::Absent,
        Some(row) => match row.copy_value() {
            Ok(value) => Reply::Value {
                value,
                version: row.version,
            },
            Err(_) => Reply::NoMemory,
        },
    }
}

/// The most bytes of values that a bulk get answers.
pub const BULK_LIMIT: u128 = 67_108_864;

/// The reply to a `Bulk`. Each key is looked up once; behind the limit no more values are copied.
pub(crate) fn bulk<K: Keeper>(alloc: Global, keeper: &K, keys: &Keys, moment: u64) -> Reply
    ensures { (result ≡ bulk_reading (K.rows keeper.now) moment keys.now) ⊎ (result ≡ Reply.NoMemory) }
{
    let mut rows = Rows::new(alloc);
    let mut len = 0;
    for place in 0..keys.len() {
        let key = keys.at(place);
        let row = live_row(keeper, key.as_str(), moment);
        len += value_len(&row);
        if len <= BULK_LIMIT && push_row(&mut rows, key, &row).is_err() {
            return Reply::NoMemory;
        }
    }
    if len > BULK_LIMIT {
        return Reply::TooLong { len };
    }
    Reply::Rows { rows }
}

/// The bytes of the value of a row; none, where there is no row.
fn value_len(row: &Option<RowView<'_>>) -> u128
    ensures exact { result ≡ value_len (seen row.now) }
    ensures limit { result < 2 ^ 64 }
{
    match row {
        Some(row) => row.value.len() as u128,
        None => 0,
    }
}

/// Appends what a key has, copied.
fn push_row(rows: &mut Rows, key: &Text, row: &Option<RowView<'_>>) -> Result<(), NoMemory>
    ensures { OnOk result (rows.new ≡ rows.old ++ record { key = key.now; found = option_map found_of (seen row.now) } ∷ []) }
{
    let found = match row {
        Some(row) => Some(copied(row)?),
        None => None,
    };
    rows.push(BulkRow {
        key: key.copy()?,
        found,
    })
}

/// A value with its version, copied.
fn copied(row: &RowView<'_>) -> Result<Found, NoMemory>
    ensures { IfOk result (λ found. option_map found_of (seen (Some row.now)) ≡ Some found) }
{
    Ok(Found {
        value: row.copy_value()?,
        version: row.version,
    })
}
