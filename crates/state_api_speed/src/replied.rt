//! The replies that are made responses of.
ghost use Rattle.std.specs.Prelude.{◌≡◌, map, IfOk};
ghost use Rattle.state_core.specs.Fits.{key_of};
ghost use Rattle.state_api.specs.Ran.{IsAnswer};

use side_base::{Blob, NoMemory, Text};
use state_api::Ran;
use state_core::{BulkRow, Cmd, Found, Keys, Reply, Rows};
use std::alloc::Global;

fn row_of(key: &Text, value: &Blob) -> Result<BulkRow, NoMemory>
    ensures { IfOk result (λ row. row.key ≡ key.now) }
{
    Ok(BulkRow {
        key: key.copy()?,
        found: Some(Found {
            value: value.copy()?,
            version: 1_000,
        }),
    })
}

fn rows_of(alloc: Global, keys: &Keys, value: &Blob) -> Result<Rows, NoMemory>
    ensures { IfOk result (λ rows. map key_of rows ≡ keys.now) }
{
    let mut rows = Rows::new(alloc);
    for place in 0..keys.len() {
        rows.push(row_of(keys.at(place), value)?)?;
    }
    Ok(rows)
}

/// What a command comes to where each key has this value; a delete or a transaction finds no memory.
pub fn ran_of(alloc: Global, cmd: &Cmd, value: &Blob) -> Result<Ran, NoMemory>
    ensures { IfOk result (IsAnswer cmd.now) }
{
    match cmd {
        Cmd::Get { .. } => Ok(Ran::Replied(Reply::Value {
            value: value.copy()?,
            version: 1_000,
        })),
        Cmd::Save { .. } => Ok(Ran::Replied(Reply::Saved)),
        Cmd::Bulk { keys, .. } => Ok(Ran::Replied(Reply::Rows {
            rows: rows_of(alloc, keys, value)?,
        })),
        Cmd::Delete { .. } | Cmd::Transact { .. } => Err(NoMemory),
    }
}
