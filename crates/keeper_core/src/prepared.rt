ghost use Rattle.std.specs.Prelude.{◌≡◌, IfOk};
ghost use Rattle.keeper_core.specs.Prepared.{change_of, IsEndOf, IsReady};

use crate::links::NONE;
use crate::{Change, ChangeList};
use side_base::{Blob, NoMemory, Sequence};
use std::alloc::Global;
use std::marker::Model;

/// What a table keeps for a key.
#[derive(Drop)]
pub(crate) struct StoredRow {
    pub(crate) value: Blob,
    pub(crate) version: u64,
    /// In milliseconds since 1970; 0 is never.
    pub(crate) until: u64,
    /// The place that its end may have among the ends.
    pub(crate) end: usize,
}

/// A change with the memory that it takes, but for a place in the table.
#[derive(Drop)]
pub(crate) enum Step {
    /// The row of a key, with the key once more where the row has an end.
    Place {
        key: Vec<u8>,
        row: StoredRow,
        end: Option<Vec<u8>>,
    },
    TakeOut(Blob),
}

/// Changes with all the memory that they take, so that the `RowTable` that prepared them makes them without fail. Contracts see
/// them as the changes.
#[derive(Drop)]
pub struct Prepared {
    pub(crate) steps: Sequence<Step>,
}

impl Model for Prepared {
    ghost use Rattle.std.specs.Prelude.{List};
    ghost use Rattle.std.specs.List.{All};
    ghost use Rattle.keeper_core.specs.declared.changes.Change.{Change};

    ghost Value = { List Change };

    ghost use Rattle.keeper_core.specs.Prepared.{changes_of, IsReady};

    ghost view = { λ a. changes_of a.steps };

    ghost invariant = { λ a. All IsReady a.steps };
}

impl Prepared {
    /// Takes the memory for these changes; values are moved.
    pub(crate) fn new(alloc: Global, mut list: ChangeList) -> Result<Self, NoMemory>
        ensures { IfOk result (λ prepared. prepared ≡ list) }
    {
        let mut steps = Sequence::new(alloc);
        while let Some(change) = list.take_first() {
            steps.push(step_of(alloc, change)?)?;
        }
        Ok(Prepared { steps })
    }
}

fn step_of(alloc: Global, change: Change) -> Result<Step, NoMemory>
    ensures change { IfOk result (λ step. change_of step ≡ change) }
    ensures ready { IfOk result IsReady }
{
    match change {
        Change::Put {
            key,
            value,
            version,
            until,
        } => {
            let end = end_of(alloc, key.bytes(), until)?;
            let row = StoredRow {
                value,
                version,
                until,
                end: NONE,
            };
            Ok(Step::Place {
                key: key.bytes().to_vec(alloc)?,
                row,
                end,
            })
        }
        Change::Remove { key } => Ok(Step::TakeOut(key)),
    }
}

/// The key once more, where its row has an end.
fn end_of(alloc: Global, key: &[u8], until: u64) -> Result<Option<Vec<u8>>, NoMemory>
    ensures { IfOk result (IsEndOf key.now until) }
{
    if until == 0 {
        return Ok(None);
    }
    Ok(Some(key.to_vec(alloc)?))
}
