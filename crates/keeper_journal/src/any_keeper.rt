use crate::JournalKeeper;
use keeper_core::{Changes, KeepErr, Keeper, MemoryKeeper, RowView};
use side_world::Disk;

/// A keeper of either kind.
#[derive(Drop)]
pub enum AnyKeeper<D: Disk> {
    /// Its rows are gone with the process.
    Memory(MemoryKeeper),
    /// Its rows are found again after a crash.
    Journal(JournalKeeper<D>),
}

impl<D: Disk> AnyKeeper<D> {
    ghost use Rattle.std.specs.Prelude.{◌≡◌};
    ghost use Rattle.keeper_journal.specs.AnyKeeper.{any_disk};

    /// The disk, as the last commit left it; a keeper in memory has none. Takes no memory.
    pub fn into_disk(self) -> Option<D>
        ensures { result ≡ any_disk self }
    {
        match self {
            AnyKeeper::Memory(_) => None,
            AnyKeeper::Journal(keeper) => Some(keeper.into_disk()),
        }
    }
}

impl<D: Disk> Keeper for AnyKeeper<D> {
    ghost use Rattle.keeper_journal.specs.AnyKeeper.{any_rows, any_next, any_size, any_limit, any_faults, any_may_fail, any_size_after, any_leads, any_counted, any_at_rest, any_goes_on};

    ghost rows = { any_rows };

    ghost next = { any_next };

    ghost size = { any_size };

    ghost limit = { any_limit };

    ghost faults = { any_faults };

    ghost may_fail = { any_may_fail };

    ghost size_after = { any_size_after };

    ghost leads = { any_leads };

    fn find(&self, key: &[u8]) -> Option<RowView<'_>> {
        match self {
            AnyKeeper::Memory(keeper) => keeper.find(key),
            AnyKeeper::Journal(keeper) => keeper.find(key),
        }
    }

    fn next_lapsed(&self, after: Option<&[u8]>, moment: u64) -> Option<&[u8]> {
        match self {
            AnyKeeper::Memory(keeper) => keeper.next_lapsed(after, moment),
            AnyKeeper::Journal(keeper) => keeper.next_lapsed(after, moment),
        }
    }

    fn next_version(&self) -> u64 {
        match self {
            AnyKeeper::Memory(keeper) => keeper.next_version(),
            AnyKeeper::Journal(keeper) => keeper.next_version(),
        }
    }

    fn commit(&mut self, changes: Changes) -> Result<(), KeepErr> {
        match self {
            AnyKeeper::Memory(keeper) => keeper.commit(changes),
            AnyKeeper::Journal(keeper) => keeper.commit(changes),
        }
    }

    ghost counted = { any_counted };

    ghost at_rest = { any_at_rest };

    ghost goes_on = { any_goes_on };
}
