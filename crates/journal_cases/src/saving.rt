// Saves of a keeper.
ghost use Rattle.std.specs.Prelude.{◌≡◌, ◌+◌, ◌<◌, ◌^◌, IfOk};
ghost use Rattle.keeper_core.specs.Changes.{IsBelow, VersionsAreBelow};

use keeper_core::{Change, ChangeList, Changes, KeepErr, Keeper};
use side_base::{Blob, NoMemory};
use std::alloc::Global;

/// What each save puts.
const VALUE: &[u8] = b"\"x\"";

// That a key has the value, by this write.
fn put_of(alloc: Global, key: &[u8], version: u64) -> Result<Change, NoMemory>
    requires { version < 2 ^ 20 }
    ensures { IfOk result (IsBelow (version + 1)) }
{
    Ok(Change::Put {
        key: Blob::from_bytes(alloc, key)?,
        value: Blob::from_bytes(alloc, VALUE)?,
        version,
        until: 0,
    })
}

fn changes_of(alloc: Global, key: &[u8], version: u64) -> Result<Changes, NoMemory>
    requires { version < 2 ^ 20 }
    ensures next { IfOk result (λ changes. changes.next ≡ version + 1) }
    ensures below { IfOk result (λ changes. VersionsAreBelow changes.next changes.list) }
{
    let mut list = ChangeList::new(alloc);
    list.push(put_of(alloc, key, version)?)?;
    Ok(Changes {
        list,
        next: version + 1,
    })
}

/// Saves the value `"x"` under a key.
pub(crate) fn save<K: Keeper>(alloc: Global, keeper: &mut K, key: &[u8]) -> Result<(), KeepErr> {
    let version = keeper.next_version();
    if version >= 1 << 20 {
        return Err(KeepErr::Failed);
    }
    match changes_of(alloc, key, version) {
        Ok(changes) => keeper.commit(changes),
        Err(_) => Err(KeepErr::NoMemory),
    }
}

/// The same, and once more where memory or the disk failed.
pub(crate) fn save_again<K: Keeper>(
    alloc: Global,
    keeper: &mut K,
    key: &[u8],
) -> Result<(), KeepErr> {
    match save(alloc, keeper, key) {
        Ok(()) => Ok(()),
        Err(_) => save(alloc, keeper, key),
    }
}
