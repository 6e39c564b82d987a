//! Two stores whose disks wait for each other.
use crate::held_disk::HeldDisk;
use crate::meeting::Meeting;
use crate::scripts::{is_answered, outside_of_two};
use crate::served::served_over;
use keeper_journal::JournalKeeper;
use side_base::Places;
use side_memory::MemoryDisk;
use side_world::FreeGate;
use sidecar_serving::End;
use std::alloc::Global;
use std::test::Fail;

/// Two stores.
const STORES: &[u8] =
    b"apiVersion: dapr.io/v1alpha1\nkind: Component\nmetadata:\n  name: one\nspec:\n  type: state.in-memory\n  version: v1\n---\napiVersion: dapr.io/v1alpha1\nkind: Component\nmetadata:\n  name: other\nspec:\n  type: state.in-memory\n  version: v1\n";

const SAVE_ONE: &[u8] =
    b"POST /v1.0/state/one HTTP/1.1\r\nHost: a\r\nContent-Length: 23\r\n\r\n[{\"key\":\"k\",\"value\":1}]";

const SAVE_OTHER: &[u8] =
    b"POST /v1.0/state/other HTTP/1.1\r\nHost: a\r\nContent-Length: 23\r\n\r\n[{\"key\":\"k\",\"value\":1}]";

const SAVED: &[u8] = b"HTTP/1.1 204 No Content\r\n\r\n";

/// How long a journal may be, in bytes.
const LIMIT: u64 = 402_653_184;

/// A keeper over a new journal, on a disk that waits for another.
fn keeper<'a>(
    alloc: Global,
    meeting: &'a Meeting,
    first: bool,
) -> Result<JournalKeeper<HeldDisk<'a>>, Fail> {
    let disk = MemoryDisk::new(alloc, b"", Places::new(alloc))?;
    match JournalKeeper::start(alloc, HeldDisk::new(disk, meeting, first), LIMIT, [7; 16]) {
        Ok(keeper) => Ok(keeper),
        Err(_) => Err(Fail::new("no journal was made")),
    }
}

/// The keepers of the two stores.
fn keepers<'a>(
    alloc: Global,
    meeting: &'a Meeting,
) -> Result<Vec<JournalKeeper<HeldDisk<'a>>>, Fail> {
    let mut keepers = Vec::new(alloc);
    keepers.push(keeper(alloc, meeting, true)?)?;
    keepers.push(keeper(alloc, meeting, false)?)?;
    Ok(keepers)
}

// Each of two workers saves to a store of its own, and each store's disk waits for the other's in the midst of its first commit. Served one after the other, or with one
// lock round both stores, neither would find the other.
#[test]
fn two_stores_are_saved_to_side_by_side(rt: HostRuntime) -> Result<(), Fail> {
    let alloc = rt.alloc();
    let meeting = Meeting::new(rt);
    let mut outside = outside_of_two(alloc, SAVE_ONE, SAVE_OTHER)?;
    let end = served_over(
        &rt,
        alloc,
        STORES,
        keepers(alloc, &meeting)?,
        0,
        2,
        &FreeGate,
        &mut outside,
    );
    assert!(rt; end == Some(End::Done));
    assert!(rt; meeting.is_met());
    assert!(rt; is_answered(&outside, 0, SAVED));
    assert!(rt; is_answered(&outside, 1, SAVED));
    Ok(())
}
