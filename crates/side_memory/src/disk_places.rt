ghost use Rattle.std.specs.Prelude.{◌≡◌, None, Some, IfOk, OnOk, OnErr, option_map};
ghost use Rattle.std.specs.Bool.{OnTrue, OnFalse};
ghost use Rattle.side_world.specs.Outside.{bytes_or_none};
ghost use Rattle.disk_memory.specs.MemoryDisk.{bytes_of, IsOpened, IsToFail};
ghost use Rattle.side_memory.specs.MemoryOutside.{held_at, failing_at, IsPlaceOf, SameElsewhere};

use disk_memory::MemoryDisk;
use side_base::{Blob, NoMemory, Places};
use std::alloc::Global;
use std::mem;

/// A disk by its path, where it is not taken, and the calls that are to fail once it is taken.
#[derive(Debug, Drop)]
pub struct DiskPlace {
    pub(crate) path: Blob,
    pub(crate) disk: Option<MemoryDisk>,
    pub(crate) failing: Places,
}

/// The place of the first disk of this path.
pub(crate) fn place_of(places: &[DiskPlace], path: &[u8]) -> Option<usize>
    ensures { IsPlaceOf places.now path.now result }
{
    for i in 0..places.len() {
        if places[i].path.bytes() == path {
            return Some(i);
        }
    }
    None
}

/// Puts a disk of these bytes in the place of its path.
pub(crate) fn put(
    alloc: Global,
    places: &mut Vec<DiskPlace>,
    path: &[u8],
    bytes: &[u8],
    failing: Places,
) -> Result<(), NoMemory>
    ensures held { OnOk result (held_at places.new.items path.now ≡ Some bytes.now) }
    ensures failing { OnOk result (failing_at places.new.items path.now ≡ failing) }
    ensures others { OnOk result (SameElsewhere path.now places.old.items places.new.items) }
    ensures err { OnErr result (places.new.items ≡ places.old.items) }
{
    let disk = MemoryDisk::new(alloc, bytes, Places::new(alloc))?;
    let place = DiskPlace {
        path: Blob::from_bytes(alloc, path)?,
        disk: Some(disk),
        failing,
    };
    match place_of(places, path) {
        Some(i) => {
            places[i] = place;
        }
        None => {
            places.push(place)?;
        }
    }
    Ok(())
}

/// Takes the disk of this path, which begins anew with its bytes, and with none where there is no such disk.
pub(crate) fn take(
    alloc: Global,
    places: &mut Vec<DiskPlace>,
    path: &[u8],
) -> Result<MemoryDisk, NoMemory>
    ensures disk { IfOk result (λ disk. IsOpened (bytes_or_none (held_at places.old.items path.now)) disk) }
    ensures plan { IfOk result (IsToFail (failing_at places.old.items path.now)) }
    ensures gone { OnOk result (held_at places.new.items path.now ≡ None) }
    ensures others { OnOk result (SameElsewhere path.now places.old.items places.new.items) }
    ensures err { OnErr result (places.new.items ≡ places.old.items) }
{
    match place_of(places, path) {
        Some(i) => {
            let disk = take_from(alloc, &mut places[i])?;
            Ok(disk)
        }
        None => {
            let disk = MemoryDisk::new(alloc, b"", Places::new(alloc))?;
            let place = DiskPlace {
                path: Blob::from_bytes(alloc, path)?,
                disk: None,
                failing: Places::new(alloc),
            };
            places.push(place)?;
            Ok(disk)
        }
    }
}

fn take_from(alloc: Global, place: &mut DiskPlace) -> Result<MemoryDisk, NoMemory>
    ensures disk { IfOk result (IsOpened (bytes_or_none (option_map bytes_of place.old.disk))) }
    ensures plan { IfOk result (IsToFail place.old.failing) }
    ensures path { place.new.path ≡ place.old.path }
    ensures gone { OnOk result (place.new.disk ≡ None) }
    ensures err { OnErr result (place.new ≡ place.old) }
{
    let mut disk = opened(alloc, &place.disk)?;
    disk.fail_at(mem::replace(&mut place.failing, Places::new(alloc)));
    place.disk = None;
    Ok(disk)
}

fn opened(alloc: Global, kept: &Option<MemoryDisk>) -> Result<MemoryDisk, NoMemory>
    ensures { IfOk result (IsOpened (bytes_or_none (option_map bytes_of kept.now))) }
{
    match kept {
        Some(disk) => MemoryDisk::new(alloc, disk.bytes(), Places::new(alloc)),
        None => MemoryDisk::new(alloc, b"", Places::new(alloc)),
    }
}

/// Puts a disk back into the place of its path, and answers whether there is one. Takes no memory.
pub(crate) fn give(places: &mut Vec<DiskPlace>, path: &[u8], disk: MemoryDisk) -> bool
    ensures held { OnTrue result (held_at places.new.items path.now ≡ Some (bytes_of disk)) }
    ensures others { OnTrue result (SameElsewhere path.now places.old.items places.new.items) }
    ensures none { OnFalse result (places.new.items ≡ places.old.items) }
{
    match place_of(places, path) {
        Some(i) => {
            places[i].disk = Some(disk);
            true
        }
        None => false,
    }
}
