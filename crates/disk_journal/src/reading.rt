//! Reading into a buffer behind what it has.
ghost use Rattle.std.specs.Prelude.{◌≡◌, ◌+◌, ◌-◌, ◌≤◌, length, take, drop, OnOk, OnErr};
ghost use Rattle.side_world.specs.Faults.{Rose};
ghost use Rattle.disk_journal.specs.Moments.{Reads, ChangesNothing};

use side_base::NoMemory;
use side_world::{Disk, Failed};

/// Moves what stands from `start` on to the front.
fn bring_forward(bytes: &mut [u8], start: usize)
    requires { start ≤ length bytes.old }
    ensures front { take (length bytes.old - start) bytes.new ≡ drop start bytes.old }
    ensures length { length bytes.new ≡ length bytes.old }
{
    let len = bytes.len();
    bytes.copy_within(start..len, 0);
}

/// Moves what stands from `start` on to the front, and makes the whole `size` bytes long.
pub(crate) fn make_room(buffer: &mut Vec<u8>, start: usize, size: usize) -> Result<(), NoMemory>
    requires within { start ≤ length buffer.old.items }
    requires fits { length buffer.old.items - start ≤ size }
    ensures front { OnOk result (take (length buffer.old.items - start) buffer.new.items ≡ drop start buffer.old.items) }
    ensures length { OnOk result (length buffer.new.items ≡ size) }
    ensures same { OnErr result (buffer.new.items ≡ buffer.old.items) }
{
    let len = buffer.len();
    buffer.resize(len.max(size), 0)?;
    bring_forward(buffer, start);
    buffer.truncate(size);
    Ok(())
}

/// Reads from place `at` on into all of `buffer` behind its first `held` bytes.
pub(crate) fn read_behind<D: Disk>(
    disk: &mut D,
    at: u64,
    buffer: &mut [u8],
    held: usize,
) -> Result<(), Failed>
    requires within { held ≤ length buffer.old }
    requires fits { at + (length buffer.old - held) ≤ D.size disk.old }
    ensures front { take held buffer.new ≡ take held buffer.old }
    ensures length { length buffer.new ≡ length buffer.old }
    ensures read { OnOk result (Reads D.Disk disk.old (λ bytes. drop held buffer.new ≡ take (length buffer.old - held) (drop at bytes))) }
    ensures same { ChangesNothing D.Disk disk.old disk.new }
    ensures failed { OnErr result (Rose (D.faults disk.old) (D.faults disk.new)) }
    ensures no_fault { OnOk result (D.faults disk.new ≡ D.faults disk.old) }
    ensures no_fewer { D.faults disk.old ≤ D.faults disk.new }
{
    disk.read_at(at, &mut buffer[held..])
}
