ghost use Rattle.std.specs.Prelude.{◌≡◌, ◌≤◌, ◌++◌, [], ◌∷◌, length, IsErrOf, OnOk, OnErr};
ghost use Rattle.side_world.specs.Faults.{Rose};
ghost use Rattle.disk_journal.specs.Image.{header, IsImage};
ghost use Rattle.disk_journal.specs.Moments.{Shows};

use crate::JournalErr;
use crate::writing::sync;
use side_world::Disk;

/// How many bytes the header has: the first gate stands behind them.
pub(crate) const HEADER_BYTES: usize = 16;

/// What a record has beside its body: its gate, and the eight bytes of the body's length.
pub(crate) const RECORD_BYTES: usize = 9;

/// What a file of no bodies has: the header, and a closed gate.
pub(crate) const EMPTY: [u8; 17] = *b"SIDEJNL2\0\0\0\0\0\0\0\0\0";

/// Makes an empty disk a journal of no bodies. Takes no memory.
///
/// A crash before it has answered `Ok` may leave a file that is refused.
pub fn format<D: Disk>(disk: &mut D) -> Result<(), JournalErr>
    requires { D.size disk.old ≡ 0 }
    ensures formatted { OnOk result (Shows D.Disk disk.new (λ bytes. bytes ≡ header ++ 0 ∷ [])) }
    ensures image { OnOk result (Shows D.Disk disk.new (λ bytes. IsImage bytes [])) }
    ensures size { OnOk result (D.size disk.new ≡ 17) }
    ensures no_longer { D.size disk.new ≤ 17 }
    ensures failed { OnErr result (Rose (D.faults disk.old) (D.faults disk.new)) }
    ensures no_fault { OnOk result (D.faults disk.new ≡ D.faults disk.old) }
    ensures only_failed { OnErr result (IsErrOf result JournalErr.Failed) }
    ensures no_fewer { D.faults disk.old ≤ D.faults disk.new }
{
    match disk.write_at(0, &EMPTY) {
        Ok(()) => sync(disk),
        Err(_) => Err(JournalErr::Failed),
    }
}
