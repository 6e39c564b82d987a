ghost use Rattle.std.specs.Prelude.{◌≡◌, ◌<◌, ◌≤◌, true, length, IfOk, OnOk, IsErrOf};
ghost use Rattle.side_world.specs.Faults.{Rose};
ghost use Rattle.side_world.specs.Told.{Told, Took, IsDrained};

use crate::{Failed, Source};
use side_base::{Blob, NoMemory};
use std::alloc::Global;
use std::error::Error;
use std::fmt;

const PIECE: usize = 8_192;

/// Why a source was not read to its end.
#[derive(Clone, Copy, Debug, PartialEq, Eq)]
pub enum GatherErr {
    /// A read failed: the source's count of faults rose.
    Failed,
    /// There is no room for the bytes.
    NoMemory,
}

impl fmt::Display for GatherErr {
    fn fmt<W: fmt::Write>(&self, f: &mut fmt::Formatter<W>) -> fmt::Result {
        f.write_str(match self {
            GatherErr::Failed => "the source failed",
            GatherErr::NoMemory => "no memory",
        })
    }
}

impl Error for GatherErr {}

/// Reads a source until it ends or `limit` bytes were taken, and answers the bytes.
pub fn gather<S: Source>(alloc: Global, source: &mut S, limit: usize) -> Result<Blob, GatherErr>
    ensures took { IfOk result (λ bytes. Took (S.left source.old) (S.left source.new) bytes) }
    ensures taken { IfOk result (λ bytes. Told (S.taken source.old) (S.taken source.new) bytes) }
    ensures within { IfOk result (λ bytes. length bytes ≤ limit) }
    ensures ended { IfOk result (λ bytes. length bytes < limit → S.ended source.new ≡ true) }
    ensures drained { IfOk result (λ bytes. length bytes < limit → IsDrained (S.left source.new)) }
    ensures no_fault { OnOk result (S.faults source.new ≡ S.faults source.old) }

    ensures failed { IsErrOf result GatherErr.Failed → Rose (S.faults source.old) (S.faults source.new) }
    ensures no_room { IsErrOf result GatherErr.NoMemory → S.faults source.new ≡ S.faults source.old }
    ensures no_fewer { S.faults source.old ≤ S.faults source.new }
{
    let mut gathered = Blob::new(alloc);
    let mut piece = [0; PIECE];
    while gathered.len() < limit {
        let room = PIECE.min(limit - gathered.len());
        match source.read(&mut piece[..room]) {
            Ok(0) => return Ok(gathered),
            Ok(n) => gathered.push(&piece[..n]).map_err(|_| GatherErr::NoMemory)?,
            Err(Failed) => return Err(GatherErr::Failed),
        }
    }
    Ok(gathered)
}
