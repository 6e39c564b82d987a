ghost use Rattle.std.specs.Prelude.{◌≡◌, ◌≤◌, OnOk, OnErr};
ghost use Rattle.side_world.specs.Faults.{Rose};
ghost use Rattle.side_world.specs.Told.{Told, SentSome};

use crate::{Failed, Sink};

/// Writes all of `bytes`, in as many writes as the sink needs. Takes no memory.
///
/// `Failed` comes only where the sink's count of faults rose; a prefix of the bytes went out then.
pub fn send<N: Sink>(sink: &mut N, bytes: &[u8]) -> Result<(), Failed>
    ensures all { OnOk result (Told (N.contents sink.old) (N.contents sink.new) bytes.now) }
    ensures no_fault { OnOk result (N.faults sink.new ≡ N.faults sink.old) }
    ensures some { OnErr result (SentSome (N.contents sink.old) (N.contents sink.new) bytes.now) }
    ensures failed { OnErr result (Rose (N.faults sink.old) (N.faults sink.new)) }
    ensures no_fewer { N.faults sink.old ≤ N.faults sink.new }
{
    let mut sent = 0;
    while sent < bytes.len() {
        sent += sink.write(&bytes[sent..])?;
    }
    Ok(())
}
