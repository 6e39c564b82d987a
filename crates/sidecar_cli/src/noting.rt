ghost use Rattle.std.specs.Prelude.{◌≤◌, OnOk, OnErr};
ghost use Rattle.conn_serve.specs.Ends.{Cut, Sent, sink_at};

use side_world::{Failed, Sink, send};

/// Writes a part of a line.
pub(crate) fn part<E: Sink>(part: &[u8], note: &mut E) -> Result<(), Failed>
    ensures sent { OnOk result (Sent part.now (sink_at E.Sink note.old) (sink_at E.Sink note.new)) }
    ensures cut { OnErr result (Cut part.now (sink_at E.Sink note.old) (sink_at E.Sink note.new)) }
    ensures no_fewer { E.faults note.old ≤ E.faults note.new }
{
    send(note, part)
}
