ghost use Rattle.std.specs.Prelude.{◌<◌, ◌≤◌, length};
ghost use Rattle.http_frames.specs.Framing.{State, Stands};
ghost use Rattle.conn_serve.specs.Ends.{sink_at, source_at};
ghost use Rattle.conn_serve.specs.Answering.{Wants, IsEnd};

use crate::Ended;
use crate::ending::{finish_without_memory, flush};
use http_frames::Framer;
use side_base::Blob;
use side_world::{Failed, Sink, Source};
use std::alloc::Global;

/// Sends what was gathered, and gives the framer more bytes of the source; says how the session ends, if it does.
pub(crate) fn want<S: Source, N: Sink>(
    alloc: Global,
    framer: &mut Framer,
    piece: &mut [u8],
    out: &mut Blob,
    source: &mut S,
    sink: &mut N,
) -> Option<Ended>
    requires some { 0 < length piece.old }
    requires short { length piece.old ≤ 16384 }
    ensures { (state : State) → Stands state framer.old → Wants state out.old out.new framer.new (source_at S.Source source.old) (source_at S.Source source.new) (sink_at N.Sink sink.old) (sink_at N.Sink sink.new) result }
{
    if let Err(Failed) = flush(alloc, out, sink) {
        return Some(Ended::SinkFailed);
    }
    source.between(framer.is_between());
    match source.read(piece) {
        Ok(0) => Some(end_of(framer)),
        Ok(count) => match framer.feed(&piece[..count]) {
            Ok(()) => None,
            Err(_) => Some(finish_without_memory(Ended::NoMemory, out, sink)),
        },
        Err(Failed) => Some(Ended::SourceFailed),
    }
}

/// How a session ends whose source has ended.
fn end_of(framer: &Framer) -> Ended
    ensures { (state : State) → Stands state framer.now → IsEnd state result }
{
    if framer.is_between() {
        Ended::Done
    } else {
        Ended::ClosedByPeer
    }
}
