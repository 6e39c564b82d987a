ghost use Rattle.std.specs.Prelude.{◌≡◌, ◌≤◌, ◌<◌, length, OnOk, OnErr};
ghost use Rattle.conn_serve.specs.Ends.{Cut, Sent, sink_at};
ghost use Rattle.ledger_core.specs.declared.reply.LedgerReply.TheVariants as says;
ghost use Rattle.std.specs.Prelude.{◌++◌, decimal};
ghost use Rattle.sidecar_objects.specs.Passes.{IsPassOf};
ghost use Rattle.sidecar_objects.specs.Pass.{cells_of, seats_of};
ghost use Rattle.sidecar_turns.specs.Brokers.{is_broker};
ghost use Rattle.sidecar_cli.specs.Counting.{counts_line, IsTold, IsToldOf};
ghost use Rattle.sidecar_cli.specs.Note.{IsNoted};

use crate::noting::part;
use itoa::Buffer;
use keeper_core::Keeper;
use ledger_core::LedgerReply;
use resource_spec::ComponentKind;
use side_base::Text;
use side_world::{Failed, Sink};
use sidecar_core::{ObjectKinds, Pass, Shared};
use state_core::Store;
use std::sync::Wait;

/// Writes how many deliveries each broker has counted to the note, a line each, in the order of the components; and says what was read of the first cell that
/// is exhausted, if one is. Faults of the note change nothing.
pub(crate) fn tell_ledgers<K: Keeper, E: Sink, W: Wait>(
    rt: &W,
    shared: &Shared<K>,
    pass: &mut Pass<K>,
    note: &mut E,
) -> Option<u64>
    requires { IsPassOf (cells_of shared.now.objects) (seats_of pass.old) }
    ensures { IsTold ⟦<Store<K> as ObjectKinds>⟧.kinds (cells_of shared.now.objects) shared.now.config.components (seats_of pass.old) (seats_of pass.new) (sink_at E.Sink note.old) (sink_at E.Sink note.new) result }
{
    let components = &shared.config.components;
    let mut spent = None;
    let mut place = 0;
    for at in 0..components.len() {
        let component = components.at(at);
        if is_broker(component.kind()) {
            spent = spent.or(tell_ledger(rt, shared, place, component.name(), pass, note));
            place += 1;
        }
    }
    spent
}

/// Whether it is a broker.
fn is_broker(kind: ComponentKind) -> bool
    ensures { result ≡ is_broker kind }
{
    match kind {
        ComponentKind::PubsubMemory => true,
        ComponentKind::StateMemory
        | ComponentKind::StateJournal
        | ComponentKind::BindingHttp
        | ComponentKind::BindingCron => { false }
    }
}

/// Writes the line of the broker whose ledger stands at a place, or says what was read of its cell.
fn tell_ledger<K: Keeper, E: Sink, W: Wait>(
    rt: &W,
    shared: &Shared<K>,
    place: usize,
    name: &Text,
    pass: &mut Pass<K>,
    note: &mut E,
) -> Option<u64>
    requires pass { IsPassOf (cells_of shared.now.objects) (seats_of pass.old) }
    requires place { place < length shared.now.objects.ledgers.items }
    ensures { IsToldOf ⟦<Store<K> as ObjectKinds>⟧.kinds (cells_of shared.now.objects) name.now place (seats_of pass.old) (seats_of pass.new) (sink_at E.Sink note.old) (sink_at E.Sink note.new) result }
{
    match shared.counts(rt, place, pass) {
        Ok(reply) => {
            tell_counts(name, &reply, note);
            None
        }
        Err(exhausted) => Some(exhausted.count),
    }
}

/// Writes the line of a broker whose ledger answered so.
fn tell_counts<E: Sink>(name: &Text, reply: &LedgerReply, note: &mut E)
    ensures { IsNoted (sink_at E.Sink note.old) (sink_at E.Sink note.new) (counts_line name.now reply.now) }
{
    if let LedgerReply::Counts {
        owed,
        done,
        dropped,
        dead,
    } = reply
    {
        let _ = line(name, *owed, *done, *dropped, *dead, note);
    }
}

/// Writes the line of a broker, up to where the note fails.
fn line<E: Sink>(
    name: &Text,
    owed: u128,
    done: u128,
    dropped: u128,
    dead: u128,
    note: &mut E,
) -> Result<(), Failed>
    ensures sent { OnOk result (Sent (counts_line name.now (says.Counts owed done dropped dead)) (sink_at E.Sink note.old) (sink_at E.Sink note.new)) }
    ensures cut { OnErr result (Cut (counts_line name.now (says.Counts owed done dropped dead)) (sink_at E.Sink note.old) (sink_at E.Sink note.new)) }
    ensures no_fewer { E.faults note.old ≤ E.faults note.new }
{
    part(b"pubsub ", note)?;
    part(name.bytes(), note)?;
    number(b" owed ", owed, note)?;
    number(b" done ", done, note)?;
    number(b" dropped ", dropped, note)?;
    number(b" dead ", dead, note)?;
    part(b"\n", note)
}

/// Writes a word and a number, up to where the note fails.
fn number<E: Sink>(word: &[u8], number: u128, note: &mut E) -> Result<(), Failed>
    ensures sent { OnOk result (Sent (word.now ++ decimal number) (sink_at E.Sink note.old) (sink_at E.Sink note.new)) }
    ensures cut { OnErr result (Cut (word.now ++ decimal number) (sink_at E.Sink note.old) (sink_at E.Sink note.new)) }
    ensures no_fewer { E.faults note.old ≤ E.faults note.new }
{
    part(word, note)?;
    part(Buffer::new().format(number).as_bytes(), note)
}
