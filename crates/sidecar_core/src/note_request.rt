//! Requests for metadata, at the book of its entries.
ghost use Rattle.std.specs.Prelude.{◌≡◌, ℕ, List, Some, Err, IfOk};
ghost use Rattle.turn_cell.specs.declared.error.ApiErr.TheVariants as error;
ghost use Rattle.meta_api.specs.declared.command.NotesCmd.TheVariants as ask;
ghost use Rattle.meta_api.specs.Fits.{Fits};
ghost use Rattle.sidecar_objects.specs.Passes.{IsPassOf};
ghost use Rattle.sidecar_objects.specs.Pass.{DoesAlone, cells_of, seats_of};
ghost use Rattle.sidecar_core.specs.Exchange.{AtNotes, ListReplies, NotesRan, PutReplies, SetsNote};

use crate::Shared;
use keeper_core::Keeper;
use link_call::given;
use meta_api::laws::replies_fit;
use meta_api::{NoteErr, NotesCmd, NotesReply, metadata, put_command, put_response};
use side_base::{Response, Text};
use sidecar_objects::{ObjectKinds, Pass};
use state_api::{What, malformed_response};
use state_core::Store;
use std::alloc::Global;
use std::sync::Wait;
use turn_cell::{ApiErr, Exhausted};

/// Notes a value for a name.
pub(crate) fn put<K: Keeper, W: Wait>(
    rt: &W,
    shared: &Shared<K>,
    pass: &mut Pass<K>,
    name: &Text,
    value: &[u8],
) -> Result<Response, ApiErr>
    requires pass { IsPassOf (cells_of shared.now.objects) (seats_of pass.old) }
    ensures does { DoesAlone ⟦<Store<K> as ObjectKinds>⟧.kinds shared.now.objects pass.old pass.new (SetsNote name.now value.now) result }
    ensures shows { (count : ℕ) → result ≡ Err (error.Exhausted count) → pass.new.notes.count ≡ Some count }
{
    match put_command(shared.alloc, name, value) {
        Ok(cmd) => put_by(rt, shared, pass, &cmd),
        Err(NoteErr::NotText) => given(malformed_response(shared.alloc, What::Shape)),
        Err(NoteErr::NoMemory) => Err(ApiErr::NoMemory),
    }
}

/// Notes a value by this command.
fn put_by<K: Keeper, W: Wait>(
    rt: &W,
    shared: &Shared<K>,
    pass: &mut Pass<K>,
    cmd: &NotesCmd,
) -> Result<Response, ApiErr>
    requires pass { IsPassOf (cells_of shared.now.objects) (seats_of pass.old) }
    requires put { (name value : List ℕ) × (cmd.now ≡ ask.Put name value) }
    ensures does { DoesAlone ⟦<Store<K> as ObjectKinds>⟧.kinds shared.now.objects pass.old pass.new (AtNotes cmd.now PutReplies) result }
    ensures shows { (count : ℕ) → result ≡ Err (error.Exhausted count) → pass.new.notes.count ≡ Some count }
{
    match note(rt, shared, pass, cmd) {
        Ok(reply) => put_replied(shared.alloc, &reply),
        Err(error) => Err(error),
    }
}

/// Tells all that is loaded and noted.
pub(crate) fn list<K: Keeper, W: Wait>(
    rt: &W,
    shared: &Shared<K>,
    pass: &mut Pass<K>,
) -> Result<Response, ApiErr>
    requires pass { IsPassOf (cells_of shared.now.objects) (seats_of pass.old) }
    ensures does { DoesAlone ⟦<Store<K> as ObjectKinds>⟧.kinds shared.now.objects pass.old pass.new (AtNotes ask.List (ListReplies shared.now.config)) result }
    ensures shows { (count : ℕ) → result ≡ Err (error.Exhausted count) → pass.new.notes.count ≡ Some count }
{
    match note(rt, shared, pass, &NotesCmd::List) {
        Ok(reply) => list_replied(shared, reply),
        Err(error) => Err(error),
    }
}

/// Asks the book.
fn note<K: Keeper, W: Wait>(
    rt: &W,
    shared: &Shared<K>,
    pass: &mut Pass<K>,
    cmd: &NotesCmd,
) -> Result<NotesReply, ApiErr>
    requires pass { IsPassOf (cells_of shared.now.objects) (seats_of pass.old) }
    ensures does { DoesAlone ⟦<Store<K> as ObjectKinds>⟧.kinds shared.now.objects pass.old pass.new (NotesRan cmd.now) result }
    ensures fits { IfOk result (Fits cmd.now) }
    ensures shows { (count : ℕ) → result ≡ Err (error.Exhausted count) → pass.new.notes.count ≡ Some count }
{
    replies_fit();
    match shared.objects.notes.call(rt, &mut pass.notes, cmd) {
        Ok(reply) => Ok(reply),
        Err(Exhausted { count }) => Err(ApiErr::Exhausted { count }),
    }
}

/// The response to what the book answered to a value.
fn put_replied(alloc: Global, reply: &NotesReply) -> Result<Response, ApiErr>
    requires { (name value : List ℕ) × Fits (ask.Put name value) reply.now }
    ensures { PutReplies reply.now result }
{
    match reply {
        NotesReply::Noted | NotesReply::Full { .. } => given(put_response(alloc, reply)),
        NotesReply::NoMemory => Err(ApiErr::NoMemory),
        NotesReply::Listed { .. } => unreachable!(),
    }
}

/// The response to what the book listed.
fn list_replied<K: Keeper>(shared: &Shared<K>, reply: NotesReply) -> Result<Response, ApiErr>
    requires { Fits ask.List reply }
    ensures { ListReplies shared.now.config reply result }
{
    match reply {
        NotesReply::Listed { pairs } => given(metadata(
            shared.alloc,
            &shared.config.app,
            &shared.notes,
            &shared.sub_notes,
            &pairs,
        )),
        NotesReply::NoMemory => Err(ApiErr::NoMemory),
        NotesReply::Noted | NotesReply::Full { .. } => unreachable!(),
    }
}
