ghost use Rattle.std.specs.Prelude.{◌≡◌, ◌≤◌, ◌++◌, [], ◌∷◌, length, OnOk, OnErr};
ghost use Rattle.side_world.specs.Disk.{overwritten, Torn};
ghost use Rattle.disk_memory.specs.declared.note.Note.TheVariants.{Written};

use crate::note::Note;
use crate::overwriting::{Tear, overwrite, torn_piece};
use side_base::Blob;
use std::alloc::{AllocError, Global};

/// Writes, and notes it.
pub(crate) fn write(
    alloc: Global,
    bytes: &mut Vec<u8>,
    notes: &mut Vec<Note>,
    at: usize,
    piece: &[u8],
) -> Result<(), AllocError>
    requires { at ≤ length bytes.old.items }
    ensures bytes { OnOk result (bytes.new.items ≡ overwritten at piece.now bytes.old.items) }
    ensures notes { OnOk result (notes.new.items ≡ notes.old.items ++ Written at piece.now ∷ []) }
    ensures err { OnErr result ((bytes.new.items ≡ bytes.old.items) × (notes.new.items ≡ notes.old.items)) }
{
    let copy = Blob::from_bytes(alloc, piece)?;
    notes.push(Note::Written { at, piece: copy })?;
    if let Err(error) = overwrite(bytes, at, piece) {
        notes.pop();
        return Err(error);
    }
    Ok(())
}

/// Leaves of a write what the first of `tears` says, all where there is none, and gives those behind it. Where the write begins past
/// the end, since an earlier one was lost, it leaves nothing.
pub(crate) fn tear_on<'t>(
    alloc: Global,
    image: &mut Vec<u8>,
    at: usize,
    piece: &[u8],
    tears: &'t [Tear],
) -> Result<&'t [Tear], AllocError>
    ensures { OnOk result (Torn at (length piece.now) image.old.items image.new.items) }
{
    let (tear, rest) = match tears {
        [] => (Tear::Front(piece.len()), tears),
        [tear, rest @ ..] => (*tear, rest),
    };
    if at <= image.len() {
        let torn = torn_piece(alloc, &image[at..], piece, tear)?;
        overwrite(image, at, &torn)?;
    }
    Ok(rest)
}
