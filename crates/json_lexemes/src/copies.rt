// Copies of the texts that strings spell, run by run.
ghost use Rattle.std.specs.Prelude.{◌≡◌, ◌≤◌, ◌<◌, ◌-◌, ◌++◌, length, take, drop, max, ◌+◌, IfOk, OnOk, OnErr};
ghost use Rattle.json_lexemes.specs.declared.unescape.Pending.{Pending};
ghost use Rattle.json_lexemes.specs.Piece.{piece_bytes};
ghost use Rattle.json_lexemes.specs.Unescape.{unescaped, unescaped_from};

use crate::piece::Piece;
use crate::unescape::{Pending, pending_after, piece_after};
use byte_lanes::first_special;
use side_base::{Blob, NoMemory};

/// Appends the text that the inside of a string spells; without memory `out` stays as it was.
pub fn push_unescaped(out: &mut Blob, inside: &[u8]) -> Result<(), NoMemory>
    ensures ok { OnOk result (out.new ≡ out.old ++ unescaped inside.now) }
    ensures err { OnErr result (out.new ≡ out.old) }
{
    let before = out.len();
    match push_pieces(out, inside) {
        Ok(()) => Ok(()),
        Err(error) => {
            out.truncate(before);
            Err(error)
        }
    }
}

// The same; an error leaves part of it.
fn push_pieces(out: &mut Blob, inside: &[u8]) -> Result<(), NoMemory>
    ensures ok { OnOk result (out.new ≡ out.old ++ unescaped inside.now) }
    ensures err { OnErr result (take (length out.old) out.new ≡ out.old) }
{
    match out.reserve(inside.len()) {
        Ok(()) => {}
        Err(error) => return Err(error),
    }
    let mut pending = Pending::Between { high: 0 };
    let mut at = 0;
    while at < inside.len() {
        let end = run_end(inside, at, pending);
        match push_step(out, inside, at, end, pending) {
            Ok(after) => {
                pending = after;
                at = end.max(at + 1);
            }
            Err(error) => return Err(error),
        }
    }
    Ok(())
}

// The end of the bytes from place `at` on that stand for themselves; `at` itself where an escape is open.
fn run_end(inside: &[u8], at: usize, pending: Pending) -> usize
    requires { at < length inside.now }
    ensures low { at ≤ result }
    ensures high { result ≤ length inside.now }
    ensures run { at < result → unescaped_from pending (drop at inside.now) ≡ take (result - at) (drop at inside.now) ++ unescaped_from (Pending.Between 0) (drop result inside.now) }
{
    match pending {
        Pending::Between { high: _ } => match first_special(inside, at) {
            Some(place) => place,
            None => inside.len(),
        },
        _ => at,
    }
}

// The run up to place `end`, or the one byte at place `at`.
fn push_step(
    out: &mut Blob,
    inside: &[u8],
    at: usize,
    end: usize,
    pending: Pending,
) -> Result<Pending, NoMemory>
    requires inside { at < length inside.now }
    requires low { at ≤ end }
    requires high { end ≤ length inside.now }
    requires run { at < end → unescaped_from pending (drop at inside.now) ≡ take (end - at) (drop at inside.now) ++ unescaped_from (Pending.Between 0) (drop end inside.now) }
    ensures ok { IfOk result (λ after. out.new ++ unescaped_from after (drop (max end (at + 1)) inside.now) ≡ out.old ++ unescaped_from pending (drop at inside.now)) }
    ensures kept { take (length out.old) out.new ≡ out.old }
{
    if at < end {
        match out.push(&inside[at..end]) {
            Ok(()) => Ok(Pending::Between { high: 0 }),
            Err(error) => Err(error),
        }
    } else {
        let piece = piece_after(pending, inside[at]);
        match push_piece(out, piece) {
            Ok(()) => Ok(pending_after(pending, inside[at])),
            Err(error) => Err(error),
        }
    }
}

fn push_piece(out: &mut Blob, piece: Piece) -> Result<(), NoMemory>
    ensures ok { OnOk result (out.new ≡ out.old ++ piece_bytes piece) }
    ensures err { OnErr result (out.new ≡ out.old) }
{
    out.push(&piece.bytes[..piece.len])
}
