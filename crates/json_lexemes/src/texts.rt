// The texts that strings spell: compared, and told byte by byte.
ghost use Rattle.std.specs.Prelude.{◌≡◌, ◌≤◌, ◌<◌, ◌↔◌, ◌++◌, ℕ, List, length, IsTrue, MatchOption, slice_get};
ghost use Rattle.json_lexemes.specs.Piece.{piece_bytes};
ghost use Rattle.json_lexemes.specs.Unescape.{unescaped};

use crate::piece::Piece;
use crate::unescape::{Pending, pending_after, piece_after};
use byte_lanes::first_special;

/// Whether the inside of a string spells this text.
#[tactic(auto, using(crate::proofs::TextLengths::too_long))]
pub fn spells(inside: &[u8], text: &[u8]) -> bool
    ensures { IsTrue result ↔ (unescaped inside.now ≡ text.now) }
{
    // A text is no longer than what spells it.
    if inside.len() < text.len() {
        return false;
    }
    if stands_for_itself(inside) {
        inside == text
    } else {
        spells_in_steps(inside, text)
    }
}

// Whether no escape stands inside a string.
#[tactic(auto, using(crate::proofs::CopiedRuns::all_stand))]
fn stands_for_itself(inside: &[u8]) -> bool
    ensures { IsTrue result → unescaped inside.now ≡ inside.now }
{
    first_special(inside, 0).is_none()
}

// The same as `spells`, byte by byte.
fn spells_in_steps(inside: &[u8], text: &[u8]) -> bool
    ensures { IsTrue result ↔ (unescaped inside.now ≡ text.now) }
{
    let mut pending = Pending::Between { high: 0 };
    let mut rest = text;
    for byte in inside {
        match behind(rest, piece_after(pending, *byte)) {
            Some(others) => rest = others,
            None => return false,
        }
        pending = pending_after(pending, *byte);
    }
    rest.is_empty()
}

// What follows the piece in a text that begins with it.
fn behind(text: &[u8], piece: Piece) -> Option<&[u8]>
    ensures { MatchOption result ((others : List ℕ) → text.now ≡ piece_bytes piece ++ others → ⊥) (λ others. text.now ≡ piece_bytes piece ++ others.now) }
{
    if text.len() < piece.len {
        return None;
    }
    let (front, others) = text.split_at(piece.len);
    if front == &piece.bytes[..piece.len] {
        Some(others)
    } else {
        None
    }
}

/// The byte of this number of the text that the inside of a string spells, if it has one.
pub fn byte_of(inside: &[u8], number: usize) -> Option<u8>
    ensures { result ≡ slice_get (unescaped inside.now) number }
{
    let mut pending = Pending::Between { high: 0 };
    let mut left = number;
    for byte in inside {
        let piece = piece_after(pending, *byte);
        if left < piece.len {
            return Some(piece.bytes[left]);
        }
        left -= piece.len;
        pending = pending_after(pending, *byte);
    }
    None
}
