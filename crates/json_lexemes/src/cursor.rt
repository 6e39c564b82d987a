// The bytes of a text, one after the other.
ghost use Rattle.std.specs.Prelude.{◌≡◌, ◌≤◌, ◌↔◌, ℕ, List, [], ◌∷◌, ◌++◌, length, IsNone, IfSome, IfNone, MatchOption};
ghost use Rattle.json_lexemes.specs.Piece.{piece_bytes};
ghost use Rattle.json_lexemes.specs.Unescape.{unescaped, unescaped_from};

use crate::piece::Piece;
use crate::unescape::{Pending, no_bytes, pending_after, piece_after};
use std::marker::Model;

/// The bytes of the text of a string that are still to come, one after the other. Contracts see it as the list of these
/// bytes. It takes no memory, and a whole walk takes time proportional to the text's spelling.
#[derive(Drop)]
pub struct TextBytes<'a> {
    inside: &'a [u8],
    pending: Pending,
    piece: Piece,
    given: usize,
}

impl<'a> Model for TextBytes<'a> {
    ghost use Rattle.std.specs.Prelude.{ℕ, List, ◌++◌, ◌≤◌, drop};
    ghost use Rattle.json_lexemes.specs.Piece.{piece_bytes};
    ghost use Rattle.json_lexemes.specs.Unescape.{unescaped_from};

    ghost Value = { List ℕ };

    ghost view = { λ t. drop t.given (piece_bytes t.piece) ++ unescaped_from t.pending t.inside.now };

    ghost invariant = { λ t. t.given ≤ t.piece.len };
}

impl<'a> TextBytes<'a> {
    /// The text that the inside of a string spells.
    pub fn of_inside(inside: &'a [u8]) -> Self
        ensures { result ≡ unescaped inside.now }
    {
        TextBytes {
            inside,
            pending: Pending::Between { high: 0 },
            piece: no_bytes(),
            given: 0,
        }
    }

    /// The next byte; `None` exactly where there is none.
    pub fn next(&mut self) -> Option<u8>
        ensures none { IsNone result ↔ (self.old ≡ []) }
        ensures first { IfSome result (λ byte. self.old ≡ byte ∷ self.new) }
        ensures unchanged { IfNone result (self.new ≡ self.old) }
    {
        if self.given < self.piece.len {
            let byte = self.piece.bytes[self.given];
            self.given += 1;
            return Some(byte);
        }
        match next_piece(self.inside, self.pending) {
            Some(found) => {
                self.inside = found.rest;
                self.pending = found.pending;
                self.piece = found.piece;
                self.given = 1;
                Some(found.piece.bytes[0])
            }
            None => None,
        }
    }

    /// A second walk from here.
    pub fn copy(&self) -> TextBytes<'a>
        ensures { result ≡ self.now }
    {
        TextBytes {
            inside: self.inside,
            pending: self.pending,
            piece: self.piece,
            given: self.given,
        }
    }
}

// A piece of a text that is not empty, and what follows it.
#[derive(Clone, Copy)]
struct Found<'a> {
    piece: Piece,
    pending: Pending,
    rest: &'a [u8],
}

// The next piece that is not empty.
fn next_piece<'a>(inside: &'a [u8], pending: Pending) -> Option<Found<'a>>
    ensures text { MatchOption result (unescaped_from pending inside.now ≡ []) (λ found. unescaped_from pending inside.now ≡ piece_bytes found.piece ++ unescaped_from found.pending found.rest.now) }
    ensures some { IfSome result (λ found. 1 ≤ found.piece.len) }
{
    let mut state = pending;
    for (i, byte) in inside.iter().enumerate() {
        let piece = piece_after(state, *byte);
        state = pending_after(state, *byte);
        if piece.len > 0 {
            return Some(Found {
                piece,
                pending: state,
                rest: &inside[i + 1..],
            });
        }
    }
    None
}

/// The number of bytes of the text that the inside of a string spells.
pub fn unescaped_len(inside: &[u8]) -> usize
    ensures { result ≡ length (unescaped inside.now) }
{
    let mut count = 0;
    let mut pending = Pending::Between { high: 0 };
    for byte in inside {
        let piece = piece_after(pending, *byte);
        count += piece.len;
        pending = pending_after(pending, *byte);
    }
    count
}
