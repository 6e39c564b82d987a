// The text that the inside of a string spells, byte by byte.
ghost use Rattle.std.specs.Prelude.{◌≡◌, ◌≤◌, [], ◌∷◌, length};
ghost use Rattle.json_lexemes.specs.Piece.{piece_bytes};
ghost use Rattle.json_lexemes.specs.Unescape.{after_byte, completed, short_value, character, character_bytes, unit_with, after_unit, unit_bytes};

use crate::hex::{FIRST_HIGH, FIRST_LOW, is_high, is_low, value_of};
use crate::piece::Piece;
use byte_lanes::BACKSLASH;

/// What is open within a string: `high` is a high surrogate that waits for its other half, or 0.
#[derive(Clone, Copy, Debug)]
pub enum Pending {
    /// Between two characters or escapes.
    Between { high: u16 },
    /// After a backslash.
    Backslash { high: u16 },
    /// Within a numbered escape: `more` digits after the next one, and the number that those before it make.
    Digits { high: u16, more: u8, unit: u16 },
}

/// No bytes of a text.
pub(crate) fn no_bytes() -> Piece
    ensures { piece_bytes result ≡ [] }
{
    Piece {
        bytes: [0; 4],
        len: 0,
    }
}

fn one_byte(byte: u8) -> Piece
    ensures { piece_bytes result ≡ byte ∷ [] }
{
    Piece {
        bytes: [byte, 0, 0, 0],
        len: 1,
    }
}

fn unit_of(unit: u16, byte: u8) -> u16
    ensures { result ≡ unit_with unit byte }
{
    ((16 * unit as u32 + value_of(byte)) % 65536) as u16
}

fn short_byte(byte: u8) -> u8
    ensures { result ≡ short_value byte }
{
    match byte {
        b'b' => 0x08,
        b'f' => 0x0c,
        b'n' => b'\n',
        b'r' => b'\r',
        b't' => b'\t',
        _ => byte,
    }
}

/// What is open after a byte.
#[inline]
pub(crate) fn pending_after(pending: Pending, byte: u8) -> Pending
    ensures { result ≡ after_byte pending byte }
{
    match pending {
        Pending::Between { high } => {
            if byte == BACKSLASH {
                Pending::Backslash { high }
            } else {
                Pending::Between { high: 0 }
            }
        }
        Pending::Backslash { high } => {
            if byte == b'u' {
                Pending::Digits {
                    high,
                    more: 3,
                    unit: 0,
                }
            } else {
                Pending::Between { high: 0 }
            }
        }
        Pending::Digits { high, more, unit } => {
            let unit = unit_of(unit, byte);
            if more > 0 {
                Pending::Digits {
                    high,
                    more: more - 1,
                    unit,
                }
            } else if is_high(unit as u32) {
                Pending::Between { high: unit }
            } else {
                Pending::Between { high: 0 }
            }
        }
    }
}

// The character that a unit makes with the high surrogate before it, or else alone.
fn character_of(high: u16, unit: u16) -> u32
    ensures { result ≡ character high unit }
{
    if is_low(unit as u32) && high > 0 {
        0x10000 + (high as u32).saturating_sub(FIRST_HIGH) * 1024 + (unit as u32 - FIRST_LOW)
    } else {
        unit as u32
    }
}

fn piece_from(bytes: &[u8]) -> Piece
    requires { length bytes.now ≤ 4 }
    ensures { piece_bytes result ≡ bytes.now }
{
    let mut all = [0; 4];
    all[..bytes.len()].copy_from_slice(bytes);
    Piece {
        bytes: all,
        len: bytes.len(),
    }
}

fn piece_of(code: u32) -> Piece
    ensures { piece_bytes result ≡ character_bytes code }
{
    match char::from_u32(code) {
        Some(c) => {
            let mut buffer = [0; 4];
            piece_from(c.encode_utf8(&mut buffer).as_bytes())
        }
        None => no_bytes(),
    }
}

/// The bytes of the text that a byte completes.
#[inline]
pub(crate) fn piece_after(pending: Pending, byte: u8) -> Piece
    ensures { piece_bytes result ≡ completed pending byte }
{
    match pending {
        Pending::Between { high: _ } => {
            if byte == BACKSLASH {
                no_bytes()
            } else {
                one_byte(byte)
            }
        }
        Pending::Backslash { high: _ } => {
            if byte == b'u' {
                no_bytes()
            } else {
                one_byte(short_byte(byte))
            }
        }
        Pending::Digits { high, more, unit } => {
            let unit = unit_of(unit, byte);
            if more > 0 || is_high(unit as u32) {
                no_bytes()
            } else {
                piece_of(character_of(high, unit))
            }
        }
    }
}
