// The words of JSON, byte by byte.
ghost use Rattle.std.specs.Prelude.{◌≡◌, ◌+◌, ◌*◌, ◌%◌, ◌==◌, if◌then◌else◌, drop, false};
ghost use Rattle.json_lexemes.specs.declared.lexeme.Lexeme.TheVariants.{Digits as digits, Plain as plain};
ghost use Rattle.json_lexemes.specs.Lexeme.{next, begins, ends, literal, within, least, greatest, is_hex_digit, hex_value, is_short_escape, leads, next_in_string, after_digit, after_tail, next_letter, ends_after_letters, digit_then, exponent_from, fraction_from};

use crate::hex::{hex_digit, is_high};
use crate::kind::Kind;
use byte_lanes::{BACKSLASH, FIRST_ABOVE_ASCII, FIRST_PRINTABLE, QUOTE};

/// Which bytes may come second in a character of several bytes (Unicode, table 3-7).
#[derive(Clone, Copy, Debug)]
pub enum Second {
    /// 0x80 to 0xBF.
    Any,
    /// 0xA0 to 0xBF: no overlong form of three bytes.
    FromA0,
    /// 0x80 to 0x9F: no surrogate.
    To9F,
    /// 0x90 to 0xBF: no overlong form of four bytes.
    From90,
    /// 0x80 to 0x8F: no character above U+10FFFF.
    To8F,
}

/// What has been read of a number, a string or a literal.
#[derive(Clone, Copy, Debug)]
pub enum Lexeme {
    /// The sign of a number.
    Minus,
    /// A zero in front.
    LeadingZero,
    /// Digits before the point.
    Integer,
    /// The point.
    Point,
    /// Digits after it.
    Decimals,
    /// The `e`.
    Exponent,
    /// Its sign.
    ExponentSign,
    /// Its digits.
    ExponentDigits,
    /// So many letters of a literal.
    Letters { kind: Kind, read: u8 },
    /// A string, between two characters; `high` says whether the one before is the escape of a high surrogate.
    Plain { high: bool },
    /// Within a character: this byte comes next, and then `more` others.
    Tail { second: Second, more: u8 },
    /// After a backslash.
    Escape,
    /// Within a numbered escape: `more` digits after the next one, and the number that those before it make.
    Digits { more: u8, unit: u16 },
    /// After the last quote.
    Closed,
}

// The bytes that may come second, from the least to the greatest.
fn second_range(second: Second) -> (u8, u8)
    ensures low { result.0 ≡ least second }
    ensures high { result.1 ≡ greatest second }
{
    match second {
        Second::Any => (0x80, 0xbf),
        Second::FromA0 => (0xa0, 0xbf),
        Second::To9F => (0x80, 0x9f),
        Second::From90 => (0x90, 0xbf),
        Second::To8F => (0x80, 0x8f),
    }
}

// The first byte of a character that isn't ASCII.
fn lead(byte: u8) -> Option<Lexeme>
    ensures { result ≡ leads byte }
{
    if byte < 0xc2 {
        return None;
    }
    if byte < 0xe0 {
        return Some(Lexeme::Tail {
            second: Second::Any,
            more: 0,
        });
    }
    if byte == 0xe0 {
        return Some(Lexeme::Tail {
            second: Second::FromA0,
            more: 1,
        });
    }
    if byte == 0xed {
        return Some(Lexeme::Tail {
            second: Second::To9F,
            more: 1,
        });
    }
    if byte < 0xf0 {
        return Some(Lexeme::Tail {
            second: Second::Any,
            more: 1,
        });
    }
    if byte == 0xf0 {
        return Some(Lexeme::Tail {
            second: Second::From90,
            more: 2,
        });
    }
    if byte < 0xf4 {
        return Some(Lexeme::Tail {
            second: Second::Any,
            more: 2,
        });
    }
    if byte == 0xf4 {
        return Some(Lexeme::Tail {
            second: Second::To8F,
            more: 2,
        });
    }
    None
}

fn in_string(byte: u8) -> Option<Lexeme>
    ensures { result ≡ next_in_string byte }
{
    if byte == QUOTE {
        return Some(Lexeme::Closed);
    }
    if byte == BACKSLASH {
        return Some(Lexeme::Escape);
    }
    if byte < FIRST_PRINTABLE {
        return None;
    }
    if byte < FIRST_ABOVE_ASCII {
        return Some(Lexeme::Plain { high: false });
    }
    lead(byte)
}

fn after_escape(byte: u8) -> Option<Lexeme>
    ensures { result ≡ (if byte == 117 then Some (digits 3 0) else if is_short_escape byte then Some (plain false) else None) }
{
    match byte {
        b'u' => Some(Lexeme::Digits { more: 3, unit: 0 }),
        b'"' | b'\\' | b'/' | b'b' | b'f' | b'n' | b'r' | b't' => Some(Lexeme::Plain {
            high: false,
        }),
        _ => None,
    }
}

fn after_hex(more: u8, unit: u16, byte: u8) -> Option<Lexeme>
    ensures { result ≡ (if is_hex_digit byte then Some (after_digit more ((16 * unit + hex_value byte) % 65536)) else None) }
{
    let digit = hex_digit(byte)?;
    let unit = ((16 * unit as u32 + digit as u32) % 65536) as u16;
    Some(if more == 0 {
        Lexeme::Plain {
            high: is_high(unit as u32),
        }
    } else {
        Lexeme::Digits {
            more: more - 1,
            unit,
        }
    })
}

fn after_tail_byte(second: Second, more: u8, byte: u8) -> Option<Lexeme>
    ensures { result ≡ (if within (least second) (greatest second) byte then Some (after_tail more) else None) }
{
    let (low, high) = second_range(second);
    if byte < low || byte > high {
        return None;
    }
    Some(if more == 0 {
        Lexeme::Plain { high: false }
    } else {
        Lexeme::Tail {
            second: Second::Any,
            more: more - 1,
        }
    })
}

/// The letters of a literal.
fn letters_of(kind: Kind) -> &'static [u8]
    ensures { result.now ≡ literal kind }
{
    match kind {
        Kind::Null => b"null",
        Kind::Flag { on: true } => b"true",
        Kind::Flag { on: false } => b"false",
        Kind::Number | Kind::Text | Kind::List | Kind::Map => b"",
    }
}

fn after_letter(kind: Kind, read: u8, byte: u8) -> Option<Lexeme>
    ensures { result ≡ next_letter kind read (drop read (literal kind)) byte }
{
    let letters = letters_of(kind);
    if (read as usize) < letters.len() && letters[read as usize] == byte {
        Some(Lexeme::Letters {
            kind,
            read: read + 1,
        })
    } else {
        None
    }
}

fn digit_to(word: Lexeme, byte: u8) -> Option<Lexeme>
    ensures { result ≡ digit_then word byte }
{
    if byte.is_ascii_digit() {
        Some(word)
    } else {
        None
    }
}

fn to_exponent(byte: u8) -> Option<Lexeme>
    ensures { result ≡ exponent_from byte }
{
    if byte == b'e' || byte == b'E' {
        Some(Lexeme::Exponent)
    } else {
        None
    }
}

fn to_fraction(byte: u8) -> Option<Lexeme>
    ensures { result ≡ fraction_from byte }
{
    if byte == b'.' {
        Some(Lexeme::Point)
    } else {
        to_exponent(byte)
    }
}

/// What has been read once `byte` has come; `None` where it can't come.
#[inline]
#[tactic(auto, unfolding(crate::specs::Lexeme::next))]
pub(crate) fn next_word(word: Lexeme, byte: u8) -> Option<Lexeme>
    ensures { result ≡ next word byte }
{
    match word {
        Lexeme::Minus if byte == b'0' => Some(Lexeme::LeadingZero),
        Lexeme::Minus => digit_to(Lexeme::Integer, byte),
        Lexeme::LeadingZero => to_fraction(byte),
        Lexeme::Integer if byte.is_ascii_digit() => Some(Lexeme::Integer),
        Lexeme::Integer => to_fraction(byte),
        Lexeme::Point => digit_to(Lexeme::Decimals, byte),
        Lexeme::Decimals if byte.is_ascii_digit() => Some(Lexeme::Decimals),
        Lexeme::Decimals => to_exponent(byte),
        Lexeme::Exponent if byte == b'+' || byte == b'-' => Some(Lexeme::ExponentSign),
        Lexeme::Exponent | Lexeme::ExponentSign | Lexeme::ExponentDigits => {
            digit_to(Lexeme::ExponentDigits, byte)
        }
        Lexeme::Letters { kind, read } => after_letter(kind, read, byte),
        Lexeme::Plain { high: _ } => in_string(byte),
        Lexeme::Tail { second, more } => after_tail_byte(second, more, byte),
        Lexeme::Escape => after_escape(byte),
        Lexeme::Digits { more, unit } => after_hex(more, unit, byte),
        Lexeme::Closed => None,
    }
}

/// What the first byte of a word begins.
#[inline]
#[tactic(auto, unfolding(crate::specs::Lexeme::begins))]
pub fn first_word(byte: u8) -> Option<Lexeme>
    ensures { result ≡ begins byte }
{
    match byte {
        QUOTE => Some(Lexeme::Plain { high: false }),
        b'-' => Some(Lexeme::Minus),
        b'0' => Some(Lexeme::LeadingZero),
        b'1'..=b'9' => Some(Lexeme::Integer),
        b't' => Some(Lexeme::Letters {
            kind: Kind::Flag { on: true },
            read: 1,
        }),
        b'f' => Some(Lexeme::Letters {
            kind: Kind::Flag { on: false },
            read: 1,
        }),
        b'n' => Some(Lexeme::Letters {
            kind: Kind::Null,
            read: 1,
        }),
        _ => None,
    }
}

fn letters_meaning(kind: Kind, read: u8) -> Option<Kind>
    ensures { result ≡ ends_after_letters kind (drop read (literal kind)) }
{
    if (read as usize) < letters_of(kind).len() {
        None
    } else {
        Some(kind)
    }
}

/// What a word means that may end here.
#[inline]
#[tactic(auto, unfolding(crate::specs::Lexeme::ends))]
pub(crate) fn meaning(word: Lexeme) -> Option<Kind>
    ensures { result ≡ ends word }
{
    match word {
        Lexeme::LeadingZero | Lexeme::Integer | Lexeme::Decimals | Lexeme::ExponentDigits => {
            Some(Kind::Number)
        }
        Lexeme::Letters { kind, read } => letters_meaning(kind, read),
        Lexeme::Closed => Some(Kind::Text),
        _ => None,
    }
}
