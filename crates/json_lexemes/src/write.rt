ghost use Rattle.std.specs.Prelude.{◌≡◌, ◌++◌, length, take, OnOk, OnErr};
ghost use Rattle.byte_lanes.specs.Spelling.{spelled, spelled_byte, short_letter};
ghost use Rattle.json_lexemes.specs.Spelling.{string_of};

use crate::hex::digit_of;
use byte_lanes::{BACKSLASH, FIRST_PRINTABLE, QUOTE, escaped_len, first_special};
use side_base::{Blob, NoMemory, Text};
use std::alloc::AllocError;

/// Appends the text as a JSON string (RFC 8259, section 7), with its two quotes: the short escapes where there is one,
/// other controls by their number, and all else as it is. Without memory `out` stays as it was.
pub fn push_string(out: &mut Blob, text: &Text) -> Result<(), NoMemory>
    ensures ok { OnOk result (out.new ≡ out.old ++ string_of text.now) }
    ensures err { OnErr result (out.new ≡ out.old) }
{
    push_string_of(out, text.as_str())
}

/// Appends the text as `push_string` does.
pub fn push_string_of(out: &mut Blob, text: &str) -> Result<(), NoMemory>
    ensures ok { OnOk result (out.new ≡ out.old ++ string_of text.now) }
    ensures err { OnErr result (out.new ≡ out.old) }
{
    let bytes = text.as_bytes();
    let inside = match usize::try_from(escaped_len(bytes)) {
        Ok(inside) => inside,
        Err(_) => return Err(AllocError),
    };
    let len = match inside.checked_add(2) {
        Some(len) => len,
        None => return Err(AllocError),
    };
    out.reserve(len)?;
    let before = out.len();
    match push_quoted(out, bytes) {
        Ok(()) => Ok(()),
        Err(error) => {
            out.truncate(before);
            Err(error)
        }
    }
}

// The same without memory reserved; an error leaves part of it.
fn push_quoted(out: &mut Blob, bytes: &[u8]) -> Result<(), NoMemory>
    ensures ok { OnOk result (out.new ≡ out.old ++ string_of bytes.now) }
    ensures err { OnErr result (take (length out.old) out.new ≡ out.old) }
{
    out.push_byte(QUOTE)?;
    push_inside(out, bytes)?;
    out.push_byte(QUOTE)
}

fn push_inside(out: &mut Blob, bytes: &[u8]) -> Result<(), NoMemory>
    ensures ok { OnOk result (out.new ≡ out.old ++ spelled bytes.now) }
    ensures err { OnErr result (take (length out.old) out.new ≡ out.old) }
{
    let mut at = 0;
    loop {
        match first_special(bytes, at) {
            Some(place) => {
                match push_plain_and_escape(out, &bytes[at..place], bytes[place]) {
                    Ok(()) => at = place + 1,
                    Err(error) => return Err(error),
                }
            }
            None => return out.push(&bytes[at..]),
        }
    }
}

fn push_plain_and_escape(out: &mut Blob, plain: &[u8], special: u8) -> Result<(), NoMemory>
    ensures ok { OnOk result (out.new ≡ out.old ++ plain.now ++ spelled_byte special) }
    ensures err { OnErr result (take (length out.old) out.new ≡ out.old) }
{
    out.push(plain)?;
    push_escape(out, special)
}

// A byte that can't stand for itself.
#[tactic(auto, unfolding(byte_lanes::specs::Spelling::spelled_byte))]
fn push_escape(out: &mut Blob, byte: u8) -> Result<(), NoMemory>
    ensures ok { OnOk result (out.new ≡ out.old ++ spelled_byte byte) }
    ensures err { OnErr result (take (length out.old) out.new ≡ out.old) }
{
    if byte == QUOTE {
        return out.push(b"\\\"");
    }
    if byte == BACKSLASH {
        return out.push(b"\\\\");
    }
    if byte >= FIRST_PRINTABLE {
        return out.push(&[byte]);
    }
    let letter = letter_of(byte);
    if letter == 0 {
        return out.push(&[
            BACKSLASH,
            b'u',
            b'0',
            b'0',
            digit_of(byte / 16),
            digit_of(byte % 16),
        ]);
    }
    out.push(&[BACKSLASH, letter])
}

fn letter_of(byte: u8) -> u8
    ensures { result ≡ short_letter byte }
{
    match byte {
        0x08 => b'b',
        b'\t' => b't',
        b'\n' => b'n',
        0x0c => b'f',
        b'\r' => b'r',
        _ => 0,
    }
}
