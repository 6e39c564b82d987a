// Searches over bytes, compared with plain loops.

use byte_lanes::{escaped_len, first_above, first_special};
use case_text::{Lines, long_number_in};

/// The longest text of the table: three blocks of 32 and one byte.
const LONGEST: usize = 97;

fn add_place(place: Option<usize>, lines: &mut Lines) {
    match place {
        Some(place) => lines.add_number("", place as u64),
        None => lines.add("none"),
    }
}

/// The first special byte from a place on.
pub(crate) fn add_special(given: &[u8], from: &[u8], lines: &mut Lines) {
    let from = long_number_in(from) as usize;
    add_place(first_special(given, from.min(given.len())), lines);
}

/// The first byte above ASCII from a place on.
pub(crate) fn add_above(given: &[u8], from: &[u8], lines: &mut Lines) {
    let from = long_number_in(from) as usize;
    add_place(first_above(given, from.min(given.len())), lines);
}

/// How many bytes a text takes inside a JSON string.
pub(crate) fn add_escaped(given: &[u8], lines: &mut Lines) {
    lines.add_number("", u64::try_from(escaped_len(given)).unwrap_or(0));
}

fn is_special(byte: u8) -> bool {
    byte < 0x20 || byte == b'"' || byte == b'\\'
}

fn is_above(byte: u8) -> bool {
    byte >= 0x80
}

// By a plain loop: the first place from `from` on of a byte that is special, or else above ASCII.
fn plain_place(bytes: &[u8], from: usize, special: bool) -> Option<usize> {
    for place in from..bytes.len() {
        let byte = bytes[place];
        if (special && is_special(byte)) || (!special && is_above(byte)) {
            return Some(place);
        }
    }
    None
}

fn plain_byte_len(byte: u8) -> u64 {
    match byte {
        b'"' | b'\\' | 0x08 | b'\t' | b'\n' | 0x0c | b'\r' => 2,
        0..=0x1f => 6,
        _ => 1,
    }
}

// By a plain loop: how many bytes a text takes inside a JSON string.
fn plain_len(bytes: &[u8]) -> u64 {
    let mut len = 0u64;
    for byte in bytes {
        len = len.saturating_add(plain_byte_len(*byte));
    }
    len
}

// Whether each search of these bytes finds what a plain loop finds.
fn are_found(bytes: &[u8]) -> bool {
    for from in 0..=bytes.len() {
        if first_special(bytes, from) != plain_place(bytes, from, true)
            || first_above(bytes, from) != plain_place(bytes, from, false)
        {
            return false;
        }
    }
    escaped_len(bytes) == u128::from(plain_len(bytes))
}

// The same for a text of so many letters, with this byte in place of each in turn, and without it.
fn are_found_with(len: usize, byte: u8) -> bool {
    let len = len.min(LONGEST);
    let mut letters = [b'a'; LONGEST];
    for place in 0..len {
        letters[place] = byte;
        if !are_found(&letters[..len]) {
            return false;
        }
        letters[place] = b'a';
    }
    are_found(&letters[..len])
}

/// The lengths up to 97 at which not all searches of texts with this byte at one place find what plain loops find.
pub(crate) fn add_lanes(given: &[u8], lines: &mut Lines) {
    let byte = (long_number_in(given) % 256) as u8;
    lines.add("differ:");
    for len in 0..=LONGEST {
        if !are_found_with(len, byte) {
            lines.add_number(" ", len as u64);
        }
    }
}

/// The bytes with which not all searches of a text of 33 letters find what plain loops find, whichever letter they stand for.
pub(crate) fn add_each_byte(lines: &mut Lines) {
    lines.add("differ:");
    for byte in 0..=255u8 {
        if !are_found_with(33, byte) {
            lines.add_number(" ", u64::from(byte));
        }
    }
}
