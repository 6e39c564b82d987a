// Scalars in quotes.
ghost use Rattle.std.specs.Prelude.{◌≡◌, ◌≤◌, ◌<◌, [], ◌∷◌, ◌++◌, false, length, Some, None, option_map, if◌then◌else◌, IfSome, IfOk, OnOk};
ghost use Rattle.yaml_lines.specs.Found.{shifted};
ghost use Rattle.yaml_lines.specs.Quoted.{quote_of, pairs, quote_found, paired_after, len_at_end, quoted_len, single_piece, single_text, is_hex_digit, hex_value, step_with, escape_step, last_digit, step, FitsEscape, short_escape, character_bytes, double_text, text_within};
ghost use Rattle.yaml_lines.specs.Piece.{piece_bytes, step_shown};

use crate::found::{Found, place_told};
use crate::piece::Piece;
use std::alloc::{AllocError, Global};

/// Where a text within double quotes stands: between two characters, after a backslash, or within `\uXXXX`, with so many
/// digits after the next one and the number that those before it make.
#[derive(Clone, Copy, Debug)]
pub enum Escape {
    Between,
    Backslash,
    Digits { others: u8, unit: u32 },
}

fn pairing_byte(double: bool) -> u8
    ensures { result ≡ pairs double }
{
    if double { b'\\' } else { b'\'' }
}

fn look_for_quote(double: bool, paired: bool, byte: u8) -> Found
    ensures { result ≡ quote_found double paired byte }
{
    if paired && !double && byte != b'\'' {
        Found::Here
    } else if double && !paired && byte == b'"' {
        Found::Past
    } else {
        Found::Later
    }
}

fn is_paired_after(double: bool, paired: bool, byte: u8) -> bool
    ensures { result ≡ paired_after double paired byte }
{
    !paired && byte == pairing_byte(double)
}

fn length_at_end(double: bool, paired: bool, count: usize) -> Option<usize>
    ensures { result ≡ shifted count (len_at_end double paired) }
{
    if paired && !double { Some(count) } else { None }
}

/// How many bytes stand behind an opening quote, up to the closing one and with it.
pub(crate) fn quoted_length(double: bool, bytes: &[u8]) -> Option<usize>
    ensures exact { result ≡ quoted_len double false bytes.now }
    ensures inside { IfSome result (λ count. count ≤ length bytes.now) }
{
    let mut paired = false;
    let mut count = 0;
    let mut left = bytes;
    while let Some((byte, others)) = left.split_first() {
        match look_for_quote(double, paired, *byte) {
            Found::Later => {
                paired = is_paired_after(double, paired, *byte);
                count += 1;
                left = others;
            }
            found => return place_told(found, count),
        }
    }
    length_at_end(double, paired, count)
}

// Appends a byte within single quotes, unless it is the second one of a pair.
fn push_single(text: &mut Vec<u8>, paired: bool, byte: u8) -> Result<(), AllocError>
    ensures { OnOk result (text.new.items ≡ text.old.items ++ single_piece paired byte) }
{
    if !(paired && byte == b'\'') {
        text.push(byte)?;
    }
    Ok(())
}

fn single_unquoted(alloc: Global, bytes: &[u8]) -> Result<Vec<u8>, AllocError>
    ensures { IfOk result (λ text. text.items ≡ single_text false bytes.now) }
{
    let mut text = Vec::with_capacity(alloc, bytes.len())?;
    let mut paired = false;
    for byte in bytes {
        push_single(&mut text, paired, *byte)?;
        paired = is_paired_after(false, paired, *byte);
    }
    Ok(text)
}

fn no_bytes() -> Piece
    ensures { piece_bytes result ≡ [] }
{
    Piece {
        bytes: [0; 4],
        len: 0,
    }
}

fn one_byte(byte: u8) -> Piece
    ensures { piece_bytes result ≡ byte ∷ [] }
{
    Piece {
        bytes: [byte, 0, 0, 0],
        len: 1,
    }
}

fn piece_from(bytes: &[u8]) -> Piece
    requires { length bytes.now ≤ 4 }
    ensures { piece_bytes result ≡ bytes.now }
{
    let mut all = [0; 4];
    all[..bytes.len()].copy_from_slice(bytes);
    Piece {
        bytes: all,
        len: bytes.len(),
    }
}

/// What a byte leads to, and the bytes that it completes.
#[derive(Clone, Copy)]
struct Stepped {
    after: Escape,
    piece: Piece,
}

fn stepped_to(after: Escape, piece: Piece) -> Option<Stepped>
    ensures { option_map step_shown result ≡ Some (step_with after (piece_bytes piece)) }
{
    Some(Stepped { after, piece })
}

fn hex_digit(byte: u8) -> Option<u32>
    ensures bound { IfSome result (λ digit. digit < 16) }
    ensures exact { result ≡ (if is_hex_digit byte then Some (hex_value byte) else None) }
{
    match byte {
        b'0'..=b'9' => Some((byte - b'0') as u32),
        b'A'..=b'F' => Some((byte - b'A' + 10) as u32),
        b'a'..=b'f' => Some((byte - b'a' + 10) as u32),
        _ => None,
    }
}

fn step_short(byte: u8) -> Option<Stepped>
    ensures { option_map step_shown result ≡ escape_step byte }
{
    match byte {
        b'u' => stepped_to(Escape::Digits { others: 3, unit: 0 }, no_bytes()),
        b'\\' | b'"' | b'/' => stepped_to(Escape::Between, one_byte(byte)),
        b'n' => stepped_to(Escape::Between, one_byte(b'\n')),
        b't' => stepped_to(Escape::Between, one_byte(b'\t')),
        _ => None,
    }
}

fn step_last(unit: u32) -> Option<Stepped>
    requires { unit < 65536 }
    ensures { option_map step_shown result ≡ last_digit unit }
{
    match char::from_u32(unit) {
        Some(c) => {
            let mut buffer = [0; 4];
            stepped_to(
                Escape::Between,
                piece_from(c.encode_utf8(&mut buffer).as_bytes()),
            )
        }
        None => None,
    }
}

// One byte within double quotes.
fn step_double(escape: Escape, byte: u8) -> Option<Stepped>
    requires { FitsEscape escape }
    ensures exact { option_map step_shown result ≡ step escape byte }
    ensures fits { IfSome result (λ s. FitsEscape s.after) }
{
    match escape {
        Escape::Between => {
            if byte == b'\\' {
                stepped_to(Escape::Backslash, no_bytes())
            } else {
                stepped_to(Escape::Between, one_byte(byte))
            }
        }
        Escape::Backslash => step_short(byte),
        Escape::Digits { others, unit } => match hex_digit(byte) {
            Some(digit) => {
                let unit = 16 * unit + digit;
                if others == 0 {
                    step_last(unit)
                } else {
                    stepped_to(
                        Escape::Digits {
                            others: others - 1,
                            unit,
                        },
                        no_bytes(),
                    )
                }
            }
            None => None,
        },
    }
}

// The text that the bytes within double quotes spell; `None` where an escape is wrong.
fn double_unquoted(alloc: Global, bytes: &[u8]) -> Result<Option<Vec<u8>>, AllocError>
    ensures { IfOk result (λ text. option_map (λ t. t.items) text ≡ double_text Escape.Between bytes.now) }
{
    let mut text = Vec::with_capacity(alloc, bytes.len())?;
    let mut escape = Escape::Between;
    for byte in bytes {
        match step_double(escape, *byte) {
            Some(step) => {
                text.extend_from_slice(&step.piece.bytes[..step.piece.len])?;
                escape = step.after;
            }
            None => return Ok(None),
        }
    }
    match escape {
        Escape::Between => Ok(Some(text)),
        _ => Ok(None),
    }
}

/// The text that the bytes within quotes spell; `None` where an escape is wrong.
pub(crate) fn unquoted(
    alloc: Global,
    double: bool,
    inside: &[u8],
) -> Result<Option<Vec<u8>>, AllocError>
    ensures { IfOk result (λ text. option_map (λ t. t.items) text ≡ text_within double inside.now) }
{
    if double {
        double_unquoted(alloc, inside)
    } else {
        Ok(Some(single_unquoted(alloc, inside)?))
    }
}
