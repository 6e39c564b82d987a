// Plain scalars, and what ends a name.
ghost use Rattle.std.specs.Prelude.{◌≡◌, ◌≤◌, ◌<◌, ◌&&◌, ◌||◌, ◌==◌, not, false, length, take, Some, None, option_map, IfSome};
ghost use Rattle.yaml_lines.specs.Plain.{trimmed, before_comment, comment_found, comment_place, ends_name, colon_found, colon_place, is_indicator, begins_plain, may_begin_plain, has_colon_space, is_left_out, is_null};

use crate::blank::{HASH, SPACE, begins, is_white_byte};
use crate::found::{Found, place_told};

/// Without the spaces and tabs at its end.
pub(crate) fn trim(bytes: &[u8]) -> &[u8]
    ensures { result.now ≡ trimmed bytes.now }
{
    let mut left = bytes;
    while let Some((last, front)) = left.split_last() {
        if !is_white_byte(*last) {
            return left;
        }
        left = front;
    }
    left
}

fn look_for_comment(after_space: bool, byte: u8) -> Found
    ensures { result ≡ comment_found after_space byte }
{
    if after_space && byte == HASH {
        Found::Here
    } else {
        Found::Later
    }
}

/// What stands before a comment.
pub(crate) fn without_comment(bytes: &[u8]) -> &[u8]
    ensures { result.now ≡ before_comment bytes.now }
{
    let mut after_space = false;
    let mut at = 0;
    let mut left = bytes;
    while let Some((byte, others)) = left.split_first() {
        match look_for_comment(after_space, *byte) {
            Found::Later => {
                after_space = *byte == SPACE;
                at += 1;
                left = others;
            }
            _ => return &bytes[..at],
        }
    }
    bytes
}

fn look_for_colon(after_space: bool, byte: u8, others: &[u8]) -> Found
    ensures { result ≡ colon_found after_space byte others.now }
{
    if byte == b':' && (others.is_empty() || begins(others, SPACE)) {
        Found::Here
    } else if after_space && byte == HASH {
        Found::Nowhere
    } else {
        Found::Later
    }
}

/// The place of the colon that ends a name.
pub(crate) fn name_colon(bytes: &[u8]) -> Option<usize>
    ensures exact { result ≡ colon_place false bytes.now }
    ensures inside { IfSome result (λ place. place < length bytes.now) }
{
    let mut after_space = false;
    let mut at = 0;
    let mut left = bytes;
    while let Some((byte, others)) = left.split_first() {
        match look_for_colon(after_space, *byte, others) {
            Found::Later => {
                after_space = *byte == SPACE;
                at += 1;
                left = others;
            }
            found => return place_told(found, at),
        }
    }
    None
}

fn is_indicator_byte(byte: u8) -> bool
    ensures { result ≡ is_indicator byte }
{
    matches!(
        byte,
        b'-' | b'?'
            | b':'
            | b','
            | b'['
            | b']'
            | b'{'
            | b'}'
            | b'#'
            | b'&'
            | b'*'
            | b'!'
            | b'|'
            | b'>'
            | b'\''
            | b'"'
            | b'%'
            | b'@'
            | b'`'
    )
}

/// Whether the text begins as a plain scalar may.
pub(crate) fn may_be_plain(text: &[u8]) -> bool
    ensures { result ≡ begins_plain text.now }
{
    match text.split_first() {
        Some((byte, others)) => { !is_indicator_byte(*byte) || is_led_by(*byte, others) }
        None => false,
    }
}

fn is_led_by(byte: u8, others: &[u8]) -> bool
    ensures { result ≡ may_begin_plain byte others.now }
{
    match others.split_first() {
        Some((next, _)) => (byte == b'-' || byte == b'?' || byte == b':') && !is_white_byte(*next),
        None => false,
    }
}

/// Whether a colon and a space stand in the text.
pub(crate) fn holds_colon_space(text: &[u8]) -> bool
    ensures { result ≡ has_colon_space text.now }
{
    match name_colon(text) {
        Some(place) => place + 1 < text.len(),
        None => false,
    }
}

/// Whether what is left out begins here.
pub(crate) fn begins_left_out(text: &[u8]) -> bool
    ensures { result ≡ is_left_out text.now }
{
    match text.split_first() {
        Some((byte, others)) => match *byte {
            b'&' | b'*' | b'!' | b'%' | b'>' => true,
            b'?' => begins(others, SPACE),
            b'{' => !begins(others, b'}'),
            _ => false,
        },
        None => false,
    }
}

/// Whether a plain scalar stands for nothing.
pub(crate) fn is_null_text(text: &[u8]) -> bool
    ensures { result ≡ is_null text.now }
{
    text == b"~".as_slice() || text == b"null".as_slice()
}
